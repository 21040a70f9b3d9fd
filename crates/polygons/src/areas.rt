// The polygons of areas, as they are written.
ghost use Rattle.std.specs.Prelude.{◌≡◌, IfOk, length, map};
ghost use Rattle.polygons.specs.Outlines.{outlines};
ghost use Rattle.polygons.specs.Text.{object_view, with_lines};

use super::kinds::Polygon;
use plane::Placed;
use ports::{Memory, Name};
use std::alloc::Global;

/// The polygon of an object, with the object's line of the transfer.
#[derive(Drop)]
pub struct ObjectPolygon {
    pub line: u32,
    pub polygon: Polygon,
}

/// The polygons of an area's objects in order, or that the area is skipped.
#[derive(Drop)]
pub enum AreaObjects {
    Polygons(Vec<ObjectPolygon>),
    Skipped,
}

/// An area by its names, with its polygons.
#[derive(Drop)]
pub struct AreaPolygons {
    pub topic: Name,
    pub table: Name,
    pub attribute: Name,
    pub objects: AreaObjects,
}

/// The polygons of objects, in order, each with the line of the object's point.
pub fn with_lines(
    alloc: Global,
    points: &[Placed],
    polygons: Vec<Polygon>,
) -> Result<Vec<ObjectPolygon>, Memory>
    requires { length polygons.items ≡ length points.now }
    ensures { IfOk result (λ os. map object_view os.items
        ≡ with_lines points.now (outlines polygons.items)) }
{
    let mut objects = Vec::with_capacity(alloc, polygons.len())?;
    for (point, polygon) in points.iter().zip(polygons) {
        objects.push(ObjectPolygon {
            line: point.line,
            polygon,
        })?;
    }
    Ok(objects)
}
