// Polygons of some faces of a mesh.
ghost use Rattle.std.specs.Prelude.{◌≡◌, ◌<◌, ℕ, IfOk, length, slice_index};
ghost use Rattle.half_edges.specs.HalfEdges.{face_of, size};
ghost use Rattle.polygons.specs.Leading.{shapes};
ghost use Rattle.polygons.specs.Outlines.{AreChosen, AreTaken, outlines};

use super::building::all_polygons;
use super::kinds::Polygon;
use half_edges::Mesh;
use plane::Point;
use ports::Memory;
use std::alloc::Global;
use std::mem::replace;

/// The polygon of each of these faces, no two of which are equal, where all faces are below the
/// count. The only error is out of memory. It takes what `all_polygons` takes, and 16 bytes a face
/// of the list.
pub fn polygons_of(
    alloc: Global,
    mesh: &Mesh,
    at: &[Point],
    faces: u32,
    chosen: &[u32],
) -> Result<Vec<Polygon>, Memory>
    requires places { length at.now ≡ mesh.now.vertices }
    requires faces { (h : ℕ) → h < size mesh.now → face_of mesh.now h < faces }
    requires known { (j : ℕ) → j < length chosen.now → slice_index chosen.now j < faces }
    requires apart { (i j : ℕ) → i < length chosen.now → j < length chosen.now
        → slice_index chosen.now i ≡ slice_index chosen.now j → i ≡ j }
    ensures { IfOk result (λ ps. AreChosen mesh.now at.now chosen.now (outlines ps.items)) }
{
    let mut all = all_polygons(alloc, mesh, at, faces)?;
    take_chosen(alloc, &mut all, chosen)
}

// Takes the polygons of these numbers out of the list.
fn take_chosen(alloc: Global, all: &mut [Polygon], chosen: &[u32]) -> Result<Vec<Polygon>, Memory>
    requires known { (j : ℕ) → j < length chosen.now → slice_index chosen.now j < length all.old }
    requires apart { (i j : ℕ) → i < length chosen.now → j < length chosen.now
        → slice_index chosen.now i ≡ slice_index chosen.now j → i ≡ j }
    ensures { IfOk result (λ ps. AreTaken (outlines all.old) chosen.now (length chosen.now)
        (outlines ps.items)) }
{
    let mut taken = Vec::with_capacity(alloc, chosen.len())?;
    for number in 0..chosen.len() {
        taken.push(take_polygon(alloc, &mut all[chosen[number] as usize]))?;
    }
    Ok(taken)
}

// Takes the rings out of a polygon.
fn take_polygon(alloc: Global, polygon: &mut Polygon) -> Polygon
    ensures { shapes result.rings.items ≡ shapes polygon.old.rings.items }
{
    Polygon {
        rings: replace(&mut polygon.rings, Vec::new(alloc)),
    }
}
