// The polygons of areas.
ghost use Rattle.std.specs.Prelude.{◌≡◌, ◌<◌, ◌≤◌, ℕ, IfOk, false, length, true};
ghost use Rattle.std.specs.List.{All};
ghost use Rattle.plane.specs.declared.kinds.CurveKind.TheVariants as kind;
ghost use Rattle.plane.specs.Rule.Plans.{plan};
ghost use Rattle.polygons.specs.Text.{objects_view, view, views};
ghost use Rattle.reports.specs.AreaKinds.{plans};
ghost use Rattle.table_layout.specs.Values.{area_view, areas_view, layout_view};
ghost use Rattle.tubes.specs.DrawnEdges.{AreAllStraight, nth_curve};
ghost use Rattle.area_drawings.specs.AreaLimits.{IsSmallPlan};
ghost use Rattle.delivery.specs.AreaPolygons.{AreWrittenAreas, IsPolygonAnswer};
ghost use Rattle.delivery.specs.AreaPolygons.{IsSkippedOrArea, IsWrittenArea, objects_of};
ghost use Rattle.delivery.specs.declared.polygon_answers.PolygonAnswer.{PolygonAnswer as Answer};

use area_search::faces_of_straights;
use plane::{Curve, CurveKind, Drawing};
use polygons::{AreaObjects, AreaPolygons, Polygon, polygons_of, with_lines};
use ports::Memory;
use reports::names_of;
use std::alloc::Global;
use table_layout::{AreaOf, Layout};

/// The polygons of an area.
#[derive(Drop)]
pub enum PolygonAnswer {
    /// One for each object, in order.
    Rings(Vec<Polygon>),
    /// A half arc is among the lines.
    Skipped,
}

/// For each object of an area the rings that bound what is joined to its point; an area with a half
/// arc is skipped. The area has at most 16,000,000 lines and is a partition without a cut, as one
/// that `find_area` proves is. The only error is out of memory. It takes one sweep of the lines and
/// what `faces_of_straights` and `polygons_of` take; 16 bytes a corner stay.
pub fn area_polygons(alloc: Global, drawing: &Drawing) -> Result<PolygonAnswer, Memory>
    requires curves { length (plan drawing.now).curves ≤ 16000000 }
    requires area { IsSkippedOrArea (plan drawing.now) }
    ensures { IfOk result (IsPolygonAnswer (plan drawing.now)) }
{
    if has_half_arc(&drawing.curves) {
        return Ok(PolygonAnswer::Skipped);
    }
    let faced = faces_of_straights(alloc, drawing)?;
    let polygons = polygons_of(alloc, &faced.mesh, &faced.at, faced.faces, &faced.points)?;
    Ok(PolygonAnswer::Rings(polygons))
}

/// Whether a half arc is among the curves.
pub fn has_half_arc(curves: &[Curve]) -> bool
    ensures some { result ≡ true → (i : ℕ) × (i < length curves.now)
        × ((nth_curve curves.now i).kind ≡ kind.HalfArc) }
    ensures none { result ≡ false → AreAllStraight curves.now }
{
    for number in 0..curves.len() {
        if is_half_arc(&curves[number]) {
            return true;
        }
    }
    false
}

fn is_half_arc(curve: &Curve) -> bool
    ensures yes { result ≡ true → curve.now.kind ≡ kind.HalfArc }
    ensures no { result ≡ false → curve.now.kind ≡ kind.Straight }
{
    match curve.kind {
        CurveKind::HalfArc => true,
        CurveKind::Straight => false,
    }
}

// The objects of an area that are written, or that it is skipped.
fn area_objects(alloc: Global, drawing: &Drawing) -> Result<AreaObjects, Memory>
    requires curves { length (plan drawing.now).curves ≤ 16000000 }
    requires area { IsSkippedOrArea (plan drawing.now) }
    ensures { IfOk result (λ objects. (answer : Answer) × IsPolygonAnswer (plan drawing.now) answer
        × (objects_view objects ≡ objects_of (plan drawing.now) answer)) }
{
    match area_polygons(alloc, drawing)? {
        PolygonAnswer::Skipped => Ok(AreaObjects::Skipped),
        PolygonAnswer::Rings(polygons) => {
            let objects = with_lines(alloc, &drawing.points, polygons)?;
            Ok(AreaObjects::Polygons(objects))
        }
    }
}

// The polygons of an area under its names.
fn written_area(
    alloc: Global,
    layout: &Layout,
    area: &AreaOf,
    drawing: &Drawing,
) -> Result<AreaPolygons, Memory>
    requires curves { length (plan drawing.now).curves ≤ 16000000 }
    requires area { IsSkippedOrArea (plan drawing.now) }
    ensures { IfOk result (λ p. IsWrittenArea (layout_view layout.now) (area_view area.now)
        (plan drawing.now) (view p)) }
{
    let names = names_of(alloc, layout, area)?;
    let objects = area_objects(alloc, drawing)?;
    Ok(AreaPolygons {
        topic: names.topic,
        table: names.table,
        attribute: names.attribute,
        objects,
    })
}

/// The polygons of the areas of a layout by their drawings, one area after the other, each at the
/// cost of `area_polygons`. The only error is out of memory.
pub fn written_areas(
    alloc: Global,
    layout: &Layout,
    drawings: &[Drawing],
) -> Result<Vec<AreaPolygons>, Memory>
    requires drawn { length drawings.now ≡ length layout.now.areas.items }
    requires few { All IsSmallPlan (plans drawings.now) }
    requires areas { All IsSkippedOrArea (plans drawings.now) }
    ensures { IfOk result (λ ps. AreWrittenAreas (layout_view layout.now)
        (areas_view layout.now.areas.items) (plans drawings.now) (views ps.items)) }
{
    let mut written = Vec::new(alloc);
    for (area, drawing) in layout.areas.iter().zip(drawings) {
        written.push(written_area(alloc, layout, area, drawing)?)?;
    }
    Ok(written)
}
