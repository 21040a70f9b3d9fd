// The rest in half units: the edges of its curves, and the points that are located in it.
ghost use Rattle.std.specs.Prelude.{◌≡◌, ◌+ℤ◌, IfOk, length, map};
ghost use Rattle.area_search.specs.Unsettled.CurvePoints.{AreNumbers};
ghost use Rattle.plane.specs.Faces.RestRuns.{sum};
ghost use Rattle.plane.specs.Rule.Doubled.{twice, twice_curve};
ghost use Rattle.plane.specs.Rule.Plans.{plan};
ghost use Rattle.plane.specs.Rule.Windows.{IsShort};
ghost use Rattle.tubes.specs.DrawnEdges.{straight_edge};
ghost use Rattle.area_faults.specs.RestFaces.{IsWritten, half_edges, half_points};

use plane::{Curve, Drawing, Edge, Point};
use ports::Memory;
use std::alloc::Global;
use straight_predicates::edge_between;

/// The edges of these curves, in their order.
pub(super) fn edges_in_halves(
    alloc: Global,
    drawing: &Drawing,
    numbers: &[u32],
) -> Result<Vec<Edge>, Memory>
    requires { AreNumbers (length (plan drawing.now).curves) numbers.now }
    ensures { IfOk result (λ edges. edges.items ≡ half_edges (plan drawing.now) numbers.now) }
{
    let mut edges = Vec::with_capacity(alloc, numbers.len())?;
    for number in numbers {
        edges.push(edge_in_halves(&drawing.curves[*number as usize]))?;
    }
    Ok(edges)
}

fn edge_in_halves(curve: &Curve) -> Edge
    requires { IsWritten curve.now }
    ensures { result ≡ straight_edge (twice_curve curve.now) }
{
    tubes::laws::edges_of_drawing();
    edge_between(twice(curve.from), twice(curve.to))
}

fn twice(p: Point) -> Point
    requires { IsShort p }
    ensures { result ≡ twice p }
{
    Point {
        x: 2 * p.x,
        y: 2 * p.y,
    }
}

/// The objects' points, and then the middles of these curves.
pub(super) fn points_in_halves(
    alloc: Global,
    drawing: &Drawing,
    numbers: &[u32],
) -> Result<Vec<Point>, Memory>
    requires { AreNumbers (length (plan drawing.now).curves) numbers.now }
    ensures { IfOk result (λ points. points.items ≡ half_points (plan drawing.now) numbers.now) }
{
    let mut points = objects_in_halves(alloc, drawing)?;
    for number in numbers {
        points.push(middle_in_halves(&drawing.curves[*number as usize]))?;
    }
    Ok(points)
}

fn objects_in_halves(alloc: Global, drawing: &Drawing) -> Result<Vec<Point>, Memory>
    ensures { IfOk result (λ points. points.items
        ≡ map (λ p. twice p.at) (plan drawing.now).points) }
{
    let mut points = Vec::with_capacity(alloc, drawing.points.len())?;
    for point in &drawing.points {
        points.push(twice(point.at))?;
    }
    Ok(points)
}

// The middle between the two ends of a curve.
fn middle_in_halves(curve: &Curve) -> Point
    requires { IsWritten curve.now }
    ensures { result ≡ sum curve.now }
{
    middle_between(curve.from, curve.to)
}

fn middle_between(p: Point, q: Point) -> Point
    requires first { IsShort p }
    requires second { IsShort q }
    ensures x { result.x ≡ p.x +ℤ q.x }
    ensures y { result.y ≡ p.y +ℤ q.y }
{
    Point {
        x: p.x + q.x,
        y: p.y + q.y,
    }
}
