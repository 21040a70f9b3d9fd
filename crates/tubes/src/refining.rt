// The points of a tube, made round by round.
ghost use Rattle.std.specs.Prelude.{◌≡◌, ℕ, ◌+◌, ◌≤◌, ◌<◌, ◌^◌, IfOk, length};
ghost use Rattle.plane.specs.Lists.{Each};
ghost use Rattle.plane.specs.Rule.Turns.{AreNear};
ghost use Rattle.plane.specs.Rule.Windows.{IsShort};
ghost use Rattle.arc_predicates.specs.Circles.{half_arc};
ghost use Rattle.tubes.specs.HalfArcTubes.{inner_points, outer_points, refine};
ghost use Rattle.tubes.specs.Making.{AreMade, AreSteps, IsInDisk, middle, over};

use super::counting::count;
use super::placing::{beside, span_between};
use arc_predicates::Circle;
use plane::Point;
use ports::Memory;
use std::alloc::Global;

/// The inner points of the tube at the level after the first point of the circle; `None` where some
/// two neighbours have no count. Here and below the diameter is about the circle's.
pub fn inner_points(
    alloc: Global,
    circle: &Circle,
    diameter: u64,
    level: u8,
) -> Result<Option<Vec<Point>>, Memory>
    requires level { level ≤ 5 }
    requires short { IsShort circle.now.s }
    ensures { IfOk result (AreMade (inner_points (half_arc circle.now) (level + 1))) }
{
    let mut inner = Vec::with_capacity(alloc, 1)?;
    inner.push(circle.m)?;
    for _ in 0..level + 1 {
        match refine(alloc, circle, diameter, &inner)? {
            Some(finer) => inner = finer,
            None => return Ok(None),
        }
    }
    Ok(Some(inner))
}

// The points with a new one between every two neighbours.
fn refine(
    alloc: Global,
    circle: &Circle,
    diameter: u64,
    points: &[Point],
) -> Result<Option<Vec<Point>>, Memory>
    requires short { IsShort circle.now.s }
    requires near { Each (AreNear (2 ^ 31) circle.now.s) points.now }
    requires steps { AreSteps circle.now.s points.now }
    requires inside { Each (IsInDisk (half_arc circle.now)) points.now }
    requires few { length points.now < 2 ^ 20 }
    ensures { IfOk result (AreMade (refine (half_arc circle.now) circle.now.s points.now)) }
{
    let mut made = Vec::with_capacity(alloc, 2 * points.len())?;
    let mut before = circle.s;
    for point in points {
        let Some(between) = middle(circle, diameter, before, *point) else {
            return Ok(None);
        };
        made.push(between)?;
        made.push(*point)?;
        before = *point;
    }
    Ok(Some(made))
}

// The point two units less than the count from the middle of two neighbours.
fn middle(circle: &Circle, diameter: u64, p: Point, q: Point) -> Option<Point>
    requires short { IsShort circle.now.s }
    requires near { AreNear (2 ^ 31) circle.now.s p }
    requires step { AreNear (2 ^ 28) p q }
    requires p_inside { IsInDisk (half_arc circle.now) p }
    requires q_inside { IsInDisk (half_arc circle.now) q }
    ensures { result ≡ middle (half_arc circle.now) p q }
{
    let span = span_between(p, q)?;
    let k = count(circle, &span, diameter)?;
    Some(beside(circle, &span, i64::from(k) - 2))
}

/// The outer points, one over every two neighbours; `None` where some two have no count.
pub fn outer_points(
    alloc: Global,
    circle: &Circle,
    diameter: u64,
    inner: &[Point],
) -> Result<Option<Vec<Point>>, Memory>
    requires short { IsShort circle.now.s }
    requires near { Each (AreNear (2 ^ 31) circle.now.s) inner.now }
    requires steps { AreSteps circle.now.s inner.now }
    requires inside { Each (IsInDisk (half_arc circle.now)) inner.now }
    ensures { IfOk result (AreMade (outer_points (half_arc circle.now) circle.now.s inner.now)) }
{
    let mut outer = Vec::with_capacity(alloc, inner.len())?;
    let mut before = circle.s;
    for point in inner {
        let Some(above) = over(circle, diameter, before, *point) else {
            return Ok(None);
        };
        outer.push(above)?;
        before = *point;
    }
    Ok(Some(outer))
}

// The point over two neighbours, four units and half the count more than twice the count from
// their middle.
fn over(circle: &Circle, diameter: u64, p: Point, q: Point) -> Option<Point>
    requires short { IsShort circle.now.s }
    requires near { AreNear (2 ^ 31) circle.now.s p }
    requires step { AreNear (2 ^ 28) p q }
    requires p_inside { IsInDisk (half_arc circle.now) p }
    requires q_inside { IsInDisk (half_arc circle.now) q }
    ensures { result ≡ over (half_arc circle.now) p q }
{
    let span = span_between(p, q)?;
    let k = count(circle, &span, diameter)?;
    Some(beside(circle, &span, i64::from(5 * k / 2 + 4)))
}
