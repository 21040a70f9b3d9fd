// Whether a way that begins on a circle forks from a half arc, and its bend.
ghost use Rattle.std.specs.Prelude.{◌≡◌, ◌↔◌, ◌^◌, ◌*ℤ◌, ◌≤ℤ◌, ◌<ℤ◌, IsTrue, pos};
ghost use Rattle.arc_predicates.specs.Circles.{half_arc};
ghost use Rattle.plane.specs.Forms.Bends.{IsBend, ahead};
ghost use Rattle.plane.specs.Rule.Places.{point};
ghost use Rattle.plane.specs.Rule.Turns.{AreNear};
ghost use Rattle.plane.specs.Rule.Windows.{IsShort};
ghost use Rattle.plane.specs.Rule.Overlaps.{IsTolerance};
ghost use Rattle.forks.specs.Zones.{IsForkOf, IsTangent, IsWayTo, LeadsOut, is_left};

use super::numbers::{
    aside, difference, is_above, is_long, is_quotient_below, is_sixteenth, moved, signed,
};
use arc_predicates::{Circle, determinant, dot};
use plane::Point;

/// A way from the first point of a circle: how far it goes along x and y, the square of its length
/// and its whole root, and its dot and cross product with the way to the centre, each times one
/// number above 0.
#[derive(Clone, Copy)]
pub struct Way {
    pub x: i128,
    pub y: i128,
    pub square: i128,
    pub root: i128,
    pub toward: i128,
    pub across: i128,
}

/// The bend of a straight from the circle's first point to q, where that forks from the half arc.
pub fn bend_of(circle: &Circle, q: Point, tolerance: i64) -> Option<Point>
    requires tolerance { IsTolerance tolerance }
    requires near { AreNear (2 ^ 40) circle.now.s q }
    requires short { IsShort circle.now.s }
    ensures { IsForkOf tolerance (half_arc circle.now) q result }
{
    let way = way_to(circle, q);
    if !is_long(way.root, tolerance) {
        return None;
    }
    if !is_along(circle, q, &way) {
        return None;
    }
    if !is_sixteenth(way.toward, way.across) {
        return None;
    }
    if !is_quotient_below(way.toward, circle.d, way.square) {
        return None;
    }
    Some(bend_at(circle, q, &way, tolerance))
}

// With a and b below 2^80 and the way below 2^40, the two products are below 2^121.
fn way_to(circle: &Circle, q: Point) -> Way
    requires { AreNear (2 ^ 40) circle.now.s q }
    ensures { IsWayTo (half_arc circle.now) q result }
{
    let x = difference(q.x, circle.s.x);
    let y = difference(q.y, circle.s.y);
    let square = dot(x, y, x, y);
    let root = square.isqrt();
    let toward = dot(circle.a, circle.b, x, y);
    let across = determinant(x, y, circle.a, circle.b);
    Way {
        x,
        y,
        square,
        root,
        toward: signed(circle.d, toward),
        across: signed(circle.d, across),
    }
}

// Whether the other end of the half arc is ahead of its first one, as the way goes.
fn is_along(circle: &Circle, q: Point, way: &Way) -> bool
    requires { IsWayTo (half_arc circle.now) q way.now }
    ensures { IsTrue result ↔ (pos 0 <ℤ ahead circle.now.s q (point circle.now.m)) }
{
    let _ = q;
    let x = difference(circle.m.x, circle.s.x);
    let y = difference(circle.m.y, circle.s.y);
    is_above(dot(x, y, way.x, way.y))
}

// The bend of the way beside the circle's first point.
fn bend_at(circle: &Circle, q: Point, way: &Way, tolerance: i64) -> Point
    requires tolerance { IsTolerance tolerance }
    requires short { IsShort circle.now.s }
    requires way { IsWayTo (half_arc circle.now) q way.now }
    requires wide { pos 8 ≤ℤ tolerance }
    requires long { (pos 32 *ℤ tolerance) ≤ℤ way.now.root }
    ensures { IsBend tolerance (is_left (half_arc circle.now) q) circle.now.s q result }
{
    let _ = q;
    let (aside_x, aside_y) = aside(way.x, way.y, !is_above(way.across));
    Point {
        x: moved(circle.s.x, way.x, aside_x, way.root, tolerance),
        y: moved(circle.s.y, way.y, aside_y, way.root, tolerance),
    }
}
