// Boxes that hold curves.
ghost use Rattle.std.specs.Prelude.{◌≡◌, ◌^◌, pos, ◌+ℤ◌, ◌-ℤ◌, ◌*ℤ◌, ◌≤ℤ◌, ◌<ℤ◌, IsTrue};
ghost use Rattle.plane.specs.Forms.Arcs.{facing};
ghost use Rattle.plane.specs.Forms.Boxes.{GoesBeyond, HoldsCurve, size};
ghost use Rattle.plane.specs.Numbers.{IsNear, IsWithin};
ghost use Rattle.plane.specs.Rule.Curves.{arc};
ghost use Rattle.plane.specs.Rule.Turns.{AreNear};
ghost use Rattle.plane.specs.Rule.Windows.{IsShort};
ghost use Rattle.arc_predicates.specs.Circles.{half_arc};
ghost use Rattle.near_pairs.specs.Boxes.{box_of};
ghost use Rattle.meetings.specs.PlacedCurves.{IsPlaced};

use super::circle_reach::circle_reach;
use arc_predicates::{Circle, circle};
use near_pairs::Reach;
use plane::{Curve, CurveKind, Point};

/// A box that holds the curve's ends and, of a half arc, each place that has a side for it, is not
/// outside its circle and not on the third point's side of its chord. Up to half a turn it is the
/// box of the ends, each side moved out by half the other extent, rounded up; over half a turn it
/// goes beyond the first end by the product of the triangle's sides over the turn of its points, or
/// as far as places have sides. It takes no memory.
pub fn reach(curve: &Curve) -> Reach
    requires { IsPlaced curve.now }
    ensures { HoldsCurve (box_of result) curve.now }
{
    plane::arcs::boxes_hold_curves();
    match curve.kind {
        CurveKind::Straight => around(curve.from, curve.to, 0, 0),
        CurveKind::HalfArc => half_arc_reach(curve),
    }
}

fn half_arc_reach(curve: &Curve) -> Reach
    requires { IsPlaced curve.now }
    ensures { HoldsCurve (box_of result) curve.now }
{
    plane::arcs::boxes_hold_curves();
    match circle(curve.from, curve.to, curve.third) {
        Some(circle) => judged_reach(curve, &circle),
        None => around(curve.from, curve.to, 0, 0),
    }
}

fn judged_reach(curve: &Curve, circle: &Circle) -> Reach
    requires placed { IsPlaced curve.now }
    requires circle { half_arc circle.now ≡ arc curve.now }
    ensures { HoldsCurve (box_of result) curve.now }
{
    plane::arcs::boxes_hold_curves();
    if is_at_most_half_a_turn(curve) {
        let x = half(curve.from.y, curve.to.y);
        let y = half(curve.from.x, curve.to.x);
        around(curve.from, curve.to, x, y)
    } else {
        let far = circle_reach(curve, circle);
        around(curve.from, curve.from, far, far)
    }
}

// The box of two points, each side moved out.
fn around(a: Point, b: Point, x: i64, y: i64) -> Reach
    requires first { IsShort a }
    requires second { IsShort b }
    requires wide { IsWithin (2 ^ 41) x }
    requires tall { IsWithin (2 ^ 41) y }
    ensures first { GoesBeyond a x y (box_of result) }
    ensures second { GoesBeyond b x y (box_of result) }
{
    let (left, right) = span(a.x, b.x, x);
    let (under, over) = span(a.y, b.y, y);
    Reach {
        low: Point { x: left, y: under },
        high: Point { x: right, y: over },
    }
}

// From the lesser of two numbers less `by` to the greater and `by`.
fn span(a: i64, b: i64, by: i64) -> (i64, i64)
    requires first { IsWithin (10 ^ 18) a }
    requires second { IsWithin (10 ^ 18) b }
    requires by { IsWithin (2 ^ 41) by }
    ensures low_first { (result.0 +ℤ by) ≤ℤ a }
    ensures low_second { (result.0 +ℤ by) ≤ℤ b }
    ensures high_first { (a +ℤ by) ≤ℤ result.1 }
    ensures high_second { (b +ℤ by) ≤ℤ result.1 }
{
    if a < b {
        (a - by, b + by)
    } else {
        (b - by, a + by)
    }
}

// Half the distance of two numbers, rounded up.
fn half(a: i64, b: i64) -> i64
    requires { IsNear (2 ^ 41) a b }
    ensures value { size (b -ℤ a) ≤ℤ (pos 2 *ℤ result) }
    ensures bound { IsWithin (2 ^ 41) result }
    ensures least { pos 0 ≤ℤ result }
{
    (b.abs_diff(a) / 2 + b.abs_diff(a) % 2) as i64
}

// Whether the half arc is at most half a turn of its circle.
fn is_at_most_half_a_turn(curve: &Curve) -> bool
    requires from { AreNear (2 ^ 41) curve.now.from curve.now.third }
    requires to { AreNear (2 ^ 41) curve.now.to curve.now.third }
    ensures { IsTrue result → pos 0 ≤ℤ facing (arc curve.now) }
{
    let x = product(curve.third.x, curve.from.x, curve.to.x);
    let y = product(curve.third.y, curve.from.y, curve.to.y);
    0 <= x + y
}

// (z - a) (z - b), below 2^82
fn product(z: i64, a: i64, b: i64) -> i128
    requires first { IsNear (2 ^ 41) a z }
    requires second { IsNear (2 ^ 41) b z }
    ensures value { result ≡ (z -ℤ a) *ℤ (z -ℤ b) }
    ensures bound { IsWithin (2 ^ 82) result }
{
    let from_a = difference(z, a);
    let from_b = difference(z, b);
    from_a * from_b
}

// a - b, below 2^41
fn difference(a: i64, b: i64) -> i128
    requires { IsNear (2 ^ 41) b a }
    ensures value { result ≡ a -ℤ b }
    ensures bound { IsWithin (2 ^ 41) result }
{
    i128::from(a) - i128::from(b)
}
