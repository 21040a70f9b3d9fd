// The conditions that the corners of a tube meet.
ghost use Rattle.std.specs.Prelude.{◌≡◌, ◌↔◌, ◌^◌, IsTrue, length, pos, ◌<ℤ◌};
ghost use Rattle.plane.specs.Forms.Arcs.{along, facing};
ghost use Rattle.plane.specs.Forms.Vectors.{point};
ghost use Rattle.plane.specs.Lists.{Each, Neighbours};
ghost use Rattle.plane.specs.Numbers.{IsWithin};
ghost use Rattle.plane.specs.Rule.Turns.{AreNear};
ghost use Rattle.plane.specs.Tubes.Bays.{AreBays, AreNext, IsBay, bays, distance, outward};
ghost use Rattle.arc_predicates.specs.Circles.{half_arc};
ghost use Rattle.straight_predicates.specs.Signs.{HasSign};
ghost use Rattle.tubes.specs.Making.{AreCorners, AreOutside, IsFar, IsUnder, Rise, bay};

use super::clearing::{are_clear, is_far};
use super::numbers::{difference, dot};
use arc_predicates::Circle;
use plane::Point;
use straight_predicates::{Turn, turn};

// What the corners may differ by from the half arc's first point in each coordinate: less than
// this.
const NEAR: u64 = 268_435_456;

/// Whether the half arc is less than half a turn. With differences below 2^26 the sum is below
/// 2^53.
pub fn is_less_than_half(circle: &Circle) -> bool
    ensures { IsTrue result ↔ (pos 0 <ℤ facing (half_arc circle.now)) }
{
    let x = difference(circle.e.x, circle.s.x);
    let y = difference(circle.e.y, circle.s.y);
    let to_x = difference(circle.e.x, circle.m.x);
    let to_y = difference(circle.e.y, circle.m.y);
    dot(x, y, to_x, to_y) > 0
}

/// Whether the points meet the conditions of a tube: inner points after the first one, and the
/// outer ones over them.
pub fn are_corners(circle: &Circle, inner: &[Point], outer: &[Point]) -> bool
    requires { length inner.now ≡ length outer.now }
    ensures { IsTrue result ↔ AreCorners (half_arc circle.now) inner.now outer.now }
{
    are_all_near(circle, inner, outer) && are_in_place(circle, inner, outer)
}

fn are_all_near(circle: &Circle, inner: &[Point], outer: &[Point]) -> bool
    ensures { IsTrue result
        ↔ (Each (AreNear (2 ^ 28) circle.now.s) inner.now
        × Each (AreNear (2 ^ 28) circle.now.s) outer.now) }
{
    are_near(circle, inner) && are_near(circle, outer)
}

fn are_near(circle: &Circle, points: &[Point]) -> bool
    ensures { IsTrue result ↔ Each (AreNear (2 ^ 28) circle.now.s) points.now }
{
    for point in points {
        if !is_near(circle.s, *point) {
            return false;
        }
    }
    true
}

fn is_near(p: Point, q: Point) -> bool
    ensures { IsTrue result ↔ AreNear (2 ^ 28) p q }
{
    p.x.abs_diff(q.x) < NEAR && p.y.abs_diff(q.y) < NEAR
}

// Whether the corners rise along the chord, and the outer edges are where they should be.
fn are_in_place(circle: &Circle, inner: &[Point], outer: &[Point]) -> bool
    requires same { length inner.now ≡ length outer.now }
    requires inner { Each (AreNear (2 ^ 28) circle.now.s) inner.now }
    requires outer { Each (AreNear (2 ^ 28) circle.now.s) outer.now }
    ensures { IsTrue result
        ↔ (AreBays (half_arc circle.now) circle.now.s (bays inner.now outer.now)
        × AreOutside (half_arc circle.now) inner.now outer.now) }
{
    are_bays(circle, inner, outer) && are_outside(circle, inner, outer)
}

// Whether along the chord the corners rise, each outer one on the outer side of its inner edge.
fn are_bays(circle: &Circle, inner: &[Point], outer: &[Point]) -> bool
    requires same { length inner.now ≡ length outer.now }
    requires inner { Each (AreNear (2 ^ 28) circle.now.s) inner.now }
    requires outer { Each (AreNear (2 ^ 28) circle.now.s) outer.now }
    ensures { IsTrue result
        ↔ AreBays (half_arc circle.now) circle.now.s (bays inner.now outer.now) }
{
    let mut before = circle.s;
    for (i, &after) in inner.iter().enumerate() {
        if !is_bay(circle, before, outer[i], after) {
            return false;
        }
        before = after;
    }
    true
}

fn is_bay(circle: &Circle, before: Point, outer: Point, after: Point) -> bool
    requires before { AreNear (2 ^ 28) circle.now.s before }
    requires outer { AreNear (2 ^ 28) circle.now.s outer }
    requires after { AreNear (2 ^ 28) circle.now.s after }
    ensures { IsTrue result ↔ IsBay (half_arc circle.now) before (bay outer after) }
{
    rises(circle, before, outer, after) && is_outward(circle, before, after, outer)
}

fn rises(circle: &Circle, before: Point, outer: Point, after: Point) -> bool
    requires before { AreNear (2 ^ 28) circle.now.s before }
    requires outer { AreNear (2 ^ 28) circle.now.s outer }
    requires after { AreNear (2 ^ 28) circle.now.s after }
    ensures { IsTrue result ↔ Rise (half_arc circle.now) before outer after }
{
    let middle = along(circle, outer);
    along(circle, before) < middle && middle < along(circle, after)
}

// How far p lies along the chord. With the chord below 2^26 it is below 2^55.
fn along(circle: &Circle, p: Point) -> i64
    requires { AreNear (2 ^ 28) circle.now.s p }
    ensures { result ≡ along (half_arc circle.now) (point p) }
{
    let wide = difference(circle.m.x, circle.s.x);
    let tall = difference(circle.m.y, circle.s.y);
    let right = difference(p.x, circle.s.x);
    let above = difference(p.y, circle.s.y);
    dot(wide, tall, right, above)
}

// Whether r is strictly on the outer side of the line from p to q, as the half arc goes.
fn is_outward(circle: &Circle, p: Point, q: Point, r: Point) -> bool
    requires p { AreNear (2 ^ 28) circle.now.s p }
    requires q { AreNear (2 ^ 28) circle.now.s q }
    requires r { AreNear (2 ^ 28) circle.now.s r }
    ensures { IsTrue result ↔ (pos 0 <ℤ outward (half_arc circle.now) p q r) }
{
    matches!(outward(circle, p, q, r), Turn::Left)
}

fn outward(circle: &Circle, p: Point, q: Point, r: Point) -> Turn
    requires p { AreNear (2 ^ 28) circle.now.s p }
    requires q { AreNear (2 ^ 28) circle.now.s q }
    requires r { AreNear (2 ^ 28) circle.now.s r }
    ensures { HasSign result (outward (half_arc circle.now) p q r) }
{
    if circle.d > 0 {
        turn(q, p, r)
    } else {
        turn(p, q, r)
    }
}

// Whether the outer edges are outside, the first and the last but for the ends of the half arc,
// and each inner corner between two outer ones is on the inner side of their edge.
fn are_outside(circle: &Circle, inner: &[Point], outer: &[Point]) -> bool
    requires same { length inner.now ≡ length outer.now }
    requires inner { Each (AreNear (2 ^ 28) circle.now.s) inner.now }
    requires outer { Each (AreNear (2 ^ 28) circle.now.s) outer.now }
    ensures { IsTrue result ↔ AreOutside (half_arc circle.now) inner.now outer.now }
{
    are_next(circle, inner, outer) && are_clear(circle, outer)
}

// Whether each inner corner is on the inner side of the outer edge over it, and that edge outside.
fn are_next(circle: &Circle, inner: &[Point], outer: &[Point]) -> bool
    requires same { length inner.now ≡ length outer.now }
    requires inner { Each (AreNear (2 ^ 28) circle.now.s) inner.now }
    requires outer { Each (AreNear (2 ^ 28) circle.now.s) outer.now }
    ensures { IsTrue result
        ↔ Neighbours (AreNext (half_arc circle.now)) (bays inner.now outer.now) }
{
    for i in 1..outer.len() {
        if !is_next(circle, outer[i - 1], inner[i - 1], outer[i]) {
            return false;
        }
    }
    true
}

fn is_next(circle: &Circle, outer: Point, inner: Point, next: Point) -> bool
    requires outer { AreNear (2 ^ 28) circle.now.s outer }
    requires inner { AreNear (2 ^ 28) circle.now.s inner }
    requires next { AreNear (2 ^ 28) circle.now.s next }
    ensures { IsTrue result ↔ IsUnder (half_arc circle.now) outer inner next }
{
    is_outward(circle, next, outer, inner) && is_outside(circle, outer, next)
}

// Whether the edge of two outer points is outside.
fn is_outside(circle: &Circle, outer: Point, next: Point) -> bool
    requires outer { AreNear (2 ^ 28) circle.now.s outer }
    requires next { AreNear (2 ^ 28) circle.now.s next }
    ensures { IsTrue result
        ↔ (IsFar (half_arc circle.now) outer (distance outer next)
        × IsFar (half_arc circle.now) next (distance outer next)) }
{
    let square = distance(outer, next);
    is_far(circle, outer, square) && is_far(circle, next, square)
}

// With the coordinates' differences below 2^29 the square is below 2^59.
fn distance(p: Point, q: Point) -> i64
    requires { AreNear (2 ^ 29) p q }
    ensures value { result ≡ distance p q }
    ensures bound { IsWithin (2 ^ 59) result }
{
    let x = difference(p.x, q.x);
    let y = difference(p.y, q.y);
    dot(x, y, x, y)
}
