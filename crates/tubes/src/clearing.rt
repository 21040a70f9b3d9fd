// The conditions on outer corners that ask for the circle's numbers, in 128 bits.
ghost use Rattle.std.specs.Prelude.{◌≡◌, ◌↔◌, ◌^◌, IsTrue, pos, ◌-ℤ◌, ◌*ℤ◌, ◌≤ℤ◌};
ghost use Rattle.plane.specs.Forms.Arcs.{power};
ghost use Rattle.plane.specs.Forms.Vectors.{point};
ghost use Rattle.plane.specs.Lists.{Each, First, Last};
ghost use Rattle.plane.specs.Numbers.{IsNear, IsWithin};
ghost use Rattle.plane.specs.Rule.Turns.{AreNear};
ghost use Rattle.plane.specs.Tubes.Bays.{ahead_of_from, ahead_of_to};
ghost use Rattle.arc_predicates.specs.Circles.{half_arc};
ghost use Rattle.tubes.specs.Making.{IsFar};

use arc_predicates::{Circle, determinant, dot, is_at_most_zero};
use plane::Point;

/// Whether the point is outside by more than a quarter of the square. With d below 2^53 and the
/// square below 2^59 their product is below 2^112.
pub fn is_far(circle: &Circle, p: Point, square: i64) -> bool
    requires near { AreNear (2 ^ 28) circle.now.s p }
    requires square { IsWithin (2 ^ 59) square }
    ensures { IsTrue result ↔ IsFar (half_arc circle.now) p square }
{
    let outside = power_over(circle, p);
    let more = determinant(4, circle.d, i128::from(square), outside);
    !is_at_most_zero(circle.d, more)
}

// The power of a point without its factor d. With d below 2^53, a and b below 2^80 and x and y
// below 2^29 it is below 2^119.
fn power_over(circle: &Circle, p: Point) -> i128
    requires { AreNear (2 ^ 28) circle.now.s p }
    ensures value { circle.now.d *ℤ result ≡ power (half_arc circle.now) (point p) }
    ensures bound { IsWithin (2 ^ 119) result }
{
    let x = offset(p.x, circle.s.x);
    let y = offset(p.y, circle.s.y);
    let far = dot(x, y, x, y);
    let ahead = dot(circle.a, circle.b, x, y);
    determinant(circle.d, ahead, 1, far)
}

// a - b, below 2^29
fn offset(a: i64, b: i64) -> i128
    requires { IsNear (2 ^ 29) b a }
    ensures value { result ≡ a -ℤ b }
    ensures bound { IsWithin (2 ^ 29) result }
{
    i128::from(a) - i128::from(b)
}

/// Whether the first and the last outer edge are outside but for the ends of the half arc.
pub fn are_clear(circle: &Circle, outer: &[Point]) -> bool
    requires { Each (AreNear (2 ^ 28) circle.now.s) outer.now }
    ensures { IsTrue result
        ↔ (First (λ o. ahead_of_from (half_arc circle.now) o ≤ℤ pos 0) outer.now
        × Last (λ o. ahead_of_to (half_arc circle.now) o ≤ℤ pos 0) outer.now) }
{
    let count = outer.len();
    count == 0 || is_clear_of_from(circle, outer[0]) && is_clear_of_to(circle, outer[count - 1])
}

// With a and b below 2^80 and x and y below 2^29 the sum is below 2^110.
fn is_clear_of_from(circle: &Circle, p: Point) -> bool
    requires { AreNear (2 ^ 28) circle.now.s p }
    ensures { IsTrue result ↔ (ahead_of_from (half_arc circle.now) p ≤ℤ pos 0) }
{
    let x = offset(p.x, circle.s.x);
    let y = offset(p.y, circle.s.y);
    let ahead = dot(circle.a, circle.b, x, y);
    is_at_most_zero(circle.d, ahead)
}

// With the centre's numbers below 2^82 the sum is below 2^112.
fn is_clear_of_to(circle: &Circle, p: Point) -> bool
    requires { AreNear (2 ^ 28) circle.now.s p }
    ensures { IsTrue result ↔ (ahead_of_to (half_arc circle.now) p ≤ℤ pos 0) }
{
    let x = offset(p.x, circle.m.x);
    let y = offset(p.y, circle.m.y);
    let wide = offset(circle.m.x, circle.s.x);
    let tall = offset(circle.m.y, circle.s.y);
    let a = seen_from_end(circle.d, circle.a, wide);
    let b = seen_from_end(circle.d, circle.b, tall);
    let ahead = dot(a, b, x, y);
    is_at_most_zero(circle.d, ahead)
}

// 2 d times a coordinate of the centre, seen from a point that is `way` further.
fn seen_from_end(d: i128, at: i128, way: i128) -> i128
    requires d { IsWithin (2 ^ 53) d }
    requires at { IsWithin (2 ^ 80) at }
    requires way { IsWithin (2 ^ 29) way }
    ensures value { result ≡ at -ℤ (pos 2 *ℤ (d *ℤ way)) }
    ensures bound { IsWithin (2 ^ 84) result }
{
    let half = determinant(at, d, way, 1);
    determinant(half, d, way, 1)
}
