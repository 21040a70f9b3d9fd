// Where places lie for a circle.
ghost use Rattle.std.specs.Prelude.{◌≡◌, ◌↔◌, ◌^◌, ◌-ℤ◌, ◌*ℤ◌, ◌≤ℤ◌, IsTrue, pos};
ghost use Rattle.plane.specs.Numbers.{IsWithin};
ghost use Rattle.plane.specs.Rule.HalfArcs.{bow, power};
ghost use Rattle.plane.specs.Rule.Places.{point};
ghost use Rattle.plane.specs.Rule.Turns.{AreNear};
ghost use Rattle.arc_predicates.specs.Circles.{HasSign, IsCloseTo, IsPart, IsSideOf, half_arc};
ghost use Rattle.arc_predicates.specs.Circles.{IsShort, place, seen_power};

use super::circles::Circle;
use super::numbers::{determinant, difference, dot, offset};
use super::sides::Side;
use plane::Point;

// Places that differ by as much or more from the first point of a circle have no side.
const FAR: i128 = 268_435_456;

/// The side of the place (x / n, y / n), where n is 1 or 16; `None` exactly where it differs from
/// the circle's first point by 2^28 or more in a coordinate. It takes no memory.
pub fn side(circle: &Circle, x: i128, y: i128, n: i128) -> Option<Side>
    requires part { IsPart n }
    requires close { IsCloseTo (half_arc circle.now) (place x y n) }
    ensures { IsSideOf result (half_arc circle.now) (place x y n) }
{
    let right = offset(x, circle.s.x, n);
    let above = offset(y, circle.s.y, n);
    if has_side(right, above, n) {
        Some(side_of(circle, right, above, n))
    } else {
        None
    }
}

fn has_side(x: i128, y: i128, n: i128) -> bool
    requires { IsPart n }
    ensures { IsTrue result ↔ (IsShort x n × IsShort y n) }
{
    is_short(x, n) && is_short(y, n)
}

// Whether z / n is below 2^28 and above -2^28.
fn is_short(z: i128, n: i128) -> bool
    requires { IsPart n }
    ensures { IsTrue result ↔ IsShort z n }
{
    let far = reach(n);
    -far < z && z < far
}

fn reach(n: i128) -> i128
    requires { IsPart n }
    ensures value { result ≡ pos (2 ^ 28) *ℤ n }
    ensures bound { IsWithin (2 ^ 33) result }
{
    FAR * n
}

/// The side of a point that differs from the circle's first point by less than 2^32 in each
/// coordinate. It takes no memory.
pub fn place_of(circle: &Circle, p: Point) -> Side
    requires { AreNear (2 ^ 32) circle.now.s p }
    ensures { HasSign result (power (half_arc circle.now) (point p)) }
{
    let right = difference(p.x, circle.s.x);
    let above = difference(p.y, circle.s.y);
    side_of(circle, right, above, 1)
}

/// Whether the place (x / n, y / n), where n is 1 or 16, is not on the side of the chord on which
/// the circle's third point lies. It takes no memory.
pub fn is_away(circle: &Circle, x: i128, y: i128, n: i128) -> bool
    requires part { IsPart n }
    requires close { IsCloseTo (half_arc circle.now) (place x y n) }
    ensures { IsTrue result ↔ (pos 0 ≤ℤ bow (half_arc circle.now) (place x y n)) }
{
    let right = offset(x, circle.s.x, n);
    let above = offset(y, circle.s.y, n);
    let wide = difference(circle.m.x, circle.s.x);
    let tall = difference(circle.m.y, circle.s.y);
    // Below 2^26 2^45 2.
    let over = determinant(wide, tall, right, above);
    is_at_most_zero(circle.d, over)
}

// With d below 2^53, a and b below 2^80 and x and y below 2^32: d (x² + y²) is below 2^118, and so
// is (a x + b y) n.
fn side_of(circle: &Circle, x: i128, y: i128, n: i128) -> Side
    requires part { IsPart n }
    requires x { IsWithin (2 ^ 32) x }
    requires y { IsWithin (2 ^ 32) y }
    ensures { HasSign result (seen_power circle.now.d circle.now.a circle.now.b x y n) }
{
    let far = dot(x, y, x, y);
    let ahead = dot(circle.a, circle.b, x, y);
    let over = determinant(circle.d, ahead, n, far);
    side_by(circle.d, over)
}

/// Whether the product d z is at most 0. The product itself is not made.
pub fn is_at_most_zero(d: i128, z: i128) -> bool
    requires bent { d ≡ pos 0 → ⊥ }
    requires bound { IsWithin (2 ^ 126) z }
    ensures { IsTrue result ↔ ((d *ℤ z) ≤ℤ pos 0) }
{
    side_by(d, z) != Side::Outside
}

// The side that the product d z says.
fn side_by(d: i128, z: i128) -> Side
    requires bent { d ≡ pos 0 → ⊥ }
    requires bound { IsWithin (2 ^ 126) z }
    ensures { HasSign result (d *ℤ z) }
{
    if d > 0 { sign_of(z) } else { sign_of(-z) }
}

fn sign_of(z: i128) -> Side
    ensures { HasSign result z }
{
    if z < 0 {
        Side::Inside
    } else if z > 0 {
        Side::Outside
    } else {
        Side::On
    }
}
