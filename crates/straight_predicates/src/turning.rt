// The turn at three points: the exact sign of a cross product.
ghost use Rattle.std.specs.Prelude.{◌≡◌, ℤ, pos, ◌-ℤ◌, ◌*ℤ◌, ◌^◌};
ghost use Rattle.plane.specs.Numbers.{IsNear, IsWithin};
ghost use Rattle.plane.specs.Rule.Turns.{cross};
ghost use Rattle.straight_predicates.specs.Signs.{HasSign};
ghost use Rattle.straight_predicates.specs.Meetings.{AreClose};

use super::turns::Turn;
use plane::Point;

/// How the way from `a` over `b` to `c` turns.
pub fn turn(a: Point, b: Point, c: Point) -> Turn
    requires b_close { AreClose a b }
    requires c_close { AreClose a c }
    ensures { HasSign result (cross a b c) }
{
    let cross = cross_product(a, b, c);
    if cross > 0 {
        Turn::Left
    } else if cross < 0 {
        Turn::Right
    } else {
        Turn::Straight
    }
}

fn cross_product(a: Point, b: Point, c: Point) -> i128
    requires b_close { AreClose a b }
    requires c_close { AreClose a c }
    ensures { result ≡ cross a b c }
{
    let bx = difference(b.x, a.x);
    let by = difference(b.y, a.y);
    let cx = difference(c.x, a.x);
    let cy = difference(c.y, a.y);
    determinant(bx, by, cx, cy)
}

/// a - b
pub(super) fn difference(a: i64, b: i64) -> i64
    requires { IsNear (2 ^ 41) b a }
    ensures value { result ≡ a -ℤ b }
    ensures bound { IsWithin (2 ^ 41) result }
{
    a - b
}

/// a d - b c
pub(super) fn determinant(a: i64, b: i64, c: i64, d: i64) -> i128
    requires a { IsWithin (2 ^ 41) a }
    requires b { IsWithin (2 ^ 41) b }
    requires c { IsWithin (2 ^ 41) c }
    requires d { IsWithin (2 ^ 41) d }
    ensures { result ≡ (a *ℤ d) -ℤ (b *ℤ c) }
{
    let ad = product(a, d);
    let bc = product(b, c);
    ad - bc
}

fn product(a: i64, b: i64) -> i128
    requires a { IsWithin (2 ^ 41) a }
    requires b { IsWithin (2 ^ 41) b }
    ensures value { result ≡ a *ℤ b }
    ensures bound { IsWithin (2 ^ 82) result }
{
    i128::from(a) * i128::from(b)
}
