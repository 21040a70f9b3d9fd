// Points on a straight.
ghost use Rattle.std.specs.Prelude.{◌↔◌, pos, ◌*ℤ◌, ◌-ℤ◌, ◌≤ℤ◌, IsTrue};
ghost use Rattle.plane.specs.Rule.Places.{point};
ghost use Rattle.plane.specs.Rule.Straights.{IsOnStraight};
ghost use Rattle.straight_predicates.specs.Meetings.{AreClose};

use super::turning::turn;
use super::turns::Turn;
use plane::Point;

/// Whether the point is on the straight from `a` to `b`, its ends included. It takes no memory.
pub fn is_on_straight(a: Point, b: Point, p: Point) -> bool
    requires ends { AreClose a b }
    requires point { AreClose a p }
    ensures { IsTrue result ↔ IsOnStraight (point a) (point b) (point p) }
{
    match turn(a, b, p) {
        Turn::Straight => is_in_box(a, b, p),
        Turn::Left => false,
        Turn::Right => false,
    }
}

// Whether the point is from `a` to `b` in each coordinate.
fn is_in_box(a: Point, b: Point, p: Point) -> bool
    ensures { IsTrue result ↔ ((((a.x -ℤ p.x) *ℤ (b.x -ℤ p.x)) ≤ℤ pos 0)
        × (((a.y -ℤ p.y) *ℤ (b.y -ℤ p.y)) ≤ℤ pos 0)) }
{
    is_between(a.x, b.x, p.x) && is_between(a.y, b.y, p.y)
}

fn is_between(a: i64, b: i64, z: i64) -> bool
    ensures { IsTrue result ↔ (((a -ℤ z) *ℤ (b -ℤ z)) ≤ℤ pos 0) }
{
    if a <= z { z <= b || z == a } else { b <= z }
}
