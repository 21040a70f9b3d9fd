// Whether a tube holds a point.
ghost use Rattle.std.specs.Prelude.{◌↔◌, IsTrue, pos, ◌≤ℤ◌};
ghost use Rattle.plane.specs.Forms.Vectors.{point};
ghost use Rattle.plane.specs.Lists.{Each};
ghost use Rattle.plane.specs.Rule.Turns.{cross};
ghost use Rattle.plane.specs.Tubes.Bays.{InTriangle};
ghost use Rattle.straight_predicates.specs.Meetings.{AreClose};
ghost use Rattle.tubes.specs.Holding.{AreTurnable, InSomeBay, InSomeGap, InTubeOf, IsLeftOfSides};
ghost use Rattle.tubes.specs.Holding.{IsSomeTube, IsTurnable};

use super::kinds::Tube;
use plane::Point;
use straight_predicates::{Turn, turn};

/// Whether the point is in one of the closed triangles of a tube that `tube` gave. It takes no
/// memory.
pub fn holds(tube: &Tube, at: Point) -> bool
    requires made { IsSomeTube tube.now }
    requires inner { Each (λ p. AreClose p at) tube.now.inner.items }
    requires outer { Each (λ p. AreClose p at) tube.now.outer.items }
    ensures { IsTrue result ↔ InTubeOf tube.now (point at) }
{
    is_in_bays(&tube.inner, &tube.outer, at) || is_in_gaps(&tube.inner, &tube.outer, at)
}

fn is_in_bays(inner: &[Point], outer: &[Point], at: Point) -> bool
    requires { AreTurnable inner.now outer.now at }
    ensures { IsTrue result ↔ InSomeBay inner.now outer.now (point at) }
{
    for i in 0..outer.len() {
        if is_in_triangle(inner[i], inner[i + 1], outer[i], at) {
            return true;
        }
    }
    false
}

fn is_in_gaps(inner: &[Point], outer: &[Point], at: Point) -> bool
    requires { AreTurnable inner.now outer.now at }
    ensures { IsTrue result ↔ InSomeGap inner.now outer.now (point at) }
{
    for i in 1..outer.len() {
        if is_in_triangle(inner[i], outer[i - 1], outer[i], at) {
            return true;
        }
    }
    false
}

/// Whether the point is in the closed triangle of three corners that are not collinear, whichever
/// way they turn. It takes no memory.
pub fn is_in_triangle(p: Point, q: Point, r: Point, at: Point) -> bool
    requires { IsTurnable p q r at }
    ensures { IsTrue result ↔ InTriangle (point at) (point p) (point q) (point r) }
{
    match turn(p, q, r) {
        Turn::Left => is_left_of_sides(p, q, r, at),
        Turn::Right => is_left_of_sides(p, r, q, at),
        Turn::Straight => false,
    }
}

fn is_left_of_sides(p: Point, q: Point, r: Point, at: Point) -> bool
    requires { IsTurnable p q r at }
    ensures { IsTrue result ↔ IsLeftOfSides p q r at }
{
    is_left(p, q, at) && is_left_of_two(q, r, p, at)
}

fn is_left_of_two(q: Point, r: Point, p: Point, at: Point) -> bool
    requires second { AreClose q r }
    requires third { AreClose r p }
    requires q_at { AreClose q at }
    requires r_at { AreClose r at }
    ensures { IsTrue result ↔ ((pos 0 ≤ℤ cross q r at) × (pos 0 ≤ℤ cross r p at)) }
{
    is_left(q, r, at) && is_left(r, p, at)
}

fn is_left(p: Point, q: Point, at: Point) -> bool
    requires q_close { AreClose p q }
    requires at_close { AreClose p at }
    ensures { IsTrue result ↔ (pos 0 ≤ℤ cross p q at) }
{
    !matches!(turn(p, q, at), Turn::Right)
}
