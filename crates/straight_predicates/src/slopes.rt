// The order of directions by slope.
ghost use Rattle.std.specs.Prelude.{◌≡◌, pos};
ghost use Rattle.std.specs.Ordering.{int_cmp};
ghost use Rattle.straight_predicates.specs.Slopes.{turn_between};

use super::directions::Direction;
use super::turning::determinant;
use std::cmp::Ordering;

/// The order of two directions by slope, from the one nearest to straight down to straight up:
/// Less exactly where `b` is to the left of `a`, and Equal exactly where both are one way. It
/// takes two products and no memory.
pub fn slope(a: &Direction, b: &Direction) -> Ordering
    ensures { result ≡ int_cmp (pos 0) (turn_between a.now b.now) }
{
    0.cmp(&determinant(a.x, a.y, b.x, b.y))
}
