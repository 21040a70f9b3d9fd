//! Exact predicates for half arcs: the circle through three points, the side of a place for it,
//! and whether a straight crosses a half arc.
//!
//! - **What it answers.** `circle` gives the whole numbers of the circle through three points;
//!   a `Circle` always has those of its points. `side` says whether a place is inside, on or
//!   outside the circle. `crosses` finds the first two neighbours among the seventeen places at
//!   sixteenths of a straight of which one is strictly inside and the other strictly outside, both
//!   not on the third point's side of the chord. All are exact both ways: `None` comes exactly
//!   where there is no circle, no side or no crossing of that kind.
//! - **The rule that it serves.** Two curves of an area meet in control points alone. A pair that
//!   `crosses` finds is bad (`plane::rule::bad_curves_are_not_apart`); a crossing between two of
//!   the places is not found, and no coordinates of a crossing are computed.
//! - **What it asks for.** Coordinates that differ by less than 2^41; the points of one window do.
//! - **What has no answer.** A circle is made where its points are not collinear and differ by less
//!   than 2^26 in each coordinate; a place has a side where it is less than 2^28 from the first
//!   point in each coordinate. So each product fits 128 bits; its width stands beside it.
//! - **Degenerate cases.** Third points on either side, half a turn and more, nearly straight
//!   points, places on the chord and at the ends, and straights inside or through the circle in one
//!   step are all taken.
//! - **For the crates above:** sums of two products in 128 bits (`dot`, `determinant`) and the sign
//!   of a product that is not made (`is_at_most_zero`), as the conditions of a tube ask for them.
//! - **Not here:** meetings of two curves, and covers of half arcs.
//!
//! Cost: a circle is eight products to 128 bits, a side at most eight, a crossing at most seventeen
//! sides. Nothing takes memory.
#![tactic(auto)]

mod circles;
mod circling;
mod crossing;
mod numbers;
mod placing;
mod sides;
mod trials;

pub use circles::Circle;
pub use circling::circle;
pub use crossing::crosses;
pub use numbers::{determinant, dot};
pub use placing::{is_at_most_zero, is_away, place_of, side};
pub use sides::Side;
pub use trials::Trial;
