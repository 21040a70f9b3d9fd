//! Whether two curves of a drawing meet badly.
//!
//! - **What it answers.** `bad_meeting`: some pair of curves that is bad, the lesser number first,
//!   or None exactly where the drawing has no such pair. Two straights are named where some are
//!   bad; else the least pair with a half arc, by its first number, then by its second
//!   (`arc_meeting`; `arc_meeting_among`, where each such pair has one of some curves).
//!   `has_many_pairs`: whether these would be many pairs to look at. `is_bad`: whether two curves,
//!   given by their numbers, are bad.
//!   `sweep_straights`: the run of the straights' edges, or two that are bad. `is_on`: whether a
//!   point is on a curve. `reach`: a box that holds a curve; `curve_reaches`: one for each.
//! - **The rule that it serves.** Lines of an area meet in control points alone. What it names is
//!   not apart in the sense of that rule (`plane::rule::bad_curves_are_not_apart`).
//! - **How.** The straights' edges are swept (`line_sweep`). Pairs with a half arc are tested where
//!   their boxes share a place (`near_pairs`); two bad curves do
//!   (`plane::arcs::boxes_of_bad_curves_meet`). It makes no difference which object a curve belongs
//!   to: a line that crosses itself is found like any other.
//! - **What it does not see.** A straight that crosses a half arc between two neighbouring
//!   sixteenths, two half arcs that cross, what lies 2^28 units or more from a half arc's first
//!   end, and half arcs whose points differ by 2^26 or more: such pairs are not bad, though they
//!   may not be apart either.
//! - **Degenerate cases.** Equal straights, straights back over each other, upright ones, half arcs
//!   over half a turn, one half arc drawn twice and no curve at all are taken.
//!
//! Cost: that of a sweep over the straights; then half arcs times the curves that begin within
//! their boxes along x, or the other way round, at most half arcs times all. Memory is linear: a
//! sweep's and 36 bytes a curve, then 65 bytes a curve. Without a half arc the second part is one
//! walk over the curves. `is_bad` looks at its two curves alone and takes no memory.
#![tactic(auto)]

mod arcs;
mod badness;
mod circle_reach;
mod edges;
mod finding;
mod pairs;
mod placing;
mod reaching;
mod straight_runs;

pub use arcs::{arc_meeting, arc_meeting_among, curve_reaches, half_arc_marks, has_many_pairs};
pub use badness::is_bad;
pub use edges::Straights;
pub use finding::bad_meeting;
pub use pairs::BadPair;
pub use placing::is_on;
pub use reaching::reach;
pub use straight_runs::{StraightRun, sweep_straights};
