//! All faults of the drawing of an area, in one call.
//!
//! - **What it answers.** `all_faults` tells all pairs of curves that meet badly, all points on
//!   curves, and what is at fault in the faces (`fault_lists`). Of a drawing of straights the
//!   curves that meet badly are left out, and the faces of the others are judged; those that a
//!   curve enters that is left out are told to be open. A drawing with half arcs is judged so where
//!   some level settles it, with nothing left out. Where none does, and no two curves meet badly,
//!   its forks are bent (`forks`); where some level settles the bent drawing, the faces of that are
//!   judged, by its curves, and points on curves are those of the drawing. Else all curves are left
//!   out, so that no face is judged, and the answer of `area_search` is told beside.
//! - **The rule that it serves.** Each fault of the drawing, on what is judged of it, is told, or
//!   lies in a face that is told to be open (`fault_lists::laws::each_fault_is_told`). The fault
//!   that `area_search` answers is the first in the first list that has any, and it answers a
//!   certificate exactly where none has one (`laws`).
//! - **Too many.** Only where more than 1,000,000 pairs meet badly, or there are more than 2,000,000
//!   pairs of a point and a curve on which it lies, of the curves that are left out, it may be that
//!   some of the pairs that meet badly are told and nothing else. Since each pair is found once or
//!   twice, up to 2,000,001 and 4,000,001 may all be told. Left out are the curves that meet others
//!   badly, or, of a drawing with half arcs, all. No level settles such a drawing.
//! - **Degenerate cases.** No curve, no point, equal curves, curves that end within a face and
//!   points at vertices are all taken.
//! - **Not here:** lines of the transfer, coordinates in a model's decimals, and any text.
//!
//! Cost: the levels as in `area_search`. Where none settles: two sweeps of the straights, up to
//! nine times; a test of each pair of a marked curve and another whose boxes share a place, up to
//! 2,000,000 findings; the same for points and curves left out, up to 4,000,000. Each pair is found
//! once or twice. Then of straights a sweep of the rest with its faces; with half arcs, where no
//! two curves meet badly, the bent drawing and its levels, and where none settles it the search.
#![tactic(auto)]

mod crossings;
mod kinds;
pub mod laws;
mod left_out;
mod marks;
mod meeting_lists;
mod meeting_places;
mod one_face;
mod point_list;
mod rest;
mod telling;

pub use kinds::AreaFaults;
pub use meeting_lists::{MeetingList, all_meetings};
pub use meeting_places::meeting_place;
pub use rest::rest_faces;
pub use telling::all_faults;
