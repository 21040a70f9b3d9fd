//! Where points lie in a run over edges: in which cell, or on which edge.
//!
//! - **What it answers.** For each point either its cell, as the place of the point in the live
//!   list after the events before it, with the edges beside that place; or, where the point lies on
//!   edges, the least number of such an edge.
//! - **How.** The points are sorted by x, then y, and the events of a sweep are replayed once.
//!   Before each point all events that come before it are applied. At the place of an event the
//!   edges through the point are those that end or start there; at any other place a search of the
//!   live list finds the edge through the point, of which there is one at most, or the place
//!   between two edges. Equal points share one answer.
//! - **What it asks for.** The events of a complete run over the edges, as a sweep answers them,
//!   and points less than 2^41 from the edges' ends in each coordinate.
//! - **Degenerate cases.** Points at vertices, on edges, on upright edges, equal points, points
//!   below all edges, above all or before and after all events, no point and no edge are all taken.
//! - **Not here:** which face a cell belongs to, and whether a point lies on a half arc.
//!
//! Cost: O((p + events) log (m + p)) for p points and m edges, and what the live list moves, as in
//! the sweep; the edges of each event are gone over once, however many points lie there. It takes
//! 48 bytes a point before the replay begins, and up to 8 a live edge in it.
#![tactic(auto)]

mod between;
mod locating;
mod numbered;
mod places;
mod placing;
mod replaying;

pub use locating::locate;
pub use places::Place;
