//! The checker of certificates: whether a certificate proves that a drawing of straights and half
//! arcs is a partition, by one replay of its events and no search.
//!
//! - **What it answers.** `check` takes a drawing and a certificate that anyone may have made. It
//!   answers `Proved` exactly where all rules of the certificate format hold of the drawing that
//!   the certificate is of, and then this is a partition, settled at the certificate's level: its
//!   lines meet only in control points, and each bounded face holds exactly one object's point.
//!   Else it names the first rule that is broken, and its place.
//! - **The rules** stand in `docs/certificate-format.md`, and as definitions in `specs/Rules.antt`.
//!   Rule 2 asks for tubes of all half arcs at the level, and for the counts; 3 at each event that
//!   corners of tubes are their own; 4 to 7 of each event its block in the live list, the edges
//!   beside it, the slopes of the edges that start there and the labels of new neighbours; 8 the
//!   labels of each edge: that of its tube within and one outside each chain, else at most the
//!   number of points; 9 the cell of each point, or the tube that holds it and its side of the
//!   circle; 10 the link of each half-edge; 11 of each curve that its two sides have two labels.
//!   They are judged in this order, 4 to 7 event by event. The place of rule 8 is the curve of the
//!   first edge that has not the labels it needs.
//! - **How.** The edges of the drawing at the certificate's level give its events; the certificate
//!   says where each stands in the live list. The replay keeps the list, turns the mesh of events,
//!   marks each half-edge that was beside a border, across a cell from the one that its note names,
//!   or beside a placed point, and looks at each point when the events before it are done. That the
//!   list is in order is never tested and never assumed: it follows when all events have passed.
//!   Whether a tube holds a point that is placed there is asked before the replay, of a tube that
//!   is made for it.
//! - **The laws** (`laws`): what is proved is a partition, and settled at its level; claims that
//!   give a run with tubes and what certifies it prove; what is broken is not proved; there is one
//!   first broken rule.
//! - **Of which drawing.** A certificate says whether it is of the drawing itself or of what
//!   becomes of it when its forks are bent (`forks::bent`). The rules are judged on that drawing,
//!   and what is proved is proved of it. Whether a level settles the drawing itself, so that nobody
//!   needed to bend it, is not asked.
//! - **Not here.** The names in a certificate are not read. This crate stands on no sweep, face or
//!   search.
//! - **Degenerate cases.** No curve, no point, upright and equal straights, many in one point,
//!   points at corners, on lines and on half arcs, half arcs without a tube, a level above 5, links
//!   to half-edges and places in curves that are not there, and counts that do not fit. A drawing
//!   has at most 16,000,000 curves; so it has fewer than 2^31 edges, bent or not, and half-edges
//!   have numbers of 32 bits (`laws::grounds_have_few_edges`).
//!
//! Cost: a certificate whose edges or points are not as many as the drawing's is answered by
//! counting the curves, before any edge or tube is made. Any other takes O((m + p) log (m + p))
//! for m edges and p points, and what the live list moves: at each event one block of it, 1,024
//! edges at most, and a step over each block before the place; and where a block is full, all of
//! it, which comes once for 512 edges that start. A half arc has 2^(level + 2) + 1 edges. For each
//! point that is placed in a tube that tube is made and freed again.
//!
//! Memory is taken before the first event: about 130 bytes an edge, 4 a curve, 25 a point, and 12
//! for each of the most edges that are live at a time, which the timetable tells. The replay takes
//! none, and none of its functions has an error for want of it. A certificate of the bent drawing
//! takes what `forks::bent` takes first.
#![tactic(auto)]

mod blocks;
mod case;
mod chains;
mod checking;
mod curve_sides;
mod edge_labels;
mod events;
mod firsts;
mod holding;
mod labels;
pub mod laws;
mod links;
mod live_list;
mod marks;
mod notes;
mod places;
mod points;
mod replaying;
mod room;
mod state;
mod verdict;

pub use checking::check;
pub use verdict::Verdict;
