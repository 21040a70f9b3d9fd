//! The sweep over edges: which of them are neighbours, from event to event, and whether any two
//! meet badly.
//!
//! - **What it answers.** Either the events in order, with the place and number of the edges that
//!   end at each and the edges that start there, and every pair of neighbours of the live list with
//!   the event that made them so; or two edges that are `Bad` by `straight_predicates::meet`. Two
//!   such edges are named exactly where there are any; which, where there are several, is free.
//! - **How.** The live list holds the edges that cross the sweep line, from below. At each event
//!   those that end there are one block, found by a search for the event in the list. The edges
//!   that start there take its place, by slope. Only edges that become neighbours are tested, and
//!   the one after the block, whether it goes through the event. That this is enough is a law of
//!   `plane`: where nothing is found the events are a complete run, in which no two edges are bad.
//! - **What it asks for.** Fewer than 2^31 edges, the low end of each before its high end, and all
//!   ends within 2^41 of each other in each coordinate.
//! - **Degenerate cases.** Upright edges, edges of one line, equal edges, many edges in one point,
//!   edges that begin where others end or on others, and no edge at all are all taken.
//! - **Groups of bad edges.** `clashing` continues past two bad edges: it leaves out all edges of
//!   the group of one or of both, and marks these groups, for whoever sweeps the others. It
//!   promises nothing of the marks.
//! - **Not here:** no faces, no half-edges and no points but the edges' ends.
//!
//! Cost: O((m + events) log m) for m edges, and the entries that both chunked lists shift. The live
//! list and the keys of the open cells are kept in chunks (`straight_predicates::ChunkedList`): an
//! event moves at most 1,024 entries of 4 bytes in the one and of 8 in the other, beside those that
//! come and go, however many edges are live, and passes over the chunks before its place, of which
//! there are at most m / 256 + 1. On maps some hundreds of edges are live, in one chunk. The open
//! cells are in a `slab`, each with the event that opened it: a cell that closes leaves its slot to
//! the next one that opens, so that there are as many slots as cells were open at a time. The
//! answer takes 12 bytes an edge, 32 an event and 12 a cell; it keeps the timetable of the edges,
//! the edges that end in one list, and no list for an event. `clashing` takes no more time.
#![tactic(auto)]

mod blocks;
mod cells;
mod clashes;
mod events;
mod keeping;
mod kinds;
mod state;
mod sweeping;

pub use clashes::{BadEdges, clashing};
pub use events::{EndingBlock, Event, Events};
pub use kinds::{Cell, CellEdge, SweepRefusal, Swept};
pub use sweeping::sweep;
