//! Exact predicates for straights: how three points turn, how two edges meet, which of two points
//! comes first; and the order of many edges: by their ends, by slope, and from below at a point.
//!
//! - **What it answers.** `turn` has the exact sign of a cross product. `meet` is exact both ways:
//!   `Apart` exactly where the two edges share no place at all, `CommonEnd` exactly where they
//!   share one end and nothing else, `Bad` exactly where they share a place that is no common end.
//!   A place is any point with rational coordinates, not only a whole one. `is_on_straight` says
//!   whether a point is on a straight, and `before` is the order by x, then y.
//! - **The rule that it serves.** Lines of an area meet in control points alone: two straights are
//!   bad exactly where their edges are (`plane::rule::edges_of_straights`).
//! - **What it asks for.** Coordinates that differ by less than 2^41; the points of one window do.
//!   `meet` also asks for edges whose `low` is before their `high`.
//! - **Degenerate cases.** Upright edges, equal edges, edges of one line that overlap, touch or
//!   leave a gap, and ends that coincide in each of the four ways are all taken.
//! - **Lists of edges.** `Timetable` is the ends of edges in order, each with the edges that end
//!   there, by number, and those that start there, by slope and then by number; it also gives the
//!   events of each edge's ends (`edge_events`), for a mesh of them. `cut` finds the place of a
//!   point in a list of edges; it promises the two edges beside the place and asks for no order of
//!   the list. `ChunkedList` is a list that is changed in place, in chunks of at most 1,024 values.
//!   A sweep and a replay both work with these three; neither is here.
//! - **Slopes.** `slope` compares directions to the right or straight up. Those have one strict
//!   order, which a sort needs; directions of all ways round have none.
//! - **Not here:** no half arcs, and no coordinates of a crossing.
//!
//! Cost: a turn is two products of 64-bit numbers to 128 bits; `meet` takes at most four turns and
//! a few comparisons. None of these takes memory. A timetable of m edges takes O(m log m) time, and
//! at most 88 bytes an edge while it is made, 32 of them for the ends that it sorts; its readers
//! are one load, but `edge_events`, which is linear and takes 8 bytes an edge, and `widest`, which
//! is linear in the events.
//!
//! A `ChunkedList` to which m values were put in in all has at most m / 256 + 1 chunks, since a
//! chunk is only cut where it is full; on maps it is one. `get` counts the chunks before a place,
//! one load each. `cut` takes a turn for each halving of the list, and counts as `get` does.
//! `replace` counts, and moves the values of one chunk, 1,024 at most, beside those that come and
//! go; it takes memory where a chunk grows or is cut. `copy_part` takes what it copies.
#![tactic(auto)]

mod beside;
mod between;
mod chunk;
mod chunked_list;
mod chunks;
mod cutting;
mod directions;
mod edge_events;
mod end_list;
mod events;
mod meeting;
mod meets;
mod on_straights;
mod order;
mod packing;
mod parting;
mod rays;
mod slopes;
mod slots;
mod stops;
mod timetable;
mod turning;
mod turns;

pub use beside::{edge_at, edge_before};
pub use between::edge_between;
pub use chunked_list::ChunkedList;
pub use cutting::{cut, turn_over};
pub use directions::Direction;
pub use edge_events::EdgeEvents;
pub use meeting::meet;
pub use meets::Meet;
pub use on_straights::is_on_straight;
pub use order::before;
pub use slopes::slope;
pub use timetable::Timetable;
pub use turning::turn;
pub use turns::Turn;
