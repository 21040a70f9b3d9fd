//! The faces of a half-edge mesh, from the cells of a sweep.
//!
//! - **What it answers.** `label` gives each half-edge the number of its face. Two half-edges have
//!   one number exactly where they are joined: by the way round a face, by a cell between two
//!   edges, or over the border, which joins all half-edges that were lowest or highest of a live
//!   list. So the outline of a hole has the face of the ring about it, and an island lies in the
//!   face that surrounds it. Face 0 is the one outside all edges; the others are numbered in the
//!   order of their least half-edge.
//! - **How.** A search along the queue of half-edges that have a face: first from all that were at
//!   the border, then from each that has none yet, in order. It knows the cells only by what they
//!   join (`Joins`): the half-edges across a cell stand in rows, one for each half-edge, which are
//!   counted and then filled from the end, and those at the border in a list.
//! - **What it asks for.** The edges of the cells are edges of the mesh. It asks for no run and no
//!   coordinates: what joined half-edges are in the plane is a law of `plane`.
//! - **Degenerate cases.** No edge, no cell, several parts, dangling edges and rings that touch in
//!   a vertex are all taken.
//! - **Links.** `links` notes of each half-edge its face, how few steps lead from it to one of the
//!   given roots, and the first step of such a way: to the next half-edge, to the previous one, or
//!   across a cell, in this order. It asks that each half-edge leads to a root. That its ranks are
//!   the least numbers of steps is a law (`laws`).
//! - **Cells that are freed.** `label_with_joins` takes the cells by value, frees them before it
//!   searches, and answers their joins with the mesh; `links_by_joins` takes these for the cells.
//! - **Not here:** which object a face belongs to, and which half-edges are roots.
//!
//! Cost: linear in the half-edges and the cells; `links` also sorts its p roots, p log p. Joins
//! take 4 bytes a half-edge, 8 a cell and 4 a half-edge at the border; beside them a search takes
//! 8 bytes a half-edge, and that of `links` also 4 a root. `label` and `links` keep none of it. Of
//! 2^31 cells and more, some 26 GB of them, the joins take 8 bytes a half-edge in place of 4: the
//! places of the rows are then numbers of 64 bits.
#![tactic(auto)]

mod graph;
mod joins;
mod labelled;
mod labelling;
pub mod laws;
mod linking;
mod partners;
mod ranks;
mod searching;
mod spreading;
mod starts;

pub use joins::Joins;
pub use labelled::{JoinedMesh, Labelled};
pub use labelling::{label, label_with_joins};
pub use linking::{links, links_by_joins};
