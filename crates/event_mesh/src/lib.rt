//! The mesh of a run over edges: its vertices are the events, and about each of them the
//! half-edges are linked in the order in which the run gives them.
//!
//! - **What it does.** `mesh_of` makes a mesh with a vertex for each event and an edge for each
//!   edge, nothing linked. `turn_event` takes the edges that start and that end at one event, as a
//!   replay has them, and links the half-edges that begin there: those over the starting edges from
//!   bottom to top, then those under the ending edges from top to bottom, which is their order
//!   counterclockwise from straight down.
//! - **What it keeps.** `IsTurned` says how far a mesh has come: the half-edges begin at the events
//!   of their edges' ends, the events before a number are turned, and nothing that begins at a
//!   later one was linked yet. `turn_event` takes it from one number to the next.
//! - **What it is for** (`laws`). When all events of a complete run are turned, `next` of the mesh
//!   is exactly the next half-edge of the run: a half-edge's next one starts where it ends, first
//!   clockwise after its twin.
//! - **Not here:** how the events and the edges about them are found, whether they are a run, and
//!   what a face is. The edges' coordinates are only seen by the contracts.
//! - **Degenerate cases.** No event, no edge, an event at which edges only start or only end,
//!   several edges between two events.
//!
//! Cost: `mesh_of` is linear in the edges and keeps 32 bytes for each; `turn_event` is linear in
//! the edges of the event and takes no memory, since the caller lends it room for their half-edges.
#![tactic(auto)]

mod building;
pub mod laws;
mod turning;

pub use building::mesh_of;
pub use turning::turn_event;
