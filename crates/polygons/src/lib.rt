//! The polygons of faces: for each face of a half-edge mesh the rings that bound it, as corners.
//!
//! - **What it answers.** `polygon` gives the rings of one face, `all_polygons` those of every face
//!   of a mesh, `polygons_of` those of some: exactly the circles of `next` over the face's
//!   half-edges, each once. A ring lists where its half-edges begin, from its least half-edge on,
//!   so that its face is on the left of the way. The ring with the least corner, by x,
//!   then y, is first, and of several such rings the one with the least half-edge; the others
//!   follow by their least half-edges. So a face has one spelling.
//! - **How.** One walk over all half-edges finds the circles by their least half-edges. Each is
//!   walked again for its corners, and the first ring is moved to the front.
//! - **What it asks for.** A place for each vertex; for `all_polygons` that each face is below the
//!   given count. It asks for no run: what the half-edges of a face bound in a drawing is said by
//!   `laws`, and that `next` is that of a run by `event_mesh`.
//! - **Degenerate cases.** A face without half-edges has no ring. A ring passes a corner twice
//!   where another part of the face's boundary touches it there; an edge with the face on both
//!   sides stands in its rings twice.
//! - **Their text.** `write_polygons` appends the polygons of areas to a file, in the format of
//!   docs/polygons.md, without memory.
//! - **What they bound** (`laws`). In a drawing of straights without a cut the polygon of a face of
//!   a run's mesh bounds what is joined to a point in that face.
//! - **Not here:** which face a point lies in, and the drawings of areas.
//!
//! Cost: linear in the half-edges of the mesh and in the faces; 16 bytes a corner, and for a while
//! 1 byte a half-edge and 4 a circle.
#![tactic(auto)]

mod areas;
mod building;
mod choosing;
mod circles;
mod kinds;
pub mod laws;
mod leading;
mod tracing;
mod writing;

pub use areas::{AreaObjects, AreaPolygons, ObjectPolygon, with_lines};
pub use building::{all_polygons, polygon};
pub use choosing::polygons_of;
pub use kinds::{Polygon, Ring};
pub use writing::write_polygons;
