//! The half-edge mesh: half-edges by number, with the next and the previous one round each face.
//!
//! This layer turns edges between vertices, and for each vertex the order of the edges about it,
//! into cycles of half-edges, each of which bounds a face. It keeps the rule that a boundary is
//! closed: every half-edge has one `next` and one `prev`, and each undoes the other.
//!
//! - **Half-edges.** Edge e has two: 2e runs from the edge's high vertex to its low one and has
//!   on its left the side below the edge; 2e + 1 runs back and has on its left the side above.
//! - **What a contract sees** (`HalfEdges`): the number of vertices and four lists with one entry
//!   for each half-edge: `next`, `prev`, `origin` and `face`. What always holds of them
//!   (`IsMesh`) is kept by the type. `edges` gives it, and no other clause repeats it.
//! - **Linking.** `add_edge` adds an edge whose two halves follow each other. `link` takes all
//!   half-edges that begin at one vertex, in their order about it, and makes `next` of the twin of
//!   each the one before it in the list, the last one before the first. One vertex is linked as a
//!   whole and once, so that the invariant never breaks.
//! - **Faces.** Each half-edge has face 0 until `set_faces`, and again after any later `add_edge`
//!   or `link`. `set_faces` takes only numbers that are the same along `next` (`faces_agree`).
//! - **Not checked here:** there are no coordinates. Whether the order about a vertex is the
//!   counterclockwise one, whether edges cross, and what a face's number means, is for the layers
//!   above.
//! - **Degenerate cases:** no vertex, no edge, a vertex with no edge, an edge that ends at a free
//!   vertex (its two halves follow each other there), several edges between two vertices, several
//!   parts that are not connected. An edge from a vertex to itself is ruled out by the
//!   condition of `add_edge`.
//! - **Laws** (`laws`), for the layers above: the half-edges that begin at a linked vertex form one
//!   cycle of `next` of `twin`, which is the list backwards; linking one vertex leaves the
//!   others as they are; the cycles of `next` part the half-edges; what agrees along `next` is
//!   the same along each cycle.
//!
//! Cost: four lists of `u32` side by side, 16 bytes a half-edge, and of the vertices only their
//! number. `new` takes no memory for them yet, `with_capacity` all that so many edges need;
//! `add_edge` is amortised constant, `link` is linear in its list. Where faces were set before, the
//! first of these two also clears them, once after each `set_faces`. `faces_agree` and `set_faces`
//! are linear in the half-edges, the other calls one load. Only `new`, `with_capacity` and
//! `add_edge` may answer `Memory`.
//!
//! A triangle with the vertices 0, 1 and 2, its edges 0-1, 0-2 and 1-2 in this order, and the
//! stars (1, 3), (5, 0) and (2, 4):
//!
//! | half-edge | from | to | twin | next | prev |
//! |---|---|---|---|---|---|
//! | 0 | 1 | 0 | 1 | 3 | 4 |
//! | 1 | 0 | 1 | 0 | 5 | 2 |
//! | 2 | 2 | 0 | 3 | 1 | 5 |
//! | 3 | 0 | 2 | 2 | 4 | 0 |
//! | 4 | 2 | 1 | 5 | 0 | 3 |
//! | 5 | 1 | 2 | 4 | 2 | 1 |
#![tactic(auto)]

mod ids;
pub mod laws;
mod mesh;

pub use ids::{FaceId, HalfEdgeId, VertexId};
pub use mesh::Mesh;
