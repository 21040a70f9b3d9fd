// Where a point lies in a list of edges.
ghost use Rattle.std.specs.Prelude.{◌≡◌, ◌+◌, ◌<◌, ◌≤◌, ◌↔◌, ℕ, suc, pos, ◌<ℤ◌, ◌≤ℤ◌, IsTrue, []};
ghost use Rattle.std.specs.Prelude.{length, slice_index_or};
ghost use Rattle.plane.specs.Runs.Positions.{turn_at};
ghost use Rattle.straight_predicates.specs.EdgeLists.{edge_of, AreBelow, IsCloseToAll};
ghost use Rattle.straight_predicates.specs.Chunks.{first_of, joined};
ghost use Rattle.straight_predicates.specs.Signs.{HasSign};

use super::chunk::Chunk;
use super::chunked_list::ChunkedList;
use super::chunks::start;
use super::turning::turn;
use super::turns::Turn;
use plane::{Edge, Point};

/// How the point lies over the edge of that number: Left where it is strictly above.
pub fn turn_over(edges: &[Edge], edge: u32, at: Point) -> Turn
    requires known { edge < length edges.now }
    requires close { IsCloseToAll edges.now at }
    ensures { HasSign result (turn_at (edge_of edges.now) edge at) }
{
    let Edge { low, high } = edges[edge as usize];
    turn(low, high, at)
}

/// A place in a list of edges such that the point is strictly above the edge before it, and not
/// above the edge after it. Where the list is in order at the point, all edges before the place
/// are strictly below the point and no other is. It takes no memory, and a turn for each halving
/// of the list, of whose chunks it then counts those before the place.
pub fn cut(live: &ChunkedList<u32>, edges: &[Edge], at: Point) -> usize
    requires known { AreBelow (length edges.now) live.now }
    requires close { IsCloseToAll edges.now at }
    ensures within { result ≤ length live.now }
    ensures below { (i : ℕ) → result ≡ suc i
        → pos 0 <ℤ turn_at (edge_of edges.now) (slice_index_or live.now i 0) at }
    ensures above { result < length live.now
        → turn_at (edge_of edges.now) (slice_index_or live.now result 0) at ≤ℤ pos 0 }
{
    let chunks = live.chunks();
    if chunks.is_empty() {
        return 0;
    }
    let chunk = last_below(chunks, edges, at);
    start(chunks, chunk) + cut_chunk(chunks[chunk].values(), edges, at)
}

// The last chunk whose first edge is strictly below the point, as far as the chunks are in order;
// else the first chunk.
fn last_below(chunks: &[Chunk<u32>], edges: &[Edge], at: Point) -> usize
    requires some { 0 < length chunks.now }
    requires known { AreBelow (length edges.now) (joined chunks.now) }
    requires close { IsCloseToAll edges.now at }
    ensures known { result < length chunks.now }
    ensures below { (b : ℕ) → result ≡ suc b
        → pos 0 <ℤ turn_at (edge_of edges.now) (first_of chunks.now result) at }
    ensures next { result + 1 < length chunks.now
        → 0 < length (slice_index_or chunks.now (result + 1) []) }
    ensures above { result + 1 < length chunks.now
        → turn_at (edge_of edges.now) (first_of chunks.now (result + 1)) at ≤ℤ pos 0 }
{
    let mut low = 0;
    let mut high = chunks.len() - 1;
    while low < high {
        let middle = high - (high - low) / 2;
        let first = chunks[middle].values()[0];
        if is_below(edges, first, at) {
            low = middle;
        } else {
            high = middle - 1;
        }
    }
    low
}

// The same place in one chunk.
fn cut_chunk(live: &[u32], edges: &[Edge], at: Point) -> usize
    requires known { AreBelow (length edges.now) live.now }
    requires close { IsCloseToAll edges.now at }
    ensures within { result ≤ length live.now }
    ensures below { (i : ℕ) → result ≡ suc i
        → pos 0 <ℤ turn_at (edge_of edges.now) (slice_index_or live.now i 0) at }
    ensures above { result < length live.now
        → turn_at (edge_of edges.now) (slice_index_or live.now result 0) at ≤ℤ pos 0 }
{
    let mut low = 0;
    let mut high = live.len();
    while low < high {
        let middle = low + (high - low) / 2;
        if is_below(edges, live[middle], at) {
            low = middle + 1;
        } else {
            high = middle;
        }
    }
    low
}

// Whether the edge is strictly below the point.
fn is_below(edges: &[Edge], edge: u32, at: Point) -> bool
    requires known { edge < length edges.now }
    requires close { IsCloseToAll edges.now at }
    ensures { IsTrue result ↔ (pos 0 <ℤ turn_at (edge_of edges.now) edge at) }
{
    turn_over(edges, edge, at) == Turn::Left
}
