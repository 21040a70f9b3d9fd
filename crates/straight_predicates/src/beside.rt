// The edges beside a place of a list.
ghost use Rattle.std.specs.Prelude.{◌≡◌, ◌≤◌, length};
ghost use Rattle.plane.specs.Runs.Gaps.{edge_at, edge_before};

use super::chunked_list::ChunkedList;

/// The edge before a place of the list, and None before all.
pub fn edge_before(live: &ChunkedList<u32>, place: usize) -> Option<u32>
    requires { place ≤ length live.now }
    ensures { result ≡ edge_before live.now place }
{
    if place == 0 {
        None
    } else {
        Some(live.get(place - 1))
    }
}

/// The edge at a place of the list, and None after all.
pub fn edge_at(live: &ChunkedList<u32>, place: usize) -> Option<u32>
    ensures { result ≡ edge_at live.now place }
{
    if place < live.len() {
        Some(live.get(place))
    } else {
        None
    }
}
