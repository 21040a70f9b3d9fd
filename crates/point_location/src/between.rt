// The place of a point in a live list.
ghost use Rattle.std.specs.Prelude.{◌<◌, ◌^◌, length};
ghost use Rattle.straight_predicates.specs.EdgeLists.{edge_of, AreBelow, IsCloseToAll};
ghost use Rattle.point_location.specs.Between.{IsBetween};

use super::places::Place;
use plane::{Edge, Point};
use straight_predicates::{ChunkedList, Turn, cut, edge_at, edge_before, turn_over};

/// The edge of the list whose line goes through the point, or the place of the point between the
/// edges. It takes no memory, and a search.
pub fn place_between(edges: &[Edge], live: &ChunkedList<u32>, at: Point) -> Place
    requires few { length live.now < 2 ^ 32 }
    requires known { AreBelow (length edges.now) live.now }
    requires close { IsCloseToAll edges.now at }
    ensures { IsBetween (edge_of edges.now) live.now at result }
{
    let position = cut(live, edges, at);
    if position < live.len() && turn_over(edges, live.get(position), at) == Turn::Straight {
        return Place::OnEdge(live.get(position));
    }
    Place::Cell {
        position: position as u32,
        lower: edge_before(live, position),
        upper: edge_at(live, position),
    }
}
