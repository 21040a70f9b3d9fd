// The places of points, point by point.
ghost use Rattle.std.specs.Prelude.{ℕ, ◌^◌, ◌<◌, [], length, IfOk, slice_index_or};
ghost use Rattle.plane.specs.Runs.Moves.{Fit, steps_from};
ghost use Rattle.plane.specs.Runs.Steps.{Run};
ghost use Rattle.straight_predicates.specs.EdgeLists.{edge_of, no_point, IsCloseToAll};
ghost use Rattle.point_location.specs.Places.{ArePlaces};

use super::numbered::in_order;
use super::places::Place;
use super::placing::place_at;
use super::replaying::apply_before;
use line_sweep::Swept;
use plane::{Edge, Point};
use ports::Memory;
use std::alloc::Global;
use straight_predicates::ChunkedList;

/// The place of each point in the run that the events of a sweep over these edges make. The only
/// error is out of memory. For the costs see the head of the crate.
pub fn locate(
    alloc: Global,
    edges: &[Edge],
    swept: &Swept,
    points: &[Point],
) -> Result<Vec<Place>, Memory>
    requires few { length edges.now < 2 ^ 31 }
    requires run { Run (length edges.now) (edge_of edges.now) (steps_from []
        swept.now.events) }
    requires fit { Fit [] swept.now.events }
    requires close { (j : ℕ) → j < length points.now
        → IsCloseToAll edges.now (slice_index_or points.now j no_point) }
    ensures { IfOk result (λ places. ArePlaces edges.now swept.now.events
        points.now places.items) }
{
    let order = in_order(alloc, points)?;
    let mut places = vec![in alloc; Place::OnEdge(0); points.len()]?;
    let mut live = ChunkedList::new(alloc);
    let mut applied = 0;
    let mut last: Option<Point> = None;
    let mut place = Place::OnEdge(0);
    for point in &order {
        if last != Some(point.at) {
            applied = apply_before(edges, &swept.events, applied, &mut live, point.at)?;
            place = place_at(edges, &swept.events, applied, &live, point.at);
            last = Some(point.at);
        }
        places[point.number] = place;
    }
    Ok(places)
}
