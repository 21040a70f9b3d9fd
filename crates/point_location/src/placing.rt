// The place of a point, at the moment of a replay that is its own.
ghost use Rattle.std.specs.Prelude.{◌≡◌, ◌⊎◌, ℕ, ◌+◌, ◌-◌, ◌^◌, ◌<◌, ◌≤◌, [], length};
ghost use Rattle.std.specs.Prelude.{slice_index, take, drop};
ghost use Rattle.plane.specs.Lists.{Has};
ghost use Rattle.plane.specs.Runs.Moves.{Fit, step_of, steps_from};
ghost use Rattle.plane.specs.Runs.Steps.{Run};
ghost use Rattle.straight_predicates.specs.EdgeLists.{edge_of, IsCloseToAll};
ghost use Rattle.line_sweep.specs.Kinds.{move_of};
ghost use Rattle.point_location.specs.Places.{IsPlaceOf};
ghost use Rattle.point_location.specs.Replaying.{EndsOrStarts, IsMoment};

use super::between::place_between;
use super::places::Place;
use line_sweep::{Event, Events};
use plane::{Edge, Point};
use straight_predicates::ChunkedList;

/// The place of a point in the live list after exactly the events before it.
pub fn place_at(
    edges: &[Edge],
    events: &Events,
    applied: u32,
    live: &ChunkedList<u32>,
    at: Point,
) -> Place
    requires few { length edges.now < 2 ^ 31 }
    requires run { Run (length edges.now) (edge_of edges.now) (steps_from []
        events.now) }
    requires fit { Fit [] events.now }
    requires close { IsCloseToAll edges.now at }
    requires moment { IsMoment events.now applied live.now at }
    ensures { IsPlaceOf edges.now events.now at result }
{
    if applied < events.len() && events.at(applied) == at {
        return Place::OnEdge(edge_of_event(&events.get(applied), live));
    }
    place_between(edges, live, at)
}

// The least number of an edge that ends or starts at the event, of which there are some.
fn edge_of_event(event: &Event<'_>, live: &ChunkedList<u32>) -> u32
    requires block { event.now.position + event.now.ending ≤ length live.now }
    requires some { (e : ℕ) × (e < 2 ^ 32 - 1) × EndsOrStarts (step_of live.now
        (move_of event.now)) e }
    ensures is { EndsOrStarts (step_of live.now (move_of event.now)) result }
    ensures least { (e : ℕ) → EndsOrStarts (step_of live.now (move_of event.now)) e → result ≤ e }
{
    let from = event.position as usize;
    let ending = least_between(live, from, from + event.ending as usize);
    least(event.starting, ending)
}

// The least of the numbers at the places from one up to another, and the greatest of all where
// there is none.
fn least_between(live: &ChunkedList<u32>, from: usize, upto: usize) -> u32
    requires least { from ≤ upto }
    requires within { upto ≤ length live.now }
    ensures is { (result ≡ 2 ^ 32 - 1) ⊎ Has result (take (upto - from) (drop from live.now)) }
    ensures each { (i : ℕ) → i < length (take (upto - from) (drop from live.now))
        → result ≤ slice_index (take (upto - from) (drop from live.now)) i }
{
    let mut least = u32::MAX;
    for place in from..upto {
        least = least.min(live.get(place));
    }
    least
}

// The least of the numbers and the bound.
fn least(numbers: &[u32], bound: u32) -> u32
    ensures is { (result ≡ bound) ⊎ Has result numbers.now }
    ensures bound { result ≤ bound }
    ensures each { (i : ℕ) → i < length numbers.now → result ≤ slice_index numbers.now i }
{
    let mut least = bound;
    for number in numbers {
        least = least.min(*number);
    }
    least
}
