// The replay of the events of a run.
ghost use Rattle.std.specs.Prelude.{◌≡◌, ℕ, ◌+◌, ◌<◌, ◌≤◌, [], length, slice_index_or};
ghost use Rattle.std.specs.Prelude.{IfOk, OnOk};
ghost use Rattle.plane.specs.Forms.Vectors.{Before};
ghost use Rattle.plane.specs.Runs.Moves.{Fit, no_move, step_of, steps_from};
ghost use Rattle.plane.specs.Runs.Steps.{Run, after};
ghost use Rattle.straight_predicates.specs.EdgeLists.{edge_of};
ghost use Rattle.line_sweep.specs.Kinds.{move_of};
ghost use Rattle.point_location.specs.Replaying.{IsApplied};

use line_sweep::{Event, Events};
use plane::{Edge, Point};
use ports::Memory;
use straight_predicates::{ChunkedList, before};

/// Applies the events that come before the point, of which `applied` are applied already, and
/// answers how many are applied then.
pub fn apply_before(
    edges: &[Edge],
    events: &Events,
    applied: u32,
    live: &mut ChunkedList<u32>,
    at: Point,
) -> Result<u32, Memory>
    requires run { Run (length edges.now) (edge_of edges.now) (steps_from []
        events.now) }
    requires fit { Fit [] events.now }
    requires begun { IsApplied events.now applied live.old }
    ensures applied { IfOk result (λ n. IsApplied events.now n live.new) }
    ensures least { IfOk result (λ n. applied ≤ n) }
    ensures passed { IfOk result (λ n. (j : ℕ) → applied ≤ j → j < n
        → Before (slice_index_or events.now j no_move).at at) }
    ensures coming { IfOk result (λ n. n < length events.now
        → Before (slice_index_or events.now n no_move).at at → ⊥) }
{
    let mut next = applied;
    while next < events.len() && before(events.at(next), at) {
        apply(&events.get(next), live)?;
        next += 1;
    }
    Ok(next)
}

// Puts the edges that start at the event in the place of those that end there.
fn apply(event: &Event<'_>, live: &mut ChunkedList<u32>) -> Result<(), Memory>
    requires { event.now.position + event.now.ending ≤ length live.old }
    ensures { OnOk result (live.new ≡ after (step_of live.old (move_of event.now))) }
{
    live.replace(
        event.position as usize,
        event.ending as usize,
        event.starting,
    )?;
    Ok(())
}
