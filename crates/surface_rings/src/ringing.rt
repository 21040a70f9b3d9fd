// Rings around one region: the answer, from one sweep.
ghost use Rattle.std.specs.Prelude.{◌≡◌, ◌^◌, ◌<◌, [], IfOk, length};
ghost use Rattle.line_sweep.specs.Kinds.{gaps_of};
ghost use Rattle.plane.specs.declared.window.Window2.{Window2};
ghost use Rattle.plane.specs.Runs.Gaps.{closed_gaps};
ghost use Rattle.plane.specs.Runs.Moves.{Fit, steps_from};
ghost use Rattle.plane.specs.Runs.Steps.{Run};
ghost use Rattle.straight_predicates.specs.EdgeLists.{AreAllClose, AreSorted, edge_of};
ghost use Rattle.surface_rings.specs.declared.kinds.RingAnswer.TheVariants.{Holds};
ghost use Rattle.surface_rings.specs.Surfaces.{HasOneInnerSide, IsClear, IsRingAnswer};
ghost use Rattle.surface_rings.specs.Working.{AreEvenMoves};

use super::degrees::odd_edge;
use super::floors::floors_of;
use super::kinds::RingAnswer;
use super::regions::is_one_region;
use line_sweep::{SweepRefusal, Swept, sweep};
use plane::Edge;
use ports::Memory;
use std::alloc::Global;

/// Whether the edges are rings around one connected region: no two meet but in common ends, each
/// end is that of an even number of edges, and the places over which an odd number of edges stands
/// are connected; then each edge has the region on exactly one side. Else the first of these that
/// fails is told, by a pair that meets, by the least edge with an odd end, or by nothing more. The
/// only error is out of memory. For the cost see the head of the crate.
pub fn rings(alloc: Global, edges: &[Edge]) -> Result<RingAnswer, Memory>
    requires some { 0 < length edges.now }
    requires few { length edges.now < 2 ^ 31 }
    requires sorted { AreSorted edges.now }
    requires close { AreAllClose edges.now }
    ensures answer { IfOk result (λ a. (u : Window2) → IsRingAnswer u edges.now a) }
    ensures sides { IfOk result (λ a. a ≡ Holds → (u : Window2) → HasOneInnerSide u edges.now) }
{
    match sweep(alloc, edges) {
        Ok(swept) => judge(alloc, edges, &swept),
        Err(SweepRefusal::Bad { first, second }) => Ok(RingAnswer::Meeting {
            first: first.min(second),
            second: first.max(second),
        }),
        Err(SweepRefusal::Memory) => Err(Memory),
    }
}

// The answer to edges of which no two meet badly.
fn judge(alloc: Global, edges: &[Edge], swept: &Swept) -> Result<RingAnswer, Memory>
    requires some { 0 < length edges.now }
    requires few { length edges.now < 2 ^ 31 }
    requires sorted { AreSorted edges.now }
    requires run { Run (length edges.now) (edge_of edges.now) (steps_from [] swept.now.events) }
    requires fit { Fit [] swept.now.events }
    requires cells { gaps_of swept.now.cells.items ≡ closed_gaps swept.now.events }
    requires clear { IsClear edges.now }
    ensures answer { IfOk result (λ a. (u : Window2) → IsRingAnswer u edges.now a) }
    ensures sides { IfOk result (λ a. a ≡ Holds → (u : Window2) → HasOneInnerSide u edges.now) }
{
    match odd_edge(edges, &swept.events) {
        Some(edge) => Ok(RingAnswer::Odd { edge }),
        None => judge_even(alloc, edges, swept),
    }
}

// The answer to such edges, where each end is that of an even number of edges.
fn judge_even(alloc: Global, edges: &[Edge], swept: &Swept) -> Result<RingAnswer, Memory>
    requires some { 0 < length edges.now }
    requires few { length edges.now < 2 ^ 31 }
    requires run { Run (length edges.now) (edge_of edges.now) (steps_from [] swept.now.events) }
    requires fit { Fit [] swept.now.events }
    requires cells { gaps_of swept.now.cells.items ≡ closed_gaps swept.now.events }
    requires clear { IsClear edges.now }
    requires even { AreEvenMoves swept.now.events }
    ensures answer { IfOk result (λ a. (u : Window2) → IsRingAnswer u edges.now a) }
    ensures sides { IfOk result (λ a. a ≡ Holds → (u : Window2) → HasOneInnerSide u edges.now) }
{
    let floors = floors_of(alloc, edges, &swept.events)?;
    if is_one_region(alloc, edges, swept, &floors)? {
        Ok(RingAnswer::Holds)
    } else {
        Ok(RingAnswer::Parts)
    }
}
