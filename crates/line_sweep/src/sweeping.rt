// The sweep, event by event.
ghost use Rattle.std.specs.Prelude.{◌≡◌, ℕ, ◌+◌, ◌^◌, ◌<◌, [], ◌∷◌, IfOk, IfErr, OnOk, length};
ghost use Rattle.std.specs.Prelude.{slice_index_or};
ghost use Rattle.plane.specs.Runs.Gaps.{closed_gaps, no_gap};
ghost use Rattle.plane.specs.Forms.Meets.{Bad, IsEnd};
ghost use Rattle.plane.specs.Runs.Moves.{Fit, steps_from};
ghost use Rattle.plane.specs.Runs.Steps.{Run};
ghost use Rattle.plane.specs.Runs.Timetables.{IsTimetable, no_event};
ghost use Rattle.straight_predicates.specs.EdgeLists.{edge_of, AreSorted, AreAllClose};
ghost use Rattle.straight_predicates.specs.Tables.{table_of};
ghost use Rattle.line_sweep.specs.Blocks.{AreBeside, IsBlock};
ghost use Rattle.line_sweep.specs.Held.{IsHeld};
ghost use Rattle.line_sweep.specs.Kinds.{IsRefused, gaps_of};
ghost use Rattle.line_sweep.specs.OpenGaps.{AreFine};
ghost use Rattle.line_sweep.specs.Sweeping.{HasSwept, HasTimetable};

use super::blocks::{Beside, Block, beside_block, find_block};
use super::cells::test_neighbours;
use super::events::Events;
use super::kinds::{Cell, CellEdge, SweepRefusal, Swept};
use super::state::State;
use plane::Edge;
use ports::Memory;
use slab::Slab;
use std::alloc::Global;
use straight_predicates::{ChunkedList, Timetable};

/// The events of the edges and their neighbours, or two edges that are bad. The only other refusal
/// is out of memory. For the costs see the head of the crate.
pub fn sweep(alloc: Global, edges: &[Edge]) -> Result<Swept, SweepRefusal>
    requires few { length edges.now < 2 ^ 31 }
    requires sorted { AreSorted edges.now }
    requires close { AreAllClose edges.now }
    ensures run { IfOk result (λ s. Run (length edges.now) (edge_of edges.now) (steps_from []
        s.events)) }
    ensures fit { IfOk result (λ s. Fit [] s.events) }
    ensures timed { IfOk result (λ s. HasTimetable edges.now s.events) }
    ensures cells { IfOk result (λ s. gaps_of s.cells.items
        ≡ closed_gaps s.events) }
    ensures clear { IfOk result (λ s. (a b : ℕ) → a < length edges.now → b < length edges.now
        → (a ≡ b → ⊥) → Bad (edge_of edges.now a) (edge_of edges.now b) → ⊥) }
    ensures refused { IfErr result (IsRefused edges.now) }
{
    let table = Timetable::new(alloc, edges)?;
    let mut state = begin(alloc, edges.len(), table.events() as usize)?;
    run(edges, &table, &mut state)?;
    Ok(Swept {
        events: Events::new(table, state.blocks, state.ended),
        cells: state.cells,
    })
}

// Nothing is live, and one cell without edges is open. There is room for a block for each event,
// for the edges, which all end, and for the cells, of which each edge and each event opens one.
fn begin(alloc: Global, edges: usize, events: usize) -> Result<State, Memory>
    requires few { edges < 2 ^ 31 }
    requires few_events { events < 2 ^ 32 }
    ensures live { IfOk result (λ s. s.live ≡ []) }
    ensures held { IfOk result (λ s. IsHeld s.open_cells s.keys (no_gap ∷ [])) }
    ensures blocks { IfOk result (λ s. s.blocks.items ≡ []) }
    ensures ended { IfOk result (λ s. s.ended.items ≡ []) }
    ensures cells { IfOk result (λ s. s.cells.items ≡ []) }
{
    let mut keys = ChunkedList::new(alloc);
    let mut open_cells = Slab::new(alloc);
    let first = open_cells.insert(Cell {
        lower: CellEdge::new(None),
        upper: CellEdge::new(None),
        event: 0,
    })?;
    keys.replace(0, 0, &[first])?;
    Ok(State {
        live: ChunkedList::new(alloc),
        keys,
        open_cells,
        blocks: Vec::with_capacity(alloc, events)?,
        ended: Vec::with_capacity(alloc, edges)?,
        cells: Vec::with_capacity(alloc, edges + events)?,
        ending: Vec::new(alloc),
        closing: Vec::new(alloc),
        opening: Vec::new(alloc),
    })
}

fn run(edges: &[Edge], table: &Timetable, state: &mut State) -> Result<(), SweepRefusal>
    requires few { length edges.now < 2 ^ 31 }
    requires sorted { AreSorted edges.now }
    requires close { AreAllClose edges.now }
    requires table { IsTimetable (length edges.now) (edge_of edges.now) (table_of table.now) }
    requires begun { HasSwept edges.now (table_of table.now) 0 state.old }
    ensures done { OnOk result (HasSwept edges.now (table_of table.now) (length
        (table_of table.now)) state.new) }
    ensures refused { IfErr result (IsRefused edges.now) }
{
    for event in 0..table.events() {
        step(edges, table, event, state)?;
    }
    Ok(())
}

fn step(
    edges: &[Edge],
    table: &Timetable,
    event: u32,
    state: &mut State,
) -> Result<(), SweepRefusal>
    requires few { length edges.now < 2 ^ 31 }
    requires sorted { AreSorted edges.now }
    requires close { AreAllClose edges.now }
    requires table { IsTimetable (length edges.now) (edge_of edges.now) (table_of table.now) }
    requires event { event < length (table_of table.now) }
    requires swept { HasSwept edges.now (table_of table.now) event state.old }
    ensures done { OnOk result (HasSwept edges.now (table_of table.now) (event + 1) state.new) }
    ensures refused { IfErr result (IsRefused edges.now) }
{
    let block = block_at(edges, table, event, state)?;
    let beside = beside_block(&state.live, block);
    test_at(edges, table, event, block, beside, state)?;
    let starting = table.starting(event);
    state.move_cells(event, block, beside, starting)?;
    state.move_edges(block, starting)?;
    Ok(())
}

// The block of the event, or the live edge that goes through it with an edge that ends or starts
// there.
fn block_at(
    edges: &[Edge],
    table: &Timetable,
    event: u32,
    state: &State,
) -> Result<Block, SweepRefusal>
    requires sorted { AreSorted edges.now }
    requires close { AreAllClose edges.now }
    requires table { IsTimetable (length edges.now) (edge_of edges.now) (table_of table.now) }
    requires event { event < length (table_of table.now) }
    requires swept { HasSwept edges.now (table_of table.now) event state.now }
    ensures block { IfOk result (λ b. IsBlock (edge_of edges.now) state.now.live
        (slice_index_or (table_of table.now) event no_event).at b.from b.count) }
    ensures refused { IfErr result (IsRefused edges.now) }
{
    let at = table.at(event);
    match find_block(&state.live, edges, at) {
        Ok(block) => Ok(block),
        Err(edge) => Err(SweepRefusal::Bad {
            first: edge,
            second: edge_of_event(edges, table, event),
        }),
    }
}

/// An edge that ends or starts at the event.
pub fn edge_of_event(edges: &[Edge], table: &Timetable, event: u32) -> u32
    requires table { IsTimetable (length edges.now) (edge_of edges.now) (table_of table.now) }
    requires event { event < length (table_of table.now) }
    ensures known { result < length edges.now }
    ensures end { IsEnd (edge_of edges.now result) (slice_index_or
        (table_of table.now) event no_event).at }
{
    let starting = table.starting(event);
    if starting.is_empty() {
        table.ending(event)[0]
    } else {
        starting[0]
    }
}

// Tests the edges that become neighbours at the event: those that start there and those beside its
// block.
fn test_at(
    edges: &[Edge],
    table: &Timetable,
    event: u32,
    block: Block,
    beside: Beside,
    state: &State,
) -> Result<(), SweepRefusal>
    requires sorted { AreSorted edges.now }
    requires close { AreAllClose edges.now }
    requires table { IsTimetable (length edges.now) (edge_of edges.now) (table_of table.now) }
    requires event { event < length (table_of table.now) }
    requires swept { HasSwept edges.now (table_of table.now) event state.now }
    requires block { IsBlock (edge_of edges.now) state.now.live (slice_index_or
        (table_of table.now) event no_event).at block.from block.count }
    requires beside { AreBeside state.now.live block.from block.count beside.lower beside.upper }
    ensures fine { OnOk result (AreFine edges.now beside.lower (slice_index_or
        (table_of table.now) event no_event).starting beside.upper) }
    ensures refused { IfErr result (IsRefused edges.now) }
{
    match test_neighbours(edges, beside.lower, table.starting(event), beside.upper) {
        Ok(()) => Ok(()),
        Err(pair) => Err(SweepRefusal::Bad {
            first: pair.0,
            second: pair.1,
        }),
    }
}
