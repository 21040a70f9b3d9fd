// The mesh of a sweep's run: the events of the edges' ends are noted, and then all events turned
// one after another.
ghost use Rattle.std.specs.Prelude.{◌≡◌, ℕ, ◌^◌, ◌<◌, [], IfOk, length};
ghost use Rattle.event_mesh.specs.Turned.{IsTurned};
ghost use Rattle.plane.specs.Lists.{Has};
ghost use Rattle.plane.specs.Runs.Moves.{Fit, steps_from};
ghost use Rattle.plane.specs.Runs.Steps.{Run};
ghost use Rattle.plane.specs.declared.kinds.Edge.{Edge};
ghost use Rattle.straight_predicates.specs.EdgeEvents.{IsNoted};
ghost use Rattle.area_search.specs.Settled.Meshing.{HasEdges, HasNoted, IsWidest};

use event_mesh::{mesh_of, turn_event};
use half_edges::{HalfEdgeId, Mesh};
use line_sweep::{Events, Swept};
use ports::Memory;
use std::alloc::Global;

// By the edges' numbers the events at their low and at their high ends.
#[derive(Drop)]
struct Noted {
    low: Vec<u32>,
    high: Vec<u32>,
}

/// The mesh of the run that the events of a sweep over so many edges make, with all events turned.
/// The only error is out of memory. It takes time linear in the edges and the events, and at most
/// 44 bytes an edge, of which 32 stay.
pub fn mesh_of_run(alloc: Global, edges: usize, swept: &Swept) -> Result<Mesh, Memory>
    requires few { edges < 2 ^ 31 }
    requires run { HasEdges edges (steps_from [] swept.now.events) }
    requires fit { Fit [] swept.now.events }
    ensures turned { IfOk result (λ mesh. (E : ℕ → Edge)
        → Run edges E (steps_from [] swept.now.events)
        → IsTurned edges E (steps_from [] swept.now.events) mesh
        (length (steps_from [] swept.now.events))) }
    ensures vertices { IfOk result (λ mesh. mesh.vertices ≡ length swept.now.events) }
{
    event_mesh::laws::turned_events();
    let noted = note_events(alloc, edges, &swept.events)?;
    let mut mesh = mesh_of(alloc, swept.events.len(), &noted.low, &noted.high)?;
    let mut fan = vec![in alloc; HalfEdgeId(0); widest(&swept.events)]?;
    let ended = swept.events.ended();
    let mut from = 0;
    for number in 0..swept.events.len() {
        let event = swept.events.get(number);
        let upto = from + event.ending as usize;
        turn_event(&mut mesh, event.starting, &ended[from..upto], &mut fan);
        from = upto;
    }
    Ok(mesh)
}

// The most edges that start or end at one event, and 0 where there is no event.
fn widest(events: &Events) -> usize
    ensures { IsWidest events.now (length events.now) result }
{
    let mut most = 0;
    for number in 0..events.len() {
        let event = events.get(number);
        most = most.max(event.starting.len() + event.ending as usize);
    }
    most
}

// Notes the events at the ends of all edges.
fn note_events(alloc: Global, edges: usize, events: &Events) -> Result<Noted, Memory>
    requires run { HasEdges edges (steps_from [] events.now) }
    requires fit { Fit [] events.now }
    ensures { IfOk result (HasNoted edges (steps_from [] events.now) (length events.now)) }
{
    let mut low = vec![in alloc; 0u32; edges]?;
    let mut high = vec![in alloc; 0u32; edges]?;
    let ended = events.ended();
    let mut from = 0;
    for number in 0..events.len() {
        let event = events.get(number);
        let upto = from + event.ending as usize;
        note(&mut low, event.starting, number);
        note(&mut high, &ended[from..upto], number);
        from = upto;
    }
    Ok(Noted { low, high })
}

// Writes the event to the entry of each of these edges.
fn note(events: &mut [u32], edges: &[u32], event: u32)
    requires { (e : ℕ) → Has e edges.now → e < length events.old }
    ensures { IsNoted edges.now event events.old events.new }
{
    for e in edges {
        events[*e as usize] = event;
    }
}
