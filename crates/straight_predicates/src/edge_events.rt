// What a mesh of a timetable's events is made from: the events of each edge's ends, and the room
// that the widest event needs.
ghost use Rattle.std.specs.Prelude.{ℕ, ◌<◌, length};
ghost use Rattle.plane.specs.Lists.{Has};
ghost use Rattle.straight_predicates.specs.EdgeEvents.{IsNoted};

use super::timetable::Timetable;
use plane::Edge;
use ports::Memory;
use std::alloc::Global;

/// The numbers of events, by the numbers of edges: that at each edge's low end, and that at its
/// high end.
#[derive(Drop)]
pub struct EdgeEvents {
    pub low: Vec<u32>,
    pub high: Vec<u32>,
}

impl Timetable {
    ghost use Rattle.std.specs.Prelude.{IfOk, length};
    ghost use Rattle.plane.specs.Runs.Timetables.{IsTimetable};
    ghost use Rattle.straight_predicates.specs.EdgeEvents.{AreEventsOf, IsWidest};
    ghost use Rattle.straight_predicates.specs.EdgeLists.{edge_of};
    ghost use Rattle.straight_predicates.specs.Tables.{table_of};

    /// The events of these edges' ends, of which this is the timetable. The only error is out of
    /// memory. It takes time linear in the edges, and 8 bytes for each.
    pub fn edge_events(&self, alloc: Global, edges: &[Edge]) -> Result<EdgeEvents, Memory>
        requires { IsTimetable (length edges.now) (edge_of edges.now) (table_of self.now) }
        ensures { IfOk result (λ of. AreEventsOf edges.now (table_of self.now) of.low.items
            of.high.items) }
    {
        let mut low = vec![in alloc; 0u32; edges.len()]?;
        let mut high = vec![in alloc; 0u32; edges.len()]?;
        for k in 0..self.events() {
            note(&mut low, self.starting(k), k);
            note(&mut high, self.ending(k), k);
        }
        Ok(EdgeEvents { low, high })
    }

    /// The most edges that end or start at one event. It takes time linear in the events.
    pub fn widest(&self) -> usize
        ensures { IsWidest (table_of self.now) (length (table_of self.now)) result }
    {
        let mut most = 0;
        for k in 0..self.events() {
            most = most.max(self.starting(k).len() + self.ending(k).len());
        }
        most
    }
}

// Writes the event to the entry of each of these edges.
fn note(events: &mut [u32], edges: &[u32], event: u32)
    requires { (e : ℕ) → Has e edges.now → e < length events.old }
    ensures { IsNoted edges.now event events.old events.new }
{
    for e in edges {
        events[*e as usize] = event;
    }
}
