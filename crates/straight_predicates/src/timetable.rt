// The timetable of edges: their ends in order, and the edges that end and start at each.
ghost use Rattle.std.specs.Prelude.{◌<◌, ◌^◌, length, vec_len};
ghost use Rattle.straight_predicates.specs.Slots.{AreSlots, slots_of};

use super::events::{fill, sorted_ends};
use super::slots::Slot;
use super::stops::{Stop, slot_at};
use plane::{Edge, Point};
use ports::Memory;
use std::alloc::Global;

/// The ends of edges by x, then y, each with the edges that end there, by number, and those that
/// start there, by slope and then by number.
#[derive(Drop)]
pub struct Timetable {
    stops: Vec<Stop>,
    numbers: Vec<u32>,
    ghost within: { AreSlots (length numbers.items) (slots_of stops.items) },
    ghost few: { vec_len stops < 2 ^ 32 },
}

impl Timetable {
    ghost use Rattle.std.specs.Prelude.{◌≡◌, IfOk, length, slice_index_or};
    ghost use Rattle.plane.specs.Runs.Timetables.{IsTimetable, no_event};
    ghost use Rattle.straight_predicates.specs.EdgeLists.{edge_of, AreSorted, AreAllClose};
    ghost use Rattle.straight_predicates.specs.Slots.{IsSlot, timed_at};
    ghost use Rattle.straight_predicates.specs.Tables.{table_of};

    /// The timetable of these edges. The only error is out of memory. It sorts the ends: of m
    /// edges it takes O(m log m) time. The timetable keeps 8 bytes for each edge and 24 for each
    /// event, of which there are at most two an edge; while it is made, the sorted ends take 32
    /// bytes an edge more.
    pub fn new(alloc: Global, edges: &[Edge]) -> Result<Timetable, Memory>
        requires few { length edges.now < 2 ^ 31 }
        requires sorted { AreSorted edges.now }
        requires close { AreAllClose edges.now }
        ensures { IfOk result (λ t. IsTimetable (length edges.now) (edge_of edges.now)
            (table_of t)) }
    {
        let ends = sorted_ends(alloc, edges)?;
        let mut stops = Vec::with_capacity(alloc, ends.runs())?;
        let mut numbers = Vec::with_capacity(alloc, ends.len())?;
        let mut group = Vec::new(alloc);
        let mut rays = Vec::new(alloc);
        fill(
            &mut stops,
            &mut numbers,
            &mut group,
            &mut rays,
            edges,
            &ends,
        )?;
        Ok(Timetable { stops, numbers })
    }

    /// The number of events.
    pub fn events(&self) -> u32
        ensures { result ≡ length (table_of self.now) }
    {
        self.stops.len() as u32
    }

    /// The point of the event of that number.
    pub fn at(&self, event: u32) -> Point
        requires { event < length (table_of self.now) }
        ensures { result ≡ (slice_index_or (table_of self.now) event no_event).at }
    {
        self.slot(event).at
    }

    /// The edges that start there, by slope, and those of one slope by number.
    pub fn starting(&self, event: u32) -> &[u32]
        requires { event < length (table_of self.now) }
        ensures { result.now ≡ (slice_index_or (table_of self.now) event no_event).starting }
    {
        let slot = self.slot(event);
        &self.numbers[slot.middle as usize..slot.upto as usize]
    }

    /// The edges that end there, by number.
    pub fn ending(&self, event: u32) -> &[u32]
        requires { event < length (table_of self.now) }
        ensures { result.now ≡ (slice_index_or (table_of self.now) event no_event).ending }
    {
        let slot = self.slot(event);
        &self.numbers[slot.from as usize..slot.middle as usize]
    }

    fn slot(&self, event: u32) -> Slot
        requires { event < length (table_of self.now) }
        ensures event { slice_index_or (table_of self.now) event no_event
            ≡ timed_at self.now.numbers.items result }
        ensures within { IsSlot (length self.now.numbers.items) result }
    {
        slot_at(&self.stops, event as usize)
    }
}
