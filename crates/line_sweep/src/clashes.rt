// Groups of edges without which a sweep can go on.
ghost use Rattle.std.specs.Prelude.{◌≡◌, ℕ, ◌+◌, ◌^◌, ◌<◌, ◌≤◌, [], IfOk, OnOk, length};
ghost use Rattle.plane.specs.Lists.{Has};
ghost use Rattle.plane.specs.Runs.Timetables.{IsTimetable};
ghost use Rattle.straight_predicates.specs.EdgeLists.{edge_of, AreAllClose, AreBelow, AreSorted};
ghost use Rattle.straight_predicates.specs.EdgeLists.{IsCloseToAll};
ghost use Rattle.straight_predicates.specs.Tables.{table_of};

use super::sweeping::edge_of_event;
use plane::{Edge, Point};
use ports::Memory;
use std::alloc::Global;
use straight_predicates::{ChunkedList, Meet, Timetable, Turn, cut, meet, turn_over};

/// Two edges that are bad.
#[derive(Clone, Copy)]
pub struct BadEdges {
    pub first: u32,
    pub second: u32,
}

/// Marks groups of edges that have bad edges: of two edges that a sweep finds to be bad, or that
/// are known to be, the groups that are not firm, or where both are firm the one that starts later.
/// The sweep goes on without the edges of marked groups; so where few groups have edges that are
/// bad with each other, a sweep of the others will most often find nothing bad. No clause promises
/// it: a caller that needs it sweeps the others. `groups` has the group of each edge, and `firm`
/// says which groups are only marked for another firm one. The only error is out of memory. It
/// takes the time of a sweep: edges of marked groups leave the live list where an event is beside
/// them.
pub fn clashing(
    alloc: Global,
    edges: &[Edge],
    groups: &[u32],
    firm: &[bool],
    known: BadEdges,
) -> Result<Vec<bool>, Memory>
    requires few { length edges.now < 2 ^ 31 }
    requires sorted { AreSorted edges.now }
    requires close { AreAllClose edges.now }
    ensures { IfOk result (λ marks. length marks.items ≡ length firm.now) }
{
    let table = Timetable::new(alloc, edges)?;
    let mut sweep = ClashSweep::new(alloc, groups, firm)?;
    for event in 0..table.events() {
        sweep.pass_event(edges, &table, event)?;
    }
    let mut marks = sweep.marks;
    if !marks.is_marked(known.first) && !marks.is_marked(known.second) {
        marks.mark_clash(known);
    }
    Ok(marks.marked)
}

// A sweep that goes on past bad edges: the live list, in which edges of marked groups stay until
// an event is beside them, the marks so far, and the edges that were put in last.
#[derive(Drop)]
struct ClashSweep<'a> {
    live: ChunkedList<u32>,
    marks: Marks<'a>,
    fresh: Vec<u32>,
}

impl<'a> ClashSweep<'a> {
    // Nothing is live, and no group is marked.
    fn new(alloc: Global, groups: &'a [u32], firm: &'a [bool]) -> Result<ClashSweep<'a>, Memory>
        ensures live { IfOk result (λ s. s.live ≡ []) }
        ensures marks { IfOk result (λ s. length s.marks.marked.items ≡ length firm.now) }
    {
        Ok(ClashSweep {
            live: ChunkedList::new(alloc),
            marks: Marks::new(alloc, groups, firm)?,
            fresh: Vec::new(alloc),
        })
    }

    // Puts the starting edges of the event in the place of those that end there, without the edges
    // of marked groups, and marks the groups of edges that are bad there.
    fn pass_event(&mut self, edges: &[Edge], table: &Timetable, event: u32) -> Result<(), Memory>
        requires few { length edges.now < 2 ^ 31 }
        requires sorted { AreSorted edges.now }
        requires close { AreAllClose edges.now }
        requires table { IsTimetable (length edges.now) (edge_of edges.now) (table_of table.now) }
        requires event { event < length (table_of table.now) }
        requires known { AreBelow (length edges.now) self.old.live }
        ensures known { OnOk result (AreBelow (length edges.now) self.new.live) }
        ensures marks { length self.new.marks.marked.items ≡ length self.old.marks.marked.items }
    {
        let at = table.at(event);
        let starting = table.starting(event);
        let own = edge_of_event(edges, table, event);
        self.marks.note_starts(starting, event);
        let from = cut(&self.live, edges, at);
        let upto = self.leaving_end(edges, from, at, own);
        let first = self.put_unmarked(from, upto, starting)?;
        if self.mark_bad_neighbours(edges, first) {
            let end = first.saturating_add(self.fresh.len());
            let left = self.put_unmarked(first, end, starting)?;
            self.mark_bad_neighbours(edges, left);
        }
        Ok(())
    }

    // The place after the edges from `from` on that leave the live list at the event, which is an
    // end of the edge `own`. It first marks the clashes of edges that go through the event.
    fn leaving_end(&mut self, edges: &[Edge], from: usize, at: Point, own: u32) -> usize
        requires known { AreBelow (length edges.now) self.old.live }
        requires close { IsCloseToAll edges.now at }
        requires place { from ≤ length self.old.live }
        ensures least { from ≤ result }
        ensures within { result ≤ length self.old.live }
        ensures live { self.new.live ≡ self.old.live }
        ensures marks { length self.new.marks.marked.items ≡ length self.old.marks.marked.items }
    {
        for place in from..self.live.len() {
            let edge = self.live.get(place);
            self.mark_through(edges, edge, at, own);
            if !self.leaves(edges, edge, at) {
                return place;
            }
        }
        self.live.len()
    }

    // Marks the clash of the edge with the edge `own`, of which the event is an end, if the edge
    // goes through the event and neither group is marked yet.
    fn mark_through(&mut self, edges: &[Edge], edge: u32, at: Point, own: u32)
        requires known { edge < length edges.now }
        requires close { IsCloseToAll edges.now at }
        ensures live { self.new.live ≡ self.old.live }
        ensures marks { length self.new.marks.marked.items ≡ length self.old.marks.marked.items }
    {
        if !self.leaves(edges, edge, at)
            && !self.marks.is_marked(own)
            && turn_over(edges, edge, at) == Turn::Straight
        {
            self.marks.mark_clash(BadEdges {
                first: edge,
                second: own,
            });
        }
    }

    // Whether the edge leaves the live list at the event: it ends there, or its group is marked.
    fn leaves(&self, edges: &[Edge], edge: u32, at: Point) -> bool
        requires { edge < length edges.now }
    {
        edges[edge as usize].high == at || self.marks.is_marked(edge)
    }

    // Puts those of the edges that are not of marked groups in the place of a part of the live
    // list, and of the edges of marked groups beside it. The place of the first of them.
    fn put_unmarked(&mut self, from: usize, upto: usize, with: &[u32]) -> Result<usize, Memory>
        requires part { from ≤ upto }
        requires within { upto ≤ length self.old.live }
        ensures known { OnOk result ((m : ℕ) → AreBelow m self.old.live
            → ((e : ℕ) → Has e with.now → e < m) → AreBelow m self.new.live) }
        ensures within { IfOk result
            (λ first. first + length self.new.fresh.items ≤ length self.new.live) }
        ensures marks { length self.new.marks.marked.items ≡ length self.old.marks.marked.items }
    {
        let first = self.marked_start(from);
        let end = self.marked_end(upto);
        self.choose_unmarked(with)?;
        self.live.replace(first, end - first, &self.fresh)?;
        Ok(first)
    }

    // The place of the first of the edges of marked groups that are directly before the place.
    fn marked_start(&self, from: usize) -> usize
        requires { from ≤ length self.now.live }
        ensures { result ≤ from }
    {
        for place in (0..from).rev() {
            if !self.marks.is_marked(self.live.get(place)) {
                return place + 1;
            }
        }
        0
    }

    // The place after the edges of marked groups that are directly from the place on.
    fn marked_end(&self, upto: usize) -> usize
        requires { upto ≤ length self.now.live }
        ensures least { upto ≤ result }
        ensures within { result ≤ length self.now.live }
    {
        for place in upto..self.live.len() {
            if !self.marks.is_marked(self.live.get(place)) {
                return place;
            }
        }
        self.live.len()
    }

    // Makes those of the edges whose groups are not marked the fresh ones.
    fn choose_unmarked(&mut self, edges: &[u32]) -> Result<(), Memory>
        ensures fresh { OnOk result ((e : ℕ) → Has e self.new.fresh.items → Has e edges.now) }
        ensures live { self.new.live ≡ self.old.live }
        ensures marks { self.new.marks ≡ self.old.marks }
    {
        self.fresh.clear();
        for edge in edges {
            if !self.marks.is_marked(*edge) {
                self.fresh.push(*edge)?;
            }
        }
        Ok(())
    }

    // Marks the groups of neighbours that are bad, from the edge before the fresh ones, which are
    // in the live list from the place `first` on, to the one after them. Whether there are some.
    // The live list is asked for the edges beside the fresh ones alone, however many these are.
    fn mark_bad_neighbours(&mut self, edges: &[Edge], first: usize) -> bool
        requires sorted { AreSorted edges.now }
        requires close { AreAllClose edges.now }
        ensures live { self.new.live ≡ self.old.live }
        ensures fresh { self.new.fresh ≡ self.old.fresh }
        ensures marks { length self.new.marks.marked.items ≡ length self.old.marks.marked.items }
    {
        let mut any = false;
        let mut below = self.edge_under(first);
        for place in 0..self.fresh.len() {
            let edge = self.fresh[place];
            any |= self.mark_bad(edges, below, Some(edge));
            below = Some(edge);
        }
        let above = self.edge_on(first.saturating_add(self.fresh.len()));
        any | self.mark_bad(edges, below, above)
    }

    // The live edge before the place, if there is one.
    fn edge_under(&self, place: usize) -> Option<u32> {
        self.edge_on(place.checked_sub(1)?)
    }

    // The live edge at the place, if there is one.
    fn edge_on(&self, place: usize) -> Option<u32> {
        if place < self.live.len() {
            Some(self.live.get(place))
        } else {
            None
        }
    }

    // Marks the groups of two edges that are bad. Whether they are.
    fn mark_bad(&mut self, edges: &[Edge], first: Option<u32>, second: Option<u32>) -> bool
        requires sorted { AreSorted edges.now }
        requires close { AreAllClose edges.now }
        ensures live { self.new.live ≡ self.old.live }
        ensures fresh { self.new.fresh ≡ self.old.fresh }
        ensures marks { length self.new.marks.marked.items ≡ length self.old.marks.marked.items }
    {
        let (Some(first), Some(second)) = (first, second) else {
            return false;
        };
        let bad = are_bad(edges, first, second);
        if bad {
            self.marks.mark_clash(BadEdges { first, second });
        }
        bad
    }
}

// Whether both numbers are those of edges, and these are bad.
fn are_bad(edges: &[Edge], first: u32, second: u32) -> bool
    requires sorted { AreSorted edges.now }
    requires close { AreAllClose edges.now }
{
    let (first, second) = (first as usize, second as usize);
    first < edges.len() && second < edges.len() && meet(&edges[first], &edges[second]) == Meet::Bad
}

// The groups of edges by the numbers of the edges, which groups are firm, which are marked, and
// the event at which the first edge of each starts, as far as the sweep has come.
#[derive(Drop)]
struct Marks<'a> {
    groups: &'a [u32],
    firm: &'a [bool],
    marked: Vec<bool>,
    starts: Vec<u32>,
}

impl<'a> Marks<'a> {
    // No group is marked, and none has started.
    fn new(alloc: Global, groups: &'a [u32], firm: &'a [bool]) -> Result<Marks<'a>, Memory>
        ensures { IfOk result (λ m. length m.marked.items ≡ length firm.now) }
    {
        Ok(Marks {
            groups,
            firm,
            marked: vec![in alloc; false; firm.len()]?,
            starts: vec![in alloc; u32::MAX; firm.len()]?,
        })
    }

    // The group of the edge; of an edge without one a number that no group has.
    fn group(&self, edge: u32) -> usize {
        match self.groups.get(edge as usize) {
            Some(group) => *group as usize,
            None => usize::MAX,
        }
    }

    fn is_marked(&self, edge: u32) -> bool {
        matches!(self.marked.get(self.group(edge)), Some(true))
    }

    fn is_firm(&self, edge: u32) -> bool {
        matches!(self.firm.get(self.group(edge)), Some(true))
    }

    // The event at which the group of the edge starts; it is later than all others where none of
    // its edges has started.
    fn start(&self, edge: u32) -> u32 {
        match self.starts.get(self.group(edge)) {
            Some(event) => *event,
            None => u32::MAX,
        }
    }

    // Notes that edges start at the event.
    fn note_starts(&mut self, edges: &[u32], event: u32)
        ensures { length self.new.marked.items ≡ length self.old.marked.items }
    {
        for edge in edges {
            let group = self.group(*edge);
            if let Some(start) = self.starts.get_mut(group) {
                *start = event.min(*start);
            }
        }
    }

    // Marks those of the groups of two bad edges that are not firm, or, if both are, the one that
    // starts later.
    fn mark_clash(&mut self, bad: BadEdges)
        ensures { length self.new.marked.items ≡ length self.old.marked.items }
    {
        let BadEdges { first, second } = bad;
        match (self.is_firm(first), self.is_firm(second)) {
            (false, false) => {
                self.mark(first);
                self.mark(second);
            }
            (false, true) => self.mark(first),
            (true, false) => self.mark(second),
            (true, true) => self.mark(self.later(first, second)),
        }
    }

    // Of two edges the one whose group starts later, or the second where they start together.
    fn later(&self, first: u32, second: u32) -> u32 {
        if self.start(first) > self.start(second) {
            first
        } else {
            second
        }
    }

    // Marks the group of the edge.
    fn mark(&mut self, edge: u32)
        ensures { length self.new.marked.items ≡ length self.old.marked.items }
    {
        let group = self.group(edge);
        if let Some(marked) = self.marked.get_mut(group) {
            *marked = true;
        }
    }
}
