// The first event at which a corner of a tube is another curve's too.
ghost use Rattle.std.specs.Prelude.{◌≡◌, ◌↔◌, ℕ, suc, ◌+◌, ◌<◌, ◌≤◌, ◌^◌, List, IfOk, IsTrue};
ghost use Rattle.std.specs.Prelude.{length, slice_index_or};
ghost use Rattle.plane.specs.Rule.BadPairs.{IsEndOf};
ghost use Rattle.plane.specs.Rule.Plans.{plan};
ghost use Rattle.plane.specs.Runs.Timetables.{IsTimetable, Timed};
ghost use Rattle.straight_predicates.specs.EdgeEvents.{AreEventsOf};
ghost use Rattle.straight_predicates.specs.EdgeLists.{AreBelow, edge_of};
ghost use Rattle.tubes.specs.DrawnEdges.{AreAllStraight};
ghost use Rattle.tubes.specs.Corners.{AreSet, AreTubesByEvent, HasCornerAt, IsCornerAt};
ghost use Rattle.tubes.specs.Corners.{IsLeastShared, IsOther, IsSooner};
ghost use Rattle.tubes.specs.Settled.{IsFirstForeign};
ghost use Rattle.tubes.specs.TubedEdges.{IsTubedList};

use super::kinds::{EdgeList, Owner, Part};
use plane::{Curve, CurveKind, Drawing, Edge, Point};
use ports::Memory;
use std::alloc::Global;

/// The first event at which a corner of a tube, other than the ends of its half arc, is an end of
/// another curve's edge; of the list of the drawing's edges at some level. `low` and `high` have
/// the events at the low and at the high ends of the edges, by number. The only error is out of
/// memory. It takes two passes over the edges and 4 bytes for each event, and nothing of that for a
/// drawing of straights.
pub fn foreign_corner(
    alloc: Global,
    drawing: &Drawing,
    list: &EdgeList,
    low: &[u32],
    high: &[u32],
    events: u32,
) -> Result<Option<u32>, Memory>
    requires list { (level : ℕ → ℕ) × ((i : ℕ) → level i ≤ 5) × IsTubedList (plan drawing.now) level list.now }
    requires low_count { length low.now ≡ length list.now.edges.items }
    requires high_count { length high.now ≡ length list.now.edges.items }
    requires low { AreBelow events low.now }
    requires high { AreBelow events high.now }
    ensures { IfOk result (λ found. (level : ℕ → ℕ) (table : List Timed)
        → IsTubedList (plan drawing.now) level list.now
        → IsTimetable (length list.now.edges.items) (edge_of list.now.edges.items) table
        → AreEventsOf list.now.edges.items table low.now high.now → length table ≡ events
        → IsFirstForeign (plan drawing.now) level table found) }
{
    if are_straights(&drawing.curves) {
        return Ok(None);
    }
    let tubes = tubes_by_event(alloc, drawing, list, low, high, events)?;
    let first = first_shared(&tubes, &list.owners, low, high, events);
    if first < events {
        Ok(Some(first))
    } else {
        Ok(None)
    }
}

// Whether no curve is a half arc.
fn are_straights(curves: &[Curve]) -> bool
    ensures { IsTrue result ↔ AreAllStraight curves.now }
{
    for curve in curves {
        if curve.kind != CurveKind::Straight {
            return false;
        }
    }
    true
}

// By event a half arc, plus 1, whose tube has a corner there that is no end of it; else 0.
fn tubes_by_event(
    alloc: Global,
    drawing: &Drawing,
    list: &EdgeList,
    low: &[u32],
    high: &[u32],
    events: u32,
) -> Result<Vec<u32>, Memory>
    requires list { (level : ℕ → ℕ) × ((i : ℕ) → level i ≤ 5) × IsTubedList (plan drawing.now) level list.now }
    requires low_count { length low.now ≡ length list.now.edges.items }
    requires high_count { length high.now ≡ length list.now.edges.items }
    requires low { AreBelow events low.now }
    requires high { AreBelow events high.now }
    ensures { IfOk result (λ tubes. AreTubesByEvent (plan drawing.now) list.now low.now high.now
        events (length list.now.edges.items) tubes.items) }
{
    let mut tubes = vec![in alloc; 0u32; events as usize]?;
    for (e, edge) in list.edges.iter().enumerate() {
        let owner = list.owners[e];
        let curve = &drawing.curves[owner.curve as usize];
        note_corners(&mut tubes, owner, curve, edge, low[e], high[e]);
    }
    Ok(tubes)
}

fn note_corners(tubes: &mut [u32], owner: Owner, curve: &Curve, edge: &Edge, low: u32, high: u32)
    requires low { low < length tubes.old }
    requires high { high < length tubes.old }
    requires number { owner.curve + 1 < 2 ^ 32 }
    ensures { AreSet (suc owner.curve) (HasCornerAt owner.part curve.now edge.now low high)
        tubes.old tubes.new }
{
    match owner.part {
        Part::Straight => {}
        Part::Inner | Part::Outer => {
            note_corner(tubes, owner.curve, curve, edge.low, low);
            note_corner(tubes, owner.curve, curve, edge.high, high);
        }
    }
}

fn note_corner(tubes: &mut [u32], number: u32, curve: &Curve, at: Point, event: u32)
    requires event { event < length tubes.old }
    requires number { number + 1 < 2 ^ 32 }
    ensures { AreSet (suc number) (IsCornerAt curve.now at event) tubes.old tubes.new }
{
    if !is_end(curve, at) {
        tubes[event as usize] = number + 1;
    }
}

fn is_end(curve: &Curve, at: Point) -> bool
    ensures { IsTrue result ↔ IsEndOf curve.now at }
{
    curve.from == at || curve.to == at
}

// The first event at which an edge ends that is not of the tube with a corner there; else the
// number of the events.
fn first_shared(tubes: &[u32], owners: &[Owner], low: &[u32], high: &[u32], events: u32) -> u32
    requires size { length tubes.now ≡ events }
    requires low_count { length low.now ≡ length owners.now }
    requires high_count { length high.now ≡ length owners.now }
    requires low { AreBelow events low.now }
    requires high { AreBelow events high.now }
    ensures { IsLeastShared owners.now tubes.now low.now high.now events (length owners.now)
        result }
{
    let mut first = events;
    for (e, owner) in owners.iter().enumerate() {
        first = sooner(tubes, owner.curve, low[e], first);
        first = sooner(tubes, owner.curve, high[e], first);
    }
    first
}

// The event, if it comes before the first so far and the tube with a corner there is another's.
fn sooner(tubes: &[u32], curve: u32, event: u32, first: u32) -> u32
    requires { event < length tubes.now }
    ensures { IsSooner (IsOther (slice_index_or tubes.now event 0) curve) event first result }
{
    if event < first && is_other(tubes[event as usize], curve) {
        event
    } else {
        first
    }
}

// Whether it is the number of a tube, and not that of the curve's own.
fn is_other(tube: u32, curve: u32) -> bool
    ensures { IsTrue result ↔ IsOther tube curve }
{
    tube != 0 && tube - 1 != curve
}
