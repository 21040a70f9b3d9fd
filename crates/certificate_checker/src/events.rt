// The rules of an event.
ghost use Rattle.std.specs.Prelude.{◌≡◌, ◌↔◌, ℕ, suc, ◌+◌, ◌-◌, ◌<◌, ◌≤◌, pos, ◌<ℤ◌, IfErr, IsTrue};
ghost use Rattle.std.specs.Prelude.{OnOk, drop, length, slice_index_or, take};
ghost use Rattle.plane.specs.Lists.{Has};
ghost use Rattle.plane.specs.Runs.Positions.{turn_at};
ghost use Rattle.straight_predicates.specs.EdgeLists.{AreAllClose, AreBelow, IsCloseToAll};
ghost use Rattle.straight_predicates.specs.EdgeLists.{edge_of};
ghost use Rattle.certificate_checker.specs.Cases.{IsFit, judged};
ghost use Rattle.certificate_checker.specs.Rules.{HasBlock, IsBetween, PassesEvent, TurnLeft};
ghost use Rattle.certificate_checker.specs.Subjects.{live_list, position_at};
ghost use Rattle.certificate_checker.specs.Verdicts.{EventBroken};

use super::case::Case;
use super::labels::labels_match;
use super::live_list::LiveList;
use plane::{Edge, Point};
use straight_predicates::{Turn, turn_over};

/// The first of the four rules of the event that is broken, by the live list before it.
pub fn judge_event(case: &Case, event: u32, live: &LiveList) -> Result<(), u8>
    requires fit { IsFit case.now }
    requires event { event < length (judged case.now).table }
    requires passed { (j : ℕ) → j < event → PassesEvent (judged case.now) j }
    requires live { live.now.edges ≡ live_list (judged case.now) event }
    requires known { AreBelow (length case.now.edges.now) live.now.edges }
    ensures passes { OnOk result (PassesEvent (judged case.now) event) }
    ensures broken { IfErr result (EventBroken (judged case.now) event) }
{
    let at = case.table.at(event);
    let position = position_of(case, event);
    let ending = case.table.ending(event).len();
    let starting = case.table.starting(event);
    if !has_block(case.edges, live, at, position, ending) {
        return Err(4);
    }
    if !is_between(case.edges, live, at, position, ending) {
        return Err(5);
    }
    if !turn_left(case.edges, starting) {
        return Err(6);
    }
    if !labels_match(&case.certificate.notes, live, position, ending, starting) {
        return Err(7);
    }
    Ok(())
}

/// The place of the event's block in the live list, as the certificate says.
pub fn position_of(case: &Case, event: u32) -> usize
    requires fit { IsFit case.now }
    requires event { event < length (judged case.now).table }
    ensures { result ≡ position_at (judged case.now) event }
{
    let positions: &[u32] = &case.certificate.positions;
    positions[event as usize] as usize
}

fn has_block(edges: &[Edge], live: &LiveList, at: Point, position: usize, ending: usize) -> bool
    requires known { AreBelow (length edges.now) live.now.edges }
    ensures { IsTrue result ↔ HasBlock (edge_of edges.now) live.now.edges at position ending }
{
    if position > live.len() || ending > live.len() - position {
        return false;
    }
    all_end_at(edges, live, position, position + ending, at)
}

// Whether the edges at the places from one up to another end at the point.
fn all_end_at(edges: &[Edge], live: &LiveList, from: usize, upto: usize, at: Point) -> bool
    requires known { AreBelow (length edges.now) live.now.edges }
    requires order { from ≤ upto }
    requires within { upto ≤ length live.now.edges }
    ensures { IsTrue result ↔ ((e : ℕ) → Has e (take (upto - from) (drop from live.now.edges))
        → (edge_of edges.now e).high ≡ at) }
{
    for place in from..upto {
        if !ends_at(edges, live.get(place), at) {
            return false;
        }
    }
    true
}

fn ends_at(edges: &[Edge], edge: u32, at: Point) -> bool
    requires known { edge < length edges.now }
    ensures { IsTrue result ↔ ((edge_of edges.now edge).high ≡ at) }
{
    edges[edge as usize].high == at
}

fn is_between(edges: &[Edge], live: &LiveList, at: Point, position: usize, ending: usize) -> bool
    requires known { AreBelow (length edges.now) live.now.edges }
    requires close { IsCloseToAll edges.now at }
    requires block { position + ending ≤ length live.now.edges }
    ensures { IsTrue result ↔ IsBetween (edge_of edges.now) live.now.edges at position ending }
{
    // The place after the block is no greater than the length, which fits its type.
    let _length = live.len();
    is_over(edges, live, position, at) && is_under(edges, live, position + ending, at)
}

/// Whether the point is strictly above the edge before the place, where there is one.
pub fn is_over(edges: &[Edge], live: &LiveList, place: usize, at: Point) -> bool
    requires known { AreBelow (length edges.now) live.now.edges }
    requires close { IsCloseToAll edges.now at }
    requires place { place ≤ length live.now.edges }
    ensures { IsTrue result ↔ ((i : ℕ) → place ≡ suc i
        → pos 0 <ℤ turn_at (edge_of edges.now) (slice_index_or live.now.edges i 0) at) }
{
    place == 0 || is_above(edges, live.get(place - 1), at)
}

/// Whether the point is strictly below the edge at the place, where there is one.
pub fn is_under(edges: &[Edge], live: &LiveList, place: usize, at: Point) -> bool
    requires known { AreBelow (length edges.now) live.now.edges }
    requires close { IsCloseToAll edges.now at }
    requires place { place ≤ length live.now.edges }
    ensures { IsTrue result ↔ (place < length live.now.edges
        → turn_at (edge_of edges.now) (slice_index_or live.now.edges place 0) at <ℤ pos 0) }
{
    place == live.len() || is_below(edges, live.get(place), at)
}

fn turn_left(edges: &[Edge], starting: &[u32]) -> bool
    requires known { AreBelow (length edges.now) starting.now }
    requires close { AreAllClose edges.now }
    ensures { IsTrue result ↔ TurnLeft (edge_of edges.now) starting.now }
{
    for i in 1..starting.len() {
        let next = edges[starting[i] as usize].high;
        if !is_above(edges, starting[i - 1], next) {
            return false;
        }
    }
    true
}

/// Whether the point is strictly above the edge of that number.
pub fn is_above(edges: &[Edge], edge: u32, at: Point) -> bool
    requires known { edge < length edges.now }
    requires close { IsCloseToAll edges.now at }
    ensures { IsTrue result ↔ (pos 0 <ℤ turn_at (edge_of edges.now) edge at) }
{
    turn_over(edges, edge, at) == Turn::Left
}

/// Whether the point is strictly below the edge of that number.
pub fn is_below(edges: &[Edge], edge: u32, at: Point) -> bool
    requires known { edge < length edges.now }
    requires close { IsCloseToAll edges.now at }
    ensures { IsTrue result ↔ (turn_at (edge_of edges.now) edge at <ℤ pos 0) }
{
    turn_over(edges, edge, at) == Turn::Right
}
