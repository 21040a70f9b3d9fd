// The replay, event by event.
ghost use Rattle.std.specs.Prelude.{◌≡◌, ℕ, suc, ◌<◌, ◌≤◌, IfErr, OnOk, length, vec_capacity};
ghost use Rattle.certificate_checker.specs.Cases.{IsFit, judged};
ghost use Rattle.certificate_checker.specs.Marked.{IsAtBorder, NamesAcross};
ghost use Rattle.certificate_checker.specs.Placed.{IsLater};
ghost use Rattle.certificate_checker.specs.Progress.{AreMarkedTo, HasReplayed, HasRoom};
ghost use Rattle.certificate_checker.specs.Progress.{IsMovedTo};
ghost use Rattle.certificate_checker.specs.Rules.{PassesEvent};
ghost use Rattle.certificate_checker.specs.Subjects.{live_list};
ghost use Rattle.certificate_checker.specs.Verdicts.{FirstBroken};

use super::case::Case;
use super::events::{judge_event, position_of};
use super::live_list::LiveList;
use super::marks::mark_neighbours;
use super::points::place_points;
use super::state::{Broken, State};
use event_mesh::turn_event;
use half_edges::{HalfEdgeId, Mesh};

/// Goes over all events, and names the first one that breaks a rule.
pub fn replay(case: &Case, state: &mut State) -> Result<(), Broken>
    requires fit { IsFit case.now }
    requires begun { HasReplayed (judged case.now) 0 state.old }
    ensures done { OnOk result (HasReplayed (judged case.now) (length (judged case.now).table)
        state.new) }
    ensures later { OnOk result (IsLater (judged case.now) (length (judged case.now).table)
        state.new.placing.next state.new.placing.spots.items) }
    ensures broken { IfErr result (λ b. FirstBroken (judged case.now) b.rule b.place) }
{
    for event in 0..case.table.events() {
        step(case, event, state)?;
    }
    place_to(case, case.table.events(), state);
    Ok(())
}

// Places the points up to the event of that number.
fn place_to(case: &Case, event: u32, state: &mut State)
    requires fit { IsFit case.now }
    requires event { event ≤ length (judged case.now).table }
    requires replayed { HasReplayed (judged case.now) event state.old }
    ensures replayed { HasReplayed (judged case.now) event state.new }
    ensures later { IsLater (judged case.now) event state.new.placing.next
        state.new.placing.spots.items }
{
    place_points(
        case,
        event,
        &state.live,
        &mut state.placing,
        &mut state.marks.point,
    );
}

fn step(case: &Case, event: u32, state: &mut State) -> Result<(), Broken>
    requires fit { IsFit case.now }
    requires event { event < length (judged case.now).table }
    requires replayed { HasReplayed (judged case.now) event state.old }
    ensures done { OnOk result (HasReplayed (judged case.now) (suc event) state.new) }
    ensures broken { IfErr result (λ b. FirstBroken (judged case.now) b.rule b.place) }
{
    place_to(case, event, state);
    test_event(case, event, state)?;
    go_on(case, event, state);
    Ok(())
}

fn test_event(case: &Case, event: u32, state: &State) -> Result<(), Broken>
    requires fit { IsFit case.now }
    requires event { event < length (judged case.now).table }
    requires replayed { HasReplayed (judged case.now) event state.now }
    ensures passes { OnOk result (PassesEvent (judged case.now) event) }
    ensures broken { IfErr result (λ b. FirstBroken (judged case.now) b.rule b.place) }
{
    match judge_event(case, event, &state.live) {
        Ok(()) => Ok(()),
        Err(rule) => Err(Broken { rule, place: event }),
    }
}

// Marks the half-edges beside the new neighbours, turns the event, and puts the edges that start
// there in the place of those that end.
fn go_on(case: &Case, event: u32, state: &mut State)
    requires fit { IsFit case.now }
    requires event { event < length (judged case.now).table }
    requires replayed { HasReplayed (judged case.now) event state.old }
    requires later { IsLater (judged case.now) event state.old.placing.next
        state.old.placing.spots.items }
    requires passes { PassesEvent (judged case.now) event }
    ensures { HasReplayed (judged case.now) (suc event) state.new }
{
    mark_event(
        case,
        event,
        &state.live,
        &mut state.marks.border,
        &mut state.marks.across,
    );
    move_event(
        case,
        event,
        &mut state.live,
        &mut state.ending,
        &mut state.mesh,
        &mut state.fan,
    );
}

fn mark_event(case: &Case, event: u32, live: &LiveList, border: &mut [bool], across: &mut [bool])
    requires fit { IsFit case.now }
    requires event { event < length (judged case.now).table }
    requires passed { (j : ℕ) → j < event → PassesEvent (judged case.now) j }
    requires passes { PassesEvent (judged case.now) event }
    requires live { live.now.edges ≡ live_list (judged case.now) event }
    requires border { AreMarkedTo (judged case.now) IsAtBorder event border.old }
    requires across { AreMarkedTo (judged case.now) (NamesAcross (judged case.now).claims.notes)
        event across.old }
    ensures border { AreMarkedTo (judged case.now) IsAtBorder (suc event) border.new }
    ensures across { AreMarkedTo (judged case.now) (NamesAcross (judged case.now).claims.notes)
        (suc event) across.new }
{
    let position = position_of(case, event);
    let ending = case.table.ending(event).len();
    let starting = case.table.starting(event);

    // The place after the block is no greater than the length, which fits its type.
    let _length = live.len();
    let lower = live.edge_before(position);
    let upper = live.edge_at(position + ending);
    let notes = &case.certificate.notes;
    mark_neighbours(border, across, notes, lower, starting, upper);
}

fn move_event(
    case: &Case,
    event: u32,
    live: &mut LiveList,
    block: &mut Vec<u32>,
    mesh: &mut Mesh,
    fan: &mut [HalfEdgeId],
)
    requires fit { IsFit case.now }
    requires event { event < length (judged case.now).table }
    requires passes { PassesEvent (judged case.now) event }
    requires moved { IsMovedTo (judged case.now) event live.old.edges (length fan.old) mesh.old }
    requires room { HasRoom (judged case.now) live.old.most }
    requires block { length fan.old ≤ vec_capacity block.old }
    ensures moved { IsMovedTo (judged case.now) (suc event) live.new.edges (length fan.new)
        mesh.new }
    ensures room { live.new.most ≡ live.old.most }
    ensures block { vec_capacity block.new ≡ vec_capacity block.old }
{
    let position = position_of(case, event);
    let ending = case.table.ending(event).len();
    let starting = case.table.starting(event);
    live.copy_part(position, ending, block);
    turn_event(mesh, starting, block, fan);
    live.replace(position, ending, starting);
}
