// How curves stand while those are looked for that break the last level with no other one.
ghost use Rattle.std.specs.Prelude.{◌≡◌, IfOk, IsTrue, length, map};
ghost use Rattle.std.specs.List.{All};
ghost use Rattle.plane.specs.Rule.Plans.{plan};
ghost use Rattle.tubes.specs.TubedEdges.{IsFit};
ghost use Rattle.area_search.specs.Unsettled.Alone.{AreFirstTo, AreLeftTo, IsFirst, IsSeen};
ghost use Rattle.area_search.specs.Unsettled.Alone.{after_leaving, after_settling, is_alone};
ghost use Rattle.area_search.specs.Unsettled.Alone.{is_left_out};

use super::aside::is_bare;
use plane::{Curve, Drawing};
use ports::Memory;
use std::alloc::Global;

/// How a curve stands. What is looked at is a drawing of those that are alone and of those that are
/// tried.
#[derive(Clone, Copy, Debug, PartialEq, Eq)]
pub(crate) enum SearchState {
    /// It breaks the level with none of those that were looked at.
    Alone,
    /// It is looked at now.
    Tried,
    /// It is near one that is looked at now, and is tried later.
    Waiting,
    /// It was looked at, and may break the level with others that are not alone.
    Seen,
}

impl SearchState {
    ghost use Rattle.std.specs.Prelude.{◌≡◌, ◌↔◌, IsTrue};
    ghost use Rattle.area_search.specs.Unsettled.Alone as spec;

    pub(crate) fn is_seen(self) -> bool
        ensures { IsTrue result ↔ spec.IsSeen self }
    {
        match self {
            SearchState::Alone | SearchState::Seen => true,
            SearchState::Tried | SearchState::Waiting => false,
        }
    }

    fn is_alone(self) -> bool
        ensures { result ≡ spec.is_alone self }
    {
        match self {
            SearchState::Alone => true,
            SearchState::Tried | SearchState::Waiting | SearchState::Seen => false,
        }
    }

    fn is_left_out(self) -> bool
        ensures { result ≡ spec.is_left_out self }
    {
        match self {
            SearchState::Alone | SearchState::Tried => false,
            SearchState::Waiting | SearchState::Seen => true,
        }
    }

    fn after_settling(self) -> SearchState
        ensures { result ≡ spec.after_settling self }
    {
        match self {
            SearchState::Alone => SearchState::Alone,
            SearchState::Waiting => SearchState::Tried,
            SearchState::Tried | SearchState::Seen => SearchState::Seen,
        }
    }

    fn after_leaving(self) -> SearchState
        ensures { result ≡ spec.after_leaving self }
    {
        match self {
            SearchState::Alone | SearchState::Seen => SearchState::Seen,
            SearchState::Tried | SearchState::Waiting => SearchState::Waiting,
        }
    }
}

/// How curves stand at first: those that are not set aside are alone, the others are tried but for
/// half arcs without a tube, which break the level with no other curve. It makes the tubes of the
/// curves that are set aside, one after the other.
pub(crate) fn first_standings(
    alloc: Global,
    drawing: &Drawing,
    aside: &[bool],
) -> Result<Vec<SearchState>, Memory>
    requires { length aside.now ≡ length drawing.now.curves.items }
    ensures { IfOk result (λ ss. AreFirstTo (plan drawing.now) aside.now
        (length drawing.now.curves.items) ss.items) }
{
    let mut standings = Vec::with_capacity(alloc, drawing.curves.len())?;
    for number in 0..drawing.curves.len() {
        standings.push(first_standing(alloc, &drawing.curves[number], aside[number])?)?;
    }
    Ok(standings)
}

fn first_standing(alloc: Global, curve: &Curve, aside: bool) -> Result<SearchState, Memory>
    requires { IsFit curve.now }
    ensures { IfOk result (IsFirst curve.now aside) }
{
    if !aside {
        return Ok(SearchState::Alone);
    }
    if is_bare(alloc, curve)? {
        Ok(SearchState::Seen)
    } else {
        Ok(SearchState::Tried)
    }
}

/// Marks for the curves that are left out of what is looked at.
pub(crate) fn left_out_marks(alloc: Global, standings: &[SearchState]) -> Result<Vec<bool>, Memory>
    ensures { IfOk result (λ marks. marks.items ≡ map is_left_out standings.now) }
{
    let mut marks = Vec::with_capacity(alloc, standings.len())?;
    for standing in standings {
        marks.push(standing.is_left_out())?;
    }
    Ok(marks)
}

/// Marks for the curves that are alone.
pub(crate) fn alone_marks(alloc: Global, standings: &[SearchState]) -> Result<Vec<bool>, Memory>
    ensures { IfOk result (λ marks. marks.items ≡ map is_alone standings.now) }
{
    let mut marks = Vec::with_capacity(alloc, standings.len())?;
    for standing in standings {
        marks.push(standing.is_alone())?;
    }
    Ok(marks)
}

/// Marks for those of the numbers whose curves are tried.
pub(crate) fn tried_marks(
    alloc: Global,
    standings: &[SearchState],
    numbers: &[u32],
) -> Result<Vec<bool>, Memory> {
    let mut marks = Vec::with_capacity(alloc, numbers.len())?;
    for number in numbers {
        let standing = standings.get(*number as usize);
        marks.push(matches!(standing, Some(SearchState::Tried)))?;
    }
    Ok(marks)
}

/// How curves stand once the last level settles what was looked at.
pub(crate) fn after_settling(
    alloc: Global,
    standings: &[SearchState],
) -> Result<Vec<SearchState>, Memory>
    ensures { IfOk result (λ ss. ss.items ≡ map after_settling standings.now) }
{
    let mut next = Vec::with_capacity(alloc, standings.len())?;
    for standing in standings {
        next.push(standing.after_settling())?;
    }
    Ok(next)
}

/// How curves stand once those that are marked are near others.
pub(crate) fn after_leaving(
    alloc: Global,
    standings: &[SearchState],
    near: &[bool],
) -> Result<Vec<SearchState>, Memory>
    requires { length near.now ≡ length standings.now }
    ensures { IfOk result (λ ss. AreLeftTo standings.now (length standings.now) ss.items) }
{
    let mut next = Vec::with_capacity(alloc, standings.len())?;
    for number in 0..standings.len() {
        let standing = standings[number];
        next.push(if near[number] {
            standing.after_leaving()
        } else {
            standing
        })?;
    }
    Ok(next)
}

/// Whether all curves were looked at.
pub(crate) fn are_seen(standings: &[SearchState]) -> bool
    ensures { IsTrue result → All IsSeen standings.now }
{
    standings.iter().all(|standing| standing.is_seen())
}
