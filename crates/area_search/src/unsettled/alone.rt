// Curves that break the last level with no other one.
ghost use Rattle.std.specs.Prelude.{◌≡◌, ◌<◌, ◌≤◌, IfOk, IfSome, length};
ghost use Rattle.level_breaks.specs.LevelLists.{AreAlone, AreBreaksMarked};
ghost use Rattle.plane.specs.Rule.Plans.{plan};
ghost use Rattle.area_search.specs.Unsettled.Alone.{AreApart};

use super::aside::mark_near;
use super::rest::rest_without_points;
use super::settling::{LastLevel, settle};
use super::standing::{
    SearchState, after_leaving, after_settling, alone_marks, are_seen, first_standings,
    left_out_marks, tried_marks,
};
use meetings::has_many_pairs;
use plane::Drawing;
use ports::Memory;
use std::alloc::Global;

// The most drawings that are swept in the search for curves that are alone.
const ROUNDS: u32 = 96;

/// Marks for curves that break the last level with no other one; no marks where few pairs have a
/// curve that is set aside, or where such curves are not found. The only error is out of memory. It
/// takes the edges of the last level and two sweeps of them for each drawing that is looked at.
///
/// At first those that are not set aside count as alone. They are looked at together with as many
/// of the others as are not near each other, until each of the others was looked at. Of two that
/// are near each other one that counted as alone does so no longer; where neither did, one waits.
pub(crate) fn alone_curves(
    alloc: Global,
    drawing: &Drawing,
    aside: &[bool],
) -> Result<Vec<bool>, Memory>
    requires few { length (plan drawing.now).curves ≤ 16000000 }
    requires size { length aside.now ≡ length drawing.now.curves.items }
    requires marked { AreBreaksMarked (plan drawing.now) (λ n. 5) aside.now }
    ensures { IfOk result (λ marks. AreAlone (plan drawing.now) (λ n. 5) marks.items) }
{
    if has_many_pairs(alloc, drawing, aside)? {
        let first = first_standings(alloc, drawing, aside)?;
        if let Some(marks) = still_alone(alloc, drawing, first)? {
            return Ok(marks);
        }
    }
    Ok(Vec::new(alloc))
}

// Marks for the curves that are alone when all were looked at.
fn still_alone(
    alloc: Global,
    drawing: &Drawing,
    first: Vec<SearchState>,
) -> Result<Option<Vec<bool>>, Memory>
    requires few { length (plan drawing.now).curves ≤ 16000000 }
    requires apart { AreApart (plan drawing.now) first.items }
    ensures { IfOk result (λ r. IfSome r (λ marks. AreAlone (plan drawing.now) (λ n. 5) marks.items)) }
{
    let mut standings = first;
    for _ in 0..ROUNDS {
        if are_seen(&standings) {
            return Ok(Some(alone_marks(alloc, &standings)?));
        }
        match next_standings(alloc, drawing, &standings)? {
            Some(next) => standings = next,
            None => return Ok(None),
        }
    }
    Ok(None)
}

// How curves stand after one drawing more was looked at.
fn next_standings(
    alloc: Global,
    drawing: &Drawing,
    standings: &[SearchState],
) -> Result<Option<Vec<SearchState>>, Memory>
    requires few { length (plan drawing.now).curves ≤ 16000000 }
    requires apart { AreApart (plan drawing.now) standings.now }
    ensures { IfOk result (λ r. IfSome r (λ next. AreApart (plan drawing.now) next.items)) }
{
    level_breaks::laws::breaks_are_of_curves();
    let marks = left_out_marks(alloc, standings)?;
    let rest = rest_without_points(alloc, drawing, &marks)?;
    let firm = tried_marks(alloc, standings, &rest.numbers)?;
    match settle(alloc, &rest.drawing, &firm)? {
        LastLevel::Settled(_) => Ok(Some(after_settling(alloc, standings)?)),
        LastLevel::Near(places) => {
            let mut near = vec![in alloc; false; standings.len()]?;
            mark_near(&mut near, &rest.numbers, &places);
            Ok(Some(after_leaving(alloc, standings, &near)?))
        }
        LastLevel::Unsettled => Ok(None),
    }
}
