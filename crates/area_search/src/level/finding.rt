// The answer to a drawing.
ghost use Rattle.std.specs.Prelude.{◌≤◌, IfOk, length};
ghost use Rattle.plane.specs.Rule.Plans.{plan};
ghost use Rattle.tubes.specs.FewEdges.{HasFewEdges};
ghost use Rattle.area_search.specs.Answers.{SettlesNoneBelow};
ghost use Rattle.area_search.specs.Grounds.{IsAnswerBy};
ghost use Rattle.area_search.specs.Level.LevelAnswers.{AreOfDrawing, AreShown, IsShown};
ghost use Rattle.area_search.specs.Regions.{AreInWindow, AreRegions, IsSettledFound};

use super::at_fault::answer_at_fault;
use super::bad_edges::CurvePair;
use super::by_sweep::{Shown, shown_by_sweep};
use super::settled_levels::{SettledLevel, answer_of_level};
use crate::kinds::{AreaAnswer, FoundObjects};
use crate::unsettled::answer_unsettled;
use level_breaks::breaks_level;
use plane::{Drawing, Point};
use ports::Memory;
use std::alloc::Global;

/// The answer to a drawing of at most 16,000,000 curves, by its ground: itself where some level
/// settles it, else what becomes of it when its forks are bent, by the overlap that it permits. It
/// is a certificate with empty names where the ground is a partition without a cut that some level
/// settles, else the first fault in the order of the answers; or the pair that no level settles.
/// The only error is out of memory. For the costs see the head of the crate.
pub fn find_area(alloc: Global, drawing: &Drawing) -> Result<AreaAnswer, Memory>
    requires curves { length (plan drawing.now).curves ≤ 16000000 }
    ensures { IfOk result (IsAnswerBy drawing.now.tolerance (plan drawing.now)) }
{
    let found = find_objects(alloc, drawing, &[])?;
    Ok(found.answer)
}

/// The answer to a drawing, as `find_area` gives it, and where the answer is a certificate, the
/// region of each of these places in the ground of the drawing, in order. The only error is out of
/// memory. For the costs see the head of the crate.
pub fn find_objects(
    alloc: Global,
    drawing: &Drawing,
    places: &[Point],
) -> Result<FoundObjects, Memory>
    requires curves { length (plan drawing.now).curves ≤ 16000000 }
    requires near { AreInWindow (plan drawing.now) places.now }
    ensures answer { IfOk result (λ f. IsAnswerBy drawing.now.tolerance (plan drawing.now)
        f.answer) }
    ensures regions { IfOk result (AreRegions drawing.now.tolerance (plan drawing.now)
        places.now) }
{
    tubes::laws::few_curves_have_few_edges();
    match all_levels(alloc, drawing)? {
        LevelsShown::Settled(found) => answer_of_level(alloc, drawing, places, found),
        LevelsShown::Unsettled(Some(bad)) => answer_at_fault(alloc, drawing, bad),
        LevelsShown::Unsettled(None) => answer_unsettled(alloc, drawing, places),
    }
}

/// The answer to a drawing that some level settles, with the regions of these places; none where no
/// level does. The only error is out of memory.
pub(crate) fn settled_answer(
    alloc: Global,
    drawing: &Drawing,
    places: &[Point],
) -> Result<Option<FoundObjects>, Memory>
    requires few { HasFewEdges (plan drawing.now) }
    requires near { AreInWindow (plan drawing.now) places.now }
    ensures { IfOk result (IsSettledFound (plan drawing.now) places.now) }
{
    match all_levels(alloc, drawing)? {
        LevelsShown::Settled(found) => Ok(Some(answer_of_level(alloc, drawing, places, found)?)),
        LevelsShown::Unsettled(_) => Ok(None),
    }
}

/// What the levels from 0 to 5 show of a drawing.
#[derive(Drop)]
pub(crate) enum LevelsShown {
    /// The least level that settles the drawing.
    Settled(SettledLevel),
    /// No level settles the drawing. Two curves that are bad, where some were met.
    Unsettled(Option<CurvePair>),
}

/// Tries the levels in turn. The only error is out of memory.
pub(super) fn all_levels(alloc: Global, drawing: &Drawing) -> Result<LevelsShown, Memory>
    requires { HasFewEdges (plan drawing.now) }
    ensures { IfOk result (AreShown (plan drawing.now)) }
{
    let mut pair = None;
    let mut bad = None;
    for level in 0..6 {
        match shown_at(alloc, drawing, level, pair)? {
            Shown::Settled(found) => return Ok(LevelsShown::Settled(found)),
            Shown::Unsettled(next) => pair = next,
            Shown::AtFault(two) => {
                pair = Some(two);
                bad = Some(two);
            }
        }
    }
    Ok(LevelsShown::Unsettled(bad))
}

// What is shown of a level that is the least one or follows one that does not settle the drawing:
// by the two curves whose edges were bad there, if they break this level too; else by a sweep. The
// only error is out of memory.
fn shown_at(
    alloc: Global,
    drawing: &Drawing,
    level: u8,
    pair: Option<CurvePair>,
) -> Result<Shown, Memory>
    requires few { HasFewEdges (plan drawing.now) }
    requires low { level ≤ 5 }
    requires least { SettlesNoneBelow (plan drawing.now) level }
    requires pair { AreOfDrawing (plan drawing.now) pair }
    ensures { IfOk result (IsShown (plan drawing.now) level) }
{
    level_breaks::laws::settled_is_unbroken();
    if let Some(two) = pair {
        if breaks_level(alloc, drawing, two.first, two.second, level)? {
            return Ok(Shown::Unsettled(pair));
        }
    }
    shown_by_sweep(alloc, drawing, level)
}
