// A drawing that no level settles into its answer: a bad pair, a point on a curve, what the bent
// drawing answers, or the least pair that breaks level 5.
//
// Bad pairs are looked for, two straights first and then the least pair with a half arc, then
// points on curves (`on_curves`), then a level that settles the drawing with its forks bent
// (`bent`), then the least pair that breaks level 5. Where half arcs have
// many others near them, curves that are near each other at level 5 are first set aside, until it
// settles the drawing of the others (`settling`, `rest`): then only pairs with one of these are
// tested (`aside`). Where many are set aside, curves that break level 5 with no other one are
// looked for (`alone`, `standing`), and no pair with one that is found is tested for a break.
ghost use Rattle.std.specs.Prelude.{◌≡◌, ◌≤◌, IfOk, length};
ghost use Rattle.level_breaks.specs.LevelLists.{AreBreaksMarked, HasNoBadStraights};
ghost use Rattle.plane.specs.Rule.Plans.{plan};
ghost use Rattle.meetings.specs.StraightRuns.{IsClearRun};
ghost use Rattle.area_search.specs.Answers.{AreClear, HasNoBadPair, IsAnswer, IsUnsettled};
ghost use Rattle.area_search.specs.Regions.{AreInWindow, IsFoundBy};
ghost use Rattle.area_search.specs.Unsettled.CurvePoints.{IsLeastOf, LiesOnStraight};
ghost use Rattle.area_search.specs.Unsettled.SetAside.{AreAside};

mod alone;
mod aside;
mod bent;
mod marked_points;
mod on_curves;
mod rest;
mod settling;
mod standing;

use crate::kinds::{AreaAnswer, AreaFinding, FoundObjects, without_regions};
use crate::level::meeting;
use crate::points::OnCurve;
use alone::alone_curves;
use aside::set_aside;
pub use aside::{ExcludedCurves, few_aside};
use bent::bent_answer;
use level_breaks::first_break_among;
use line_sweep::Swept;
pub use marked_points::points_on_marked;
use meetings::{StraightRun, Straights, arc_meeting_among, sweep_straights};
use on_curves::{first_on_curve, first_on_straight};
use plane::{Drawing, Point};
use ports::Memory;
use std::alloc::Global;

/// The answer to a drawing that no level settles: a pair of curves that is bad, else a point on a
/// curve, else what the bent drawing answers, else the first pair that breaks the last level. The
/// only error is out of memory. The memory of each part is freed before the next begins.
pub(crate) fn answer_unsettled(
    alloc: Global,
    drawing: &Drawing,
    places: &[Point],
) -> Result<FoundObjects, Memory>
    requires few { length (plan drawing.now).curves ≤ 16000000 }
    requires near { AreInWindow (plan drawing.now) places.now }
    requires unsettled { IsUnsettled (plan drawing.now) }
    ensures { IfOk result (IsFoundBy drawing.now.tolerance (plan drawing.now) places.now) }
{
    match sweep_straights(alloc, drawing)? {
        StraightRun::Bad(pair) => Ok(meeting(alloc, pair.first, pair.second)),
        StraightRun::Clear { straights, swept } => {
            let on_straight = point_on_straight(alloc, drawing, straights, swept)?;
            answer_clear(alloc, drawing, places, on_straight)
        }
    }
}

// The least point on a straight, and the least straight with it, by the run of the straights,
// which is then freed.
fn point_on_straight(
    alloc: Global,
    drawing: &Drawing,
    straights: Straights,
    swept: Swept,
) -> Result<Option<OnCurve>, Memory>
    requires { IsClearRun (plan drawing.now) straights swept }
    ensures { IfOk result (IsLeastOf (LiesOnStraight (plan drawing.now))) }
{
    first_on_straight(alloc, drawing, &straights, &swept)
}

// The answer to the drawing, where no two straights are bad.
fn answer_clear(
    alloc: Global,
    drawing: &Drawing,
    places: &[Point],
    on_straight: Option<OnCurve>,
) -> Result<FoundObjects, Memory>
    requires few { length (plan drawing.now).curves ≤ 16000000 }
    requires near { AreInWindow (plan drawing.now) places.now }
    requires unsettled { IsUnsettled (plan drawing.now) }
    requires straights { HasNoBadStraights (plan drawing.now) }
    requires points { IsLeastOf (LiesOnStraight (plan drawing.now)) on_straight }
    ensures { IfOk result (IsFoundBy drawing.now.tolerance (plan drawing.now) places.now) }
{
    let aside = set_aside(alloc, drawing, on_straight)?;
    match arc_meeting_among(alloc, drawing, &aside.marks)? {
        Some(pair) => Ok(meeting(alloc, pair.first, pair.second)),
        None => answer_good(alloc, drawing, places, &aside),
    }
}

// The answer to the drawing, where no two curves are bad.
fn answer_good(
    alloc: Global,
    drawing: &Drawing,
    places: &[Point],
    aside: &ExcludedCurves,
) -> Result<FoundObjects, Memory>
    requires few { length (plan drawing.now).curves ≤ 16000000 }
    requires near { AreInWindow (plan drawing.now) places.now }
    requires unsettled { IsUnsettled (plan drawing.now) }
    requires pairs { HasNoBadPair (plan drawing.now) }
    requires aside { AreAside (plan drawing.now) aside.now.marks.items aside.now.on_others }
    ensures { IfOk result (IsFoundBy drawing.now.tolerance (plan drawing.now) places.now) }
{
    match first_on_curve(alloc, drawing, aside)? {
        Some(on) => {
            let (point, curve) = (on.point, on.curve);
            let answer = AreaAnswer::Fault(AreaFinding::On { point, curve });
            Ok(without_regions(alloc, answer))
        }
        None => answer_bent(alloc, drawing, places, aside),
    }
}

// The answer to the drawing, where no two curves are bad and no point is on a curve: that of the
// bent drawing, named by curves of the drawing, or the first pair that breaks the last level.
fn answer_bent(
    alloc: Global,
    drawing: &Drawing,
    places: &[Point],
    aside: &ExcludedCurves,
) -> Result<FoundObjects, Memory>
    requires few { length (plan drawing.now).curves ≤ 16000000 }
    requires near { AreInWindow (plan drawing.now) places.now }
    requires unsettled { IsUnsettled (plan drawing.now) }
    requires clear { AreClear (plan drawing.now) }
    requires aside { AreAside (plan drawing.now) aside.now.marks.items aside.now.on_others }
    ensures { IfOk result (IsFoundBy drawing.now.tolerance (plan drawing.now) places.now) }
{
    match bent_answer(alloc, drawing, places)? {
        Some(found) => Ok(found),
        None => {
            let answer = first_undecided(alloc, drawing, &aside.marks)?;
            Ok(without_regions(alloc, answer))
        }
    }
}

// The first pair that breaks the last level, where no curve is at fault.
fn first_undecided(alloc: Global, drawing: &Drawing, marks: &[bool]) -> Result<AreaAnswer, Memory>
    requires few { length (plan drawing.now).curves ≤ 16000000 }
    requires size { length marks.now ≡ length drawing.now.curves.items }
    requires marked { AreBreaksMarked (plan drawing.now) (λ n. 5) marks.now }
    requires clear { AreClear (plan drawing.now) }
    requires unsettled { IsUnsettled (plan drawing.now) }
    ensures { IfOk result (IsAnswer (plan drawing.now)) }
{
    let alone = alone_curves(alloc, drawing, marks)?;
    match first_break_among(alloc, drawing, 5, marks, &alone)? {
        Some(pair) => Ok(AreaAnswer::Undecided {
            first: pair.first,
            second: pair.second,
        }),
        None => unreachable!(),
    }
}
