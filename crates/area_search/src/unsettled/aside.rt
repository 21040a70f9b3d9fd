// Curves that are set aside: the last level settles the drawing of the others.
ghost use Rattle.std.specs.Prelude.{◌≡◌, ◌<◌, ◌≤◌, IfOk, IfSome, IsTrue, OnOk, length};
ghost use Rattle.level_breaks.specs.LevelLists.{HasNoBadStraights};
ghost use Rattle.plane.specs.Rule.Plans.{plan};
ghost use Rattle.tubes.specs.TubedEdges.{IsFit};
ghost use Rattle.area_search.specs.Unsettled.Alone.{IsBare};
ghost use Rattle.area_search.specs.Unsettled.CurvePoints.{IsLeastOf, LiesOnStraight};
ghost use Rattle.area_search.specs.Unsettled.SetAside.{AreArcMarks, AreAside, IsNumbered};

use super::rest::rest_of;
use super::settling::{LastLevel, settle};
use crate::numbers::mark;
use crate::points::OnCurve;
use level_breaks::laws::breaks_have_half_arcs;
use meetings::has_many_pairs;
use plane::{Curve, CurveKind, Drawing};
use ports::Memory;
use std::alloc::Global;
use tubes::tube;

// The most rounds before all half arcs are set aside instead.
const ROUNDS: u32 = 8;

/// Curves that are set aside, by their marks, and the least point on one of the others, if there is
/// one.
#[derive(Drop)]
pub struct ExcludedCurves {
    pub marks: Vec<bool>,
    pub on_others: Option<OnCurve>,
}

/// Curves to set aside of a drawing in which no two straights are bad: all half arcs; or, where
/// these have many others near them, few curves without which the last level settles the drawing,
/// if they are found. The only error is out of memory. In the second case it takes the edges of the
/// last level and two sweeps of them, up to eight times.
pub(crate) fn set_aside(
    alloc: Global,
    drawing: &Drawing,
    on_straight: Option<OnCurve>,
) -> Result<ExcludedCurves, Memory>
    requires few { length (plan drawing.now).curves ≤ 16000000 }
    requires straights { HasNoBadStraights (plan drawing.now) }
    requires points { IsLeastOf (LiesOnStraight (plan drawing.now)) on_straight }
    ensures { IfOk result (λ a. AreAside (plan drawing.now) a.marks.items a.on_others) }
{
    breaks_have_half_arcs();
    let marks = half_arc_marks(alloc, &drawing.curves)?;
    if has_many_pairs(alloc, drawing, &marks)? {
        if let Some(aside) = few_aside(alloc, drawing)? {
            return Ok(aside);
        }
    }
    Ok(ExcludedCurves {
        marks,
        on_others: on_straight,
    })
}

/// Few curves to set aside, without which the last level settles the drawing, if they are found:
/// half arcs without a tube at that level, and in each round curves that are near others at that
/// level among those that are left. The only error is out of memory. It takes the edges of the last
/// level and two sweeps of them, up to eight times.
pub fn few_aside(alloc: Global, drawing: &Drawing) -> Result<Option<ExcludedCurves>, Memory>
    requires few { length (plan drawing.now).curves ≤ 16000000 }
    ensures { IfOk result (λ r. IfSome r (λ a.
        AreAside (plan drawing.now) a.marks.items a.on_others)) }
{
    level_breaks::laws::breaks_are_of_curves();
    let mut marks = bare_marks(alloc, drawing)?;
    for _ in 0..ROUNDS {
        let rest = rest_of(alloc, drawing, &marks)?;
        let firm = vec![in alloc; false; rest.numbers.len()]?;
        match settle(alloc, &rest.drawing, &firm)? {
            LastLevel::Settled(on) => {
                let on_others = numbered(&rest.numbers, on);
                return Ok(Some(ExcludedCurves { marks, on_others }));
            }
            LastLevel::Near(near) => mark_near(&mut marks, &rest.numbers, &near),
            LastLevel::Unsettled => return Ok(None),
        }
    }
    Ok(None)
}

/// Marks the curves whose places among the numbers are marked.
pub(crate) fn mark_near(marks: &mut [bool], numbers: &[u32], near: &[bool])
    ensures { length marks.new ≡ length marks.old }
{
    for place in 0..numbers.len() {
        if matches!(near.get(place), Some(true)) {
            mark(marks, numbers[place]);
        }
    }
}

// The same point, with the number of the curve at its place among the numbers.
fn numbered(numbers: &[u32], on: Option<OnCurve>) -> Option<OnCurve>
    requires { IfSome on (λ p. p.curve < length numbers.now) }
    ensures { IsNumbered numbers.now on result }
{
    match on {
        Some(on) => Some(OnCurve {
            point: on.point,
            curve: numbers[on.curve as usize],
        }),
        None => None,
    }
}

fn half_arc_marks(alloc: Global, curves: &[Curve]) -> Result<Vec<bool>, Memory>
    ensures { IfOk result (λ marks. AreArcMarks curves.now (length curves.now) marks.items) }
{
    let mut marks = Vec::with_capacity(alloc, curves.len())?;
    for curve in curves {
        marks.push(curve.kind == CurveKind::HalfArc)?;
    }
    Ok(marks)
}

// Marks for the half arcs that have no tube at the last level.
fn bare_marks(alloc: Global, drawing: &Drawing) -> Result<Vec<bool>, Memory>
    ensures { IfOk result (λ marks. length marks.items ≡ length drawing.now.curves.items) }
{
    let mut marks = Vec::with_capacity(alloc, drawing.curves.len())?;
    for number in 0..drawing.curves.len() {
        marks.push(is_bare(alloc, &drawing.curves[number])?)?;
    }
    Ok(marks)
}

/// Whether the curve is a half arc without a tube at the last level.
pub(crate) fn is_bare(alloc: Global, curve: &Curve) -> Result<bool, Memory>
    requires { IsFit curve.now }
    ensures { IfOk result (λ bare. IsTrue bare → IsBare curve.now) }
{
    if curve.kind == CurveKind::Straight {
        return Ok(false);
    }
    Ok(tube(alloc, curve, 5)?.is_none())
}
