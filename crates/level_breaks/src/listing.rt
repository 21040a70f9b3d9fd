// The tubes, boxes and marks of the curves of a drawing.
ghost use Rattle.std.specs.Prelude.{◌≡◌, ◌↔◌, ◌≤◌, ◌<◌, ◌^◌, IfOk, IsTrue, length};
ghost use Rattle.plane.specs.declared.kinds.CurveKind.TheVariants as kind;
ghost use Rattle.plane.specs.Rule.Plans.{plan};
ghost use Rattle.near_pairs.specs.Boxes.{box_of};
ghost use Rattle.tubes.specs.Settled.{AreTubesAt, IsTubeFor};
ghost use Rattle.tubes.specs.TubedEdges.{IsFit};
ghost use Rattle.level_breaks.specs.Groups.{Covers, HoldsAll, corners};
ghost use Rattle.level_breaks.specs.LevelLists.{AreBoxesTo, AreMarksTo, IsFirstBare};

use super::boxes::{around, grown};
use near_pairs::Reach;
use plane::{Curve, CurveKind, Drawing, Point};
use ports::Memory;
use std::alloc::Global;
use tubes::{Tube, tube};

/// The tube of each half arc at the level, where it has one, and none for straights.
pub fn level_tubes(alloc: Global, drawing: &Drawing, level: u8) -> Result<Vec<Option<Tube>>, Memory>
    requires { level ≤ 5 }
    ensures { IfOk result (λ r. AreTubesAt (plan drawing.now) (λ k. level) r.items) }
{
    let mut tubes = Vec::with_capacity(alloc, drawing.curves.len())?;
    for curve in &drawing.curves {
        tubes.push(tube_for(alloc, curve, level)?)?;
    }
    Ok(tubes)
}

/// The same for one curve.
pub fn tube_for(alloc: Global, curve: &Curve, level: u8) -> Result<Option<Tube>, Memory>
    requires level { level ≤ 5 }
    requires fit { IsFit curve.now }
    ensures { IfOk result (IsTubeFor curve.now level) }
{
    match curve.kind {
        CurveKind::Straight => Ok(None),
        CurveKind::HalfArc => tube(alloc, curve, level),
    }
}

/// A box for each curve: it holds the ends of the curve's edges.
pub fn boxes(alloc: Global, curves: &[Curve], tubes: &[Option<Tube>]) -> Result<Vec<Reach>, Memory>
    requires { length tubes.now ≡ length curves.now }
    ensures { IfOk result (λ r. AreBoxesTo curves.now tubes.now (length curves.now) r.items) }
{
    let mut boxes = Vec::with_capacity(alloc, curves.len())?;
    for number in 0..curves.len() {
        boxes.push(group_box(&curves[number], &tubes[number]))?;
    }
    Ok(boxes)
}

/// A box that holds the ends of the curve's edges.
pub fn group_box(curve: &Curve, tube: &Option<Tube>) -> Reach
    ensures { HoldsAll (box_of result) (corners curve.now tube.now) }
{
    match tube {
        Some(tube) => with_points(with_points(around(curve.from), &tube.inner), &tube.outer),
        None => grown(around(curve.from), curve.to),
    }
}

// The least box that holds what the box holds, and the points.
fn with_points(reach: Reach, points: &[Point]) -> Reach
    ensures kept { Covers (box_of result) (box_of reach) }
    ensures points { HoldsAll (box_of result) points.now }
{
    let mut all = reach;
    for point in points {
        all = grown(all, *point);
    }
    all
}

pub fn half_arc_marks(alloc: Global, curves: &[Curve]) -> Result<Vec<bool>, Memory>
    ensures { IfOk result (λ r. AreMarksTo curves.now (length curves.now) r.items) }
{
    let mut marks = Vec::with_capacity(alloc, curves.len())?;
    for curve in curves {
        marks.push(is_half_arc(curve))?;
    }
    Ok(marks)
}

pub fn is_half_arc(curve: &Curve) -> bool
    ensures { IsTrue result ↔ (curve.now.kind ≡ kind.HalfArc) }
{
    curve.kind == CurveKind::HalfArc
}

/// The first half arc without a tube.
pub fn first_bare(curves: &[Curve], tubes: &[Option<Tube>]) -> Option<u32>
    requires few { length curves.now < 2 ^ 30 }
    requires size { length tubes.now ≡ length curves.now }
    ensures { IsFirstBare curves.now tubes.now result }
{
    for number in 0..curves.len() {
        if is_half_arc(&curves[number]) && tubes[number].is_none() {
            return Some(number as u32);
        }
    }
    None
}
