// Bad pairs with a half arc.
ghost use Rattle.std.specs.Prelude.{◌≡◌, ℕ, ◌<◌, None, false, IfOk, IfSome, length};
ghost use Rattle.plane.specs.declared.kinds.CurveKind.TheVariants as kind;
ghost use Rattle.plane.specs.Rule.Plans.{plan};
ghost use Rattle.near_pairs.specs.Boxes.{IsOneMarked};
ghost use Rattle.near_pairs.specs.LeastPairs.{IsLess};
ghost use Rattle.meetings.specs.CurveBoxes.{AreMarksTo, AreReachesTo, IsEachPlaced};
ghost use Rattle.meetings.specs.CurvePairs.{IsArcPair};
ghost use Rattle.meetings.specs.StraightEdges.{curve_of};

use super::badness::are_arc_bad;
use super::pairs::BadPair;
use super::reaching::reach;
use near_pairs::{PairTest, Reach, are_many, least};
use plane::{Curve, CurveKind, Drawing};
use ports::Memory;
use std::alloc::Global;

// Curves, of which pairs are tested.
#[derive(Drop)]
struct ArcTest<'a> {
    curves: &'a [Curve],
}

impl<'a> PairTest for ArcTest<'a> {
    ghost use Rattle.std.specs.Prelude.{◌<◌, length};
    ghost use Rattle.meetings.specs.CurvePairs.{AreArcBad};
    ghost use Rattle.meetings.specs.PlacedCurves.{ArePlaced};
    ghost use Rattle.meetings.specs.StraightEdges.{curve_of};

    ghost can_test = { λ s i j. (i < length s.curves.now) × (j < length s.curves.now)
        × ArePlaced (curve_of s.curves.now i) (curve_of s.curves.now j) };

    ghost sought = { λ s i j. AreArcBad (curve_of s.curves.now i) (curve_of s.curves.now j) };

    fn is_sought(&self, first: u32, second: u32) -> bool {
        are_arc_bad(&self.curves[first as usize], &self.curves[second as usize])
    }
}

/// The least bad pair of which one at least is a half arc, by its first number, then by its second;
/// None exactly where the drawing has no such pair. The only error is out of memory. It takes the
/// time of half arcs times the curves that begin within their boxes along x, or the other way
/// round, and 65 bytes for each curve; without a half arc no pair is looked at.
pub fn arc_meeting(alloc: Global, drawing: &Drawing) -> Result<Option<BadPair>, Memory>
    ensures bad { IfOk result (λ r. IfSome r (λ p.
        IsArcPair (plan drawing.now) p.first p.second)) }
    ensures least { IfOk result (λ r. IfSome r (λ p. (i j : ℕ)
        → IsArcPair (plan drawing.now) i j → IsLess i j p.first p.second → ⊥)) }
    ensures none { IfOk result (λ r. r ≡ None → (i j : ℕ)
        → IsArcPair (plan drawing.now) i j → ⊥) }
{
    if !has_half_arc(&drawing.curves) {
        return Ok(None);
    }
    let marks = half_arc_marks(alloc, &drawing.curves)?;
    arc_meeting_among(alloc, drawing, &marks)
}

/// The same of a drawing in which of each such pair one curve is marked. It takes the time of the
/// marked curves times those that begin within their boxes along x, or the other way round.
pub fn arc_meeting_among(
    alloc: Global,
    drawing: &Drawing,
    marked: &[bool],
) -> Result<Option<BadPair>, Memory>
    requires size { length marked.now ≡ length drawing.now.curves.items }
    requires marked { (i j : ℕ) → IsArcPair (plan drawing.now) i j → IsOneMarked marked.now i j }
    ensures bad { IfOk result (λ r. IfSome r (λ p.
        IsArcPair (plan drawing.now) p.first p.second)) }
    ensures least { IfOk result (λ r. IfSome r (λ p. (i j : ℕ)
        → IsArcPair (plan drawing.now) i j → IsLess i j p.first p.second → ⊥)) }
    ensures none { IfOk result (λ r. r ≡ None → (i j : ℕ)
        → IsArcPair (plan drawing.now) i j → ⊥) }
{
    plane::arcs::boxes_of_bad_curves_meet();
    let curves = drawing.curves.as_slice();
    let reaches = curve_reaches(alloc, curves)?;
    let test = ArcTest { curves };
    match least(alloc, &reaches, marked, &test)? {
        Some(pair) => Ok(Some(BadPair {
            first: pair.first,
            second: pair.second,
        })),
        None => Ok(None),
    }
}

/// Whether many pairs with a marked curve would have to be looked at, by their boxes
/// (`near_pairs::are_many`). No answer rests on it. The only error is out of memory.
pub fn has_many_pairs(alloc: Global, drawing: &Drawing, marked: &[bool]) -> Result<bool, Memory>
    requires { length marked.now ≡ length drawing.now.curves.items }
{
    let reaches = curve_reaches(alloc, &drawing.curves)?;
    are_many(alloc, &reaches, marked)
}

fn has_half_arc(curves: &[Curve]) -> bool
    ensures { result ≡ false → (i : ℕ) → i < length curves.now
        → (curve_of curves.now i).kind ≡ kind.HalfArc → ⊥ }
{
    curves.iter().any(|curve| curve.kind == CurveKind::HalfArc)
}

/// The box of each curve (`reach`). The only error is out of memory. It takes 32 bytes for each.
pub fn curve_reaches(alloc: Global, curves: &[Curve]) -> Result<Vec<Reach>, Memory>
    requires { IsEachPlaced curves.now }
    ensures { IfOk result (λ r. AreReachesTo curves.now (length curves.now) r.items) }
{
    let mut reaches = Vec::with_capacity(alloc, curves.len())?;
    for curve in curves {
        reaches.push(reach(curve))?;
    }
    Ok(reaches)
}

/// Marks for the half arcs. The only error is out of memory.
pub fn half_arc_marks(alloc: Global, curves: &[Curve]) -> Result<Vec<bool>, Memory>
    ensures { IfOk result (λ r. AreMarksTo curves.now (length curves.now) r.items) }
{
    let mut marks = Vec::with_capacity(alloc, curves.len())?;
    for curve in curves {
        marks.push(curve.kind == CurveKind::HalfArc)?;
    }
    Ok(marks)
}
