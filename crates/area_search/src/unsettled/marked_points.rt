// All objects' points on marked curves.
ghost use Rattle.std.specs.Prelude.{◌≡◌, ◌+◌, ◌^◌, ◌<◌, ◌≤◌, ℕ, None, IfOk, IfSome, false, length};
ghost use Rattle.std.specs.Prelude.{true};
ghost use Rattle.near_pairs.specs.PairLists.{AreCodes, IsCode, IsPairList};
ghost use Rattle.plane.specs.Rule.Plans.{plan};
ghost use Rattle.area_search.specs.Unsettled.CurvePoints.{AreMarkedTo, IsPointOnCurve};
ghost use Rattle.area_search.specs.Unsettled.MarkedPoints.{AreDecoded, ArePairsOn, HasManyOn};
ghost use Rattle.area_search.specs.Unsettled.MarkedPoints.{IsDecoded};

use super::on_curves::{OnTest, boxes};
use crate::numbers::numbers_with;
use fault_lists::OnAt;
use near_pairs::{PairList, all, marked_from};
use plane::Drawing;
use ports::Memory;
use std::alloc::Global;

/// All pairs of an object's point and a marked curve on which it lies, of half arcs those for which
/// it has a side; None only where there are more than `most`. The only error is out of memory. It
/// takes the marked curves times the points that begin within their boxes along x, or the other way
/// round, 65 bytes for each of both, and 16 for each pair.
pub fn points_on_marked(
    alloc: Global,
    drawing: &Drawing,
    marked: &[bool],
    most: usize,
) -> Result<Option<Vec<OnAt>>, Memory>
    requires { length marked.now ≡ length drawing.now.curves.items }
    ensures some { IfOk result (λ r. IfSome r (λ ons. ArePairsOn (plan drawing.now) marked.now
        ons.items)) }
    ensures none { IfOk result (λ r. r ≡ None → HasManyOn (plan drawing.now) most) }
{
    let numbers = numbers_with(alloc, marked, true)?;
    let pairs = pairs_on(alloc, drawing, marked, &numbers, most)?;
    if !pairs.whole {
        return Ok(None);
    }
    let ons = decoded(alloc, drawing, &numbers, &pairs.codes)?;
    Ok(Some(ons))
}

// The pairs of a point and one of the marked curves, which have these numbers, by their codes.
fn pairs_on(
    alloc: Global,
    drawing: &Drawing,
    marked: &[bool],
    numbers: &[u32],
    most: usize,
) -> Result<PairList, Memory>
    requires { AreMarkedTo marked.now true (length drawing.now.curves.items) numbers.now }
    ensures pairs { IfOk result (IsPairList (IsPointOnCurve (plan drawing.now) numbers.now)
        (length drawing.now.points.items + length numbers.now)) }
    ensures many { IfOk result (λ l. l.whole ≡ false → most < length l.codes.items) }
    ensures few { length drawing.now.points.items + length numbers.now < 2 ^ 32 }
{
    plane::arcs::boxes_of_bad_curves_meet();
    let boxes = boxes(alloc, drawing, numbers)?;
    let marks = marked_from(alloc, drawing.points.len(), boxes.as_slice().len())?;
    let test = OnTest { drawing, numbers };
    all(alloc, &boxes, &marks, &test, most)
}

// The pairs of these codes.
fn decoded(
    alloc: Global,
    drawing: &Drawing,
    numbers: &[u32],
    codes: &[u64],
) -> Result<Vec<OnAt>, Memory>
    requires few { length drawing.now.points.items + length numbers.now < 2 ^ 32 }
    requires codes { AreCodes (IsPointOnCurve (plan drawing.now) numbers.now)
        (length drawing.now.points.items + length numbers.now) codes.now }
    ensures { IfOk result (λ ons. AreDecoded (plan drawing.now) numbers.now codes.now
        (length codes.now) ons.items) }
{
    let mut ons = Vec::with_capacity(alloc, codes.len())?;
    for code in codes {
        ons.push(on_of(drawing, numbers, *code))?;
    }
    Ok(ons)
}

fn on_of(drawing: &Drawing, numbers: &[u32], code: u64) -> OnAt
    requires few { length drawing.now.points.items + length numbers.now < 2 ^ 32 }
    requires code { IsCode (IsPointOnCurve (plan drawing.now) numbers.now)
        (length drawing.now.points.items + length numbers.now) code }
    ensures { IsDecoded (plan drawing.now) numbers.now code result }
{
    let point = (code / 4_294_967_296) as u32;
    let second = (code % 4_294_967_296) as usize;
    OnAt {
        point,
        curve: numbers[second - drawing.points.len()],
    }
}
