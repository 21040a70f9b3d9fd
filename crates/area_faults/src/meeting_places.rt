// Places in which two curves meet badly.
ghost use Rattle.std.specs.Prelude.{◌≡◌, ◌↔◌, None, IfSome, IsTrue};
ghost use Rattle.plane.specs.Rule.BadPairs.{AreBad};
ghost use Rattle.plane.specs.declared.kinds.Point.{Point};
ghost use Rattle.meetings.specs.CurvePairs.{HaveHalfArc, IsJudgedOn};
ghost use Rattle.meetings.specs.PlacedCurves.{ArePlaced, IsPlacedWith};
ghost use Rattle.fault_lists.specs.FaultLists.{IsMeetingPlace};
ghost use Rattle.area_faults.specs.Places.{IsEndOn, IsEndOnOther};

use super::crossings::crossing;
use meetings::is_on;
use plane::{Curve, CurveKind, Point};

/// A place for two curves that meet badly: an end of one that is on the other, one that is no end
/// of it before others; or, of two straights that cross, the lower left corner of the unit square
/// in which they do; or, where one of the two is a half arc, the first end of the first of them.
/// It takes no memory.
pub fn meeting_place(first: &Curve, second: &Curve) -> Point
    requires placed { ArePlaced first.now second.now }
    requires bad { AreBad first.now second.now }
    ensures { IsMeetingPlace first.now second.now result }
{
    match end_on_other(first, second) {
        Some(at) => at,
        None => {
            if have_half_arc(first, second) {
                first.from
            } else {
                crossing(first, second)
            }
        }
    }
}

fn have_half_arc(first: &Curve, second: &Curve) -> bool
    ensures { IsTrue result ↔ HaveHalfArc first.now second.now }
{
    first.kind == CurveKind::HalfArc || second.kind == CurveKind::HalfArc
}

// An end of one of the two that is on the other.
fn end_on_other(first: &Curve, second: &Curve) -> Option<Point>
    requires { ArePlaced first.now second.now }
    ensures some { IfSome result (IsEndOnOther first.now second.now) }
    ensures none { result ≡ None → (p : Point) → IsEndOnOther first.now second.now p → ⊥ }
{
    inner_end(first, second)
        .or(inner_end(second, first))
        .or(end_on(first, second))
        .or(end_on(second, first))
}

// An end of the curve that is on the other one and no end of it.
fn inner_end(curve: &Curve, other: &Curve) -> Option<Point>
    requires { ArePlaced curve.now other.now }
    ensures { IfSome result (IsEndOn curve.now other.now) }
{
    if is_inner(other, curve.from) {
        Some(curve.from)
    } else if is_inner(other, curve.to) {
        Some(curve.to)
    } else {
        None
    }
}

fn is_inner(curve: &Curve, p: Point) -> bool
    requires { IsPlacedWith curve.now p }
    ensures { IsTrue result → IsJudgedOn curve.now p }
{
    curve.from != p && curve.to != p && is_on(curve, p)
}

// An end of the curve that is on the other one.
fn end_on(curve: &Curve, other: &Curve) -> Option<Point>
    requires { ArePlaced curve.now other.now }
    ensures some { IfSome result (IsEndOn curve.now other.now) }
    ensures none { result ≡ None → (p : Point) → IsEndOn curve.now other.now p → ⊥ }
{
    if is_on(other, curve.from) {
        Some(curve.from)
    } else if is_on(other, curve.to) {
        Some(curve.to)
    } else {
        None
    }
}
