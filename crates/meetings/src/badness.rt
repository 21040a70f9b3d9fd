// Whether two curves are bad.
ghost use Rattle.std.specs.Prelude.{◌≡◌, ◌↔◌, ◌⊎◌, ◌<◌, IsTrue, length, pos, ◌<ℤ◌};
ghost use Rattle.plane.specs.declared.kinds.CurveKind.TheVariants as kind;
ghost use Rattle.plane.specs.Forms.Meets.{Bad};
ghost use Rattle.plane.specs.Forms.Vectors.{Before};
ghost use Rattle.plane.specs.Rule.BadPairs.{AreBad, AreOneArc, EndsOn, IsEndOf};
ghost use Rattle.plane.specs.Rule.BadPairs.{HaveSameEnds, IsBadPair, IsCrossedOnTrial};
ghost use Rattle.plane.specs.Rule.Curves.{arc};
ghost use Rattle.plane.specs.Rule.HalfArcs.{bow};
ghost use Rattle.plane.specs.Rule.Places.{point};
ghost use Rattle.straight_predicates.specs.Meetings.{EdgesAreClose};
ghost use Rattle.arc_predicates.specs.Circles.{AreClose};
ghost use Rattle.plane.specs.Rule.Plans.{plan};
ghost use Rattle.meetings.specs.CurvePairs.{AreArcBad, AreBothStraight, HaveHalfArc, IsBesideEnds};
ghost use Rattle.meetings.specs.CurvePairs.{IsOnCircle};
ghost use Rattle.meetings.specs.PlacedCurves.{ArePlaced, IsPlacedWith};

use super::placing::{is_off_third, is_on, is_on_circle};
use arc_predicates::{circle, crosses};
use plane::{Curve, CurveKind, Drawing, Edge, Point};
use straight_predicates::{Meet, edge_between, meet};

/// Whether the two curves of these numbers, the lesser first, are bad. It takes no memory.
pub fn is_bad(drawing: &Drawing, first: u32, second: u32) -> bool
    requires order { first < second }
    requires there { second < length drawing.now.curves.items }
    ensures { IsTrue result ↔ IsBadPair (plan drawing.now) first second }
{
    are_curves_bad(
        &drawing.curves[first as usize],
        &drawing.curves[second as usize],
    )
}

fn are_curves_bad(first: &Curve, second: &Curve) -> bool
    requires { ArePlaced first.now second.now }
    ensures { IsTrue result ↔ AreBad first.now second.now }
{
    if have_half_arc(first, second) {
        are_bad(first, second)
    } else {
        are_straights_bad(first, second)
    }
}

fn are_straights_bad(first: &Curve, second: &Curve) -> bool
    requires placed { ArePlaced first.now second.now }
    requires straights { AreBothStraight first.now second.now }
    ensures { IsTrue result ↔ AreBad first.now second.now }
{
    plane::rule::edges_of_straights();
    let edge = edge_between(first.from, first.to);
    let other = edge_between(second.from, second.to);
    meet_badly(&edge, &other)
}

fn meet_badly(edge: &Edge, other: &Edge) -> bool
    requires sorted { Before edge.now.low edge.now.high }
    requires other_sorted { Before other.now.low other.now.high }
    requires close { EdgesAreClose edge.now other.now }
    ensures { IsTrue result ↔ Bad edge.now other.now }
{
    matches!(meet(edge, other), Meet::Bad)
}

/// Whether the two are bad and one of them at least is a half arc. It takes no memory.
pub fn are_arc_bad(first: &Curve, second: &Curve) -> bool
    requires { ArePlaced first.now second.now }
    ensures { IsTrue result ↔ AreArcBad first.now second.now }
{
    have_half_arc(first, second) && are_bad(first, second)
}

fn have_half_arc(first: &Curve, second: &Curve) -> bool
    ensures { IsTrue result ↔ HaveHalfArc first.now second.now }
{
    first.kind == CurveKind::HalfArc || second.kind == CurveKind::HalfArc
}

fn are_bad(first: &Curve, second: &Curve) -> bool
    requires placed { ArePlaced first.now second.now }
    requires half_arc { HaveHalfArc first.now second.now }
    ensures { IsTrue result ↔ AreBad first.now second.now }
{
    if one_ends_on_other(first, second) {
        return true;
    }
    if one_crosses_other(first, second) {
        return true;
    }
    are_one_arc(first, second)
}

fn one_ends_on_other(first: &Curve, second: &Curve) -> bool
    requires { ArePlaced first.now second.now }
    ensures { IsTrue result ↔ (EndsOn first.now second.now ⊎ EndsOn second.now first.now) }
{
    ends_on(first, second) || ends_on(second, first)
}

// Whether one of the first curve's ends is on the second and no end of it.
fn ends_on(first: &Curve, second: &Curve) -> bool
    requires from { IsPlacedWith second.now first.now.from }
    requires to { IsPlacedWith second.now first.now.to }
    ensures { IsTrue result ↔ EndsOn first.now second.now }
{
    is_beside_ends(second, first.from) || is_beside_ends(second, first.to)
}

fn is_beside_ends(curve: &Curve, p: Point) -> bool
    requires { IsPlacedWith curve.now p }
    ensures { IsTrue result ↔ IsBesideEnds curve.now p }
{
    !is_end(curve, p) && is_on(curve, p)
}

fn one_crosses_other(first: &Curve, second: &Curve) -> bool
    requires { ArePlaced first.now second.now }
    ensures { IsTrue result ↔ (IsCrossedOnTrial first.now second.now
        ⊎ IsCrossedOnTrial second.now first.now) }
{
    is_crossed(first, second) || is_crossed(second, first)
}

fn is_crossed(straight: &Curve, half_arc: &Curve) -> bool
    requires { ArePlaced straight.now half_arc.now }
    ensures { IsTrue result ↔ IsCrossedOnTrial straight.now half_arc.now }
{
    match (straight.kind, half_arc.kind) {
        (CurveKind::Straight, CurveKind::HalfArc) => {
            !have_common_end(straight, half_arc) && crosses(straight, half_arc).is_some()
        }
        _ => false,
    }
}

fn have_common_end(first: &Curve, second: &Curve) -> bool
    ensures { IsTrue result ↔ (IsEndOf first.now second.now.from
        ⊎ IsEndOf first.now second.now.to) }
{
    is_end(first, second.from) || is_end(first, second.to)
}

fn is_end(curve: &Curve, p: Point) -> bool
    ensures { IsTrue result ↔ IsEndOf curve.now p }
{
    are_same(curve.from, p) || are_same(curve.to, p)
}

fn are_same(p: Point, q: Point) -> bool
    ensures { IsTrue result ↔ (p ≡ q) }
{
    p == q
}

fn are_one_arc(first: &Curve, second: &Curve) -> bool
    requires { ArePlaced first.now second.now }
    ensures { IsTrue result ↔ AreOneArc first.now second.now }
{
    match (first.kind, second.kind) {
        (CurveKind::HalfArc, CurveKind::HalfArc) => {
            have_same_ends(first, second) && is_on_other_side(first, second.third)
        }
        _ => false,
    }
}

fn have_same_ends(first: &Curve, second: &Curve) -> bool
    ensures { IsTrue result ↔ HaveSameEnds first.now second.now }
{
    runs_between(first, second.from, second.to) || runs_between(first, second.to, second.from)
}

fn runs_between(curve: &Curve, from: Point, to: Point) -> bool
    ensures { IsTrue result ↔ ((curve.now.from ≡ from) × (curve.now.to ≡ to)) }
{
    are_same(curve.from, from) && are_same(curve.to, to)
}

// Whether the point has a side for the half arc, is on its circle and on the third point's side of
// its chord.
fn is_on_other_side(curve: &Curve, p: Point) -> bool
    requires { IsPlacedWith curve.now p }
    ensures { IsTrue result ↔ (IsOnCircle (arc curve.now) (point p)
        × (bow (arc curve.now) (point p) <ℤ pos 0)) }
{
    match circle(curve.from, curve.to, curve.third) {
        Some(circle) => is_on_circle(&circle, p) && !is_off_third(&circle, p),
        None => false,
    }
}
