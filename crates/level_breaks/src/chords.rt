// Straights under tubes.
ghost use Rattle.std.specs.Prelude.{◌≡◌, ◌↔◌, IsTrue, pos, ◌≤ℤ◌};
ghost use Rattle.plane.specs.Forms.Vectors.{point};
ghost use Rattle.plane.specs.Rule.BadPairs.{HaveSameEnds};
ghost use Rattle.plane.specs.Rule.Curves.{arc};
ghost use Rattle.plane.specs.Rule.HalfArcs.{bow};
ghost use Rattle.plane.specs.Rule.Turns.{cross};
ghost use Rattle.straight_predicates.specs.Meetings.{AreClose};
ghost use Rattle.level_breaks.specs.GroupBreaks.{IsChordJudged, IsLow, IsUnderChord, SomeLow};
ghost use Rattle.level_breaks.specs.Groups.{AreGroups};

use super::entering::{are_same, is_end};
use super::groups::Group;
use plane::{Curve, Point};
use straight_predicates::{Turn, turn};

/// Whether the first is a straight between the ends of the second, a half arc whose tube has an
/// inner corner on the chord or beyond it, other than the ends.
pub fn is_under_chord(straight: &Group, half_arc: &Group) -> bool
    requires { AreGroups straight.now half_arc.now }
    ensures { IsTrue result ↔ IsUnderChord straight.now.curve.now straight.now.tube.now
        half_arc.now.curve.now half_arc.now.tube.now }
{
    match (straight.tube, half_arc.tube) {
        (None, Some(tube)) => {
            have_same_ends(straight.curve, half_arc.curve) && any_low(half_arc.curve, &tube.inner)
        }
        _ => false,
    }
}

fn have_same_ends(first: &Curve, second: &Curve) -> bool
    ensures { IsTrue result ↔ HaveSameEnds first.now second.now }
{
    runs_between(first, second.from, second.to) || runs_between(first, second.to, second.from)
}

fn runs_between(curve: &Curve, from: Point, to: Point) -> bool
    ensures { IsTrue result ↔ ((curve.now.from ≡ from) × (curve.now.to ≡ to)) }
{
    are_same(curve.from, from) && are_same(curve.to, to)
}

fn any_low(curve: &Curve, points: &[Point]) -> bool
    requires { IsChordJudged curve.now points.now }
    ensures { IsTrue result ↔ SomeLow curve.now points.now }
{
    for point in points {
        if is_low(curve, *point) {
            return true;
        }
    }
    false
}

fn is_low(curve: &Curve, p: Point) -> bool
    requires ends { AreClose curve.now.from curve.now.to }
    requires third { AreClose curve.now.from curve.now.third }
    requires point { AreClose curve.now.from p }
    ensures { IsTrue result ↔ IsLow curve.now p }
{
    !is_end(curve, p) && is_not_away(curve, p)
}

// Whether the point is on the chord or on the third point's side of it.
fn is_not_away(curve: &Curve, p: Point) -> bool
    requires ends { AreClose curve.now.from curve.now.to }
    requires third { AreClose curve.now.from curve.now.third }
    requires point { AreClose curve.now.from p }
    ensures { IsTrue result ↔ (bow (arc curve.now) (point p) ≤ℤ pos 0) }
{
    match turn(curve.from, curve.to, curve.third) {
        Turn::Left => is_not_right(curve.from, curve.to, p),
        Turn::Right => is_not_left(curve.from, curve.to, p),
        Turn::Straight => true,
    }
}

fn is_not_right(a: Point, b: Point, c: Point) -> bool
    requires b_close { AreClose a b }
    requires c_close { AreClose a c }
    ensures { IsTrue result ↔ (pos 0 ≤ℤ cross a b c) }
{
    !matches!(turn(a, b, c), Turn::Right)
}

fn is_not_left(a: Point, b: Point, c: Point) -> bool
    requires b_close { AreClose a b }
    requires c_close { AreClose a c }
    ensures { IsTrue result ↔ (cross a b c ≤ℤ pos 0) }
{
    match turn(a, b, c) {
        Turn::Left => false,
        Turn::Straight => true,
        Turn::Right => true,
    }
}
