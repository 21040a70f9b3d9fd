// Trial crossings of straights and half arcs.
ghost use Rattle.std.specs.Prelude.{◌≡◌, ◌↔◌, ◌≤◌, ◌-◌, ◌+ℤ◌, ◌*ℤ◌, IsTrue, pos};
ghost use Rattle.plane.specs.Rule.BadPairs.{sixteenth};
ghost use Rattle.plane.specs.Rule.Curves as curves;
ghost use Rattle.arc_predicates.specs.Circles.{AreClose, half_arc};
ghost use Rattle.arc_predicates.specs.Trials.{AreEitherSide, CurvesAreClose, IsFirstTrial};
ghost use Rattle.arc_predicates.specs.Trials.{IsSideAway};

use super::circles::Circle;
use super::circling::circle;
use super::numbers::dot;
use super::placing::{is_away, side};
use super::sides::Side;
use super::trials::Trial;
use plane::Curve;

/// The first two neighbours among the places at sixteenths of a straight that are a trial crossing
/// of a half arc; `None` exactly where no two are. It takes no memory, and the work of seventeen
/// sides.
pub fn crosses(straight: &Curve, arc: &Curve) -> Option<Trial>
    requires { CurvesAreClose straight.now arc.now }
    ensures { IsFirstTrial result straight.now (curves.arc arc.now) }
{
    match circle(arc.from, arc.to, arc.third) {
        Some(circle) => first_trial(&circle, straight),
        None => None,
    }
}

fn first_trial(circle: &Circle, straight: &Curve) -> Option<Trial>
    requires from { AreClose circle.now.s straight.now.from }
    requires to { AreClose circle.now.s straight.now.to }
    ensures { IsFirstTrial result straight.now (half_arc circle.now) }
{
    let mut last = side_away(circle, straight, 0);
    for number in 0..16 {
        let next = side_away(circle, straight, number + 1);
        if are_either_side(last, next) {
            return Some(Trial { sixteenth: number });
        }
        last = next;
    }
    None
}

// Whether one of the two is inside and the other outside.
fn are_either_side(first: Option<Side>, second: Option<Side>) -> bool
    ensures { IsTrue result ↔ AreEitherSide first second }
{
    matches!(
        (first, second),
        (Some(Side::Inside), Some(Side::Outside)) | (Some(Side::Outside), Some(Side::Inside))
    )
}

// The side of the straight's place of that number, where it has one and is not on the third
// point's side of the chord.
fn side_away(circle: &Circle, straight: &Curve, number: u8) -> Option<Side>
    requires number { number ≤ 16 }
    requires from { AreClose circle.now.s straight.now.from }
    requires to { AreClose circle.now.s straight.now.to }
    ensures { IsSideAway result (half_arc circle.now) (sixteenth straight.now number) }
{
    let x = mean(straight.from.x, straight.to.x, number);
    let y = mean(straight.from.y, straight.to.y, number);
    if is_away(circle, x, y, 16) {
        side(circle, x, y, 16)
    } else {
        None
    }
}

// (16 - k) a + k b
fn mean(a: i64, b: i64, k: u8) -> i128
    requires { k ≤ 16 }
    ensures { result ≡ (pos (16 - k) *ℤ a) +ℤ (pos k *ℤ b) }
{
    let rest = i128::from(16 - k);
    let part = i128::from(k);
    let first = i128::from(a);
    let second = i128::from(b);
    dot(rest, part, first, second)
}
