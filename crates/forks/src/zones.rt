// The zone in which a straight forks from a half arc.
ghost use Rattle.std.specs.Prelude.{◌≡◌, ◌↔◌, ◌*ℤ◌, ◌≤ℤ◌, IfSome, IsTrue};
ghost use Rattle.plane.specs.declared.kinds.CurveKind.TheVariants.{HalfArc, Straight};
ghost use Rattle.plane.specs.Forms.Bends.{square};
ghost use Rattle.plane.specs.Rule.BadPairs.{IsEndOf};
ghost use Rattle.plane.specs.Rule.Turns.{cross};
ghost use Rattle.forks.specs.Zones.{AreInReach, AreReached, IsSeenCircle, IsSharedEnd};
ghost use Rattle.plane.specs.Rule.Overlaps.{IsTolerance};
ghost use Rattle.forks.specs.Zones.{IsZoneOf, SharesEnd, far_end, near_end};

use super::ways::bend_of;
use arc_predicates::{Circle, circle};
use plane::{Curve, CurveKind, Point};

/// The end of a straight beside which it is bent, and its bend there.
#[derive(Clone, Copy, Debug, PartialEq, Eq)]
pub struct Zone {
    /// Whether it is the straight's `from`.
    pub at_from: bool,
    pub bend: Point,
}

/// The zone of a straight that forks from a half arc, by a permitted overlap of `tolerance` units;
/// `None` exactly where it does not fork from it. The bend is at most `tolerance` from the
/// straight. It takes no memory.
pub fn fork_zone(arc: &Curve, straight: &Curve, tolerance: i64) -> Option<Zone>
    requires tolerance { IsTolerance tolerance }
    requires reach { AreInReach arc.now straight.now }
    ensures zone { IsZoneOf tolerance arc.now straight.now result }
    ensures near { IfSome result (λ z.
        (cross (near_end z.at_from straight.now) (far_end z.at_from straight.now) z.bend
        *ℤ cross (near_end z.at_from straight.now) (far_end z.at_from straight.now) z.bend)
        ≤ℤ ((tolerance *ℤ tolerance)
        *ℤ square (near_end z.at_from straight.now) (far_end z.at_from straight.now))) }
{
    plane::bends::bends_are_near();
    match (arc.kind, straight.kind) {
        (CurveKind::HalfArc, CurveKind::Straight) => zone_of(arc, straight, tolerance),
        _ => None,
    }
}

fn zone_of(arc: &Curve, straight: &Curve, tolerance: i64) -> Option<Zone>
    requires tolerance { IsTolerance tolerance }
    requires reach { AreInReach arc.now straight.now }
    requires half_arc { arc.now.kind ≡ HalfArc }
    requires straight { straight.now.kind ≡ Straight }
    ensures { IsZoneOf tolerance arc.now straight.now result }
{
    match shared_end(arc, straight) {
        Some(at_from) => zone_at(arc, straight, at_from, tolerance),
        None => None,
    }
}

// Which end of the straight is an end of the half arc, where exactly one is.
fn shared_end(arc: &Curve, straight: &Curve) -> Option<bool>
    ensures { IsSharedEnd arc.now straight.now result }
{
    let from = is_end_of(arc, straight.from);
    let to = is_end_of(arc, straight.to);
    if from == to { None } else { Some(from) }
}

fn is_end_of(arc: &Curve, p: Point) -> bool
    ensures { IsTrue result ↔ IsEndOf arc.now p }
{
    are_same(arc.from, p) || are_same(arc.to, p)
}

fn are_same(p: Point, q: Point) -> bool
    ensures { IsTrue result ↔ (p ≡ q) }
{
    p == q
}

// The zone at an end of the straight.
fn zone_at(arc: &Curve, straight: &Curve, at_from: bool, tolerance: i64) -> Option<Zone>
    requires tolerance { IsTolerance tolerance }
    requires reach { AreInReach arc.now straight.now }
    requires half_arc { arc.now.kind ≡ HalfArc }
    requires straight { straight.now.kind ≡ Straight }
    requires shares { SharesEnd arc.now straight.now at_from }
    ensures { IsZoneOf tolerance arc.now straight.now result }
{
    let (near, far) = ends_from(straight, at_from);
    match circle_from(arc, near) {
        None => None,
        Some(circle) => match bend_of(&circle, far, tolerance) {
            None => None,
            Some(bend) => Some(Zone { at_from, bend }),
        },
    }
}

// The end of the straight that is named, and the other one.
fn ends_from(straight: &Curve, at_from: bool) -> (Point, Point)
    ensures near { result.0 ≡ near_end at_from straight.now }
    ensures far { result.1 ≡ far_end at_from straight.now }
{
    if at_from {
        (straight.from, straight.to)
    } else {
        (straight.to, straight.from)
    }
}

// The circle of the half arc, seen from that end of it which the point is.
fn circle_from(arc: &Curve, p: Point) -> Option<Circle>
    requires reach { AreReached arc.now }
    requires end { IsEndOf arc.now p }
    ensures { IsSeenCircle arc.now p result }
{
    plane::bends::circles_from_either_end();
    if are_same(arc.from, p) {
        circle(arc.from, arc.to, arc.third)
    } else {
        circle(arc.to, arc.from, arc.third)
    }
}
