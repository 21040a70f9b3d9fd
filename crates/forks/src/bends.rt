// The bend of a straight at one of its ends.
ghost use Rattle.std.specs.Prelude.{◌≡◌, ◌↔◌, ◌<◌, ◌≤ℤ◌, IsTrue, length};
ghost use Rattle.plane.specs.Rule.Plans.{curve, plan};
ghost use Rattle.plane.specs.Rule.Windows.{IsDrawn, IsInside};
ghost use Rattle.forks.specs.Bent.{IsBendAt};
ghost use Rattle.forks.specs.Ends.{AreEnds, IsBendBy, IsLesser, IsLesserBend};
ghost use Rattle.forks.specs.Zones.{IsZoneOf, near_end};

use super::ends::{End, block};
use super::zones::{Zone, fork_zone};
use plane::{Curve, Drawing, Point, Window2};

/// The bend of a straight by the half arc of that number.
#[derive(Clone, Copy)]
pub struct Bend {
    pub number: u32,
    pub at: Point,
}

/// The bend of a straight at the named end: that of the least half arc of which it has one in the
/// window. It takes no memory, and a zone for each end of a half arc at this end.
pub fn bend_at(drawing: &Drawing, ends: &[End], number: u32, at_from: bool) -> Option<Point>
    requires there { number < length drawing.now.curves.items }
    requires ends { AreEnds drawing.now.curves.items ends.now }
    ensures { IsBendAt drawing.now.tolerance (plan drawing.now) number at_from result }
{
    let mut best = None;
    let near = end_at(&drawing.curves[number as usize], at_from);
    for end in block(ends, near) {
        best = lesser(drawing, end.number, number, at_from, best);
    }
    match best {
        Some(bend) => Some(bend.at),
        None => None,
    }
}

fn end_at(straight: &Curve, at_from: bool) -> Point
    ensures { result ≡ near_end at_from straight.now }
{
    if at_from { straight.from } else { straight.to }
}

// The lesser of what was found and the bend by the half arc.
fn lesser(
    drawing: &Drawing,
    arc: u32,
    number: u32,
    at_from: bool,
    best: Option<Bend>,
) -> Option<Bend>
    requires arc { arc < length drawing.now.curves.items }
    requires there { number < length drawing.now.curves.items }
    ensures { IsLesser drawing.now.tolerance (plan drawing.now) number at_from arc best
        result }
{
    match bend_by(drawing, arc, number, at_from) {
        Some(at) => lesser_bend(best, Bend { number: arc, at }),
        None => best,
    }
}

fn lesser_bend(best: Option<Bend>, bend: Bend) -> Option<Bend>
    ensures { IsLesserBend best bend result }
{
    match best {
        Some(first) => {
            if first.number <= bend.number {
                Some(first)
            } else {
                Some(bend)
            }
        }
        None => Some(bend),
    }
}

// The bend of the straight at the named end by the half arc, if that is in the window.
fn bend_by(drawing: &Drawing, arc: u32, number: u32, at_from: bool) -> Option<Point>
    requires arc { arc < length drawing.now.curves.items }
    requires there { number < length drawing.now.curves.items }
    ensures { IsBendBy drawing.now.tolerance (plan drawing.now) number at_from arc result }
{
    match zone_of(drawing, arc, number) {
        Some(zone) => {
            if zone.at_from != at_from {
                return None;
            }
            if !is_inside(&drawing.window, zone.bend) {
                return None;
            }
            Some(zone.bend)
        }
        None => None,
    }
}

fn zone_of(drawing: &Drawing, arc: u32, number: u32) -> Option<Zone>
    requires arc { arc < length drawing.now.curves.items }
    requires there { number < length drawing.now.curves.items }
    ensures { IsZoneOf drawing.now.tolerance (curve (plan drawing.now) arc)
        (curve (plan drawing.now) number) result }
{
    let half_arc = curve_of(drawing, arc);
    let straight = curve_of(drawing, number);
    fork_zone(&half_arc, &straight, drawing.tolerance)
}

fn curve_of(drawing: &Drawing, number: u32) -> Curve
    requires { number < length drawing.now.curves.items }
    ensures is { result ≡ curve (plan drawing.now) number }
    ensures drawn { IsDrawn drawing.now.window.low drawing.now.window.high result }
{
    drawing.curves[number as usize]
}

// Whether the point is in the window, its border included.
fn is_inside(window: &Window2, p: Point) -> bool
    ensures { IsTrue result ↔ IsInside window.now.low window.now.high p }
{
    is_between(window.low.x, window.high.x, p.x) && is_between(window.low.y, window.high.y, p.y)
}

fn is_between(low: i64, high: i64, a: i64) -> bool
    ensures { IsTrue result ↔ ((low ≤ℤ a) × (a ≤ℤ high)) }
{
    low <= a && a <= high
}
