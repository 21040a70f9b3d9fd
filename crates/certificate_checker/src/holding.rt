// Points that are placed in tubes.
ghost use Rattle.std.specs.Prelude.{◌≡◌, ◌↔◌, ◌≤◌, IfOk, IsTrue, length};
ghost use Rattle.plane.specs.Forms.Vectors.{point};
ghost use Rattle.plane.specs.Rule.Curves.{arc};
ghost use Rattle.plane.specs.Rule.HalfArcs.{HasSide, power};
ghost use Rattle.plane.specs.Rule.Plans.{IsHalfArc, plan};
ghost use Rattle.plane.specs.Rule.Windows.{IsDrawn, IsInside, IsNarrow};
ghost use Rattle.plane.specs.Tubes.Bays.{InTube};
ghost use Rattle.tubes.specs.Settled.{HaveTubes};
ghost use Rattle.tubes.specs.TubedEdges.{HasTube, bays_at};
ghost use Rattle.certificate_checker.specs.Cases.{AreHeld, IsHeldAt};
ghost use Rattle.certificate_checker.specs.Rules.{IsOnSide};

use arc_predicates::{Side, circle, place_of};
use certificate::PointPlace;
use plane::{Curve, CurveKind, Drawing, Point, Window2};
use ports::Memory;
use std::alloc::Global;
use tubes::{holds, tube};

/// For each place whether it is in a tube that holds its point, which is on that side of the
/// circle. A tube is made for each such place and freed at once.
pub fn held_points(
    alloc: Global,
    drawing: &Drawing,
    places: &[PointPlace],
    level: u8,
) -> Result<Vec<bool>, Memory>
    requires level { level ≤ 5 }
    requires tubes { HaveTubes (plan drawing.now) (λ n. level) }
    requires count { length places.now ≡ length (plan drawing.now).points }
    ensures { IfOk result (λ held. AreHeld (plan drawing.now) level places.now held.items) }
{
    let mut held = Vec::with_capacity(alloc, places.len())?;
    for (j, place) in places.iter().enumerate() {
        let at = drawing.points[j].at;
        held.push(is_held(alloc, drawing, level, *place, at)?)?;
    }
    Ok(held)
}

fn is_held(
    alloc: Global,
    drawing: &Drawing,
    level: u8,
    place: PointPlace,
    at: Point,
) -> Result<bool, Memory>
    requires level { level ≤ 5 }
    requires tubes { HaveTubes (plan drawing.now) (λ n. level) }
    requires inside { IsInside drawing.now.window.low drawing.now.window.high at }
    ensures { IfOk result (λ b. IsTrue b ↔ IsHeldAt (plan drawing.now) level place at) }
{
    let PointPlace::Tube { curve, inside } = place else {
        return Ok(false);
    };
    if !is_half_arc(drawing, curve) {
        return Ok(false);
    }
    let arc = &drawing.curves[curve as usize];
    is_in_tube(alloc, &drawing.window, arc, level, inside, at)
}

fn is_half_arc(drawing: &Drawing, number: u32) -> bool
    ensures { IsTrue result ↔ IsHalfArc (plan drawing.now) number }
{
    let i = number as usize;
    i < drawing.curves.len() && drawing.curves[i].kind == CurveKind::HalfArc
}

// Whether the half arc's tube holds the point, which is on that side of the circle.
fn is_in_tube(
    alloc: Global,
    window: &Window2,
    curve: &Curve,
    level: u8,
    inside: bool,
    at: Point,
) -> Result<bool, Memory>
    requires level { level ≤ 5 }
    requires drawn { IsDrawn window.now.low window.now.high curve.now }
    requires within { IsInside window.now.low window.now.high at }
    requires tube { HasTube (arc curve.now) level }
    ensures { IfOk result (λ b. IsTrue b
        ↔ (InTube curve.now.from (bays_at (arc curve.now) level) (point at)
        × IsOnSide inside (power (arc curve.now) (point at)))) }
{
    let Some(tube) = tube(alloc, curve, level)? else {
        return Ok(false);
    };
    if !holds(&tube, at) {
        return Ok(false);
    }
    Ok(is_on_side(curve, inside, at))
}

// Whether the point is strictly inside the half arc's circle, or strictly outside.
fn is_on_side(curve: &Curve, inside: bool, at: Point) -> bool
    requires { HasSide (arc curve.now) (point at) }
    ensures { IsTrue result ↔ IsOnSide inside (power (arc curve.now) (point at)) }
{
    let Some(circle) = circle(curve.from, curve.to, curve.third) else {
        return false;
    };
    let side = place_of(&circle, at);
    if inside {
        side == Side::Inside
    } else {
        side == Side::Outside
    }
}
