// The tube of a half arc at a level.
ghost use Rattle.std.specs.Prelude.{◌≡◌, ◌∷◌, ◌<◌, ◌≤◌, ◌^◌, IfOk, length};
ghost use Rattle.plane.specs.Rule.Curves.{arc};
ghost use Rattle.plane.specs.Rule.Windows.{IsShort};
ghost use Rattle.arc_predicates.specs.Circles.{AreClose, half_arc};
ghost use Rattle.tubes.specs.Making.{IsTubeAt};

use super::conditions::{are_corners, is_less_than_half};
use super::guessing::diameter;
use super::kinds::Tube;
use super::refining::{inner_points, outer_points};
use arc_predicates::{Circle, circle};
use plane::{Curve, Point};
use ports::Memory;
use std::alloc::{AllocError, Global};

/// The tube of a half arc at a level from 0 to 5; `None` exactly where it has none there. The only
/// error is out of memory.
pub fn tube(alloc: Global, curve: &Curve, level: u8) -> Result<Option<Tube>, Memory>
    requires level { level ≤ 5 }
    requires short { IsShort curve.now.from }
    requires ends { AreClose curve.now.from curve.now.to }
    requires first { AreClose curve.now.from curve.now.third }
    requires second { AreClose curve.now.to curve.now.third }
    ensures { IfOk result (IsTubeAt (arc curve.now) level) }
{
    match circle(curve.from, curve.to, curve.third) {
        Some(circle) => tube_round(alloc, &circle, level),
        None => Ok(None),
    }
}

fn tube_round(alloc: Global, circle: &Circle, level: u8) -> Result<Option<Tube>, Memory>
    requires level { level ≤ 5 }
    requires short { IsShort circle.now.s }
    ensures { IfOk result (IsTubeAt (half_arc circle.now) level) }
{
    if !is_less_than_half(circle) {
        return Ok(None);
    }
    let diameter = diameter(circle);
    let Some(inner) = inner_points(alloc, circle, diameter, level)? else {
        return Ok(None);
    };
    let Some(outer) = outer_points(alloc, circle, diameter, &inner)? else {
        return Ok(None);
    };
    if !are_corners(circle, &inner, &outer) {
        return Ok(None);
    }
    let inner = with_first(alloc, circle.s, &inner)?;
    Ok(Some(Tube { inner, outer }))
}

fn with_first(alloc: Global, first: Point, rest: &[Point]) -> Result<Vec<Point>, AllocError>
    requires { length rest.now < 2 ^ 20 }
    ensures { IfOk result (λ all. all.items ≡ first ∷ rest.now) }
{
    let mut all = Vec::with_capacity(alloc, rest.len() + 1)?;
    all.push(first)?;
    all.extend_from_slice(rest)?;
    Ok(all)
}
