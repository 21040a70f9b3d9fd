// Points by number.
ghost use Rattle.std.specs.Prelude.{◌≡◌, IfOk, map};

use plane::{Placed, Point};
use ports::Memory;
use std::alloc::Global;

/// An object's point, and a curve on which it lies.
#[derive(Clone, Copy, Debug, PartialEq, Eq)]
pub struct OnCurve {
    pub point: u32,
    pub curve: u32,
}

/// Where the points lie.
pub(crate) fn points_at(alloc: Global, points: &[Placed]) -> Result<Vec<Point>, Memory>
    ensures { IfOk result (λ ps. ps.items ≡ map (λ p. p.at) points.now) }
{
    let mut at = Vec::with_capacity(alloc, points.len())?;
    for point in points {
        at.push(point.at)?;
    }
    Ok(at)
}
