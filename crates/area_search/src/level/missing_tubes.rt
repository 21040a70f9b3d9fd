// Half arcs without a tube.
ghost use Rattle.std.specs.Prelude.{◌≡◌, ◌≤◌, IfOk, IsTrue, None};
ghost use Rattle.plane.specs.Rule.Curves.{arc};
ghost use Rattle.plane.specs.Rule.Plans.{plan};
ghost use Rattle.plane.specs.declared.kinds.CurveKind.TheVariants as kind;
ghost use Rattle.tubes.specs.HalfArcTubes.{HasNoTube};
ghost use Rattle.tubes.specs.TubedEdges.{IsFit, IsListAt};

use plane::{Curve, CurveKind, Drawing};
use ports::Memory;
use std::alloc::Global;
use tubes::tube;

/// Whether some half arc has a tube neither at level 0 nor at this level. It holds one tube at a
/// time, and makes tubes of the level only for half arcs that have none at level 0. The only error
/// is out of memory.
pub(crate) fn is_tube_missing(alloc: Global, drawing: &Drawing, level: u8) -> Result<bool, Memory>
    requires { level ≤ 5 }
    ensures { IfOk result (λ missing. IsTrue missing → IsListAt (plan drawing.now) (λ n. level) None) }
{
    for number in 0..drawing.curves.len() {
        if has_no_tube(alloc, &drawing.curves[number], level)? {
            return Ok(true);
        }
    }
    Ok(false)
}

// Whether the curve is a half arc that has none of the two.
fn has_no_tube(alloc: Global, curve: &Curve, level: u8) -> Result<bool, Memory>
    requires level { level ≤ 5 }
    requires fit { IsFit curve.now }
    ensures kind { IfOk result (λ none. IsTrue none → curve.now.kind ≡ kind.HalfArc) }
    ensures none { IfOk result (λ none. IsTrue none → HasNoTube (arc curve.now) level) }
{
    if curve.kind == CurveKind::Straight || tube(alloc, curve, 0)?.is_some() {
        return Ok(false);
    }
    Ok(tube(alloc, curve, level)?.is_none())
}
