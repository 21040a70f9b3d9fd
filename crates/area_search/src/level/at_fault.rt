// The answer to a drawing in which some pair of curves is bad.
ghost use Rattle.std.specs.Prelude.{◌≡◌, ℕ, ℤ, IfOk, List};
ghost use Rattle.plane.specs.Rule.BadPairs.{IsBadPair};
ghost use Rattle.plane.specs.Rule.Plans.{plan};
ghost use Rattle.plane.specs.declared.kinds.Point.{Point};
ghost use Rattle.area_search.specs.Regions.{IsFoundBy};
ghost use Rattle.area_search.specs.declared.kinds.AreaAnswer.TheVariants.{Fault};
ghost use Rattle.area_search.specs.declared.kinds.AreaFinding.TheVariants.{Meeting};

use super::bad_edges::CurvePair;
use crate::kinds::{AreaAnswer, AreaFinding, FoundObjects, without_regions};
use meetings::bad_meeting;
use plane::Drawing;
use ports::Memory;
use std::alloc::Global;

// Of a drawing of so many curves or fewer the pairs are searched for the least bad one. In larger
// ones that could take the square of their number.
const FEW_CURVES: usize = 2048;

/// The answer to a drawing in which this pair is bad. In a drawing of few curves it is two
/// straights that are, else the least pair with a half arc; in a larger one this pair. The only
/// error is out of memory. It takes what `bad_meeting` takes.
pub(crate) fn answer_at_fault(
    alloc: Global,
    drawing: &Drawing,
    pair: CurvePair,
) -> Result<FoundObjects, Memory>
    requires { IsBadPair (plan drawing.now) pair.first pair.second }
    ensures { IfOk result (λ f. (places : List Point)
        → IsFoundBy drawing.now.tolerance (plan drawing.now) places f) }
{
    if drawing.curves.len() > FEW_CURVES {
        return Ok(meeting(alloc, pair.first, pair.second));
    }
    match bad_meeting(alloc, drawing)? {
        Some(least) => Ok(meeting(alloc, least.first, least.second)),
        None => unreachable!(),
    }
}

/// The answer that names the two curves.
pub(crate) fn meeting(alloc: Global, first: u32, second: u32) -> FoundObjects
    ensures { result.answer ≡ Fault (Meeting first second) }
{
    let answer = AreaAnswer::Fault(AreaFinding::Meeting { first, second });
    without_regions(alloc, answer)
}
