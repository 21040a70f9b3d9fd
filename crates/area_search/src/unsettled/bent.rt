// The answer by what becomes of a drawing when its forks are bent.
ghost use Rattle.std.specs.Prelude.{◌≡◌, ◌<◌, ◌≤◌, IfOk, ℕ, length, get_or};
ghost use Rattle.plane.specs.Rule.Plans.{plan};
ghost use Rattle.area_search.specs.Answers.{AreClear, IsUnsettled};
ghost use Rattle.area_search.specs.Grounds.{NamesCurveOf, named, named_finding};
ghost use Rattle.area_search.specs.Regions.{AreInWindow, IsBentFound};

use crate::kinds::{AreaAnswer, AreaFinding, FoundObjects};
use crate::level::settled_answer;
use certificate::Certificate;
use forks::bent;
use plane::{Drawing, Point};
use ports::Memory;
use std::alloc::Global;

/// The answer to a drawing that no level settles and that is not at fault: that of the bent
/// drawing, named by curves of the drawing, with the regions of these places; none where no level
/// settles the bent drawing either. The only error is out of memory.
pub(super) fn bent_answer(
    alloc: Global,
    drawing: &Drawing,
    places: &[Point],
) -> Result<Option<FoundObjects>, Memory>
    requires few { length (plan drawing.now).curves ≤ 16000000 }
    requires near { AreInWindow (plan drawing.now) places.now }
    requires unsettled { IsUnsettled (plan drawing.now) }
    requires clear { AreClear (plan drawing.now) }
    ensures { IfOk result (IsBentFound drawing.now.tolerance (plan drawing.now) places.now) }
{
    forks::laws::nothing_bent();
    forks::laws::bent_curves();
    forks::laws::half_arcs_stay();
    certificate_checker::laws::bent_has_few_edges();
    let copy = bent(alloc, drawing)?;
    if copy.drawing.curves.len() == drawing.curves.len() {
        return Ok(None);
    }
    match settled_answer(alloc, &copy.drawing, places)? {
        Some(found) => {
            let answer = named_answer(found.answer, &copy.origin);
            let regions = found.regions;
            Ok(Some(FoundObjects { answer, regions }))
        }
        None => Ok(None),
    }
}

// The answer of the bent drawing as one to the drawing.
fn named_answer(answer: AreaAnswer, origin: &[u32]) -> AreaAnswer
    requires { NamesCurveOf (length origin.now) answer }
    ensures { result ≡ named origin.now answer }
{
    match answer {
        AreaAnswer::Proved(certificate) => AreaAnswer::Proved(Certificate {
            bent: true,
            ..certificate
        }),
        AreaAnswer::Fault(AreaFinding::Empty { curve, left }) => {
            AreaAnswer::Fault(AreaFinding::Empty {
                curve: origin[curve as usize],
                left,
            })
        }
        AreaAnswer::Fault(AreaFinding::Cut { curve }) => {
            let curve = origin[curve as usize];
            AreaAnswer::Fault(AreaFinding::Cut { curve })
        }
        other => other,
    }
}
