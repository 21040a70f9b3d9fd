// The drawing of the curves that are not set aside.
ghost use Rattle.std.specs.Prelude.{All, ◌≡◌, ◌^◌, ◌<◌, [], IfOk, length};
ghost use Rattle.plane.specs.Rule.Plans.{plan};
ghost use Rattle.plane.specs.Rule.Windows.{IsInside};
ghost use Rattle.area_search.specs.Unsettled.CurvePoints.{AreNumbers};
ghost use Rattle.area_search.specs.Unsettled.SetAside.{AreCurvesAt, IsRest};

use crate::numbers::numbers_with;
use plane::{Curve, Drawing, Placed};
use ports::Memory;
use std::alloc::Global;

/// The drawing of some curves of another one, and the numbers of the curves there.
#[derive(Drop)]
pub(crate) struct SubDrawing {
    pub drawing: Drawing,
    pub numbers: Vec<u32>,
}

/// The curves that are not marked, and all points. It copies both.
pub(crate) fn rest_of(
    alloc: Global,
    drawing: &Drawing,
    marks: &[bool],
) -> Result<SubDrawing, Memory>
    requires { length marks.now ≡ length drawing.now.curves.items }
    ensures { IfOk result (IsRest (plan drawing.now) marks.now (plan drawing.now).points) }
{
    let points = Vec::from_slice(alloc, &drawing.points)?;
    rest_with(alloc, drawing, marks, points)
}

/// The curves that are not marked, and no points.
pub(crate) fn rest_without_points(
    alloc: Global,
    drawing: &Drawing,
    marks: &[bool],
) -> Result<SubDrawing, Memory>
    requires { length marks.now ≡ length drawing.now.curves.items }
    ensures { IfOk result (IsRest (plan drawing.now) marks.now []) }
{
    rest_with(alloc, drawing, marks, Vec::new(alloc))
}

// The curves that are not marked, and these points.
fn rest_with(
    alloc: Global,
    drawing: &Drawing,
    marks: &[bool],
    points: Vec<Placed>,
) -> Result<SubDrawing, Memory>
    requires size { length marks.now ≡ length drawing.now.curves.items }
    requires few { length points.items < 2 ^ 30 }
    requires inside { All (λ p. IsInside drawing.now.window.low drawing.now.window.high p.at)
        points.items }
    ensures { IfOk result (IsRest (plan drawing.now) marks.now points.items) }
{
    let numbers = numbers_with(alloc, marks, false)?;
    let curves = curves_at(alloc, &drawing.curves, &numbers)?;
    Ok(SubDrawing {
        drawing: Drawing {
            window: drawing.window,
            curves,
            points,
            tolerance: drawing.tolerance,
        },
        numbers,
    })
}

fn curves_at(alloc: Global, all: &[Curve], numbers: &[u32]) -> Result<Vec<Curve>, Memory>
    requires { AreNumbers (length all.now) numbers.now }
    ensures { IfOk result (λ curves. AreCurvesAt all.now numbers.now (length numbers.now)
        curves.items) }
{
    let mut curves = Vec::with_capacity(alloc, numbers.len())?;
    for number in numbers {
        curves.push(all[*number as usize])?;
    }
    Ok(curves)
}
