// The plane as one face, where all curves are left out.
ghost use Rattle.std.specs.Prelude.{◌≡◌, ◌<◌, IfOk, None, false, length, replicate, true};
ghost use Rattle.plane.specs.Rule.Plans.{plan};
ghost use Rattle.fault_lists.specs.declared.faces.PointPlace.TheVariants.{InFace};
ghost use Rattle.fault_lists.specs.DrawingFaces.{HasFaces, IsNumbered};

use fault_lists::{CurveFaces, DrawingFaces, PointPlace};
use plane::{Curve, Drawing};
use ports::Memory;
use std::alloc::Global;

/// The one face of the plane without any curve, open if the drawing has one.
pub fn one_open_face(alloc: Global, drawing: &Drawing) -> Result<DrawingFaces, Memory>
    ensures numbered { IfOk result IsNumbered }
    ensures points { IfOk result (λ f. length f.points.items ≡ length (plan drawing.now).points) }
    ensures curves { IfOk result (λ f. length f.curves.items ≡ length (plan drawing.now).curves) }
    ensures faces { IfOk result (HasFaces (plan drawing.now) (λ i. true)) }
{
    let open = one_mark(alloc, has_curve(&drawing.curves))?;
    let points = all_in_0(alloc, drawing.points.len())?;
    let curves = no_sides(alloc, drawing.curves.len())?;
    Ok(DrawingFaces {
        open,
        points,
        curves,
        next: Vec::new(alloc),
    })
}

fn one_mark(alloc: Global, mark: bool) -> Result<Vec<bool>, Memory>
    ensures { IfOk result (λ marks. marks.items ≡ replicate 1 mark) }
{
    let marks = vec![in alloc; mark; 1]?;
    Ok(marks)
}

fn all_in_0(alloc: Global, count: usize) -> Result<Vec<PointPlace>, Memory>
    ensures { IfOk result (λ places. places.items ≡ replicate count (InFace 0)) }
{
    let places = vec![in alloc; PointPlace::InFace(0); count]?;
    Ok(places)
}

fn no_sides(alloc: Global, count: usize) -> Result<Vec<Option<CurveFaces>>, Memory>
    ensures { IfOk result (λ sides. sides.items ≡ replicate count None) }
{
    let sides = vec![in alloc; None; count]?;
    Ok(sides)
}

fn has_curve(curves: &[Curve]) -> bool
    ensures yes { result ≡ true → 0 < length curves.now }
    ensures no { result ≡ false → length curves.now ≡ 0 }
{
    !curves.is_empty()
}
