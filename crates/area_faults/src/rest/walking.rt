// The sides that follow one another round the faces.
ghost use Rattle.std.specs.Prelude.{◌≡◌, ℕ, ◌+◌, ◌*◌, ◌/◌, ◌^◌, ◌<◌, ◌≤◌, IfOk, length, not};
ghost use Rattle.std.specs.Prelude.{slice_set};
ghost use Rattle.area_search.specs.Settled.Sides.{half_over};
ghost use Rattle.area_search.specs.Unsettled.CurvePoints.{AreNumbers};
ghost use Rattle.half_edges.specs.HalfEdges.{size};
ghost use Rattle.meetings.specs.StraightEdges.{IsRising};
ghost use Rattle.plane.specs.Forms.Vectors.{Before};
ghost use Rattle.plane.specs.Rule.Plans.{plan};
ghost use Rattle.area_faults.specs.NextSides.{AreFollowedTo, IsHalfOn};

use fault_lists::{SideAt, side_number};
use half_edges::{HalfEdgeId, Mesh};
use plane::{Curve, Drawing};
use ports::Memory;
use std::alloc::Global;
use straight_predicates::before;

/// Of each side of a curve that stays, by its number, the number of the side that follows it round
/// its face; 0 for the sides of a curve that does not. It takes time linear in the edges.
pub(super) fn next_sides(
    alloc: Global,
    drawing: &Drawing,
    mesh: &Mesh,
    kept: &[u32],
) -> Result<Vec<u32>, Memory>
    requires kept { AreNumbers (length (plan drawing.now).curves) kept.now }
    requires rising { IsRising kept.now }
    requires few { length (plan drawing.now).curves ≤ 16000000 }
    requires size { size mesh.now ≡ 2 * length kept.now }
    ensures { IfOk result (λ next. AreFollowedTo (plan drawing.now) kept.now mesh.now
        (size mesh.now) next.items) }
{
    let halves = 2 * mesh.edges() as usize;
    let mut next = vec![in alloc; 0u32; 2 * drawing.curves.len()]?;
    for half in 0..halves {
        note_next(drawing, mesh, kept, HalfEdgeId(half as u32), &mut next);
    }
    Ok(next)
}

// Notes the side that follows that of the half-edge.
fn note_next(drawing: &Drawing, mesh: &Mesh, kept: &[u32], half: HalfEdgeId, next: &mut [u32])
    requires kept { AreNumbers (length (plan drawing.now).curves) kept.now }
    requires rising { IsRising kept.now }
    requires few { length (plan drawing.now).curves ≤ 16000000 }
    requires size { size mesh.now ≡ 2 * length kept.now }
    requires there { half < size mesh.now }
    requires room { length next.old ≡ 2 * length (plan drawing.now).curves }
    ensures size { length next.new ≡ length next.old }
    ensures noted { AreFollowedTo (plan drawing.now) kept.now mesh.now half next.old
        → AreFollowedTo (plan drawing.now) kept.now mesh.now (half + 1) next.new }
{
    let _ = mesh.edges();
    let side = side_of_half(drawing, kept, half);
    let after = side_of_half(drawing, kept, mesh.next(half));
    note(next, side_number(side), side_number(after));
}

// Notes a side after another one.
fn note(next: &mut [u32], side: usize, after: usize)
    requires there { side < length next.old }
    requires few { after < 2 ^ 32 }
    ensures { next.new ≡ slice_set next.old side after }
{
    next[side] = after as u32;
}

// The side of a curve that has the half-edge on it.
fn side_of_half(drawing: &Drawing, kept: &[u32], half: HalfEdgeId) -> SideAt
    requires kept { AreNumbers (length (plan drawing.now).curves) kept.now }
    requires there { half < 2 * length kept.now }
    ensures { IsHalfOn (plan drawing.now) kept.now result half }
{
    let curve = kept[(half.0 / 2) as usize];
    SideAt {
        curve,
        left: is_on_left(&drawing.curves[curve as usize], half),
    }
}

// Whether the half-edge of a straight's edge is on the left side: what is over the edge is, where
// the straight runs from the edge's low end.
fn is_on_left(curve: &Curve, half: HalfEdgeId) -> bool
    ensures forth { Before curve.now.from curve.now.to → half ≡ half_over result (half / 2) }
    ensures back { (Before curve.now.from curve.now.to → ⊥)
        → half ≡ half_over (not result) (half / 2) }
{
    if before(curve.from, curve.to) {
        is_over(half)
    } else {
        !is_over(half)
    }
}

// Whether the half-edge is over its edge.
fn is_over(half: HalfEdgeId) -> bool
    ensures { half ≡ half_over result (half / 2) }
{
    half.0 % 2 == 1
}
