// The sides that follow one another round the faces.
ghost use Rattle.std.specs.Prelude.{◌≡◌, ℕ, ◌+◌, ◌*◌, ◌/◌, ◌^◌, ◌<◌, None, IfOk, false, true};
ghost use Rattle.std.specs.Prelude.{length, slice_set};
ghost use Rattle.std.specs.Option.{IfSome};
ghost use Rattle.half_edges.specs.HalfEdges.{size};
ghost use Rattle.plane.specs.CurveRuns.TubedRuns.{IsOfTube, Part as AnyPart};
ghost use Rattle.plane.specs.Faces.Halves.{Half, edge_of, number, twin};
ghost use Rattle.plane.specs.Forms.Segments.{IsEdgeOf};
ghost use Rattle.plane.specs.Forms.Vectors.{Before};
ghost use Rattle.plane.specs.Rule.Plans.{plan};
ghost use Rattle.plane.specs.declared.kinds.Edge.{Edge};
ghost use Rattle.tubes.specs.Settled.{facing_of};
ghost use Rattle.tubes.specs.TubedEdges.{part_of};
ghost use Rattle.area_search.specs.Settled.Cases.{HasRun, edges_of};
ghost use Rattle.area_search.specs.Settled.CaseSides.{IsTurnable};
ghost use Rattle.area_search.specs.Settled.NextSides.{AreNextSides, IsHalfOfSide, IsHalfWithin};
ghost use Rattle.area_search.specs.Settled.NextSides.{HasRunMesh, IsPartOf};
ghost use Rattle.area_search.specs.Settled.Sides.{IsOnSide, half_over};

use super::case::SettledDrawing;
use super::case_sides::first_is_left;
use fault_lists::{SideAt, side_number};
use half_edges::{HalfEdgeId, Mesh};
use plane::Curve;
use ports::Memory;
use std::alloc::Global;
use straight_predicates::before;
use tubes::{Facing, Part};

/// Of each side of a curve, by its number, the number of the side that follows it round its face.
/// It takes time linear in the edges, and 8 bytes a curve.
pub(crate) fn next_sides(
    alloc: Global,
    settled: &SettledDrawing,
    mesh: &Mesh,
) -> Result<Vec<u32>, Memory>
    requires { HasRunMesh settled.now mesh.now }
    ensures { IfOk result (λ next. AreNextSides settled.now mesh.now (size mesh.now) next.items) }
{
    let halves = 2 * mesh.edges() as usize;
    let mut next = vec![in alloc; 0u32; 2 * settled.drawing.curves.len()]?;
    for half in 0..halves {
        note_next(settled, mesh, HalfEdgeId(half as u32), &mut next);
    }
    Ok(next)
}

// Notes the side that follows that of the half-edge, where another one does.
fn note_next(settled: &SettledDrawing, mesh: &Mesh, half: HalfEdgeId, next: &mut [u32])
    requires run { HasRunMesh settled.now mesh.now }
    requires there { half < size mesh.now }
    requires room { length next.old ≡ 2 * length (plan settled.now.drawing.now).curves }
    ensures size { length next.new ≡ length next.old }
    ensures noted { AreNextSides settled.now mesh.now half next.old
        → AreNextSides settled.now mesh.now (half + 1) next.new }
{
    if let Some(side) = side_of_half(settled, half) {
        if let Some(after) = side_of_half(settled, mesh.next(half)) {
            note(next, side_number(side), side_number(after));
        }
    }
}

// Notes a side after another one.
fn note(next: &mut [u32], side: usize, after: usize)
    requires there { side < length next.old }
    requires few { after < 2 ^ 32 }
    ensures size { length next.new ≡ length next.old }
    ensures noted { (side ≡ after → ⊥) → next.new ≡ slice_set next.old side after }
    ensures kept { side ≡ after → next.new ≡ next.old }
{
    if side != after {
        next[side] = after as u32;
    }
}

// The side of a curve that has the half-edge on it, None where that faces a tube from within.
fn side_of_half(settled: &SettledDrawing, half: HalfEdgeId) -> Option<SideAt>
    requires settled { HasRun settled.now }
    requires there { half < 2 * length (edges_of settled.now) }
    ensures some { IfSome result (λ s. IsHalfOfSide settled.now s half) }
    ensures none { result ≡ None → IsHalfWithin settled.now half }
{
    let edge = (half.0 / 2) as usize;
    let owner = settled.owners[edge];
    let curve = &settled.drawing.curves[owner.curve as usize];
    match owner.part {
        Part::Straight => Some(SideAt {
            curve: owner.curve,
            left: is_on_left(curve, half),
        }),
        part => {
            if is_within(settled.facings[edge], half) {
                return None;
            }
            Some(SideAt {
                curve: owner.curve,
                left: is_chain_left(curve, part),
            })
        }
    }
}

// Whether the half-edge of a straight's edge is on the left side.
fn is_on_left(curve: &Curve, half: HalfEdgeId) -> bool
    ensures { (e : Edge) → Before e.low e.high → IsEdgeOf e curve.now
        → IsOnSide e curve.now (half / 2) result half }
{
    if before(curve.from, curve.to) {
        is_over(half)
    } else {
        !is_over(half)
    }
}

// Whether the chain of a half arc's tube is on the left side.
fn is_chain_left(curve: &Curve, part: Part) -> bool
    requires { IsTurnable curve.now }
    ensures { (p : AnyPart) → IsOfTube p → part ≡ part_of p → IsPartOf p curve.now result }
{
    match part {
        Part::Straight | Part::Inner => first_is_left(curve),
        Part::Outer => !first_is_left(curve),
    }
}

// Whether the half-edge of a tube's edge faces the tube from within.
fn is_within(facing: Facing, half: HalfEdgeId) -> bool
    ensures within { (p : AnyPart) (w : Half) → IsOfTube p → edge_of w ≡ half / 2
        → facing ≡ facing_of p w → result ≡ true → half ≡ number w }
    ensures outside { (p : AnyPart) (w : Half) → IsOfTube p → edge_of w ≡ half / 2
        → facing ≡ facing_of p w → result ≡ false → half ≡ number (twin w) }
{
    match facing {
        Facing::Neither => false,
        Facing::Below => !is_over(half),
        Facing::Above => is_over(half),
    }
}

// Whether the half-edge is over its edge.
fn is_over(half: HalfEdgeId) -> bool
    ensures { half ≡ half_over result (half / 2) }
{
    half.0 % 2 == 1
}
