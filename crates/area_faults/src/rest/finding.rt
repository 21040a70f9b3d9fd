// The numbers of the faces, step by step.
ghost use Rattle.std.specs.Prelude.{◌≡◌, ℕ, ◌≤◌, true, IfOk, [], length};
ghost use Rattle.fault_lists.specs.DrawingFaces.{HasFaces, IsNumbered};
ghost use Rattle.fault_lists.specs.Rings.{GoRound};
ghost use Rattle.line_sweep.specs.Kinds.{gaps_of};
ghost use Rattle.near_pairs.specs.Boxes.{mark_of};
ghost use Rattle.plane.specs.Rule.BadPairs.{IsBadPair};
ghost use Rattle.plane.specs.Rule.Plans.{plan};
ghost use Rattle.plane.specs.Runs.Gaps.{closed_gaps};
ghost use Rattle.plane.specs.Runs.Moves.{Fit, steps_from};
ghost use Rattle.plane.specs.Runs.Steps.{Run};
ghost use Rattle.straight_predicates.specs.EdgeLists.{edge_of};
ghost use Rattle.tubes.specs.DrawnEdges.{AreStraights};
ghost use Rattle.area_faults.specs.RestFaces.{AreMendable, AreParted, HasSizes, half_edges};

use super::half_units::edges_in_halves;
use super::labelling::labelled_run;
use super::numbering::{curve_faces, open_faces, point_places};
use super::placing::places_of;
use super::walking::next_sides;
use area_search::numbers_with;
use fault_lists::DrawingFaces;
use line_sweep::{SweepRefusal, Swept, sweep};
use plane::{Drawing, Edge};
use ports::Memory;
use std::alloc::Global;

/// The faces of a drawing of at most 16,000,000 straights without those that are marked, by
/// numbers, and which side follows which round its face. No two of the others meet badly. The only
/// error is out of memory. It takes a sweep of
/// the curves that stay, a replay and the search of the faces; 20 bytes a curve, 8 a point and one
/// a face stay.
pub fn rest_faces(alloc: Global, drawing: &Drawing, out: &[bool]) -> Result<DrawingFaces, Memory>
    requires straights { AreStraights (plan drawing.now) }
    requires size { length out.now ≡ length (plan drawing.now).curves }
    requires few { length (plan drawing.now).curves ≤ 16000000 }
    requires pairs { (i j : ℕ) → IsBadPair (plan drawing.now) i j
        → (mark_of out.now i ≡ true) × (mark_of out.now j ≡ true) }
    ensures faces { IfOk result (HasFaces (plan drawing.now) (mark_of out.now)) }
    ensures numbered { IfOk result IsNumbered }
    ensures sizes { IfOk result (HasSizes (plan drawing.now)) }
    ensures rings { IfOk result (GoRound (plan drawing.now)) }
{
    let kept = numbers_with(alloc, out, false)?;
    let left = numbers_with(alloc, out, true)?;
    let edges = edges_in_halves(alloc, drawing, &kept)?;
    match sweep(alloc, &edges) {
        Ok(swept) => faces_of_run(alloc, drawing, out, &kept, &left, edges, swept),
        Err(SweepRefusal::Bad { .. }) => unreachable!(),
        Err(SweepRefusal::Memory) => Err(Memory),
    }
}

// The same by a complete run of the edges that stay, which are freed when the points are located,
// and the events when the mesh is made.
fn faces_of_run(
    alloc: Global,
    drawing: &Drawing,
    out: &[bool],
    kept: &[u32],
    left: &[u32],
    edges: Vec<Edge>,
    swept: Swept,
) -> Result<DrawingFaces, Memory>
    requires mendable { AreMendable (plan drawing.now) (mark_of out.now) }
    requires parted { AreParted (plan drawing.now) out.now kept.now left.now }
    requires edges { edges.items ≡ half_edges (plan drawing.now) kept.now }
    requires run { Run (length edges.items) (edge_of edges.items) (steps_from [] swept.events) }
    requires fit { Fit [] swept.events }
    requires cells { gaps_of swept.cells.items ≡ closed_gaps swept.events }
    ensures faces { IfOk result (HasFaces (plan drawing.now) (mark_of out.now)) }
    ensures numbered { IfOk result IsNumbered }
    ensures sizes { IfOk result (HasSizes (plan drawing.now)) }
    ensures rings { IfOk result (GoRound (plan drawing.now)) }
{
    let places = places_of(alloc, drawing, left, edges, &swept)?;
    let labelled = labelled_run(alloc, kept.len(), swept)?;
    let first = drawing.points.len();
    Ok(DrawingFaces {
        open: open_faces(alloc, &labelled, &places, first)?,
        points: point_places(alloc, &labelled.mesh, kept, &places, first)?,
        curves: curve_faces(alloc, &drawing.curves, &labelled.mesh, kept)?,
        next: next_sides(alloc, drawing, &labelled.mesh, kept)?,
    })
}
