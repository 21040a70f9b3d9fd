// The mesh of a drawing of straights with its faces, and the face of each object's point.
ghost use Rattle.std.specs.Prelude.{◌≡◌, ◌^◌, ◌<◌, ℕ, IfOk, length, map};
ghost use Rattle.half_edges.specs.HalfEdges.{size};
ghost use Rattle.line_sweep.specs.Kinds.{gaps_of};
ghost use Rattle.plane.specs.Rule.Partition.{IsPartition};
ghost use Rattle.plane.specs.Rule.Plans.{plan};
ghost use Rattle.plane.specs.Runs.Gaps.{closed_gaps};
ghost use Rattle.plane.specs.Runs.Moves.{Move};
ghost use Rattle.tubes.specs.DrawnEdges.{AreStraights, edges_of as straights_of};
ghost use Rattle.area_search.specs.Faced.{IsCellSpot, IsFacedDrawing, IsLabelledRun, cell_face};
ghost use Rattle.area_search.specs.Settled.Cases.{IsCaseOf, edges_of, spot_at};

use super::case::{SettledDrawing, Spot};
use super::finishing::{cells_alone, object_spots};
use super::meshing::mesh_of_run;
use crate::kinds::FacedDrawing;
use faces::{Labelled, label_with_joins};
use half_edges::{HalfEdgeId, Mesh};
use line_sweep::{Events, Swept};
use plane::{Edge, Point};
use ports::Memory;
use std::alloc::Global;

/// The faces of a drawing of straights by a complete run of its edges, which are freed when the
/// points are placed, and the events and the cells when the mesh is made.
pub(crate) fn faces_of_run(
    alloc: Global,
    settled: &SettledDrawing,
    edges: Vec<Edge>,
    swept: Swept,
) -> Result<FacedDrawing, Memory>
    requires settled { IsCaseOf settled.now swept.events }
    requires edges { edges.items ≡ edges_of settled.now }
    requires few { length (edges_of settled.now) < 2 ^ 31 }
    requires cells { gaps_of swept.cells.items ≡ closed_gaps swept.events }
    requires drawn { edges_of settled.now ≡ straights_of (plan settled.now.drawing.now) }
    requires straights { AreStraights (plan settled.now.drawing.now) }
    requires partition { IsPartition (plan settled.now.drawing.now) }
    ensures { IfOk result (IsFacedDrawing (plan settled.now.drawing.now)) }
{
    tubes::laws::edges_of_drawing();
    let spots = object_spots(alloc, settled, edges, &swept)?;
    let at = event_places(alloc, &swept.events)?;
    let labelled = labelled_run(alloc, settled, swept)?;
    let points = cell_faces(alloc, &labelled.mesh, &spots)?;
    Ok(FacedDrawing {
        mesh: labelled.mesh,
        faces: labelled.count,
        at,
        points,
    })
}

// Where the events lie.
fn event_places(alloc: Global, events: &Events) -> Result<Vec<Point>, Memory>
    ensures { IfOk result (λ at. at.items ≡ map (λ (v : Move). v.at) events.now) }
{
    let mut at = Vec::with_capacity(alloc, events.len() as usize)?;
    for number in 0..events.len() {
        at.push(events.at(number))?;
    }
    Ok(at)
}

/// The mesh of the run with its faces.
pub(super) fn labelled_run(
    alloc: Global,
    settled: &SettledDrawing,
    swept: Swept,
) -> Result<Labelled, Memory>
    requires settled { IsCaseOf settled.now swept.events }
    requires few { length (edges_of settled.now) < 2 ^ 31 }
    requires cells { gaps_of swept.cells.items ≡ closed_gaps swept.events }
    ensures { IfOk result (IsLabelledRun settled.now swept.events) }
{
    let mesh = mesh_of_run(alloc, settled.owners.len(), &swept)?;
    let cells = cells_alone(swept);
    let joined = label_with_joins(alloc, mesh, cells)?;
    // `edges` says that it is a mesh.
    let _ = joined.labelled.mesh.edges();
    Ok(joined.labelled)
}

// The face over the edge under each of these cells; 0 where there is none.
fn cell_faces(alloc: Global, mesh: &Mesh, spots: &[Spot]) -> Result<Vec<u32>, Memory>
    requires known { (j : ℕ) → j < length spots.now
        → IsCellSpot (size mesh.now) (spot_at spots.now j) }
    ensures { IfOk result (λ fs. fs.items ≡ map (cell_face mesh.now.face) spots.now) }
{
    let mut faces = Vec::with_capacity(alloc, spots.len())?;
    for point in 0..spots.len() {
        faces.push(cell_face(mesh, &spots[point]))?;
    }
    Ok(faces)
}

fn cell_face(mesh: &Mesh, spot: &Spot) -> u32
    requires { IsCellSpot (size mesh.now) spot.now }
    ensures { result ≡ cell_face mesh.now.face spot.now }
{
    let _ = mesh.edges();
    match spot {
        Spot::Cell {
            lower: Some(edge),
            ..
        } => mesh.face(HalfEdgeId::over(*edge)).0,
        _ => 0,
    }
}
