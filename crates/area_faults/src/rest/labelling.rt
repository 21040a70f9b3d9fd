// The faces of a run.
ghost use Rattle.std.specs.Prelude.{◌≡◌, ◌^◌, ◌<◌, IfOk, [], length};
ghost use Rattle.area_search.specs.Settled.Meshing.{HasEdges};
ghost use Rattle.line_sweep.specs.Kinds.{gaps_of};
ghost use Rattle.plane.specs.Runs.Gaps.{closed_gaps};
ghost use Rattle.plane.specs.Runs.Moves.{Fit, steps_from};
ghost use Rattle.area_faults.specs.RestFaces.{AreRunFaces};

use area_search::mesh_of_run;
use faces::{Labelled, label};
use line_sweep::{Cell, Swept};
use ports::Memory;
use std::alloc::Global;

/// The mesh of the run over so many edges, with its faces; the events are freed when it is made.
pub(super) fn labelled_run(alloc: Global, edges: usize, swept: Swept) -> Result<Labelled, Memory>
    requires few { edges < 2 ^ 31 }
    requires run { HasEdges edges (steps_from [] swept.events) }
    requires fit { Fit [] swept.events }
    requires cells { gaps_of swept.cells.items ≡ closed_gaps swept.events }
    ensures { IfOk result (AreRunFaces edges swept.events) }
{
    area_search::laws::faces_of_runs();
    let mesh = mesh_of_run(alloc, edges, &swept)?;
    let cells = cells_alone(swept);
    let labelled = label(alloc, mesh, &cells)?;
    // `edges` says that it is a mesh.
    let _ = labelled.mesh.edges();
    Ok(labelled)
}

// The cells of a run, whose events are freed.
fn cells_alone(swept: Swept) -> Vec<Cell>
    ensures { result.items ≡ swept.cells.items }
{
    swept.cells
}
