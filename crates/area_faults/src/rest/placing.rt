// Where the objects' points and the middles of the curves that are left out lie.
ghost use Rattle.std.specs.Prelude.{◌≡◌, ◌^◌, ◌<◌, IfOk, [], length};
ghost use Rattle.area_search.specs.Unsettled.CurvePoints.{AreNumbers};
ghost use Rattle.plane.specs.Rule.Plans.{plan};
ghost use Rattle.plane.specs.Runs.Moves.{Fit, steps_from};
ghost use Rattle.plane.specs.Runs.Steps.{Run};
ghost use Rattle.point_location.specs.Places.{ArePlaces};
ghost use Rattle.straight_predicates.specs.EdgeLists.{edge_of};
ghost use Rattle.area_faults.specs.RestFaces.{AreHalfEdges, half_points};

use super::half_units::points_in_halves;
use line_sweep::Swept;
use plane::{Drawing, Edge};
use point_location::{Place, locate};
use ports::Memory;
use std::alloc::Global;

/// Where the objects' points lie, and behind them the middles of the curves that are left out, by
/// the edges of the others, which are then freed, and their run.
pub(super) fn places_of(
    alloc: Global,
    drawing: &Drawing,
    left: &[u32],
    edges: Vec<Edge>,
    swept: &Swept,
) -> Result<Vec<Place>, Memory>
    requires left { AreNumbers (length (plan drawing.now).curves) left.now }
    requires edges { AreHalfEdges (plan drawing.now) edges.items }
    requires few { length edges.items < 2 ^ 31 }
    requires run { Run (length edges.items) (edge_of edges.items) (steps_from []
        swept.now.events) }
    requires fit { Fit [] swept.now.events }
    ensures { IfOk result (λ places. ArePlaces edges.items swept.now.events
        (half_points (plan drawing.now) left.now) places.items) }
{
    let points = points_in_halves(alloc, drawing, left)?;
    locate(alloc, &edges, swept, &points)
}
