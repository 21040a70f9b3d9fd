// How half-edges lead to a root. Of two bars, one over the other, no edge is linked, so that each
// half-edge is followed by its twin; the cell between the bars leads from the one to the other.
ghost use Rattle.std.specs.Prelude.{◌≡◌, IfOk};
ghost use Rattle.half_edges.specs.Meshes.{with_edge, without_edges};
ghost use Rattle.line_sweep.specs.CellEdges.{IsCellEdge};
ghost use Rattle.line_sweep.specs.Kinds.{gap_of};

use certificate::{HalfNote, Link};
use faces::{label, links};
use half_edges::{HalfEdgeId, Mesh, VertexId};
use line_sweep::{Cell, CellEdge};
use ports::Memory;
use std::alloc::Global;
use std::test::Fail;

// From the half-edge under the lower bar, which is the root: over it, across the cell under the
// upper bar, and over that. All are of the outer face.
const NOTES: [HalfNote; 4] = [
    HalfNote {
        label: 0,
        link: Link::Root,
        rank: 0,
    },
    HalfNote {
        label: 0,
        link: Link::Next,
        rank: 1,
    },
    HalfNote {
        label: 0,
        link: Link::Across(1),
        rank: 2,
    },
    HalfNote {
        label: 0,
        link: Link::Next,
        rank: 3,
    },
];

// Edge 0, the lower bar, leads from event 0 to event 2, and edge 1 from event 1 to event 3.
fn bars(alloc: Global) -> Result<Mesh, Memory>
    ensures { IfOk result (λ mesh. mesh ≡ with_edge (with_edge (without_edges 4) 0 2) 1 3) }
{
    let mut mesh = Mesh::new(alloc, 4)?;
    mesh.add_edge(VertexId(0), VertexId(2))?;
    mesh.add_edge(VertexId(1), VertexId(3))?;
    Ok(mesh)
}

fn cell(lower: Option<u32>, upper: Option<u32>, event: u32) -> Cell
    requires lower { IsCellEdge lower }
    requires upper { IsCellEdge upper }
    ensures { gap_of result ≡ record { lower = lower; upper = upper; event = event } }
{
    Cell {
        lower: CellEdge::new(lower),
        upper: CellEdge::new(upper),
        event,
    }
}

// The notes by the cells of the two bars, in the order in which they close.
fn bar_notes(alloc: Global) -> Result<Vec<HalfNote>, Memory> {
    let mesh = bars(alloc)?;
    let cells = [
        cell(Some(0), None, 0),
        cell(None, Some(0), 0),
        cell(Some(0), Some(1), 1),
        cell(None, Some(1), 2),
        cell(Some(1), None, 1),
    ];
    let labelled = label(alloc, mesh, &cells)?;
    links(alloc, &labelled, &cells, &[HalfEdgeId(0)])
}

#[test]
fn the_upper_bar_leads_to_the_root_under_the_lower_one(rt: HostRuntime) -> Result<(), Fail> {
    let notes = bar_notes(rt.alloc())?;
    assert_eq!(rt; notes.as_slice(), NOTES.as_slice());
    Ok(())
}
