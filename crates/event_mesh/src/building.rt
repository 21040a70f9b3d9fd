// The mesh of events and edges before any event is turned.
ghost use Rattle.std.specs.Prelude.{◌<◌, ◌^◌, IfOk, length};
ghost use Rattle.event_mesh.specs.Built.{AreEnds, IsMeshOf};

use half_edges::{Mesh, VertexId};
use ports::Memory;
use std::alloc::Global;

/// A mesh with a vertex for each event and an edge from event `low[e]` to event `high[e]` for each
/// edge e. Its half-edge 2 e begins at the high end. The only error is out of memory. It takes
/// time linear in the edges, and 32 bytes for each.
pub fn mesh_of(alloc: Global, events: u32, low: &[u32], high: &[u32]) -> Result<Mesh, Memory>
    requires few { length low.now < 2 ^ 31 }
    requires ends { AreEnds events low.now high.now }
    ensures { IfOk result (λ mesh. IsMeshOf events low.now high.now (length low.now) mesh) }
{
    let mut mesh = Mesh::with_capacity(alloc, events, low.len() as u32)?;
    for (e, event) in low.iter().enumerate() {
        mesh.add_edge(VertexId(*event), VertexId(high[e]))?;
    }
    Ok(mesh)
}
