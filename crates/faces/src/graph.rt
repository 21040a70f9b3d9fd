// What a search goes over.
ghost use Rattle.std.specs.Prelude.{◌≡◌, ◌^◌, ◌<◌, List, length};
ghost use Rattle.half_edges.specs.HalfEdges.{size};
ghost use Rattle.half_edges.specs.Meshes.{IsMesh};
ghost use Rattle.plane.specs.Runs.Gaps.{Gap};
ghost use Rattle.faces.specs.Joins.{AreJoins};
ghost use Rattle.faces.specs.Searching.{IsGraph};

use super::joins::Joins;
use half_edges::Mesh;

/// The half-edges of a mesh, and what joins them.
#[derive(Clone, Copy)]
pub struct Graph<'a> {
    pub mesh: &'a Mesh,
    pub joins: &'a Joins,
}

impl<'a> Graph<'a> {
    /// The graph of a mesh and the joins of some cells.
    pub fn new(mesh: &'a Mesh, joins: &'a Joins) -> Graph<'a>
        requires joins { (cells : List Gap) × AreJoins (size mesh.now) cells joins.now }
        ensures mesh { result.mesh.now ≡ mesh.now }
        ensures joins { result.joins.now ≡ joins.now }
        ensures graph { IsGraph result }
    {
        let _ = halves_of(mesh);
        Graph { mesh, joins }
    }
}

/// The number of half-edges.
pub fn halves_of(mesh: &Mesh) -> usize
    ensures size { result ≡ size mesh.now }
    ensures few { result < 2 ^ 32 }
    ensures mesh { IsMesh mesh.now }
{
    2 * mesh.edges() as usize
}
