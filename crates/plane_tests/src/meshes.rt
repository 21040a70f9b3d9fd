// What a caller concludes from the clauses of `Mesh` alone. Meshes of whole drawings, with faces
// and links, are those of the accepted rows of `worked_rows`, whose certificates show them.
ghost use Rattle.std.specs.Prelude.{◌≡◌, ℕ, ◌+◌, ◌-◌, IfOk, ◌<◌, length, slice_index};
ghost use Rattle.half_edges.specs.HalfEdges.{size};
ghost use Rattle.half_edges.specs.Meshes.{with_edge, without_edges};
ghost use Rattle.half_edges.specs.Stars.{IsStar, IsLoose};

use half_edges::{FaceId, HalfEdgeId, Mesh, VertexId};
use ports::Memory;
use std::alloc::Global;

// Links a vertex and answers what follows the twin of the half-edge at place `k` of the list: the
// one at the place before, or the last one where `k` is 0.
fn next_after_linking(mesh: &mut Mesh, around: &[HalfEdgeId], k: usize) -> HalfEdgeId
    requires star { IsStar mesh.old around.now }
    requires loose { IsLoose mesh.old around.now }
    requires place { k < length around.now }
    ensures before { (j : ℕ) → k ≡ j + 1 → result ≡ slice_index around.now j }
    ensures last { k ≡ 0 → result ≡ slice_index around.now (length around.now - 1) }
{
    mesh.link(around);
    let _ = mesh.edges();
    let back = mesh.twin(around[k]);
    mesh.next(back)
}

// Two edges in a row, from 0 to 1 and from 1 to 2, linked where they meet: 2 arrives there and goes
// on as 0, and 1 goes on as 3.
fn bend(alloc: Global) -> Result<Mesh, Memory>
    ensures back { IfOk result (λ mesh. slice_index mesh.next 2 ≡ 0) }
    ensures forth { IfOk result (λ mesh. slice_index mesh.next 1 ≡ 3) }
    ensures size { IfOk result (λ mesh. size mesh ≡ 4) }
{
    let mut mesh = Mesh::new(alloc, 3)?;
    mesh.add_edge(VertexId(0), VertexId(1))?;
    mesh.add_edge(VertexId(1), VertexId(2))?;
    mesh.link(&[HalfEdgeId(0), HalfEdgeId(3)]);
    Ok(mesh)
}

// What comes there after 2, and after 1.
fn after_bend(alloc: Global) -> Result<(HalfEdgeId, HalfEdgeId), Memory> {
    let mesh = bend(alloc)?;
    Ok((mesh.next(HalfEdgeId(2)), mesh.next(HalfEdgeId(1))))
}

#[test]
fn callers_know_what_comes_next(rt: HostRuntime) {
    assert!(rt; matches!(after_bend(rt.alloc()), Ok((HalfEdgeId(0), HalfEdgeId(3)))));
}

// One edge, from vertex 0 to vertex 1.
fn one_edge(alloc: Global) -> Result<Mesh, Memory>
    ensures { IfOk result (λ mesh. mesh ≡ with_edge (without_edges 2) 0 1) }
{
    let mut mesh = Mesh::new(alloc, 2)?;
    mesh.add_edge(VertexId(0), VertexId(1))?;
    Ok(mesh)
}

// Where the half-edges under and over it begin, and whether both may have one face, or one each.
fn ends_and_faces(alloc: Global) -> Result<(VertexId, VertexId, bool, bool), Memory> {
    let mesh = one_edge(alloc)?;
    let one = mesh.faces_agree(&[FaceId(3), FaceId(3)]);
    let two = mesh.faces_agree(&[FaceId(3), FaceId(4)]);
    let under = mesh.origin(HalfEdgeId::under(0));
    let over = mesh.origin(HalfEdgeId::over(0));
    Ok((under, over, one, two))
}

#[test]
fn an_edge_alone_has_one_face(rt: HostRuntime) {
    assert!(rt;
        matches!(
            ends_and_faces(rt.alloc()),
            Ok((VertexId(1), VertexId(0), true, false))
        )
    );
}
