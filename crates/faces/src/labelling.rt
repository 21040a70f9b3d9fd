// Faces by number.
ghost use Rattle.std.specs.Prelude.{◌≡◌, ℕ, ◌+◌, ◌^◌, ◌<◌, List, IfOk, length, slice_index, suc};
ghost use Rattle.plane.specs.Runs.Gaps.{Gap};
ghost use Rattle.half_edges.specs.HalfEdges.{size};
ghost use Rattle.half_edges.specs.Meshes.{AgreesAlong, with_faces};
ghost use Rattle.line_sweep.specs.Kinds.{gaps_of};
ghost use Rattle.faces.specs.Joined.{AreKnown, AtBorder};
ghost use Rattle.faces.specs.Joins.{AreJoins, cells_of};
ghost use Rattle.faces.specs.Labels.{AreFaces, greatest};
ghost use Rattle.faces.specs.Searching.{HasSearched, IsGraph, IsNumberedTo, IsWaiting};

use super::graph::{Graph, halves_of};
use super::joins::Joins;
use super::labelled::{JoinedMesh, Labelled};
use super::searching::{Search, UNSET};
use super::spreading::spread;
use half_edges::{FaceId, HalfEdgeId, Mesh};
use line_sweep::Cell;
use ports::Memory;
use std::alloc::Global;

/// The mesh with its faces: half-edges have one face exactly where they are joined by the way
/// round a face, by cells of the sweep and over the border, and face 0 exactly where they are
/// joined with one that was beside the border. The other faces are numbered in the order of their
/// least half-edge. The only error is out of memory, and the mesh is then gone. It takes time
/// linear in the half-edges and the cells, and for a while 12 bytes a half-edge, 8 a cell and 4 a
/// half-edge at the border.
pub fn label(alloc: Global, mesh: Mesh, cells: &[Cell]) -> Result<Labelled, Memory>
    requires known { AreKnown (size mesh) (gaps_of cells.now) }
    ensures unchanged { IfOk result (λ l. l.mesh ≡ with_faces mesh l.mesh.face) }
    ensures faces { IfOk result (λ l. AreFaces mesh (gaps_of cells.now) l.mesh.face) }
    ensures count { IfOk result (λ l. l.count ≡ suc (greatest l.mesh.face)) }
{
    let joins = Joins::new(alloc, halves_of(&mesh), cells)?;
    label_by(alloc, mesh, &joins)
}

/// The mesh with its faces as `label` gives them, and the joins of its half-edges, which
/// `links_by_joins` takes. The cells are freed before the faces are searched for. The only error is
/// out of memory, and mesh and cells are then gone. It takes the time of `label`; the joins take 4
/// bytes a half-edge, 8 a cell and 4 a half-edge at the border, and the search 8 bytes a half-edge
/// for a while.
pub fn label_with_joins(alloc: Global, mesh: Mesh, cells: Vec<Cell>) -> Result<JoinedMesh, Memory>
    requires known { AreKnown (size mesh) (gaps_of cells.items) }
    ensures unchanged { IfOk result (λ l. l.labelled.mesh
        ≡ with_faces mesh l.labelled.mesh.face) }
    ensures faces { IfOk result (λ l. AreFaces mesh (gaps_of cells.items)
        l.labelled.mesh.face) }
    ensures count { IfOk result (λ l. l.labelled.count ≡ suc (greatest l.labelled.mesh.face)) }
    ensures joins { IfOk result (λ l. AreJoins (size mesh) (gaps_of cells.items) l.joins) }
{
    let joins = Joins::freeing(alloc, halves_of(&mesh), cells)?;
    let labelled = label_by(alloc, mesh, &joins)?;
    Ok(JoinedMesh { labelled, joins })
}

// The mesh with its faces, by the joins of some cells.
fn label_by(alloc: Global, mesh: Mesh, joins: &Joins) -> Result<Labelled, Memory>
    requires joins { (cells : List Gap) × AreJoins (size mesh) cells joins.now }
    ensures unchanged { IfOk result (λ l. l.mesh ≡ with_faces mesh l.mesh.face) }
    ensures faces { IfOk result (λ l. (cells : List Gap)
        → AreJoins (size mesh) cells joins.now → AreFaces mesh cells l.mesh.face) }
    ensures count { IfOk result (λ l. l.count ≡ suc (greatest l.mesh.face)) }
{
    let found = find_faces(alloc, &mesh, joins)?;
    let mut mesh = mesh;
    mesh.set_faces(&found.faces);
    Ok(Labelled {
        mesh,
        count: found.count,
    })
}

// The face of each half-edge, and how many faces there are.
#[derive(Drop)]
struct Found {
    faces: Vec<FaceId>,
    count: u32,
}

fn find_faces(alloc: Global, mesh: &Mesh, joins: &Joins) -> Result<Found, Memory>
    requires joins { (cells : List Gap) × AreJoins (size mesh.now) cells joins.now }
    ensures faces { IfOk result (λ f. (cells : List Gap)
        → AreJoins (size mesh.now) cells joins.now → AreFaces mesh.now cells f.faces.items) }
    ensures count { IfOk result (λ f. f.count ≡ suc (greatest f.faces.items)) }
    ensures agree { IfOk result (λ f. AgreesAlong mesh.now.next f.faces.items) }
{
    let halves = halves_of(mesh);
    let graph = Graph::new(mesh, joins);
    let mut search = Search::new(alloc, halves)?;
    reach_border(&graph, &mut search);
    spread(&graph, &mut search, FaceId(0));
    let count = number_faces(&graph, halves, &mut search);
    Ok(Found {
        faces: search.faces,
        count,
    })
}

// Gives face 0 to the half-edges that were beside the border.
fn reach_border(graph: &Graph, search: &mut Search)
    requires graph { IsGraph graph.now }
    requires searched { HasSearched graph.now.mesh.now (cells_of graph.now.joins.now) search.old }
    requires begun { search.old.passed ≡ 0 }
    requires waiting { IsWaiting search.old 0 }
    ensures searched { HasSearched graph.now.mesh.now (cells_of graph.now.joins.now) search.new }
    ensures passed { search.new.passed ≡ 0 }
    ensures waiting { IsWaiting search.new 0 }
    ensures border { (h : ℕ) → AtBorder (cells_of graph.now.joins.now) h
        → slice_index search.new.faces.items h ≡ 0 }
{
    for half in graph.joins.border() {
        search.reach(*half, FaceId(0));
    }
}

// Gives the half-edges without face theirs, and answers how many faces there are.
fn number_faces(graph: &Graph, halves: usize, search: &mut Search) -> u32
    requires graph { IsGraph graph.now }
    requires halves { halves ≡ size graph.now.mesh.now }
    requires begun { IsNumberedTo graph.now.mesh.now (cells_of graph.now.joins.now) 0 1
        search.old }
    ensures { IsNumberedTo graph.now.mesh.now (cells_of graph.now.joins.now) halves result
        search.new }
{
    let mut count = 1;
    for h in 0..halves {
        count = number_next(graph, search, h, count);
    }
    count
}

// Gives the half-edge, where it has no face, and all that are joined with it the next number.
fn number_next(graph: &Graph, search: &mut Search, h: usize, count: u32) -> u32
    requires graph { IsGraph graph.now }
    requires within { h < size graph.now.mesh.now }
    requires begun { IsNumberedTo graph.now.mesh.now (cells_of graph.now.joins.now) h count
        search.old }
    ensures { IsNumberedTo graph.now.mesh.now (cells_of graph.now.joins.now) (h + 1) result
        search.new }
{
    if search.faces[h] != UNSET {
        return count;
    }
    search.reach(HalfEdgeId(h as u32), FaceId(count));
    spread(graph, search, FaceId(count));
    count + 1
}
