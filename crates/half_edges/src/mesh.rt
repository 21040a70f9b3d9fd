// The mesh: four lists side by side, with one entry for each half-edge.
ghost use Rattle.std.specs.Prelude.{◌≡◌, ◌≢◌, ℕ, ◌<◌, ◌≤◌, ◌+◌, ◌-◌, ◌/◌, ◌%◌, ◌^◌, ◌++◌, ◌∷◌, []};
ghost use Rattle.std.specs.Prelude.{◌↔◌, length, slice_index, IfOk, OnOk, OnErr, IsTrue, vec_len};
ghost use Rattle.std.specs.Prelude.{vec_capacity};
ghost use Rattle.half_edges.specs.HalfEdges.{size, edge_count, next_of, prev_of, origin_of};
ghost use Rattle.half_edges.specs.HalfEdges.{face_of, twin_of};
ghost use Rattle.half_edges.specs.Meshes.{IsMesh, AgreesAlong, without_edges, with_edge};
ghost use Rattle.half_edges.specs.Meshes.{with_one_face, with_faces};
ghost use Rattle.half_edges.specs.Stars.{IsOnce, IsStar, IsLoose, IsLinked, Links};

use super::ids::{FaceId, HalfEdgeId, VertexId};
use ports::Memory;
use std::alloc::Global;
use std::marker::Model;

/// Vertices, and edges between them as pairs of half-edges.
#[derive(Drop)]
pub struct Mesh {
    vertices: u32,
    next: Vec<HalfEdgeId>,
    prev: Vec<HalfEdgeId>,
    origin: Vec<VertexId>,

    // The faces, once they are set: each face is 0 before.
    face: Vec<FaceId>,
    faces_set: bool,
}

impl Model for Mesh {
    ghost use Rattle.half_edges.specs.HalfEdges.{HalfEdges};

    ghost Value = { HalfEdges };

    ghost use Rattle.half_edges.specs.Arena.{IsKept, half_edges_of};

    ghost view = { half_edges_of };

    ghost invariant = { IsKept };
}

impl Mesh {
    /// A mesh with the vertices 0 to `vertices` - 1 and no edge.
    pub fn new(alloc: Global, vertices: u32) -> Result<Mesh, Memory>
        ensures { IfOk result (λ mesh. mesh ≡ without_edges vertices) }
    {
        Self::with_capacity(alloc, vertices, 0)
    }

    /// The same, with room for so many edges.
    pub fn with_capacity(alloc: Global, vertices: u32, edges: u32) -> Result<Mesh, Memory>
        ensures { IfOk result (λ mesh. mesh ≡ without_edges vertices) }
    {
        let halves = 2 * edges as usize;
        Ok(Mesh {
            vertices,
            next: Vec::with_capacity(alloc, halves)?,
            prev: Vec::with_capacity(alloc, halves)?,
            origin: Vec::with_capacity(alloc, halves)?,
            face: Vec::with_capacity(alloc, halves)?,
            faces_set: false,
        })
    }

    /// Adds an edge and answers its half-edge that begins at `high`, whose number is even. Each
    /// half follows the other, and every face becomes 0. After `Memory` the mesh is unchanged.
    pub fn add_edge(&mut self, low: VertexId, high: VertexId) -> Result<HalfEdgeId, Memory>
        requires low { low < self.old.vertices }
        requires high { high < self.old.vertices }
        requires apart { low ≢ high }
        requires room { edge_count self.old < 2 ^ 31 - 1 }
        ensures number { IfOk result (λ h. h ≡ size self.old) }
        ensures added { OnOk result (self.new ≡ with_edge self.old low high) }
        ensures unchanged { OnErr result (self.new ≡ self.old) }
    {
        self.next.reserve(2)?;
        self.prev.reserve(2)?;
        self.origin.reserve(2)?;
        let more = self.next.len() + 2 - self.face.len();
        self.face.reserve(more)?;
        let down = HalfEdgeId(self.next.len() as u32);
        let up = HalfEdgeId(down.0 + 1);
        Self::push_both(&mut self.next, up, down);
        Self::push_both(&mut self.prev, up, down);
        Self::push_both(&mut self.origin, high, low);
        self.faces_set = false;
        Ok(down)
    }

    // Appends two entries, for which there is room.
    fn push_both<T>(entries: &mut Vec<T>, first: T, second: T)
        requires { vec_len entries.old + 2 ≤ vec_capacity entries.old }
        ensures { entries.new.items ≡ entries.old.items ++ first ∷ second ∷ [] }
    {
        entries.push_reserved(first);
        entries.push_reserved(second);
    }

    // Gives each half-edge face 0.
    fn forget_faces(&mut self)
        ensures { self.new ≡ with_one_face self.old }
    {
        self.faces_set = false;
    }

    /// Links all half-edges that begin at one vertex, in the order of the list, which is not
    /// empty and may begin anywhere. Of each b and the a before it in the list, also of the first
    /// and the last, `next(twin(b))` becomes a and `prev(a)` becomes `twin(b)`. Every face
    /// becomes 0, and all else stays.
    pub fn link(&mut self, around: &[HalfEdgeId])
        requires star { IsStar self.old around.now }
        requires loose { IsLoose self.old around.now }
        ensures { IsLinked self.old self.new around.now }
    {
        self.forget_faces();
        Self::join(&mut self.next, &mut self.prev, around);
    }

    // Writes the entries of `next` and `prev` for each neighbouring pair of the list.
    fn join(next: &mut [HalfEdgeId], prev: &mut [HalfEdgeId], around: &[HalfEdgeId])
        requires filled { 0 < length around.now }
        requires pairs { length next.old % 2 ≡ 0 }
        requires lengths { length prev.old ≡ length next.old }
        requires within { (k : ℕ) → k < length around.now
            → slice_index around.now k < length next.old }
        requires once { IsOnce around.now }
        ensures { Links around.now next.old prev.old next.new prev.new }
    {
        let mut before = around[around.len() - 1];
        for h in around {
            let back = h.twin();
            next[back.0 as usize] = before;
            prev[before.0 as usize] = back;
            before = *h;
        }
    }

    /// Whether each half-edge and its `next` have one face in the list, which has a face for each
    /// half-edge.
    pub fn faces_agree(&self, faces: &[FaceId]) -> bool
        requires { length faces.now ≡ size self.now }
        ensures { IsTrue result ↔ AgreesAlong self.now.next faces.now }
    {
        for (h, next) in self.next.iter().enumerate() {
            if faces[next.0 as usize] != faces[h] {
                return false;
            }
        }
        true
    }

    /// Gives each half-edge the face that the list has for it. All else stays.
    pub fn set_faces(&mut self, faces: &[FaceId])
        requires each { length faces.now ≡ size self.old }
        requires agree { AgreesAlong self.old.next faces.now }
        ensures { self.new ≡ with_faces self.old faces.now }
    {
        Self::write(&mut self.face, faces);
        self.faces_set = true;
    }

    // Writes the list in place of the entries, which have room for it.
    fn write(entries: &mut Vec<FaceId>, list: &[FaceId])
        requires { length list.now ≤ vec_capacity entries.old }
        ensures items { entries.new.items ≡ list.now }
        ensures room { vec_capacity entries.new ≡ vec_capacity entries.old }
    {
        entries.clear();
        for entry in list {
            entries.push_reserved(*entry);
        }
    }

    /// The other half of the same edge.
    pub fn twin(&self, h: HalfEdgeId) -> HalfEdgeId
        requires { h < size self.now }
        ensures { result ≡ twin_of h }
    {
        h.twin()
    }

    /// The half-edge after `h` round its face. It begins where `h` ends.
    pub fn next(&self, h: HalfEdgeId) -> HalfEdgeId
        requires { h < size self.now }
        ensures { result ≡ next_of self.now h }
    {
        self.next[h.0 as usize]
    }

    /// The half-edge before `h` round its face. It ends where `h` begins.
    pub fn prev(&self, h: HalfEdgeId) -> HalfEdgeId
        requires { h < size self.now }
        ensures { result ≡ prev_of self.now h }
    {
        self.prev[h.0 as usize]
    }

    /// The vertex where `h` begins.
    pub fn origin(&self, h: HalfEdgeId) -> VertexId
        requires { h < size self.now }
        ensures { result ≡ origin_of self.now h }
    {
        self.origin[h.0 as usize]
    }

    /// The face on the left of `h`.
    pub fn face(&self, h: HalfEdgeId) -> FaceId
        requires { h < size self.now }
        ensures { result ≡ face_of self.now h }
    {
        if self.faces_set {
            self.face[h.0 as usize]
        } else {
            FaceId(0)
        }
    }

    /// The number of edges; there are twice as many half-edges. The clause `kept` has what holds
    /// of every mesh.
    pub fn edges(&self) -> u32
        ensures count { result ≡ edge_count self.now }
        ensures kept { IsMesh self.now }
    {
        (self.next.len() / 2) as u32
    }
}
