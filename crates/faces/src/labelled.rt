// A mesh with faces.
use super::joins::Joins;
use half_edges::Mesh;

/// A mesh whose half-edges have their faces, and the number of faces, face 0 included.
#[derive(Drop)]
pub struct Labelled {
    pub mesh: Mesh,
    pub count: u32,
}

/// Such a mesh, and what joins its half-edges.
#[derive(Drop)]
pub struct JoinedMesh {
    pub labelled: Labelled,
    pub joins: Joins,
}
