// Edges, and what each of them stands for.
use plane::{Edge, Point};

/// The corners of a half arc's tube at a level. The inner points go from the half arc's first end
/// to its other end, and over every two of them stands one outer point. The triangles of the tube
/// are those of two neighbours with the outer point over them, and of two outer neighbours with the
/// inner point between them.
#[derive(Drop)]
pub struct Tube {
    pub inner: Vec<Point>,
    pub outer: Vec<Point>,
}

/// Which edges of a curve an edge belongs to.
#[derive(Clone, Copy, Debug, PartialEq, Eq)]
pub enum Part {
    /// The one edge of a straight.
    Straight,
    /// The inner chain of a half arc's tube.
    Inner,
    /// The outer chain of a half arc's tube.
    Outer,
}

/// The curve for which an edge stands.
#[derive(Clone, Copy, Debug, PartialEq, Eq)]
pub struct Owner {
    pub curve: u32,
    pub part: Part,
}

/// The edges of a drawing, and the owner of each.
#[derive(Drop)]
pub struct EdgeList {
    pub edges: Vec<Edge>,
    pub owners: Vec<Owner>,
}

/// Which side of an edge faces the tube of its curve from within: none for the edge of a straight.
#[derive(Clone, Copy, Debug, PartialEq, Eq)]
pub enum Facing {
    Neither,
    Below,
    Above,
}
