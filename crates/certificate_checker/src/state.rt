// What the replay keeps from event to event.
use super::live_list::LiveList;
use half_edges::{HalfEdgeId, Mesh};
use plane::Point;

/// The rule that is broken, and its place.
#[derive(Clone, Copy)]
pub struct Broken {
    pub rule: u8,
    pub place: u32,
}

/// An object's point with its number.
#[derive(Clone, Copy)]
pub struct Spot {
    pub at: Point,
    pub number: u32,
}

/// The points by x, then y; the first of them that was not passed yet; and the least number of a
/// point that is not where the certificate places it, or the number of points where there is none.
#[derive(Drop)]
pub struct Placing {
    pub spots: Vec<Spot>,
    pub next: usize,
    pub bad: u32,
}

/// For each half-edge whether it was beside a border, whether it was across a cell from the one
/// that its note names, and whether it bounds a cell in which a point was placed.
#[derive(Drop)]
pub struct Marks {
    pub border: Vec<bool>,
    pub across: Vec<bool>,
    pub point: Vec<bool>,
}

/// The live list, with room for the most edges that are live at a time; the edges that end at an
/// event and the mesh, with room for the edges and half-edges of one event; the marks and the
/// points.
#[derive(Drop)]
pub struct State {
    pub live: LiveList,
    pub ending: Vec<u32>,
    pub mesh: Mesh,
    pub fan: Vec<HalfEdgeId>,
    pub marks: Marks,
    pub placing: Placing,
}
