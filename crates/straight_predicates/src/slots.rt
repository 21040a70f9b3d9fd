// The ends of edges, and the events of a timetable.
use plane::Point;

/// One end of an edge.
#[derive(Clone, Copy)]
pub struct End {
    pub at: Point,
    pub edge: u32,
    pub starts: bool,
}

/// An event, with the places of its edges among all numbers: those that end there from `from` up
/// to `middle`, and those that start there from `middle` up to `upto`.
#[derive(Clone, Copy)]
pub struct Slot {
    pub at: Point,
    pub from: u32,
    pub middle: u32,
    pub upto: u32,
}
