// The three kinds of line.

/// A line, the boundary of a surface, or that of an area.
#[derive(Clone, Copy)]
pub enum Shape {
    Polyline,
    Surface,
    Area,
}
