// Where a point lies.

/// Where a point lies in a run over edges.
#[derive(Clone, Copy, Debug, PartialEq, Eq)]
pub enum Place {
    /// On no edge: after the events before the point, above the first `position` edges of the live
    /// list and below the others. `lower` and `upper` are the edges beside that place, None below
    /// all and above all.
    Cell {
        position: u32,
        lower: Option<u32>,
        upper: Option<u32>,
    },
    /// On the edge of that number, and on none of a lesser one.
    OnEdge(u32),
}
