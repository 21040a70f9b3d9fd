// How large an area may be.

/// The greatest number of vertices of an area's lines, and of rows of its main table.
pub const AREA_LIMIT: usize = 16_000_000;
