// The sides of a circle.

/// Where a place lies for a circle.
#[derive(Clone, Copy, Debug, PartialEq, Eq)]
pub enum Side {
    Inside,
    On,
    Outside,
}
