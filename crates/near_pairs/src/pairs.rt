// Pairs of numbers.

/// Two numbers of a list, the lesser first.
#[derive(Clone, Copy, Debug, PartialEq, Eq)]
pub struct NearPair {
    pub first: u32,
    pub second: u32,
}
