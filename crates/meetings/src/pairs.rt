// Pairs of curves.

/// Two curves of a drawing by their numbers, the lesser first.
#[derive(Clone, Copy, Debug, PartialEq, Eq)]
pub struct BadPair {
    pub first: u32,
    pub second: u32,
}
