// Pairs of curves.

/// Two curves of a drawing by their numbers, the first not greater than the second. They are one
/// where a half arc has no tube.
#[derive(Clone, Copy, Debug, PartialEq, Eq)]
pub struct LevelBreak {
    pub first: u32,
    pub second: u32,
}
