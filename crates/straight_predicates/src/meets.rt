// The three ways in which two edges meet.

/// How two edges meet.
#[derive(Clone, Copy, Debug, PartialEq, Eq)]
pub enum Meet {
    /// They share no place.
    Apart,
    /// They share one end and nothing else.
    CommonEnd,
    /// They share a place that is no common end.
    Bad,
}
