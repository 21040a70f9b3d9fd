// Places at sixteenths of a straight.

/// Two neighbours among a straight's seventeen places at sixteenths, counted from its `from`.
#[derive(Clone, Copy, Debug, PartialEq, Eq)]
pub struct Trial {
    /// The number of the first of the two places, from 0 to 15.
    pub sixteenth: u8,
}
