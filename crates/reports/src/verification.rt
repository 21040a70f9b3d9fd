// What filed certificates prove.

/// What a text of certificates proves of the areas of a layout.
#[derive(Drop)]
pub enum Verification {
    /// Each certificate proves the drawing of its area. Their levels, in order.
    Proved(Vec<u8>),
    /// The first rule that is broken, by the numbers of the certificate format, with the area's
    /// number from 0 and the place: of rule 0 a line of the text, counted from 1, of rule 1 the
    /// area, of the others what the format says.
    NotProved { area: u32, rule: u8, place: u32 },
}
