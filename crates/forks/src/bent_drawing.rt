// A drawing whose forks are bent.
use plane::Drawing;

/// What becomes of a drawing when its forks are bent.
#[derive(Drop)]
pub struct Bent {
    pub drawing: Drawing,
    /// For each of its curves the number of the curve that it is, or of which it is a part.
    pub origin: Vec<u32>,
}
