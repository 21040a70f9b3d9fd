// The faces of a drawing, by numbers.

/// The faces on both sides of a curve, as seen from its first end to its second one.
#[derive(Clone, Copy, Debug, PartialEq, Eq)]
pub struct CurveFaces {
    pub left: u32,
    pub right: u32,
}

/// Where an object's point lies.
#[derive(Clone, Copy, Debug, PartialEq, Eq)]
pub enum PointPlace {
    /// On this curve, and on none of a lesser number; of those that are not left out.
    OnCurve(u32),
    /// On no curve that is not left out, in this face.
    InFace(u32),
}

/// The faces of a drawing without the curves that are left out, numbered from 0, which is the outer
/// one.
#[derive(Drop)]
pub struct DrawingFaces {
    /// Of each face, whether a curve that is left out enters it.
    pub open: Vec<bool>,
    /// Of each object's point where it lies.
    pub points: Vec<PointPlace>,
    /// Of each curve the faces on its sides; None where it is left out.
    pub curves: Vec<Option<CurveFaces>>,
    /// Of each side of a curve, by its number, the number of the side that is said to follow it
    /// on the way round its face. This type does not ask that it does: `regions` tests what it
    /// takes from it, and gives rings where these sides go round the faces.
    pub next: Vec<u32>,
}
