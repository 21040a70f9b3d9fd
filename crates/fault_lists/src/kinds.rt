// Faults, by the numbers of curves and of objects' points.
ghost use Rattle.std.specs.Prelude.{◌≡◌};

use plane::Point;
use std::marker::Model;

/// Two curves that meet badly, the lesser number first, and a place at which they meet or near it.
#[derive(Clone, Copy, Debug, PartialEq, Eq)]
pub struct MeetingAt {
    pub first: u32,
    pub second: u32,
    pub at: Point,
}

/// An object's point that lies on a curve, and the least curve on which it lies.
#[derive(Clone, Copy, Debug, PartialEq, Eq)]
pub struct OnAt {
    pub point: u32,
    pub curve: u32,
}

/// Two objects' points in one face, of which the first is the least in it.
#[derive(Clone, Copy, Debug, PartialEq, Eq)]
pub struct PointPair {
    pub first: u32,
    pub second: u32,
}

/// A side of a curve, as seen from its first end to its second one.
#[derive(Clone, Copy, Debug, PartialEq, Eq)]
pub struct SideAt {
    pub curve: u32,
    pub left: bool,
}

/// What is at fault in the closed faces of a drawing, and which faces are open.
#[derive(Drop)]
pub struct FaceFaults {
    /// Points in the outer face, where that is closed.
    pub outside: Vec<u32>,
    /// Each point in a closed bounded face that is not the least one in it, with the least one.
    pub shared: Vec<PointPair>,
    /// Of each closed bounded face without a point its least side: that of the least curve, the
    /// left one before the right one.
    pub empty: Vec<SideAt>,
    /// Curves with one closed face on both sides.
    pub cuts: Vec<u32>,
    /// Whether the outer face is open.
    pub outer_open: bool,
    /// Of each open bounded face its least side.
    pub open: Vec<SideAt>,
    /// Points in open faces.
    pub unjudged: Vec<u32>,
}

/// A closed way along sides of one face, with the face on the left, from its least side on: each
/// side ends where the next one begins, and the last one where the first one begins.
#[derive(Drop)]
pub struct Ring {
    sides: Vec<SideAt>,
}

impl Model for Ring {
    ghost use Rattle.std.specs.Prelude.{List};
    ghost use Rattle.fault_lists.specs.declared.kinds.SideAt.{SideAt as Side};

    ghost Value = { List Side };

    ghost view = { λ ring. ring.sides.items };
}

impl Ring {
    /// The ring of these sides.
    pub(crate) fn new(sides: Vec<SideAt>) -> Ring
        ensures { result ≡ sides.items }
    {
        Ring { sides }
    }

    /// Its sides, in the order in which they are passed.
    pub fn sides(&self) -> &[SideAt]
        ensures { result.now ≡ self.now }
    {
        &self.sides
    }
}

/// A face by one of its sides, and its rings in the order of their least sides, which have each
/// side of the face once; or no ring, where they are not told.
#[derive(Drop)]
pub struct Region {
    pub side: SideAt,
    pub rings: Vec<Ring>,
}

/// All faults of a drawing.
#[derive(Drop)]
pub struct Faults {
    /// All pairs of curves that meet badly, in order.
    pub meetings: Vec<MeetingAt>,
    /// All points on curves, in order.
    pub on: Vec<OnAt>,
    /// Whether all curves are left out, and not those alone that meet badly.
    pub all_out: bool,
    pub faces: FaceFaults,
    /// The regions of the sides that `faces` has in `empty`, with their rings.
    pub empty: Vec<Region>,
    /// Those of the sides that it has in `open`.
    pub open: Vec<Region>,
}
