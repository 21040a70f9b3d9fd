// The sides of curves, and the half-edges on the sides of straights.
ghost use Rattle.std.specs.Prelude.{◌≡◌, ℕ, ◌+◌, ◌*◌, ◌^◌, ◌<◌};
ghost use Rattle.plane.specs.Forms.Segments.{IsEdgeOf};
ghost use Rattle.plane.specs.Forms.Vectors.{Before};
ghost use Rattle.plane.specs.declared.kinds.Edge.{Edge};
ghost use Rattle.area_search.specs.Settled.Sides.{IsOnSide};

use half_edges::HalfEdgeId;
use plane::Curve;
use straight_predicates::before;

/// A side of a curve, as seen from `from` to `to`.
#[derive(Clone, Copy, Debug, PartialEq, Eq)]
pub(crate) struct Side {
    pub curve: u32,
    pub left: bool,
}

/// The half-edge on the named side of a straight whose edge has this number.
pub(crate) fn half_on(curve: &Curve, number: u32, left: bool) -> HalfEdgeId
    requires few { number < 2 ^ 31 }
    requires distinct { curve.now.from ≡ curve.now.to → ⊥ }
    ensures side { (e : Edge) → Before e.low e.high → IsEdgeOf e curve.now
        → IsOnSide e curve.now number left result }
    ensures only { (e : Edge) → Before e.low e.high → IsEdgeOf e curve.now → (h : ℕ)
        → IsOnSide e curve.now number left h → h ≡ result }
    ensures known { result < 2 * (number + 1) }
{
    if before(curve.from, curve.to) == left {
        HalfEdgeId::over(number)
    } else {
        HalfEdgeId::under(number)
    }
}
