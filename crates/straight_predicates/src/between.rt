// The edge of two points.
ghost use Rattle.std.specs.Prelude.{◌≡◌};
ghost use Rattle.plane.specs.Forms.Vectors.{Before};
ghost use Rattle.straight_predicates.specs.EdgeLists.{HasEnds};

use super::order::before;
use plane::{Edge, Point};

/// The edge with these two ends, its low end first. It takes no memory.
pub fn edge_between(p: Point, q: Point) -> Edge
    requires { p ≡ q → ⊥ }
    ensures sorted { Before result.low result.high }
    ensures ends { HasEnds result p q }
{
    if before(p, q) {
        Edge { low: p, high: q }
    } else {
        Edge { low: q, high: p }
    }
}
