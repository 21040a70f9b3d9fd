// The triangles of a part of a tube.
ghost use Rattle.std.specs.Prelude.{◌↔◌, ◌<◌, IsTrue, length};
ghost use Rattle.plane.specs.Forms.Vectors.{point};
ghost use Rattle.tubes.specs.Holding.{AreTurnable};
ghost use Rattle.level_breaks.specs.Parts.{IsInGapBefore, IsInPart, IsInTriangles};

use plane::Point;
use tubes::{Tube, is_in_triangle};

/// Whether the point is in the bay of the number, or in the gap before it.
pub fn is_in_part(tube: &Tube, number: usize, at: Point) -> bool
    requires { AreTurnable tube.now.inner.items tube.now.outer.items at }
    ensures { IsTrue result ↔ IsInPart tube.now (point at) number }
{
    number < tube.outer.len() && is_in_triangles(&tube.inner, &tube.outer, number, at)
}

fn is_in_triangles(inner: &[Point], outer: &[Point], number: usize, at: Point) -> bool
    requires turnable { AreTurnable inner.now outer.now at }
    requires there { number < length outer.now }
    ensures { IsTrue result ↔ IsInTriangles inner.now outer.now (point at) number }
{
    is_in_triangle(inner[number], inner[number + 1], outer[number], at)
        || is_in_gap(inner, outer, number, at)
}

fn is_in_gap(inner: &[Point], outer: &[Point], number: usize, at: Point) -> bool
    requires turnable { AreTurnable inner.now outer.now at }
    requires there { number < length outer.now }
    ensures { IsTrue result ↔ IsInGapBefore inner.now outer.now (point at) number }
{
    number > 0 && is_in_triangle(inner[number], outer[number - 1], outer[number], at)
}
