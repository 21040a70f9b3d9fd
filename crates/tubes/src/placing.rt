// Spans made from their points, and the points beside their middle.
ghost use Rattle.std.specs.Prelude.{◌≡◌, ◌^◌, ◌-ℤ◌, cond, pos};
ghost use Rattle.plane.specs.Faces.Cells.{is_positive};
ghost use Rattle.plane.specs.Numbers.{IsNear, IsWithin};
ghost use Rattle.plane.specs.Rule.HalfArcs.{bend};
ghost use Rattle.plane.specs.Rule.Turns.{AreNear};
ghost use Rattle.arc_predicates.specs.Circles.{half_arc};
ghost use Rattle.tubes.specs.HalfArcTubes.{beside, whole_distance};
ghost use Rattle.tubes.specs.Making.{HasRoom, IsSpanOf};

use super::guessing::hypotenuse;
use super::numbers::{difference, dot, moved, root};
use super::spans::Span;
use arc_predicates::Circle;
use plane::Point;

/// The span of two points, where they differ.
pub fn span_between(p: Point, q: Point) -> Option<Span>
    requires { AreNear (2 ^ 28) p q }
    ensures { IsSpanOf result p q }
{
    let length = distance(p, q);
    if length == 0 {
        return None;
    }
    Some(Span { p, q, length })
}

// With the coordinates' differences below 2^28 the sum of their squares is below 2^57.
fn distance(p: Point, q: Point) -> i64
    requires { AreNear (2 ^ 28) p q }
    ensures { result ≡ pos (whole_distance p q) }
{
    let x = difference(p.x, q.x);
    let y = difference(p.y, q.y);
    let square = dot(x, y, x, y);
    let near = hypotenuse(x.unsigned_abs(), y.unsigned_abs());
    root(square.unsigned_abs(), near) as i64
}

/// The point n units from the middle of the span, away from the circle's third point.
pub fn beside(circle: &Circle, span: &Span, n: i64) -> Point
    requires room { HasRoom span.now.p }
    requires n { IsWithin (2 ^ 29) n }
    ensures { result ≡ beside (half_arc circle.now) span.now.p span.now.q n }
{
    let right = turned(circle, span.p.y, span.q.y);
    let above = turned(circle, span.q.x, span.p.x);
    Point {
        x: moved(span.p.x, span.q.x, right, span.length, n),
        y: moved(span.p.y, span.q.y, above, span.length, n),
    }
}

// The way from a to b, or back where the circle's three points turn right.
fn turned(circle: &Circle, a: i64, b: i64) -> i64
    requires { IsNear (2 ^ 28) a b }
    ensures value { result
        ≡ cond (is_positive (bend (half_arc circle.now))) (b -ℤ a) (a -ℤ b) }
    ensures bound { IsWithin (2 ^ 28) result }
{
    if circle.d > 0 {
        difference(b, a)
    } else {
        difference(a, b)
    }
}
