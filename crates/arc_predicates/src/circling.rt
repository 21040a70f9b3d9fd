// Circles made from their points.
ghost use Rattle.std.specs.Prelude.{◌≡◌, ◌↔◌, ◌^◌, ◌-ℤ◌, ◌*ℤ◌, IsTrue};
ghost use Rattle.plane.specs.Numbers.{IsWithin};
ghost use Rattle.plane.specs.Rule.Turns.{AreNear};
ghost use Rattle.arc_predicates.specs.Circles.{AreClose, IsCircleOf};

use super::circles::Circle;
use super::numbers::{determinant, difference, dot};
use plane::Point;

// What the points of a circle may differ by in each coordinate: less than this.
const WIDE: i128 = 67_108_864;

/// The circle through three points; `None` exactly where they are collinear or two of them differ
/// by 2^26 or more in a coordinate. It takes no memory.
pub fn circle(s: Point, m: Point, e: Point) -> Option<Circle>
    requires first { AreClose s m }
    requires second { AreClose s e }
    requires third { AreClose m e }
    ensures { IsCircleOf result s m e }
{
    if is_near(s, m) && is_near(s, e) && is_near(m, e) {
        near_circle(s, m, e)
    } else {
        None
    }
}

fn is_near(p: Point, q: Point) -> bool
    requires { AreClose p q }
    ensures { IsTrue result ↔ AreNear (2 ^ 26) p q }
{
    let x = difference(q.x, p.x);
    let y = difference(q.y, p.y);
    is_small(x) && is_small(y)
}

fn is_small(z: i128) -> bool
    ensures { IsTrue result ↔ IsWithin (2 ^ 26) z }
{
    -WIDE < z && z < WIDE
}

// With the other two points seen from s below 2^26, d is below 2^53 and a and b are below 2^80.
fn near_circle(s: Point, m: Point, e: Point) -> Option<Circle>
    requires first { AreNear (2 ^ 26) s m }
    requires second { AreNear (2 ^ 26) s e }
    requires third { AreNear (2 ^ 26) m e }
    ensures { IsCircleOf result s m e }
{
    let mx = difference(m.x, s.x);
    let my = difference(m.y, s.y);
    let ex = difference(e.x, s.x);
    let ey = difference(e.y, s.y);
    let d = determinant(mx, my, ex, ey);
    if d == 0 {
        return None;
    }
    let mm = dot(mx, my, mx, my);
    let ee = dot(ex, ey, ex, ey);
    let a = determinant(mm, ee, my, ey);
    let b = determinant(mx, ex, mm, ee);
    Some(Circle { s, m, e, d, a, b })
}
