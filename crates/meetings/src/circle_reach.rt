// How far a circle reaches.
ghost use Rattle.std.specs.Prelude.{◌≡◌, ◌⊎◌, ◌<◌, ◌^◌, pos, ◌*ℤ◌, ◌≤ℤ◌};
ghost use Rattle.plane.specs.Forms.Boxes.{sides, size, steps};
ghost use Rattle.plane.specs.Numbers.{IsWithin};
ghost use Rattle.plane.specs.Rule.Curves.{arc};
ghost use Rattle.plane.specs.Rule.HalfArcs.{bend};
ghost use Rattle.plane.specs.Rule.Turns.{AreNear};
ghost use Rattle.arc_predicates.specs.Circles.{half_arc};

use arc_predicates::Circle;
use plane::{Curve, Point};

// As far from a half arc's `from`, in each coordinate, no place has a side for it.
const FAR: u128 = 268_435_456;

/// How far from a half arc's `from`, in each coordinate, a place within its circle may be that has
/// a side for it: the product of the triangle's sides over the turn of its points, and one more, or
/// 2^28 where that is less. The product is below 2^81.
pub fn circle_reach(curve: &Curve, circle: &Circle) -> i64
    requires { half_arc circle.now ≡ arc curve.now }
    ensures bound { IsWithin (2 ^ 41) result }
    ensures reach { (sides (arc curve.now) ≤ℤ (size (bend (arc curve.now)) *ℤ result))
        ⊎ (result ≡ pos (2 ^ 28)) }
{
    plane::arcs::boxes_hold_curves();
    let turn = circle.d.unsigned_abs();
    let far = product_of_sides(curve, circle) / turn + 1;
    if far < FAR { far as i64 } else { FAR as i64 }
}

fn product_of_sides(curve: &Curve, circle: &Circle) -> u128
    requires { half_arc circle.now ≡ arc curve.now }
    ensures value { pos result ≡ sides (arc curve.now) }
    ensures bound { result < 2 ^ 81 }
{
    let chord = steps_between(curve.from, curve.to);
    let first = steps_between(curve.from, curve.third);
    let second = steps_between(curve.to, curve.third);
    chord * first * second
}

fn steps_between(p: Point, q: Point) -> u128
    requires { AreNear (2 ^ 26) p q }
    ensures value { pos result ≡ steps p q }
    ensures bound { result < 2 ^ 27 }
{
    u128::from(q.x.abs_diff(p.x)) + u128::from(q.y.abs_diff(p.y))
}
