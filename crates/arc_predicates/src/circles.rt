// The circle through three points, by whole numbers.
ghost use Rattle.std.specs.Prelude.{◌≡◌};
ghost use Rattle.plane.specs.Rule.HalfArcs.{HasCircle, bend, circle_x, circle_y};

use plane::Point;

/// The circle through three points: `s` stands first, and the numbers are seen from there. Its
/// centre is (a / 2 d, b / 2 d) from `s`. They are always those of the three points, which are not
/// collinear and differ by less than 2^26 in each coordinate.
#[derive(Clone, Copy, Debug, PartialEq, Eq)]
pub struct Circle {
    pub s: Point,
    pub m: Point,
    pub e: Point,
    pub d: i128,
    pub a: i128,
    pub b: i128,
    pub ghost has: { HasCircle (record { from = s; to = m; third = e }) },
    pub ghost turn: { d ≡ bend (record { from = s; to = m; third = e }) },
    pub ghost centre_x: { a ≡ circle_x (record { from = s; to = m; third = e }) },
    pub ghost centre_y: { b ≡ circle_y (record { from = s; to = m; third = e }) },
}
