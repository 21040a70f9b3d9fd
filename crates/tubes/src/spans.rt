// Two neighbours among the points of a tube.
ghost use Rattle.std.specs.Prelude.{◌≡◌, ◌<◌, ◌^◌, pos};
ghost use Rattle.plane.specs.Rule.Turns.{AreNear};
ghost use Rattle.tubes.specs.HalfArcTubes.{whole_distance};

use plane::Point;

/// Two points that differ, by less than 2^28 in each coordinate, and their distance rounded down.
#[derive(Clone, Copy)]
pub struct Span {
    pub p: Point,
    pub q: Point,
    pub length: i64,
    pub ghost near: { AreNear (2 ^ 28) p q },
    pub ghost distance: { length ≡ pos (whole_distance p q) },
    pub ghost some: { 0 < whole_distance p q },
}
