// Directions to the right or straight up.
ghost use Rattle.std.specs.Prelude.{◌^◌};
ghost use Rattle.plane.specs.Numbers.{IsWithin};
ghost use Rattle.straight_predicates.specs.Rightward.{IsRightward};

/// A direction to the right or straight up, of less than 2^41 units in each coordinate. Such
/// directions have one strict order by slope; those of all ways round have none.
#[derive(Clone, Copy, Debug, PartialEq, Eq)]
pub struct Direction {
    pub x: i64,
    pub y: i64,
    pub ghost rightward: { IsRightward x y },
    pub ghost near_x: { IsWithin (2 ^ 41) x },
    pub ghost near_y: { IsWithin (2 ^ 41) y },
}
