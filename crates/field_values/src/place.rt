// A place of the plane.
ghost use Rattle.field_values.specs.Sizes.{IsShort};

/// A place of the plane, in whole units of at most 18 digits.
#[derive(Clone, Copy)]
pub struct Place {
    pub x: i64,
    pub y: i64,
    ghost x_short: { IsShort x },
    ghost y_short: { IsShort y },
}
