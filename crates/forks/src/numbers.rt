// Numbers of a way in 128 bits.
ghost use Rattle.std.specs.Prelude.{◌≡◌, ◌↔◌, ◌⊎◌, ◌^◌, ◌*◌, ◌+◌, ◌≤◌, IsTrue, cond, pos};
ghost use Rattle.std.specs.Prelude.{unsigned_abs, ◌+ℤ◌, ◌-ℤ◌, ◌*ℤ◌, ◌<ℤ◌, ◌≤ℤ◌};
ghost use Rattle.std.specs.Int.{int_div_euclid};
ghost use Rattle.plane.specs.Numbers.{IsNear, IsWithin};
ghost use Rattle.plane.specs.Forms.Bends.{IsRoundedDown};
ghost use Rattle.plane.specs.Rule.Overlaps.{IsTolerance};
ghost use Rattle.forks.specs.Zones.{signed};

/// a - b, below 2^40
pub fn difference(a: i64, b: i64) -> i128
    requires { IsNear (2 ^ 40) b a }
    ensures value { result ≡ a -ℤ b }
    ensures bound { IsWithin (2 ^ 40) result }
{
    i128::from(a) - i128::from(b)
}

/// The number with the sign of another one.
pub fn signed(d: i128, z: i128) -> i128
    requires { IsWithin (2 ^ 122) z }
    ensures value { result ≡ signed d z }
    ensures bound { IsWithin (2 ^ 122) result }
{
    if d > 0 { z } else { -z }
}

/// Whether the overlap is at least 8 units and the root of a way at least 32 times as much.
pub fn is_long(root: i128, tolerance: i64) -> bool
    requires { IsTolerance tolerance }
    ensures { IsTrue result ↔ ((pos 8 ≤ℤ tolerance) × ((pos 32 *ℤ tolerance) ≤ℤ root)) }
{
    tolerance >= 8 && 32 * i128::from(tolerance) <= root
}

/// Whether the number is above 0.
pub fn is_above(z: i128) -> bool
    ensures { IsTrue result ↔ (pos 0 <ℤ z) }
{
    z > 0
}

/// The numbers of a way, turned by a quarter to the left or to the right.
pub fn aside(x: i128, y: i128, left: bool) -> (i128, i128)
    requires x { IsWithin (2 ^ 40) x }
    requires y { IsWithin (2 ^ 40) y }
    ensures first { result.0 ≡ cond left (pos 0 -ℤ y) y }
    ensures second { result.1 ≡ cond left x (pos 0 -ℤ x) }
    ensures first_within { IsWithin (2 ^ 40) result.0 }
    ensures second_within { IsWithin (2 ^ 40) result.1 }
{
    if left { (-y, x) } else { (y, -x) }
}

/// Whether the one number is at most a sixteenth of the other, both without their signs.
pub fn is_sixteenth(toward: i128, across: i128) -> bool
    requires toward { IsWithin (2 ^ 122) toward }
    requires across { IsWithin (2 ^ 122) across }
    ensures { IsTrue result ↔ ((16 * unsigned_abs toward) ≤ unsigned_abs across) }
{
    16 * toward.unsigned_abs() <= across.unsigned_abs()
}

/// Whether the number is not above 0, or its quotient by the other one, rounded down, is below the
/// third.
pub fn is_quotient_below(toward: i128, d: i128, square: i128) -> bool
    requires toward { IsWithin (2 ^ 122) toward }
    requires bent { d ≡ pos 0 → ⊥ }
    requires d { IsWithin (2 ^ 122) d }
    ensures { IsTrue result ↔ ((toward ≤ℤ pos 0) ⊎
        (int_div_euclid toward (pos (unsigned_abs d)) <ℤ square)) }
{
    toward <= 0 || toward.div_euclid(d.abs()) < square
}

/// `start + (8 tolerance along + (tolerance - 2) aside) / root`, rounded down once.
pub fn moved(start: i64, along: i128, aside: i128, root: i128, tolerance: i64) -> i64
    requires start { IsWithin (10 ^ 18) start }
    requires along { IsWithin (2 ^ 40) along }
    requires aside { IsWithin (2 ^ 40) aside }
    requires tolerance { IsTolerance tolerance }
    requires wide { pos 8 ≤ℤ tolerance }
    requires long { (pos 32 *ℤ tolerance) ≤ℤ root }
    ensures { IsRoundedDown root (((pos 8 *ℤ tolerance) *ℤ along)
        +ℤ ((tolerance -ℤ pos 2) *ℤ aside)) (result -ℤ start) }
{
    let ahead = product(8 * i128::from(tolerance), along);
    let beside = product(push(tolerance), aside);
    let step = quotient(ahead + beside, root);
    start + step as i64
}

// How far a bend is pushed aside: two units are left for the roundings.
fn push(tolerance: i64) -> i128
    requires { IsTolerance tolerance }
    ensures value { result ≡ tolerance -ℤ pos 2 }
    ensures bound { IsWithin (2 ^ 24) result }
{
    i128::from(tolerance) - 2
}

// a b, below 2^64
fn product(a: i128, b: i128) -> i128
    requires a { IsWithin (2 ^ 24) a }
    requires b { IsWithin (2 ^ 40) b }
    ensures value { result ≡ a *ℤ b }
    ensures bound { IsWithin (2 ^ 64) result }
{
    a * b
}

// n / root, rounded down: about 2^57 at most
fn quotient(n: i128, root: i128) -> i128
    requires n { IsWithin (2 ^ 65) n }
    requires root { pos 256 ≤ℤ root }
    ensures value { IsRoundedDown root n result }
    ensures bound { IsWithin (2 ^ 57 + 1) result }
{
    n.div_euclid(root)
}
