// Products and sums of whole numbers in 128 bits.
ghost use Rattle.std.specs.Prelude.{◌≡◌, ◌+ℤ◌, ◌-ℤ◌, ◌*ℤ◌, ◌^◌};
ghost use Rattle.plane.specs.Numbers.{IsNear, IsWithin};
ghost use Rattle.arc_predicates.specs.Circles.{IsPart};

/// a - b, below 2^41
pub fn difference(a: i64, b: i64) -> i128
    requires { IsNear (2 ^ 41) b a }
    ensures value { result ≡ a -ℤ b }
    ensures bound { IsWithin (2 ^ 41) result }
{
    i128::from(a) - i128::from(b)
}

/// a d - b c, for products below 2^124
pub fn determinant(a: i128, b: i128, c: i128, d: i128) -> i128
    requires first { IsWithin (2 ^ 124) (a *ℤ d) }
    requires second { IsWithin (2 ^ 124) (b *ℤ c) }
    ensures { result ≡ (a *ℤ d) -ℤ (b *ℤ c) }
{
    let ad = product(a, d);
    let bc = product(b, c);
    ad - bc
}

/// a c + b d, for products below 2^124
pub fn dot(a: i128, b: i128, c: i128, d: i128) -> i128
    requires first { IsWithin (2 ^ 124) (a *ℤ c) }
    requires second { IsWithin (2 ^ 124) (b *ℤ d) }
    ensures { result ≡ (a *ℤ c) +ℤ (b *ℤ d) }
{
    let ac = product(a, c);
    let bd = product(b, d);
    ac + bd
}

fn product(a: i128, b: i128) -> i128
    requires { IsWithin (2 ^ 124) (a *ℤ b) }
    ensures value { result ≡ a *ℤ b }
    ensures bound { IsWithin (2 ^ 124) result }
{
    a * b
}

/// x - s n, below 2^45
pub fn offset(x: i128, s: i64, n: i128) -> i128
    requires part { IsPart n }
    requires close { IsWithin (2 ^ 45) (x -ℤ (s *ℤ n)) }
    ensures { result ≡ x -ℤ (s *ℤ n) }
{
    let start = product(i128::from(s), n);
    x - start
}
