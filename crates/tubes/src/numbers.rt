// Differences, sums of products and means of whole numbers in 64 bits.
ghost use Rattle.std.specs.Prelude.{◌≡◌, ◌<◌, ◌^◌, ◌+ℤ◌, ◌-ℤ◌, ◌*ℤ◌, ◌<ℤ◌, pos, unsigned_abs};
ghost use Rattle.plane.specs.Numbers.{IsNear, IsWithin};
ghost use Rattle.tubes.specs.HalfArcTubes.{moved, root};

// The square of the number after it has 64 bits.
const MOST: u64 = 4_294_967_294;

/// a - b, below 2^29
pub fn difference(a: i64, b: i64) -> i64
    requires { IsNear (2 ^ 29) b a }
    ensures value { result ≡ a -ℤ b }
    ensures bound { IsWithin (2 ^ 29) result }
{
    a - b
}

/// a c + b d, for numbers below 2^30
pub fn dot(a: i64, b: i64, c: i64, d: i64) -> i64
    requires a { IsWithin (2 ^ 30) a }
    requires b { IsWithin (2 ^ 30) b }
    requires c { IsWithin (2 ^ 30) c }
    requires d { IsWithin (2 ^ 30) d }
    ensures value { result ≡ (a *ℤ c) +ℤ (b *ℤ d) }
    ensures bound { IsWithin (2 ^ 61) result }
{
    let ac = product(a, c);
    let bd = product(b, d);
    ac + bd
}

fn product(a: i64, b: i64) -> i64
    requires a { IsWithin (2 ^ 30) a }
    requires b { IsWithin (2 ^ 30) b }
    ensures value { result ≡ a *ℤ b }
    ensures bound { IsWithin (2 ^ 60) result }
{
    a * b
}

/// `(start + end) / 2 + n * turned / length`, rounded down once. The dividend is below 2^61.
pub fn moved(start: i64, end: i64, turned: i64, length: i64, n: i64) -> i64
    requires start { IsWithin (2 ^ 61) start }
    requires end { IsNear (2 ^ 28) start end }
    requires turned { IsWithin (2 ^ 28) turned }
    requires some { pos 0 <ℤ length }
    requires length { IsWithin (2 ^ 29) length }
    requires n { IsWithin (2 ^ 29) n }
    ensures { result ≡ moved (unsigned_abs length) (start +ℤ end) turned n }
{
    let way = difference(end, start);
    let over = dot(way, n + n, length, turned);
    start + over.div_euclid(length + length)
}

/// The whole root of a number, at once where it is the number `near` or the one before.
pub fn root(square: u64, near: u64) -> u64
    ensures value { result ≡ root square }
    ensures bound { result < 2 ^ 32 }
{
    let near = near.min(MOST);
    let root = if square < near * near { near - 1 } else { near };
    if root * root <= square && square < (root + 1) * (root + 1) {
        root
    } else {
        square.isqrt()
    }
}
