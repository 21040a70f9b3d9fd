// What the test of one point says of others, where the points of the span are in the disk.
ghost use Rattle.std.specs.Prelude.{ℕ, ◌<◌, ◌≤◌, ◌^◌};
ghost use Rattle.tubes.specs.Counting.{Follows};

/// A count is below this.
pub const END: u32 = 134_217_728;

/// A number whose point is inside, and one whose point is not; `END` where none is known.
#[derive(Clone, Copy)]
pub struct Bounds {
    pub low: u32,
    pub high: u32,
}

/// What is known of a span without a further test: all from 4 to `inside_to` are inside, and all
/// from `outside_from` on are not.
#[derive(Clone, Copy)]
pub struct Window {
    pub bounds: Bounds,
    pub inside_to: u32,
    pub outside_from: u32,
}

/// All from 4 to the answer are inside where `low` is.
pub fn inside_to(length: u64, low: u32) -> u32
    requires length { length < 2 ^ 29 }
    requires low { low < 2 ^ 27 }
    ensures { (j : ℕ) → 4 ≤ j → j ≤ result → Follows length j low }
{
    if 6 * u64::from(low) <= length + 3 {
        low.saturating_sub(2)
    } else if 2 * u64::from(low) <= length + 1 {
        low.saturating_sub(3)
    } else {
        0
    }
}

/// None from the answer on is inside where `high` is not.
pub fn outside_from(length: u64, high: u32) -> u32
    requires length { length < 2 ^ 29 }
    requires least { 4 ≤ high }
    requires high { high ≤ 2 ^ 27 }
    ensures { (i : ℕ) → result ≤ i → i < 2 ^ 27 → Follows length high i }
{
    let step = u64::from(high);
    if 6 * step + 9 <= length {
        high + 2
    } else if 2 * step + 5 <= length {
        high + 3
    } else if 4 <= length {
        4 * high + 5
    } else {
        END
    }
}

/// How many bits the numbers below `end` have, and no more than those that a count can have.
pub fn width(end: u32) -> u32
    ensures most { result ≤ 27 }
    ensures end { (i : ℕ) → 2 ^ result ≤ i → i < 2 ^ 27 → end ≤ i }
{
    (end.max(1).ilog2() + 1).min(27)
}
