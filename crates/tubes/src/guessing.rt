// Guesses of counts. No answer rests on them: a count is tested, and a bad guess costs more tests.
ghost use Rattle.std.specs.Prelude.{◌<◌, ◌^◌};

use arc_predicates::Circle;

// Circles that are wider are as good as straight between two points of a tube.
const FLAT: u128 = 1_152_921_504_606_846_976;

// Guesses stay below the greatest count.
const MOST: u64 = 33_554_432;

// The height of an arc is found to a unit or two in so many steps.
const RISES: u32 = 6;

/// About the diameter of the circle: its centre is (a / 2 d, b / 2 d) from its first point. Of wide
/// circles it is right to 30 bits.
pub fn diameter(circle: &Circle) -> u64 {
    let d = circle.d.unsigned_abs();
    let x = (circle.a.unsigned_abs() / d).min(FLAT) as u64;
    let y = (circle.b.unsigned_abs() / d).min(FLAT) as u64;
    let shift = x.max(y).max(1).ilog2().saturating_sub(30);
    hypotenuse(x >> shift, y >> shift) << shift
}

/// The root of x² + y² or one more, where the squares fit: by three of Newton's steps from above,
/// from at most an eighth too much.
pub fn hypotenuse(x: u64, y: u64) -> u64 {
    let square = x.saturating_mul(x).saturating_add(y.saturating_mul(y));
    let mut root = x.max(y).saturating_add(x.min(y) / 2);
    for _ in 0..3u32 {
        root = root.saturating_add(square / root.max(1)) / 2;
    }
    root
}

/// An estimate of the count of a span less 4, at least 0. The height h of the circle over a chord
/// of the length l has h (diameter - h) = l² / 4.
pub fn guess(diameter: u64, length: u64) -> u32
    requires { length < 2 ^ 29 }
    ensures { result < 2 ^ 26 }
{
    let square = length * length / 4;
    let flat = square / diameter.max(1);
    let height = if flat.saturating_mul(flat) < diameter {
        flat
    } else {
        height(diameter, square, flat)
    };
    height.saturating_sub(1).min(MOST) as u32
}

// By Newton's steps from below, while they rise.
fn height(diameter: u64, square: u64, flat: u64) -> u64 {
    let mut height = flat;
    for _ in 0..RISES {
        let rest = square.saturating_sub(height.saturating_mul(height));
        let next = rest / diameter.saturating_sub(height.saturating_mul(2)).max(1);
        if next <= height {
            break;
        }
        height = next;
    }
    height
}
