// Short numbers without a fault, read in one pass.
ghost use Rattle.std.specs.Prelude.{◌≡◌, ◌≤◌, ◌<◌, ◌+◌, ◌*◌, ◌^◌, Ok, IfSome, length};
ghost use Rattle.decimals.specs.Scaled.{unsigned_of};
ghost use Rattle.decimals.specs.PlainNumbers.{IsPlain, IsFrontNumber};

/// The magnitude of what stands after the sign: of at most 15 digits and points, of which at most
/// `scale` are decimals. None of anything else, of which it says nothing.
pub fn read_plain(unsigned: &[u8], scale: u8) -> Option<u64>
    ensures reading { IfSome result (λ magnitude. unsigned_of scale unsigned.now ≡ Ok magnitude) }
    ensures bound { IfSome result (λ magnitude. magnitude < 10 ^ 18) }
{
    if unsigned.len() > 15 || scale > 3 {
        return None;
    }
    let (whole, count) = front_number(0, unsigned);
    if count == 0 {
        return None;
    }
    if count == unsigned.len() {
        return Some(with_zeros(whole, scale));
    }
    if unsigned[count] != b'.' {
        return None;
    }
    with_decimals(whole, &unsigned[count + 1..], scale)
}

// The magnitude of whole digits that write this number and of one to `scale` decimals.
fn with_decimals(whole: u64, decimals: &[u8], scale: u8) -> Option<u64>
    requires whole { whole < 10 ^ 15 }
    requires scale { scale ≤ 3 }
    ensures magnitude { IfSome result (λ magnitude. IsPlain scale whole decimals.now magnitude) }
    ensures bound { IfSome result (λ magnitude. magnitude < 10 ^ 18) }
{
    if decimals.is_empty() || decimals.len() > usize::from(scale) {
        return None;
    }
    let (number, count) = front_number(whole, decimals);
    if count < decimals.len() {
        return None;
    }
    Some(with_zeros(number, scale - count as u8))
}

// The number that the digits of `from` and then those at the front write, and how many these are.
fn front_number(from: u64, bytes: &[u8]) -> (u64, usize)
    requires { (from + 1) * 10 ^ length bytes.now ≤ 10 ^ 18 }
    ensures within { result.1 ≤ length bytes.now }
    ensures front { IsFrontNumber from bytes.now result.1 result.0 }
{
    let mut number = from;
    for (i, byte) in bytes.iter().enumerate() {
        if !byte.is_ascii_digit() {
            return (number, i);
        }
        number = number * 10 + u64::from(*byte - b'0');
    }
    (number, bytes.len())
}

// The number with so many zeros behind it.
fn with_zeros(number: u64, zeros: u8) -> u64
    requires zeros { zeros ≤ 3 }
    requires bound { number * 10 ^ zeros < 10 ^ 18 }
    ensures value { result ≡ number * 10 ^ zeros }
    ensures bound { result < 10 ^ 18 }
{
    match zeros {
        0 => number,
        1 => number * 10,
        2 => number * 100,
        _ => number * 1000,
    }
}
