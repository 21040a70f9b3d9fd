// The digits of a number.
ghost use Rattle.std.specs.Prelude.{◌≡◌, ◌+◌, ◌-◌, ◌*◌, ◌^◌, ◌<◌, ◌≤◌, IsTrue, pos, count_by};
ghost use Rattle.std.specs.Prelude.{length};
ghost use Rattle.std.specs.Char.{is_ascii_digit};
ghost use Rattle.ili_grammar.specs.Numbers.{read_from, signed, decimals, whole_code, hex_code};
ghost use Rattle.ili_grammar.specs.Numbers.{hex_digit, has, in_range};

/// The number with its sign and without its full stop.
pub fn digits_of(bytes: &[u8]) -> i64
    requires { count_by is_ascii_digit bytes.now ≤ 18 }
    ensures { result ≡ signed bytes.now }
{
    let value = value_of(bytes) as i64;
    if bytes.starts_with(b"-") {
        -value
    } else {
        value
    }
}

// The digits read as one number.
fn value_of(bytes: &[u8]) -> u64
    requires { count_by is_ascii_digit bytes.now ≤ 18 }
    ensures value { result ≡ read_from 0 bytes.now }
    ensures small { result < 10 ^ 18 }
{
    let mut value = 0;
    for byte in bytes {
        if byte.is_ascii_digit() {
            value = with_digit(value, *byte);
        }
    }
    value
}

fn with_digit(value: u64, digit: u8) -> u64
    requires digit { IsTrue (is_ascii_digit digit) }
    requires small { value < 10 ^ 18 }
    ensures { result ≡ (value * 10) + (digit - 48) }
{
    value * 10 + (digit - b'0') as u64
}

/// How many digits stand after the full stop.
pub fn decimals_of(bytes: &[u8]) -> u8
    requires { decimals bytes.now ≤ 20 }
    ensures { result ≡ decimals bytes.now }
{
    for (i, byte) in bytes.iter().enumerate() {
        if *byte == b'.' {
            return (bytes.len() - i - 1) as u8;
        }
    }
    0
}

/// The byte from 33 to 126 that a number without a full stop stands for.
pub fn byte_of_number(bytes: &[u8]) -> Option<u8>
    requires { count_by is_ascii_digit bytes.now ≤ 18 }
    ensures { result ≡ whole_code bytes.now }
{
    if has_byte(bytes, b'-') | has_byte(bytes, b'.') {
        return None;
    }
    byte_in_range(value_of(bytes))
}

/// The byte from 33 to 126 that a hexadecimal number stands for, after its `0x`.
pub fn byte_of_hex(bytes: &[u8]) -> Option<u8>
    requires { length bytes.now ≤ 4 }
    ensures { result ≡ hex_code bytes.now }
{
    match bytes {
        [_, _, one] => byte_in_range(hex_digit_of(*one)),
        [_, _, one, two] => byte_in_range(hex_digit_of(*one) * 16 + hex_digit_of(*two)),
        _ => None,
    }
}

fn hex_digit_of(byte: u8) -> u64
    ensures value { result ≡ hex_digit byte }
    ensures small { result < 256 }
{
    if byte >= b'0' && byte <= b'9' {
        return (byte - b'0') as u64;
    }
    if byte >= b'A' && byte <= b'F' {
        return (byte - 55) as u64;
    }
    byte.saturating_sub(87) as u64
}

fn has_byte(bytes: &[u8], wanted: u8) -> bool
    ensures { result ≡ has wanted bytes.now }
{
    for byte in bytes {
        if *byte == wanted {
            return true;
        }
    }
    false
}

fn byte_in_range(value: u64) -> Option<u8>
    ensures { result ≡ in_range value }
{
    if 33 <= value && value <= 126 {
        return Some(value as u8);
    }
    None
}
