//! Numbers with a point, read as whole numbers at a scale, and written from them.
//!
//! A text becomes a count of units of its last decimal: at scale 2 `12.5` is 1250. A domain's
//! scale is the greatest number of decimals among its bounds; all values of the domain are read
//! at it, and then compare as whole numbers.
//!
//! - **What is a number**: an optional `+` or `-`, one or more digits, and optionally a point with
//!   one or more digits after it. No blanks, no exponent, no separators of thousands.
//! - **What has a value**: a number of at most 18 digits at the scale, where zeros in front do not
//!   count, and whose decimals past the scale are all 0. Its value is between -(10^18 - 1) and
//!   10^18 - 1.
//! - **Which fault**: the first of `NotNumber`, `TooLong` and `MoreDecimals` that is true.
//!   `TooLong` speaks of the digits at the scale, with the decimals past it dropped: at scale 1
//!   `12345678901234567.89` is `MoreDecimals` and not `TooLong`.
//! - **Degenerate cases**: `-0` is 0, `007` is 7, `5` at scale 2 is 500; a text without bytes, a
//!   sign alone, `.5` and `5.` are no numbers. A text may have any length.
//! - **What is written**: the value with exactly as many decimals as the scale has, `-` only before
//!   a value below 0, no zero before another whole digit, and no point at scale 0. At scale 2 -5 is
//!   `-0.05`. Reading it gives the value back.
//! - **Not here**: bounds of a domain, the mark of an undefined value.
//!
//! `read_scaled` takes time linear in the text, `write_scaled` in the scale; both take no memory.
//! Up to 15 bytes at a scale up to 3 are read in one pass, where they have no fault.
//!
//! The layers above may use the clauses of `read_scaled` and `write_scaled`; the functions
//! `scaled_of` and `spelling_of`, which are their answers, in definitions of their own; the laws
//! `written_reads_back`, `one_spelling` and `written_is_short`; and the laws in `proofs`: what a
//! text spells is unique (`Spellings`), answer and cause belong together (`Laws`), and what is left
//! of it for a text without a point at scale 0 (`WholeNumbers`).
#![tactic(auto)]

ghost use Rattle.std.specs.Prelude.{◌≡◌, ◌≤◌, ◌<◌, ◌^◌, ◌↔◌, ◌==◌, ℤ, pos, neg_ℤ, Ok, Err, IfOk};
ghost use Rattle.std.specs.Prelude.{if◌then◌else◌, IsTrue, position};
ghost use Rattle.decimals.specs.Counted.{counted, parts_of, settled};
ghost use Rattle.decimals.specs.Numerals.{minus, sign_of, after_sign};
ghost use Rattle.decimals.specs.Scaled.{unsigned_of, scaled_of};
ghost use Rattle.decimals.specs.Scaled.{HasValue, SpellsNone, IsTooLong, HasMoreDecimals};

mod plain;
mod writing;

use plain::read_plain;
use thiserror::Error;
pub use writing::{one_spelling, write_scaled, written_is_short, written_reads_back};

/// Why a text has no value at a scale. Where several are true the first is answered.
#[derive(Debug, Clone, Copy, PartialEq, Eq, Error)]
pub enum DecimalFault {
    /// The text is not an optional sign, one or more digits, and optionally a point with one or
    /// more digits.
    #[error("not a number")]
    NotNumber,
    /// The value at the scale has more than 18 digits, leading zeros not counted.
    #[error("more than 18 digits")]
    TooLong,
    /// A decimal past the scale is not 0.
    #[error("a decimal past the scale is not 0")]
    MoreDecimals,
}

// One more than the greatest magnitude: magnitudes are counted up to here.
const LIMIT: u64 = 1_000_000_000_000_000_000;

/// The value of the bytes in units of the last of `scale` decimals, or the first fault.
pub fn read_scaled(bytes: &[u8], scale: u8) -> Result<i64, DecimalFault>
    requires { scale ≤ 9 }
    // The answer, as a function of the bytes and the scale.
    ensures answer { result ≡ scaled_of bytes.now scale }
    // It is a value exactly where the bytes spell a number that has this value at the scale.
    ensures value { (v : ℤ) → (result ≡ Ok v) ↔ HasValue bytes.now scale v }
    // It is each fault exactly where that is the first one.
    ensures not_number { (result ≡ Err DecimalFault.NotNumber) ↔ SpellsNone bytes.now }
    ensures too_long { (result ≡ Err DecimalFault.TooLong) ↔ IsTooLong bytes.now scale }
    ensures more_decimals { (result ≡ Err DecimalFault.MoreDecimals)
        ↔ HasMoreDecimals bytes.now scale }
{
    let (negative, unsigned) = split_sign(bytes);
    let magnitude = read_unsigned(unsigned, scale)?;
    Ok(with_sign(negative, magnitude))
}

// The magnitude, or its negative.
fn with_sign(negative: bool, magnitude: u64) -> i64
    requires { magnitude < 10 ^ 18 }
    ensures { result ≡ (if negative then neg_ℤ (pos magnitude) else pos magnitude) }
{
    let value = magnitude as i64;
    if negative { -value } else { value }
}

// Whether a minus stands first, and what stands after the sign.
fn split_sign(bytes: &[u8]) -> (bool, &[u8])
    ensures negative { IsTrue result.0 ↔ (sign_of bytes.now ≡ minus) }
    ensures rest { result.1.now ≡ after_sign bytes.now }
{
    match bytes {
        [b'-', rest @ ..] => (true, rest),
        [b'+', rest @ ..] => (false, rest),
        _ => (false, bytes),
    }
}

// The magnitude of what stands after the sign.
fn read_unsigned(unsigned: &[u8], scale: u8) -> Result<u64, DecimalFault>
    requires { scale ≤ 9 }
    ensures reading { result ≡ unsigned_of scale unsigned.now }
    ensures bound { IfOk result (λ magnitude. magnitude < 10 ^ 18) }
{
    match read_plain(unsigned, scale) {
        Some(magnitude) => Ok(magnitude),
        None => read_in_passes(unsigned, scale),
    }
}

// The same of any text: one pass finds the point, and each part is read in another.
fn read_in_passes(unsigned: &[u8], scale: u8) -> Result<u64, DecimalFault>
    requires { scale ≤ 9 }
    ensures reading { result ≡ unsigned_of scale unsigned.now }
    ensures bound { IfOk result (λ magnitude. magnitude < 10 ^ 18) }
{
    match find_point(unsigned) {
        Some(at) if at + 1 == unsigned.len() => Err(DecimalFault::NotNumber),
        Some(at) => read_parts(&unsigned[..at], &unsigned[at + 1..], scale),
        None => read_parts(unsigned, &[], scale),
    }
}

// The place of the first point.
fn find_point(unsigned: &[u8]) -> Option<usize>
    ensures { result ≡ position (λ byte. byte == 46) unsigned.now }
{
    unsigned.iter().position(|byte| *byte == b'.')
}

// The magnitude of the digits before the point and the decimals after it.
fn read_parts(whole: &[u8], decimals: &[u8], scale: u8) -> Result<u64, DecimalFault>
    requires { scale ≤ 9 }
    ensures { result ≡ parts_of scale whole.now decimals.now }
{
    if whole.is_empty() {
        return Err(DecimalFault::NotNumber);
    }
    let (kept, surplus) = decimals.split_at(decimals.len().min(usize::from(scale)));
    let digits = read_digits(read_digits(0, whole)?, kept)?;
    let past = read_digits(0, surplus)?;
    let missing = u32::from(scale) - kept.len() as u32;
    within_limits(digits.saturating_mul(10u64.pow(missing)), past)
}

// The magnitude again, where it has at most 18 digits and the decimals past the scale are 0.
fn within_limits(magnitude: u64, past: u64) -> Result<u64, DecimalFault>
    ensures { result ≡ settled magnitude past }
{
    if magnitude >= LIMIT {
        Err(DecimalFault::TooLong)
    } else if past > 0 {
        Err(DecimalFault::MoreDecimals)
    } else {
        Ok(magnitude)
    }
}

// The number that the digits of `from` and then these write, at most `LIMIT`.
fn read_digits(from: u64, digits: &[u8]) -> Result<u64, DecimalFault>
    requires { from ≤ 10 ^ 18 }
    ensures { result ≡ counted from digits.now }
{
    let mut number = from;
    for digit in digits {
        if !digit.is_ascii_digit() {
            return Err(DecimalFault::NotNumber);
        }
        number = (number * 10 + u64::from(*digit - b'0')).min(LIMIT);
    }
    Ok(number)
}
