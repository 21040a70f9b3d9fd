// The parts of a line, from left to right: each function finds one at the front of some bytes.
ghost use Rattle.std.specs.Prelude.{◌≡◌, ◌<◌, ◌≤◌, ◌^◌, ◌+◌, min, length, take, IfSome};
ghost use Rattle.std.specs.List.{prefix_len};
ghost use Rattle.std.specs.Char.{is_ascii_digit};
ghost use Rattle.std.specs.Str.Parse.{digits_value};
ghost use Rattle.certificate.specs.Spelling.{is_name_byte};
ghost use Rattle.certificate.specs.Reading.{Finds};
ghost use Rattle.certificate.specs.Views.{found_view};
ghost use Rattle.certificate.specs.Parts.{after_word, name_at, number, number_at, link_at};
ghost use Rattle.certificate.specs.Parts.{half_note, half_at, side_at};

use crate::notes::{HalfNote, Link};

/// What a function finds at the front of some bytes, and the bytes after it; none where it is not
/// there. An `Option`, so that `?` leads from one part of a line to the next.
pub type Part<'a, T> = Option<(T, &'a [u8])>;

/// A part or a line with numbers: it has no value where it has its form, but one of its numbers is
/// spelt wrong.
pub type Spelt<'a, T> = Part<'a, Option<T>>;

// The bytes after a word at the front.
pub fn after_word<'a>(bytes: &'a [u8], word: &[u8]) -> Option<&'a [u8]>
    ensures value { Finds (λ rest. rest.now) result (after_word word.now bytes.now) }
    ensures shorter { IfSome result (λ rest. length rest.now + length word.now ≤ length bytes.now) }
{
    bytes.strip_prefix(word)
}

// How many bytes at the front are of a name.
fn name_len(bytes: &[u8]) -> usize
    ensures value { result ≡ prefix_len is_name_byte bytes.now }
    ensures within { result ≤ length bytes.now }
{
    for (i, byte) in bytes.iter().enumerate() {
        if *byte == b' ' || *byte == b'\n' {
            return i;
        }
    }
    bytes.len()
}

// A name at the front.
pub fn name_at(bytes: &[u8]) -> Part<'_, &[u8]>
    ensures value { Finds (λ part. (part.0.now, part.1.now)) result (name_at bytes.now) }
    ensures shorter { IfSome result (λ part. length part.1.now < length bytes.now) }
{
    let length = name_len(bytes);
    if length == 0 {
        return None;
    }
    Some(bytes.split_at(length))
}

// The value of the digits at the front, or 2^32 where it is greater, and how many they are.
fn front_number(bytes: &[u8]) -> (u64, usize)
    ensures value { result.0 ≡ min (digits_value 10 (take result.1 bytes.now)) (2 ^ 32) }
    ensures digits { result.1 ≡ prefix_len is_ascii_digit bytes.now }
    ensures within { result.1 ≤ length bytes.now }
{
    let mut value: u64 = 0;
    for (i, byte) in bytes.iter().enumerate() {
        if !byte.is_ascii_digit() {
            return (value, i);
        }
        value = (value * 10 + u64::from(*byte - b'0')).min(1 << 32);
    }
    (value, bytes.len())
}

// The number of some digits that have this value: none with a leading zero, or from 2^32 on.
fn number_of(digits: &[u8], value: u64) -> Option<u32>
    requires { value ≡ min (digits_value 10 digits.now) (2 ^ 32) }
    ensures { result ≡ number digits.now }
{
    if matches!(digits, [b'0', _, ..]) || value > u64::from(u32::MAX) {
        return None;
    }
    Some(value as u32)
}

// A run of digits at the front, read as a number.
pub fn number_at(bytes: &[u8]) -> Spelt<'_, u32>
    ensures value { Finds found_view result (number_at bytes.now) }
    ensures shorter { IfSome result (λ part. length part.1.now < length bytes.now) }
{
    let (value, length) = front_number(bytes);
    if length == 0 {
        return None;
    }
    let (digits, rest) = bytes.split_at(length);
    Some((number_of(digits, value), rest))
}

// A link at the front.
fn link_at(bytes: &[u8]) -> Spelt<'_, Link>
    ensures value { Finds found_view result (link_at bytes.now) }
    ensures shorter { IfSome result (λ part. length part.1.now < length bytes.now) }
{
    match bytes {
        [b'R', rest @ ..] => Some((Some(Link::Root), rest)),
        [b'N', rest @ ..] => Some((Some(Link::Next), rest)),
        [b'P', rest @ ..] => Some((Some(Link::Prev), rest)),
        [b'C', rest @ ..] => match number_at(rest)? {
            (Some(half), rest) => Some((Some(Link::Across(half)), rest)),
            (None, rest) => Some((None, rest)),
        },
        _ => None,
    }
}

// The note of these three, where each of them is spelt right.
fn half_note(label: Option<u32>, link: Option<Link>, rank: Option<u32>) -> Option<HalfNote>
    ensures { result ≡ half_note label link rank }
{
    Some(HalfNote {
        label: label?,
        link: link?,
        rank: rank?,
    })
}

// The note of a half-edge at the front.
#[tactic(auto, unfolding(crate::specs::Parts::half_at))]
pub fn half_at(bytes: &[u8]) -> Spelt<'_, HalfNote>
    ensures value { Finds found_view result (half_at bytes.now) }
    ensures shorter { IfSome result (λ part. length part.1.now < length bytes.now) }
{
    let (label, rest) = number_at(bytes)?;
    let (link, rest) = link_at(after_word(rest, b" ")?)?;
    let (rank, rest) = number_at(after_word(rest, b" ")?)?;
    Some((half_note(label, link, rank), rest))
}

// The side of a point in a tube at the front, true for inside.
pub fn side_at(bytes: &[u8]) -> Part<'_, bool>
    ensures value { Finds found_view result (side_at bytes.now) }
    ensures shorter { IfSome result (λ part. length part.1.now < length bytes.now) }
{
    match bytes {
        [b'I', rest @ ..] => Some((true, rest)),
        [b'O', rest @ ..] => Some((false, rest)),
        _ => None,
    }
}
