// Leaves of an enumeration.
ghost use Rattle.std.specs.Prelude.{◌≡◌, true, nat_lt, int_lt, pos};
ghost use Rattle.decimals.specs.Numerals.{is_digits, number};
ghost use Rattle.field_values.specs.Fields.{is_leaf, has_leading_zero};

use super::words::all_digits;
use decimals::read_scaled;

/// Digits alone, with no leading zero, and less than the number of leaves.
pub fn is_leaf(leaves: u32, word: &[u8]) -> bool
    ensures { result ≡ is_leaf leaves word.now }
{
    if word.is_empty() || !all_digits(word) {
        return false;
    }
    !has_leading_zero(word) && is_below(leaves, word)
}

fn has_leading_zero(word: &[u8]) -> bool
    ensures { result ≡ has_leading_zero word.now }
{
    match word {
        [b'0', _, ..] => true,
        _ => false,
    }
}

// A number of more than 18 digits is above every number of leaves.
fn is_below(leaves: u32, word: &[u8]) -> bool
    requires { is_digits word.now ≡ true }
    ensures { result ≡ nat_lt (number word.now) leaves }
{
    match read_scaled(word, 0) {
        Ok(value) => is_less(value, leaves),
        Err(_) => false,
    }
}

fn is_less(value: i64, leaves: u32) -> bool
    ensures { result ≡ int_lt value (pos leaves) }
{
    value < i64::from(leaves)
}
