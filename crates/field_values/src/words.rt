// Single words of a column.
ghost use Rattle.std.specs.Prelude.{◌≡◌, [], ◌∷◌};
ghost use Rattle.std.specs.Str.{all_ascii_digits};
ghost use Rattle.decimals.specs.Numerals.{number};
ghost use Rattle.ili_grammar.specs.Values.{codes_of};
ghost use Rattle.field_values.specs.Fields.{is_undefined, is_text, is_date, is_within};

use ili_grammar::Codes;

/// The word is the one byte of the undefined code.
pub fn is_undefined(codes: &Codes, word: &[u8]) -> bool
    ensures { result ≡ is_undefined (codes_of codes.now) word.now }
{
    word == [codes.undefined].as_slice()
}

/// At most that many bytes.
pub fn is_text(most: u32, word: &[u8]) -> bool
    ensures { result ≡ is_text most word.now }
{
    word.len() <= most as usize
}

/// Eight digits with a month from 01 to 12 and a day from 01 to 31.
pub fn is_date(word: &[u8]) -> bool
    ensures { result ≡ is_date word.now }
{
    if !all_digits(word) {
        return false;
    }
    match word {
        [_, _, _, _, month, of_month, day, of_day] => {
            is_within(1, 12, two_digits(*month, *of_month))
                && is_within(1, 31, two_digits(*day, *of_day))
        }
        _ => false,
    }
}

/// Each byte is a digit.
pub fn all_digits(word: &[u8]) -> bool
    ensures { result ≡ all_ascii_digits word.now }
{
    for byte in word {
        if !byte.is_ascii_digit() {
            return false;
        }
    }
    true
}

// The number that two digits write.
fn two_digits(tens: u8, ones: u8) -> u32
    ensures { result ≡ number (tens ∷ ones ∷ []) }
{
    u32::from(tens.saturating_sub(b'0')) * 10 + u32::from(ones.saturating_sub(b'0'))
}

fn is_within(low: u32, high: u32, number: u32) -> bool
    ensures { result ≡ is_within low high number }
{
    low <= number && number <= high
}
