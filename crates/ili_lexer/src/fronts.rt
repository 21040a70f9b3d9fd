// What stands at the front of a text.
ghost use Rattle.std.specs.Prelude.{◌≡◌, ◌<◌, ◌≤◌, length, drop, IfSome};
ghost use Rattle.std.specs.List.{prefix_len};
ghost use Rattle.std.specs.Char.{is_ascii_digit, is_ascii_hexdigit};
ghost use Rattle.ili_lexer.specs.Bytes.{is_blank, is_name_byte, is_inside_line};
ghost use Rattle.ili_lexer.specs.Fronts.{front_of, LiesIn, explanation_front, hex_front};
ghost use Rattle.ili_lexer.specs.Fronts.{word_front, number_front, mark_front, byte_mark, closing};
ghost use Rattle.ili_lexer.specs.Fronts.{sign_length, decimals_of};

use super::keywords::find_keyword;
use super::tokens::{Kind, Mark};

/// What stands at the front of a text, with its length in bytes.
pub enum Front {
    End,
    /// Bytes between tokens.
    Passed(usize),
    Token(Kind, usize),
    BadByte,
    OpenExplanation,
    LongNumber,
}

/// What stands in the text after so many bytes.
pub fn front_at(text: &[u8], offset: usize) -> Front
    requires short { length text.now ≤ 4194304 }
    requires offset { offset ≤ length text.now }
    ensures front { result ≡ front_of (drop offset text.now) }
    ensures lies { LiesIn (length text.now) offset result }
{
    read_front(&text[offset..])
}

fn read_front(text: &[u8]) -> Front
    requires { length text.now ≤ 4194304 }
    ensures { result ≡ front_of text.now }
{
    let Some(first) = text.first() else {
        return Front::End;
    };
    if is_blank_byte(*first) {
        Front::Passed(1)
    } else if text.starts_with(b"!!") {
        Front::Passed(line_length(text))
    } else if text.starts_with(b"//") {
        explanation(text)
    } else if text.starts_with(b"0x") {
        hex(text)
    } else if first.is_ascii_alphabetic() {
        word(text)
    } else {
        number(text)
    }
}

fn is_blank_byte(byte: u8) -> bool
    ensures { result ≡ is_blank byte }
{
    byte == b' ' || byte == b'\t' || byte == b'\r' || byte == b'\n'
}

fn line_length(text: &[u8]) -> usize
    ensures { result ≡ prefix_len is_inside_line text.now }
{
    text.iter().take_while(|byte| **byte != b'\n').count()
}

fn explanation(text: &[u8]) -> Front
    requires opened { 2 ≤ length text.now }
    requires short { length text.now ≤ 4194304 }
    ensures { result ≡ explanation_front text.now }
{
    match closing_length(&text[2..]) {
        Some(length) => Front::Token(Kind::Explanation, 2 + length),
        None => Front::OpenExplanation,
    }
}

// The number of bytes up to the first `//` and with it.
fn closing_length(text: &[u8]) -> Option<usize>
    requires { length text.now ≤ 4194304 }
    ensures within { IfSome result (λ n. n ≤ length text.now) }
    ensures length { result ≡ closing text.now }
{
    for i in 0..text.len() {
        if text[i..].starts_with(b"//") {
            return Some(i + 2);
        }
    }
    None
}

fn hex(text: &[u8]) -> Front
    requires { 2 ≤ length text.now }
    ensures { result ≡ hex_front text.now }
{
    let digits = hex_digits_of(&text[2..]);
    if digits == 0 {
        Front::BadByte
    } else {
        Front::Token(Kind::Hex, if digits == 1 { 3 } else { 4 })
    }
}

fn hex_digits_of(text: &[u8]) -> usize
    ensures { result ≡ prefix_len is_ascii_hexdigit text.now }
{
    text.iter()
        .take_while(|byte| byte.is_ascii_hexdigit())
        .count()
}

fn word(text: &[u8]) -> Front
    ensures { result ≡ word_front text.now }
{
    let length = word_length(text);
    let kind = match find_keyword(&text[..length]) {
        Some(keyword) => Kind::Keyword(keyword),
        None => Kind::Name,
    };
    Front::Token(kind, length)
}

fn word_length(text: &[u8]) -> usize
    ensures within { result ≤ length text.now }
    ensures length { result ≡ prefix_len is_name_byte text.now }
{
    text.iter().take_while(|byte| is_name_part(**byte)).count()
}

fn is_name_part(byte: u8) -> bool
    ensures { result ≡ is_name_byte byte }
{
    byte.is_ascii_alphanumeric() || byte == b'_'
}

fn number(text: &[u8]) -> Front
    requires { length text.now ≤ 4194304 }
    ensures { result ≡ number_front text.now }
{
    let sign = sign_of(text);
    let whole = digits_of(&text[sign..]);
    if whole == 0 {
        return mark(text);
    }
    let decimals = decimals_after(&text[sign + whole..]);
    if decimals > 9 || whole + decimals > 18 {
        return Front::LongNumber;
    }
    let stop = if decimals == 0 { 0 } else { 1 };
    Front::Token(Kind::Number, sign + whole + stop + decimals)
}

fn sign_of(text: &[u8]) -> usize
    ensures within { result ≤ length text.now }
    ensures length { result ≡ sign_length text.now }
{
    if text.starts_with(b"+") || text.starts_with(b"-") {
        1
    } else {
        0
    }
}

fn digits_of(text: &[u8]) -> usize
    ensures within { result ≤ length text.now }
    ensures length { result ≡ prefix_len is_ascii_digit text.now }
{
    text.iter().take_while(|byte| byte.is_ascii_digit()).count()
}

// The number of digits after a full stop at the front.
fn decimals_after(text: &[u8]) -> usize
    ensures within { result ≤ length text.now }
    ensures length { result ≡ decimals_of text.now }
{
    if text.starts_with(b".") {
        digits_of(&text[1..])
    } else {
        0
    }
}

fn mark(text: &[u8]) -> Front
    ensures { result ≡ mark_front text.now }
{
    if text.starts_with(b"..") {
        return Front::Token(Kind::Mark(Mark::TwoPeriods), 2);
    }
    if text.starts_with(b"->") {
        return Front::Token(Kind::Mark(Mark::Arrow), 2);
    }
    match text {
        [] => Front::End,
        [byte, ..] => match mark_of(*byte) {
            Some(mark) => Front::Token(Kind::Mark(mark), 1),
            None => Front::BadByte,
        },
    }
}

fn mark_of(byte: u8) -> Option<Mark>
    ensures { result ≡ byte_mark byte }
{
    match byte {
        b';' => Some(Mark::Semicolon),
        b':' => Some(Mark::Colon),
        b',' => Some(Mark::Comma),
        b'=' => Some(Mark::Equals),
        b'(' => Some(Mark::LeftParen),
        b')' => Some(Mark::RightParen),
        b'[' => Some(Mark::LeftBracket),
        b']' => Some(Mark::RightBracket),
        b'*' => Some(Mark::Star),
        b'>' => Some(Mark::Greater),
        b'.' => Some(Mark::Period),
        _ => None,
    }
}
