// Tokens and the faults of a text.
ghost use Rattle.std.specs.Prelude.{◌≡◌, ◌-◌, take, drop};

use super::keywords::Keyword;
use thiserror::Error;

/// What a token is.
#[derive(Clone, Copy, Debug, PartialEq, Eq)]
pub enum Kind {
    /// A letter, then letters, digits and `_`, which is no keyword.
    Name,
    Keyword(Keyword),
    /// An optional sign, digits, and optionally a full stop with digits after it: at most 18
    /// digits, of which at most 9 stand after the full stop.
    Number,
    /// `0x` and one or two hexadecimal digits.
    Hex,
    /// `//`, any bytes, and the next `//`.
    Explanation,
    Mark(Mark),
}

/// A token that is known by its bytes alone.
#[derive(Clone, Copy, Debug, PartialEq, Eq)]
pub enum Mark {
    Semicolon,
    Colon,
    Comma,
    Equals,
    LeftParen,
    RightParen,
    LeftBracket,
    RightBracket,
    Star,
    Greater,
    Period,
    TwoPeriods,
    Arrow,
}

/// A token and where it stands: its bytes are those from `from` up to `upto` of the text. The
/// line and the column of its first byte count from 1, columns in bytes.
#[derive(Clone, Copy, Debug, PartialEq, Eq)]
pub struct Token {
    pub kind: Kind,
    pub line: u32,
    pub column: u32,
    pub from: u32,
    pub upto: u32,
}

impl Token {
    /// The bytes of the token, in the text from which it was cut.
    pub fn bytes<'a>(&self, text: &'a [u8]) -> &'a [u8]
        ensures { result.now ≡ take (self.now.upto - self.now.from) (drop self.now.from text.now) }
    {
        let upto = (self.upto as usize).min(text.len());
        let from = (self.from as usize).min(upto);
        &text[from..upto]
    }
}

/// Why a text has no list of tokens, with the line and the column of the first byte of what
/// would be the token.
#[derive(Clone, Copy, Debug, PartialEq, Eq, Error)]
pub enum LexFault {
    /// No token begins here, or it is a `0x` without a hexadecimal digit.
    #[error("line {line}, column {column}: no token begins here")]
    BadByte { line: u32, column: u32 },
    /// An explanation has no end.
    #[error("line {line}, column {column}: the explanation has no end")]
    OpenExplanation { line: u32, column: u32 },
    /// A number has more than 18 digits, or more than 9 after its full stop.
    #[error("line {line}, column {column}: the number has too many digits")]
    LongNumber { line: u32, column: u32 },
    #[error("out of memory")]
    Memory,
}
