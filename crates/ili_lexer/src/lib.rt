//! The tokens of a model: bytes become a list of tokens, or the first place where a rule of the
//! tokens is broken.
//!
//! At each place stands the longest token there is, but a full stop belongs to a number only
//! where a digit follows it. Spaces, tabs, CR and LF divide tokens; a comment goes from `!!` to
//! the end of its line, which is a LF; an explanation goes from `//` to the next `//`. Inside
//! these two any byte may stand, elsewhere a byte that begins no token is a fault.
//!
//! - **What is proved.** `lex` answers exactly the tokens of the text (`AreTokens`), each with
//!   its kind, line, column and span, or exactly the first fault (`IsFault`), or `Memory`.
//!   Both are defined by the table of tokens, without an order of tests: each token has the form
//!   of its kind (`IsToken`) and no longer front of the rest is a token of any kind
//!   (`IsLongest`); between tokens are blanks and comments alone; a bad byte is where no token,
//!   blank, comment or `//` stands, or an open `0x`; an open explanation is `//` where no token
//!   stands; a long number is a longest token with too many digits. At any place the table says
//!   one thing (`front_by_table`), so a text has one answer (`one_answer`). Spans are in order,
//!   not empty, and end by the end of the text (`AreInOrder`). The same bytes are tokens of one
//!   kind (`one_kind`), and keywords are found by their words (`keyword_words`).
//! - **What the next layer may use.** A token's bytes are the slice of the text from `from` up
//!   to `upto`. Lines and columns count from 1, columns in bytes.
//! - **Not here:** whether the tokens are a model. The text is lexed whole, so a fault of a
//!   token at the end of a text comes before any fault of its grammar.
//! - **Degenerate cases:** an empty text has no tokens. `0x` without a hexadecimal digit is a
//!   fault where it would begin a token, but `+0x1` is a number and a name. A lone CR divides
//!   tokens and ends neither a line nor a comment.
//!
//! Cost: time in proportion to the length of the text, whose bytes are never copied, and memory
//! for the tokens alone.
#![tactic(auto)]

mod fronts;
mod keywords;
mod laws;
mod lexing;
mod places;
mod tokens;

pub use keywords::Keyword;
pub use laws::{
    front_by_table, keyword_words, one_answer, one_kind, text_by_table, tokens_in_order,
};
pub use lexing::lex;
pub use places::end_place;
pub use tokens::{Kind, LexFault, Mark, Token};
