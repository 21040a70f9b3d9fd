// The list of tokens.
ghost use Rattle.std.specs.Prelude.{◌≡◌, ◌≤◌, length, IfOk, IfErr};
ghost use Rattle.ili_lexer.specs.Tokens.{AreTokens, IsFault, AreInOrder};

use super::fronts::{Front, front_at};
use super::places::Place;
use super::tokens::{LexFault, Token};
use std::alloc::Global;

/// The tokens of a text of at most 4,194,304 bytes, or the first place at which a rule of the
/// tokens is broken. The tokens stand in the order of the text and do not overlap.
pub fn lex(alloc: Global, text: &[u8]) -> Result<Vec<Token>, LexFault>
    requires { length text.now ≤ 4194304 }
    ensures tokens { IfOk result (λ tokens. AreTokens text.now tokens.items) }
    ensures in_order { IfOk result (λ tokens. AreInOrder (length text.now) 0 tokens.items) }
    ensures fault { IfErr result (λ fault. IsFault text.now fault) }
{
    let mut tokens = Vec::new(alloc);
    let mut place = Place::start(text);
    loop {
        match front_at(text, place.offset) {
            Front::End => return Ok(tokens),
            Front::Passed(length) => place = place.moved_to(text, place.offset + length),
            Front::Token(kind, length) => {
                let next = place.moved_to(text, place.offset + length);
                let token = Token {
                    kind,
                    line: place.line,
                    column: place.column,
                    from: place.offset as u32,
                    upto: next.offset as u32,
                };
                if tokens.push(token).is_err() {
                    return Err(LexFault::Memory);
                }
                place = next;
            }
            Front::BadByte => {
                return Err(LexFault::BadByte {
                    line: place.line,
                    column: place.column,
                });
            }
            Front::OpenExplanation => {
                return Err(LexFault::OpenExplanation {
                    line: place.line,
                    column: place.column,
                });
            }
            Front::LongNumber => {
                return Err(LexFault::LongNumber {
                    line: place.line,
                    column: place.column,
                });
            }
        }
    }
}
