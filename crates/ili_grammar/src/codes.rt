// The three codes, and what stands after them.
ghost use Rattle.std.specs.Prelude.{◌≡◌, ◌+◌, ◌<◌, ◌≤◌, ◌∷◌, [], ℕ, List, length, IfOk, IfErr};
ghost use Rattle.std.specs.Prelude.{IfSome, IsTrue};
ghost use Rattle.ili_grammar.specs.Tokens.{word, BLANK, TID, END, semicolon, equals, period};
ghost use Rattle.ili_grammar.specs.Slices.{word_of};
ghost use Rattle.ili_grammar.specs.Values.{codes_of};
ghost use Rattle.ili_grammar.specs.Steps.{all, rest, is_plain, Refuses, Goes, value_here};
ghost use Rattle.ili_grammar.specs.Steps.{TakesValue};
ghost use Rattle.ili_grammar.specs.Machine.{Sym, want, blank_value, tid_value};
ghost use Rattle.ili_grammar.specs.Parts.{ReadsCode, ReadsValue, ReadsTid, ReadsForm, ReadsCodes};

use super::decimals::{byte_of_hex, byte_of_number};
use super::source::{Source, Wanted};
use super::syntax::{Codes, SyntaxFault};
use ili_lexer::{Keyword, Kind, Mark};

impl Source<'_> {
    // From BLANK to the end of the model.
    pub fn codes(&self, at: usize) -> Result<(Codes, usize), SyntaxFault>
        ensures reads { IfOk result (λ p. ReadsCodes (codes_of p.0) (rest self.now at)
            (rest self.now p.1)) }
        ensures within { IfOk result (λ p. p.1 ≤ length self.now.tokens.now) }
        ensures stops { IfErr result (λ fault. Refuses (all self.now) (rest self.now at)
            (want (word BLANK) ∷ want equals ∷ blank_value ∷ []) fault) }
    {
        let (blank, place) = self.code_value(at, Keyword::Blank, b'_')?;
        let next = self.expect_mark(place + 1, Mark::Comma)?;
        let (undefined, place) = self.code_value(next, Keyword::Undefined, b'@')?;
        if undefined == blank {
            return Err(self.fault(place, Wanted::Value));
        }
        let next = self.expect_mark(place + 1, Mark::Comma)?;
        let (continued, place) = self.code_value(next, Keyword::Continue, b'\\')?;
        if continued == blank {
            return Err(self.fault(place, Wanted::Value));
        }
        if continued == undefined {
            return Err(self.fault(place, Wanted::Value));
        }
        let next = self.identification(place + 1)?;
        let codes = Codes {
            blank,
            undefined,
            continued,
        };
        Ok((codes, next))
    }

    // A keyword, `=` and a value: the byte, and the number of its token.
    fn code_value(
        &self,
        at: usize,
        keyword: Keyword,
        default: u8,
    ) -> Result<(u8, usize), SyntaxFault>
        requires plain { IsTrue (is_plain (word (word_of keyword))) }
        ensures reads { IfOk result (λ p. ReadsCode (word_of keyword) default p.0 (rest self.now at)
            (rest self.now (p.1 + 1))) }
        ensures within { IfOk result (λ p. p.1 < length self.now.tokens.now) }
        ensures value { IfOk result (λ p. ReadsValue default p.0 (rest self.now p.1)
            (rest self.now (p.1 + 1))) }
        ensures runs { IfOk result (λ p. Goes (rest self.now at)
            (want (word (word_of keyword)) ∷ want equals ∷ []) (rest self.now p.1) []) }
        ensures stops { IfErr result (λ fault. (used : List ℕ) (x : Sym) → TakesValue default used x
            → Refuses (all self.now) (rest self.now at)
            (want (word (word_of keyword)) ∷ want equals ∷ x ∷ []) fault) }
    {
        let next = self.expect_keyword(at, keyword)?;
        let next = self.expect_mark(next, Mark::Equals)?;
        match self.value(next, default) {
            Some(byte) => Ok((byte, next)),
            None => Err(self.fault(next, Wanted::Value)),
        }
    }

    // The byte that a token stands for as a value.
    fn value(&self, at: usize, default: u8) -> Option<u8>
        ensures reads { IfSome result (λ byte. ReadsValue default byte (rest self.now at)
            (rest self.now (at + 1))) }
        ensures within { IfSome result (λ byte. at < length self.now.tokens.now) }
        ensures value { result ≡ value_here default (rest self.now at) }
    {
        if self.is_keyword(at, Keyword::Default) {
            return Some(default);
        }
        if self.is(at, Kind::Number) {
            let token = self.tokens[at];
            return byte_of_number(self.bytes(&token));
        }
        if self.is(at, Kind::Hex) {
            let token = self.tokens[at];
            return byte_of_hex(self.bytes(&token));
        }
        None
    }

    // From the semicolon after the codes to the end of the model.
    fn identification(&self, at: usize) -> Result<usize, SyntaxFault>
        ensures reads { IfOk result (λ next. ReadsTid (rest self.now at) (rest self.now next)) }
        ensures within { IfOk result (λ next. next ≤ length self.now.tokens.now) }
        ensures stops { IfErr result (λ fault. Refuses (all self.now) (rest self.now at)
            (want semicolon ∷ want (word TID) ∷ want equals ∷ tid_value ∷ want semicolon
            ∷ want (word END) ∷ want period ∷ []) fault) }
    {
        let next = self.expect_mark(at, Mark::Semicolon)?;
        let next = self.expect_keyword(next, Keyword::Tid)?;
        let next = self.expect_mark(next, Mark::Equals)?;
        let next = self.identification_form(next)?;
        let next = self.expect_mark(next, Mark::Semicolon)?;
        let next = self.expect_keyword(next, Keyword::End)?;
        let next = self.expect_mark(next, Mark::Period)?;
        Ok(next)
    }

    // The form of identifications.
    fn identification_form(&self, at: usize) -> Result<usize, SyntaxFault>
        ensures reads { IfOk result (λ next. ReadsForm (rest self.now at) (rest self.now next)) }
        ensures within { IfOk result (λ next. (at < next) × (next ≤ length self.now.tokens.now)) }
        ensures runs { IfOk result (λ next. Goes (rest self.now at) (tid_value ∷ [])
            (rest self.now next) []) }
        ensures stops { IfErr result (λ fault. Refuses (all self.now) (rest self.now at)
            (tid_value ∷ []) fault) }
    {
        if self.is(at, Kind::Explanation)
            || self.is_keyword(at, Keyword::I16)
            || self.is_keyword(at, Keyword::I32)
            || self.is_keyword(at, Keyword::Any)
        {
            return Ok(at + 1);
        }
        Err(self.fault(at, Wanted::Other))
    }
}
