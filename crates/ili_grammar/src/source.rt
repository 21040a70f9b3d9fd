// The tokens of a text, and single steps of reading them.
ghost use Rattle.std.specs.Prelude.{◌≡◌, ◌≤◌, ◌++◌, ◌∷◌, [], length, Some, OnOk, IfErr, IsTrue};
ghost use Rattle.ili_grammar.specs.Slices.{kind_of, are_short};
ghost use Rattle.ili_grammar.specs.Codes.{code_of};
ghost use Rattle.ili_grammar.specs.Wants.{symbol_of, is_too_deep};

use super::decimals::{decimals_of, digits_of};
use super::syntax::{Decimal, Ident, SyntaxCode, SyntaxFault};
use ili_lexer::{Keyword, Kind, Mark, Token};
use ports::Name;
use std::alloc::Global;

/// A text and its tokens. Readers are given the number of the token to begin at, and give the
/// number of the token after what they read.
#[derive(Clone, Copy)]
pub struct Source<'a> {
    pub alloc: Global,
    pub text: &'a [u8],
    pub tokens: &'a [Token],
    ghost few: { length tokens.now ≤ 4194304 },
    ghost short: { IsTrue (are_short text.now tokens.now) },
}

/// What is expected at a place; it decides the code of the fault there.
#[derive(Clone, Copy)]
pub enum Wanted {
    Free,
    LineForm,
    EndName,
    Value,
    /// A part that would be nested too deeply.
    Shallower,
    Other,
}

/// The greatest number of enumerations and LINEATTR parts that are nested in each other.
pub const DEEPEST: u32 = 32;

/// Adds items to a list.
pub fn keep_all<T: Drop>(items: &mut Vec<T>, more: Vec<T>) -> Result<(), SyntaxFault>
    ensures added { OnOk result (items.new.items ≡ items.old.items ++ more.items) }
    ensures memory { IfErr result (λ fault. fault ≡ SyntaxFault.Memory) }
{
    let mut more = more;
    match items.append(&mut more) {
        Ok(()) => Ok(()),
        Err(_) => Err(SyntaxFault::Memory),
    }
}

/// Adds an item to a list.
pub fn keep<T: Drop>(items: &mut Vec<T>, item: T) -> Result<(), SyntaxFault>
    ensures added { OnOk result (items.new.items ≡ items.old.items ++ item ∷ []) }
    ensures memory { IfErr result (λ fault. fault ≡ SyntaxFault.Memory) }
{
    match items.push(item) {
        Ok(()) => Ok(()),
        Err(_) => Err(SyntaxFault::Memory),
    }
}

impl Wanted {
    ghost use Rattle.ili_grammar.specs.Run.{wants_free, wants_form, wants_end_name, wants_value};

    fn is_free(self) -> bool
        ensures { result ≡ wants_free (Some (symbol_of self)) }
    {
        matches!(self, Wanted::Free)
    }

    fn is_line_form(self) -> bool
        ensures { result ≡ wants_form (Some (symbol_of self)) }
    {
        matches!(self, Wanted::LineForm)
    }

    fn is_end_name(self) -> bool
        ensures { result ≡ wants_end_name (Some (symbol_of self)) }
    {
        matches!(self, Wanted::EndName)
    }

    fn is_value(self) -> bool
        ensures { result ≡ wants_value (Some (symbol_of self)) }
    {
        matches!(self, Wanted::Value)
    }

    fn is_shallower(self) -> bool
        ensures { result ≡ is_too_deep self }
    {
        matches!(self, Wanted::Shallower)
    }
}

impl<'a> Source<'a> {
    ghost use Rattle.std.specs.Prelude.{◌+◌, ◌-◌, ◌<◌, ℕ, take, drop, IfOk, IfSome, None};
    ghost use Rattle.std.specs.Prelude.{MatchBool, ⊤};
    ghost use Rattle.ili_grammar.specs.Kinds.{Not};
    ghost use Rattle.ili_grammar.specs.Machine.{want, maybe_explanation, first_content, content};
    ghost use Rattle.ili_grammar.specs.Tokens.{name, number, word, FREE, OPTIONAL};
    ghost use Rattle.ili_grammar.specs.Types.{IsExplained};
    ghost use Rattle.ili_grammar.specs.Slices.{bytes_of, word_of};
    ghost use Rattle.ili_grammar.specs.Values.{ident_of, decimal_of};
    ghost use Rattle.ili_grammar.specs.Steps.{all, rest, Leads, LeadsName, LeadsNumber};
    ghost use Rattle.ili_grammar.specs.Steps.{leads_with, code_here, scales_here, is_plain};
    ghost use Rattle.ili_grammar.specs.Steps.{Refuses, Goes, past, NoWord, IsFaultAt};

    /// Whether a token is of this kind.
    pub fn is(&self, at: usize, kind: Kind) -> bool
        ensures here { MatchBool result
            (Leads (kind_of kind) (rest self.now at) (rest self.now (at + 1)))
            (Not (kind_of kind) (rest self.now at)) }
        ensures value { result ≡ leads_with (kind_of kind) (rest self.now at) }
        ensures within { MatchBool result (at < length self.now.tokens.now) ⊤ }
    {
        if at < self.tokens.len() && self.tokens[at].kind == kind {
            return true;
        }
        false
    }

    pub fn is_keyword(&self, at: usize, keyword: Keyword) -> bool
        ensures here { MatchBool result
            (Leads (kind_of (Kind.Keyword keyword)) (rest self.now at) (rest self.now (at + 1)))
            (Not (kind_of (Kind.Keyword keyword)) (rest self.now at)) }
        ensures within { MatchBool result (at < length self.now.tokens.now) ⊤ }
    {
        self.is(at, Kind::Keyword(keyword))
    }

    pub fn is_mark(&self, at: usize, mark: Mark) -> bool
        ensures here { MatchBool result
            (Leads (kind_of (Kind.Mark mark)) (rest self.now at) (rest self.now (at + 1)))
            (Not (kind_of (Kind.Mark mark)) (rest self.now at)) }
        ensures within { MatchBool result (at < length self.now.tokens.now) ⊤ }
    {
        self.is(at, Kind::Mark(mark))
    }

    /// The keyword at a place, if one stands there.
    pub fn keyword(&self, at: usize) -> Option<Keyword>
        ensures here { IfSome result (λ keyword. Leads (word (word_of keyword)) (rest self.now at)
            (rest self.now (at + 1))) }
        ensures within { IfSome result (λ keyword. at < length self.now.tokens.now) }
        ensures none { result ≡ None → NoWord (rest self.now at) }
    {
        if at < self.tokens.len() {
            if let Kind::Keyword(keyword) = self.tokens[at].kind {
                return Some(keyword);
            }
        }
        None
    }

    /// Passes over OPTIONAL, if it stands here.
    pub fn optional(&self, at: usize) -> (bool, usize)
        requires { at ≤ length self.now.tokens.now }
        ensures here { MatchBool result.0
            (Leads (word OPTIONAL) (rest self.now at) (rest self.now result.1)) (result.1 ≡ at) }
        ensures within { (at ≤ result.1) × (result.1 ≤ length self.now.tokens.now) }
        ensures past { rest self.now result.1 ≡ past (word OPTIONAL) (rest self.now at) }
        ensures content { (d : ℕ) → Goes (rest self.now at) (first_content d ∷ [])
            (rest self.now result.1) (content d ∷ []) }
    {
        if self.is_keyword(at, Keyword::Optional) {
            return (true, at + 1);
        }
        (false, at)
    }

    /// Passes over an explanation, if one stands here.
    pub fn explanation(&self, at: usize) -> usize
        requires { at ≤ length self.now.tokens.now }
        ensures reads { IsExplained (rest self.now at) (rest self.now result) }
        ensures within { (at ≤ result) × (result ≤ length self.now.tokens.now) }
        ensures runs { Goes (rest self.now at) (maybe_explanation ∷ []) (rest self.now result) [] }
    {
        if self.is(at, Kind::Explanation) {
            return at + 1;
        }
        at
    }

    /// The bytes of a token.
    pub fn bytes(&self, token: &Token) -> &'a [u8]
        ensures { result.now ≡ bytes_of self.now.text.now token.now }
    {
        token.bytes(self.text)
    }

    /// Passes over a token of this kind.
    pub fn expect(&self, at: usize, kind: Kind) -> Result<usize, SyntaxFault>
        requires { IsTrue (is_plain (kind_of kind)) }
        ensures reads { IfOk result (λ next. Leads (kind_of kind) (rest self.now at)
            (rest self.now next)) }
        ensures within { IfOk result (λ next. (next ≡ at + 1) × (at < length self.now.tokens.now)) }
        ensures stops { IfErr result (λ fault. Refuses (all self.now) (rest self.now at)
            (want (kind_of kind) ∷ []) fault) }
        ensures runs { IfOk result (λ next. Goes (rest self.now at) (want (kind_of kind) ∷ [])
            (rest self.now next) []) }
    {
        if self.is(at, kind) {
            return Ok(at + 1);
        }
        Err(self.fault(at, Wanted::Other))
    }

    pub fn expect_free(&self, at: usize) -> Result<usize, SyntaxFault>
        ensures reads { IfOk result (λ next. Leads (word FREE) (rest self.now at)
            (rest self.now next)) }
        ensures within { IfOk result (λ next. (next ≡ at + 1) × (at < length self.now.tokens.now)) }
        ensures stops { IfErr result (λ fault. Refuses (all self.now) (rest self.now at)
            (want (word FREE) ∷ []) fault) }
        ensures runs { IfOk result (λ next. Goes (rest self.now at) (want (word FREE) ∷ [])
            (rest self.now next) []) }
    {
        if self.is_keyword(at, Keyword::Free) {
            return Ok(at + 1);
        }
        Err(self.fault(at, Wanted::Free))
    }

    pub fn expect_keyword(&self, at: usize, keyword: Keyword) -> Result<usize, SyntaxFault>
        requires { IsTrue (is_plain (kind_of (Kind.Keyword keyword))) }
        ensures reads { IfOk result (λ next. Leads (kind_of (Kind.Keyword keyword))
            (rest self.now at) (rest self.now next)) }
        ensures within { IfOk result (λ next. (next ≡ at + 1) × (at < length self.now.tokens.now)) }
        ensures stops { IfErr result (λ fault. Refuses (all self.now) (rest self.now at)
            (want (kind_of (Kind.Keyword keyword)) ∷ []) fault) }
        ensures runs { IfOk result (λ next. Goes (rest self.now at)
            (want (kind_of (Kind.Keyword keyword)) ∷ []) (rest self.now next) []) }
    {
        self.expect(at, Kind::Keyword(keyword))
    }

    pub fn expect_mark(&self, at: usize, mark: Mark) -> Result<usize, SyntaxFault>
        requires { IsTrue (is_plain (kind_of (Kind.Mark mark))) }
        ensures reads { IfOk result (λ next. Leads (kind_of (Kind.Mark mark)) (rest self.now at)
            (rest self.now next)) }
        ensures within { IfOk result (λ next. (next ≡ at + 1) × (at < length self.now.tokens.now)) }
        ensures stops { IfErr result (λ fault. Refuses (all self.now) (rest self.now at)
            (want (kind_of (Kind.Mark mark)) ∷ []) fault) }
        ensures runs { IfOk result (λ next. Goes (rest self.now at)
            (want (kind_of (Kind.Mark mark)) ∷ []) (rest self.now next) []) }
    {
        self.expect(at, Kind::Mark(mark))
    }

    /// Reads a name.
    pub fn ident(&self, at: usize) -> Result<(Ident, usize), SyntaxFault>
        ensures reads { IfOk result (λ p. LeadsName (ident_of p.0) (rest self.now at)
            (rest self.now p.1)) }
        ensures within { IfOk result (λ p. (p.1 ≡ at + 1) × (at < length self.now.tokens.now)) }
        ensures stops { IfErr result (λ fault. Refuses (all self.now) (rest self.now at)
            (want name ∷ []) fault) }
        ensures runs { IfOk result (λ p. Goes (rest self.now at) (want name ∷ [])
            (rest self.now p.1) []) }
    {
        let next = self.expect(at, Kind::Name)?;
        let token = self.tokens[at];
        match Name::new(self.alloc, self.bytes(&token)) {
            Ok(text) => {
                let ident = Ident {
                    text,
                    line: token.line,
                    column: token.column,
                };
                Ok((ident, next))
            }
            Err(_) => Err(SyntaxFault::Memory),
        }
    }

    /// Reads a number.
    pub fn decimal(&self, at: usize) -> Result<(Decimal, usize), SyntaxFault>
        ensures reads { IfOk result (λ p. LeadsNumber (decimal_of p.0) (rest self.now at)
            (rest self.now p.1)) }
        ensures within { IfOk result (λ p. (p.1 ≡ at + 1) × (at < length self.now.tokens.now)) }
        ensures stops { IfErr result (λ fault. Refuses (all self.now) (rest self.now at)
            (want number ∷ []) fault) }
        ensures runs { IfOk result (λ p. Goes (rest self.now at) (want number ∷ [])
            (rest self.now p.1) []) }
    {
        let next = self.expect(at, Kind::Number)?;
        let token = self.tokens[at];
        let bytes = self.bytes(&token);
        let decimal = Decimal {
            digits: digits_of(bytes),
            scale: decimals_of(bytes),
            line: token.line,
            column: token.column,
        };
        Ok((decimal, next))
    }

    /// The fault of a token at which something else must come.
    pub fn fault(&self, at: usize, wanted: Wanted) -> SyntaxFault
        ensures { IsFaultAt (all self.now) (rest self.now at) wanted result }
    {
        if at < self.tokens.len() {
            SyntaxFault::At {
                code: self.code(at, wanted),
                token: Some(at as u32),
            }
        } else {
            SyntaxFault::At {
                code: SyntaxCode::Expected,
                token: None,
            }
        }
    }

    // The first code that fits a token.
    fn code(&self, at: usize, wanted: Wanted) -> SyntaxCode
        requires { at < length self.now.tokens.now }
        ensures { code_of result ≡ code_here (rest self.now at) wanted }
    {
        let is_name = self.is(at, Kind::Name);
        let is_number = self.is(at, Kind::Number);
        let is_hex = self.is(at, Kind::Hex);
        let is_default = self.is(at, Kind::Keyword(Keyword::Default));
        let is_view = self.is(at, Kind::Keyword(Keyword::View));
        let is_derivatives = self.is(at, Kind::Keyword(Keyword::Derivatives));
        let is_fix = self.is(at, Kind::Keyword(Keyword::Fix));
        let scales = self.scales(at);
        if is_view | is_derivatives {
            SyntaxCode::Views
        } else if is_fix & wanted.is_free() {
            SyntaxCode::FixFormat
        } else if is_name & scales {
            SyntaxCode::Scaling
        } else if is_name & wanted.is_line_form() {
            SyntaxCode::LineForm
        } else if is_name & wanted.is_end_name() {
            SyntaxCode::EndName
        } else if (is_number | (is_hex | is_default)) & wanted.is_value() {
            SyntaxCode::Codes
        } else if wanted.is_shallower() {
            SyntaxCode::Deep
        } else {
            SyntaxCode::Expected
        }
    }

    // Whether a token begins with S and stands directly after a number.
    fn scales(&self, at: usize) -> bool
        requires { at < length self.now.tokens.now }
        ensures { result ≡ scales_here (rest self.now at) }
    {
        if at == 0 {
            return false;
        }
        let before = self.tokens[at - 1];
        let token = self.tokens[at];
        let after_number = self.is(at - 1, Kind::Number) & (before.upto == token.from);
        after_number & self.bytes(&token).starts_with(b"S")
    }
}
