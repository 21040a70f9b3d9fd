// Lines and IDENT lists.
ghost use Rattle.std.specs.Prelude.{◌≡◌, ◌<◌, ◌≤◌, ◌∷◌, [], length, cond, IfOk, IfErr};
ghost use Rattle.std.specs.Option.{option_map};
ghost use Rattle.ili_grammar.specs.Types.{IsForms, IsBase, IsOverlap, IsLine, IsList, IsIdents};
ghost use Rattle.ili_grammar.specs.Types.{IsMaybeIdents};
ghost use Rattle.ili_grammar.specs.Tokens.{word, STRAIGHTS, ARCS, semicolon};
ghost use Rattle.ili_grammar.specs.Values.{decimal_of, names_of, lists_of};
ghost use Rattle.ili_grammar.specs.Steps.{all, rest, Leads, Refuses, Goes};
ghost use Rattle.ili_grammar.specs.Machine.{want, the_line, forms, more_forms, maybe_base};
ghost use Rattle.ili_grammar.specs.Machine.{maybe_overlap, maybe_idents, idents, lists, name_list};
ghost use Rattle.ili_grammar.specs.Parts.{head_of, ReadsLists, ReadsEndedList};

use super::source::{Source, Wanted, keep};
use super::syntax::{Decimal, Ident, IdentList, SyntaxFault};
use ili_lexer::{Keyword, Kind, Mark};

/// What is written of a line before its LINEATTR part.
#[derive(Drop)]
pub struct LineHead {
    pub straights: bool,
    pub arcs: bool,
    pub vertex: Ident,
    pub overlap: Option<Decimal>,
}

impl Source<'_> {
    pub fn line(&self, at: usize) -> Result<(LineHead, usize), SyntaxFault>
        requires { at ≤ length self.now.tokens.now }
        ensures reads { IfOk result (λ p. IsLine (head_of p.0) (rest self.now at)
            (rest self.now p.1)) }
        ensures within { IfOk result (λ p. (at < p.1) × (p.1 ≤ length self.now.tokens.now)) }
        ensures runs { IfOk result (λ p. Goes (rest self.now at) (the_line ∷ []) (rest self.now p.1)
            []) }
        ensures stops { IfErr result (λ fault. Refuses (all self.now) (rest self.now at)
            (the_line ∷ []) fault) }
    {
        let next = self.expect_keyword(at, Keyword::With)?;
        let next = self.expect_mark(next, Mark::LeftParen)?;
        let (straights, arcs, next) = self.forms(next)?;
        let next = self.expect_keyword(next, Keyword::Vertex)?;
        let (vertex, next) = self.ident(next)?;
        let next = self.base(next)?;
        let (overlap, next) = self.overlap(next)?;
        let head = LineHead {
            straights,
            arcs,
            vertex,
            overlap,
        };
        Ok((head, next))
    }

    // Forms up to the parenthesis that closes them: whether STRAIGHTS and ARCS stand there.
    fn forms(&self, at: usize) -> Result<(bool, bool, usize), SyntaxFault>
        requires { at ≤ length self.now.tokens.now }
        ensures reads { IfOk result (λ p. IsForms p.0 p.1 (rest self.now at) (rest self.now p.2)) }
        ensures within { IfOk result (λ p. (at < p.2) × (p.2 ≤ length self.now.tokens.now)) }
        ensures runs { IfOk result (λ p. Goes (rest self.now at) (forms ∷ []) (rest self.now p.2)
            []) }
        ensures stops { IfErr result (λ fault. Refuses (all self.now) (rest self.now at)
            (forms ∷ []) fault) }
    {
        let mut straights = false;
        let mut arcs = false;
        let mut first = at;
        'forms: loop {
            let (is_arcs, next) = self.form(first)?;
            straights = straights | !is_arcs;
            arcs = arcs | is_arcs;
            if !self.is_mark(next, Mark::Comma) {
                let next = self.expect_mark(next, Mark::RightParen)?;
                return Ok((straights, arcs, next));
            }
            first = next + 1;
        }
    }

    // A form: whether it is ARCS.
    fn form(&self, at: usize) -> Result<(bool, usize), SyntaxFault>
        ensures reads { IfOk result (λ p. Leads (cond p.0 (word ARCS) (word STRAIGHTS))
            (rest self.now at) (rest self.now p.1)) }
        ensures within { IfOk result (λ p. (at < p.1) × (p.1 ≤ length self.now.tokens.now)) }
        ensures runs { IfOk result (λ p. Goes (rest self.now at) (forms ∷ []) (rest self.now p.1)
            (more_forms ∷ [])) }
        ensures stops { IfErr result (λ fault. Refuses (all self.now) (rest self.now at)
            (forms ∷ []) fault) }
    {
        if self.is_keyword(at, Keyword::Straights) {
            return Ok((false, at + 1));
        }
        if self.is_keyword(at, Keyword::Arcs) {
            return Ok((true, at + 1));
        }
        Err(self.fault(at, Wanted::LineForm))
    }

    fn base(&self, at: usize) -> Result<usize, SyntaxFault>
        requires { at ≤ length self.now.tokens.now }
        ensures reads { IfOk result (λ next. IsBase (rest self.now at) (rest self.now next)) }
        ensures within { IfOk result (λ next. (at ≤ next) × (next ≤ length self.now.tokens.now)) }
        ensures runs { IfOk result (λ next. Goes (rest self.now at) (maybe_base ∷ [])
            (rest self.now next) []) }
        ensures stops { IfErr result (λ fault. Refuses (all self.now) (rest self.now at)
            (maybe_base ∷ []) fault) }
    {
        if !self.is_keyword(at, Keyword::Base) {
            return Ok(at);
        }
        let next = self.expect(at + 1, Kind::Explanation)?;
        Ok(next)
    }

    fn overlap(&self, at: usize) -> Result<(Option<Decimal>, usize), SyntaxFault>
        requires { at ≤ length self.now.tokens.now }
        ensures reads { IfOk result (λ p. IsOverlap (option_map decimal_of p.0) (rest self.now at)
            (rest self.now p.1)) }
        ensures within { IfOk result (λ p. (at ≤ p.1) × (p.1 ≤ length self.now.tokens.now)) }
        ensures runs { IfOk result (λ p. Goes (rest self.now at) (maybe_overlap ∷ [])
            (rest self.now p.1) []) }
        ensures stops { IfErr result (λ fault. Refuses (all self.now) (rest self.now at)
            (maybe_overlap ∷ []) fault) }
    {
        if !self.is_keyword(at, Keyword::Without) {
            return Ok((None, at));
        }
        let next = self.expect_keyword(at + 1, Keyword::Overlaps)?;
        let next = self.expect_mark(next, Mark::Greater)?;
        let (overlap, next) = self.decimal(next)?;
        Ok((Some(overlap), next))
    }

    // NO IDENT, or IDENT and its lists, or neither.
    pub fn optional_idents(&self, at: usize) -> Result<(Vec<IdentList>, usize), SyntaxFault>
        requires { at ≤ length self.now.tokens.now }
        ensures reads { IfOk result (λ p. IsMaybeIdents (lists_of p.0.items) (rest self.now at)
            (rest self.now p.1)) }
        ensures within { IfOk result (λ p. (at ≤ p.1) × (p.1 ≤ length self.now.tokens.now)) }
        ensures runs { IfOk result (λ p. Goes (rest self.now at) (maybe_idents ∷ [])
            (rest self.now p.1) []) }
        ensures stops { IfErr result (λ fault. Refuses (all self.now) (rest self.now at)
            (maybe_idents ∷ []) fault) }
    {
        if self.is_keyword(at, Keyword::No) || self.is_keyword(at, Keyword::Ident) {
            let (lists, next) = self.idents(at)?;
            return Ok((lists, next));
        }
        Ok((Vec::new(self.alloc), at))
    }

    // NO IDENT, or IDENT and its lists.
    pub fn idents(&self, at: usize) -> Result<(Vec<IdentList>, usize), SyntaxFault>
        requires { at ≤ length self.now.tokens.now }
        ensures reads { IfOk result (λ p. IsIdents (lists_of p.0.items) (rest self.now at)
            (rest self.now p.1)) }
        ensures within { IfOk result (λ p. (at < p.1) × (p.1 ≤ length self.now.tokens.now)) }
        ensures runs { IfOk result (λ p. Goes (rest self.now at) (idents ∷ []) (rest self.now p.1)
            []) }
        ensures stops { IfErr result (λ fault. Refuses (all self.now) (rest self.now at)
            (idents ∷ []) fault) }
    {
        if self.is_keyword(at, Keyword::No) {
            let next = self.expect_keyword(at + 1, Keyword::Ident)?;
            return Ok((Vec::new(self.alloc), next));
        }
        let first = self.expect_keyword(at, Keyword::Ident)?;
        let (lists, next) = self.lists(first)?;
        Ok((lists, next))
    }

    // One list or more, each with its semicolon.
    fn lists(&self, at: usize) -> Result<(Vec<IdentList>, usize), SyntaxFault>
        requires { at ≤ length self.now.tokens.now }
        ensures reads { IfOk result (λ p. ReadsLists (lists_of p.0.items) (rest self.now at)
            (rest self.now p.1)) }
        ensures within { IfOk result (λ p. (at < p.1) × (p.1 ≤ length self.now.tokens.now)) }
        ensures runs { IfOk result (λ p. Goes (rest self.now at)
            (name_list ∷ want semicolon ∷ lists ∷ []) (rest self.now p.1) []) }
        ensures stops { IfErr result (λ fault. Refuses (all self.now) (rest self.now at)
            (name_list ∷ want semicolon ∷ lists ∷ []) fault) }
    {
        let mut lists = Vec::new(self.alloc);
        let (list, next) = self.ended_list(at)?;
        keep(&mut lists, list)?;
        let mut first = next;
        'lists: while self.is(first, Kind::Name) {
            let (list, next) = self.ended_list(first)?;
            keep(&mut lists, list)?;
            first = next;
        }
        Ok((lists, first))
    }

    // A list and its semicolon.
    fn ended_list(&self, at: usize) -> Result<(IdentList, usize), SyntaxFault>
        requires { at ≤ length self.now.tokens.now }
        ensures reads { IfOk result (λ p. ReadsEndedList (names_of p.0) (rest self.now at)
            (rest self.now p.1)) }
        ensures within { IfOk result (λ p. (at < p.1) × (p.1 ≤ length self.now.tokens.now)) }
        ensures runs { IfOk result (λ p. Goes (rest self.now at) (name_list ∷ want semicolon ∷ [])
            (rest self.now p.1) []) }
        ensures stops { IfErr result (λ fault. Refuses (all self.now) (rest self.now at)
            (name_list ∷ want semicolon ∷ []) fault) }
    {
        let (list, next) = self.name_list(at)?;
        let next = self.expect_mark(next, Mark::Semicolon)?;
        Ok((list, next))
    }

    fn name_list(&self, at: usize) -> Result<(IdentList, usize), SyntaxFault>
        requires { at ≤ length self.now.tokens.now }
        ensures reads { IfOk result (λ p. IsList (names_of p.0) (rest self.now at)
            (rest self.now p.1)) }
        ensures within { IfOk result (λ p. (at < p.1) × (p.1 ≤ length self.now.tokens.now)) }
        ensures runs { IfOk result (λ p. Goes (rest self.now at) (name_list ∷ [])
            (rest self.now p.1) []) }
        ensures stops { IfErr result (λ fault. Refuses (all self.now) (rest self.now at)
            (name_list ∷ []) fault) }
    {
        let mut names = Vec::new(self.alloc);
        let mut first = at;
        'names: loop {
            let (name, next) = self.ident(first)?;
            keep(&mut names, name)?;
            if !self.is_mark(next, Mark::Comma) {
                return Ok((IdentList { names }, next));
            }
            first = next + 1;
        }
    }
}
