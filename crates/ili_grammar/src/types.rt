// Types and attributes.
ghost use Rattle.std.specs.Prelude.{◌≡◌, ◌+◌, ◌<◌, ◌≤◌, ◌∷◌, [], false, length, IfOk, IfErr};
ghost use Rattle.ili_grammar.specs.Types.{IsType, IsAttributes, IsAttribute, IsContent};
ghost use Rattle.ili_grammar.specs.Tokens.{word, name, colon, semicolon};
ghost use Rattle.ili_grammar.specs.Slices.{word_of};
ghost use Rattle.ili_grammar.specs.Values.{type_of, line_of, attribute_of, attributes_of};
ghost use Rattle.ili_grammar.specs.Values.{content_of, lists_of};
ghost use Rattle.ili_grammar.specs.Steps.{all, rest, Leads, Refuses, Goes, is_unnumbered};
ghost use Rattle.ili_grammar.specs.Machine.{want, a_type, the_line, maybe_line_attributes};
ghost use Rattle.ili_grammar.specs.Machine.{attributes, first_content, maybe_explanation, content};
ghost use Rattle.ili_grammar.specs.Parts.{ReadsLine, head_of};
ghost use Rattle.ili_grammar.specs.Syntax.{a_line};

use super::lines::LineHead;
use super::source::{Source, Wanted, keep};
use super::syntax::{AttributeSyntax, Content, IdentList, LineSyntax, SyntaxFault, TypeSyntax};
use ili_lexer::{Keyword, Kind, Mark};

impl Source<'_> {
    #[cycle(types)]
    pub fn type_syntax(&self, at: usize, depth: u32) -> Result<(TypeSyntax, usize), SyntaxFault>
        requires { at ≤ length self.now.tokens.now }
        ensures reads { IfOk result (λ p. IsType depth (type_of p.0) (rest self.now at)
            (rest self.now p.1)) }
        ensures within { IfOk result (λ p. (at < p.1) × (p.1 ≤ length self.now.tokens.now)) }
        ensures runs { IfOk result (λ p. Goes (rest self.now at) (a_type depth ∷ [])
            (rest self.now p.1) []) }
        ensures stops { IfErr result (λ fault. Refuses (all self.now) (rest self.now at)
            (a_type depth ∷ []) fault) }
    {
        if self.is(at, Kind::Name) {
            let (name, next) = self.ident(at)?;
            return Ok((TypeSyntax::Named(name), next));
        }
        if self.is_mark(at, Mark::LeftBracket) {
            let (span, next) = self.range(at + 1)?;
            return Ok((TypeSyntax::Range(span), next));
        }
        if self.is_mark(at, Mark::LeftParen) {
            if depth == 0 {
                return Err(self.fault(at, Wanted::Shallower));
            }
            let (elements, next) = self.elements(at + 1, depth - 1)?;
            return Ok((TypeSyntax::Enumeration(elements), next));
        }
        match self.keyword(at) {
            Some(keyword) => self.keyword_type(at, keyword, depth),
            None => Err(self.fault(at, Wanted::Other)),
        }
    }

    // A type that begins with this keyword.
    #[cycle(types)]
    fn keyword_type(
        &self,
        at: usize,
        keyword: Keyword,
        depth: u32,
    ) -> Result<(TypeSyntax, usize), SyntaxFault>
        requires within { at < length self.now.tokens.now }
        requires begun { Leads (word (word_of keyword)) (rest self.now at)
            (rest self.now (at + 1)) }
        ensures reads { IfOk result (λ p. IsType depth (type_of p.0) (rest self.now at)
            (rest self.now p.1)) }
        ensures within { IfOk result (λ p. (at < p.1) × (p.1 ≤ length self.now.tokens.now)) }
        ensures runs { IfOk result (λ p. Goes (rest self.now at) (a_type depth ∷ [])
            (rest self.now p.1) []) }
        ensures stops { IfErr result (λ fault. Refuses (all self.now) (rest self.now at)
            (a_type depth ∷ []) fault) }
    {
        match keyword {
            Keyword::Date => Ok((TypeSyntax::Date, at + 1)),
            Keyword::Halignment => Ok((TypeSyntax::HAlignment, at + 1)),
            Keyword::Valignment => Ok((TypeSyntax::VAlignment, at + 1)),
            Keyword::Polyline => {
                let (head, next) = self.line(at + 1)?;
                let line = whole_line(head, Vec::new(self.alloc), Vec::new(self.alloc));
                Ok((TypeSyntax::Polyline(line), next))
            }
            Keyword::Surface => {
                let (line, next) = self.attributed_line(at + 1, depth)?;
                Ok((TypeSyntax::Surface(line), next))
            }
            Keyword::Area => {
                let (line, next) = self.attributed_line(at + 1, depth)?;
                Ok((TypeSyntax::Area(line), next))
            }
            _ => self.number_type(at, keyword, depth),
        }
    }

    // A type of numbers that begins with this keyword.
    fn number_type(
        &self,
        at: usize,
        keyword: Keyword,
        depth: u32,
    ) -> Result<(TypeSyntax, usize), SyntaxFault>
        requires within { at < length self.now.tokens.now }
        requires begun { Leads (word (word_of keyword)) (rest self.now at)
            (rest self.now (at + 1)) }
        requires numbered { is_unnumbered keyword ≡ false }
        ensures reads { IfOk result (λ p. IsType depth (type_of p.0) (rest self.now at)
            (rest self.now p.1)) }
        ensures within { IfOk result (λ p. (at < p.1) × (p.1 ≤ length self.now.tokens.now)) }
        ensures runs { IfOk result (λ p. Goes (rest self.now at) (a_type depth ∷ [])
            (rest self.now p.1) []) }
        ensures stops { IfErr result (λ fault. Refuses (all self.now) (rest self.now at)
            (a_type depth ∷ []) fault) }
    {
        match keyword {
            Keyword::Text => {
                let (length, next) = self.text_length(at + 1)?;
                Ok((TypeSyntax::Text(length), next))
            }
            Keyword::Coord2 => {
                let (corners, next) = self.corners2(at + 1)?;
                Ok((TypeSyntax::Coord2(corners), next))
            }
            Keyword::Coord3 => {
                let (corners, next) = self.corners3(at + 1)?;
                Ok((TypeSyntax::Coord3(corners), next))
            }
            Keyword::Dim1 => {
                let (span, next) = self.span(at + 1)?;
                Ok((TypeSyntax::Dim1(span), next))
            }
            Keyword::Dim2 => {
                let (span, next) = self.span(at + 1)?;
                Ok((TypeSyntax::Dim2(span), next))
            }
            Keyword::Radians => {
                let (span, next) = self.span(at + 1)?;
                Ok((TypeSyntax::Radians(span), next))
            }
            Keyword::Grads => {
                let (span, next) = self.span(at + 1)?;
                Ok((TypeSyntax::Grads(span), next))
            }
            Keyword::Degrees => {
                let (span, next) = self.span(at + 1)?;
                Ok((TypeSyntax::Degrees(span), next))
            }
            _ => Err(self.fault(at, Wanted::Other)),
        }
    }

    // A line with its LINEATTR part, if there is one.
    #[cycle(types)]
    fn attributed_line(&self, at: usize, depth: u32) -> Result<(LineSyntax, usize), SyntaxFault>
        requires { at ≤ length self.now.tokens.now }
        ensures reads { IfOk result (λ p. ReadsLine depth (line_of p.0) (rest self.now at)
            (rest self.now p.1)) }
        ensures within { IfOk result (λ p. (at < p.1) × (p.1 ≤ length self.now.tokens.now)) }
        ensures runs { IfOk result (λ p. Goes (rest self.now at)
            (the_line ∷ maybe_line_attributes depth ∷ []) (rest self.now p.1) []) }
        ensures stops { IfErr result (λ fault. Refuses (all self.now) (rest self.now at)
            (the_line ∷ maybe_line_attributes depth ∷ []) fault) }
    {
        let (head, next) = self.line(at)?;
        if !self.is_keyword(next, Keyword::Lineattr) {
            let line = whole_line(head, Vec::new(self.alloc), Vec::new(self.alloc));
            return Ok((line, next));
        }
        if depth == 0 {
            return Err(self.fault(next, Wanted::Shallower));
        }
        let next = self.expect_mark(next + 1, Mark::Equals)?;
        let (attributes, next) = self.attributes(next, depth - 1)?;
        let (idents, next) = self.optional_idents(next)?;
        let next = self.expect_keyword(next, Keyword::End)?;
        Ok((whole_line(head, attributes, idents), next))
    }

    #[cycle(types)]
    pub fn attributes(
        &self,
        at: usize,
        depth: u32,
    ) -> Result<(Vec<AttributeSyntax>, usize), SyntaxFault>
        requires { at ≤ length self.now.tokens.now }
        ensures reads { IfOk result (λ p. IsAttributes depth (attributes_of p.0.items)
            (rest self.now at) (rest self.now p.1)) }
        ensures within { IfOk result (λ p. (at ≤ p.1) × (p.1 ≤ length self.now.tokens.now)) }
        ensures runs { IfOk result (λ p. Goes (rest self.now at) (attributes depth ∷ [])
            (rest self.now p.1) []) }
        ensures stops { IfErr result (λ fault. Refuses (all self.now) (rest self.now at)
            (attributes depth ∷ []) fault) }
    {
        let mut attributes = Vec::new(self.alloc);
        let mut first = at;
        'attributes: while self.is(first, Kind::Name) {
            let (attribute, next) = self.attribute(first, depth)?;
            keep(&mut attributes, attribute)?;
            first = next;
        }
        Ok((attributes, first))
    }

    #[cycle(types)]
    fn attribute(&self, at: usize, depth: u32) -> Result<(AttributeSyntax, usize), SyntaxFault>
        requires { at ≤ length self.now.tokens.now }
        ensures reads { IfOk result (λ p. IsAttribute depth (attribute_of p.0) (rest self.now at)
            (rest self.now p.1)) }
        ensures within { IfOk result (λ p. (at < p.1) × (p.1 ≤ length self.now.tokens.now)) }
        ensures runs { IfOk result (λ p. Goes (rest self.now at)
            (want name ∷ want colon ∷ first_content depth ∷ maybe_explanation ∷ want semicolon ∷ [])
            (rest self.now p.1) []) }
        ensures stops { IfErr result (λ fault. Refuses (all self.now) (rest self.now at)
            (want name ∷ want colon ∷ first_content depth ∷ maybe_explanation ∷ want semicolon ∷ [])
            fault) }
    {
        let (name, next) = self.ident(at)?;
        let next = self.expect_mark(next, Mark::Colon)?;
        let (optional, next) = self.optional(next);
        let (content, next) = self.content(next, depth)?;
        let next = self.explanation(next);
        let next = self.expect_mark(next, Mark::Semicolon)?;
        let attribute = AttributeSyntax {
            name,
            optional,
            content,
        };
        Ok((attribute, next))
    }

    #[cycle(types)]
    fn content(&self, at: usize, depth: u32) -> Result<(Content, usize), SyntaxFault>
        requires { at ≤ length self.now.tokens.now }
        ensures reads { IfOk result (λ p. IsContent depth (content_of p.0) (rest self.now at)
            (rest self.now p.1)) }
        ensures within { IfOk result (λ p. (at < p.1) × (p.1 ≤ length self.now.tokens.now)) }
        ensures runs { IfOk result (λ p. Goes (rest self.now at) (content depth ∷ [])
            (rest self.now p.1) []) }
        ensures stops { IfErr result (λ fault. Refuses (all self.now) (rest self.now at)
            (content depth ∷ []) fault) }
    {
        if self.is_mark(at, Mark::Arrow) {
            let (name, next) = self.ident(at + 1)?;
            return Ok((Content::Reference(name), next));
        }
        let (kind, next) = self.type_syntax(at, depth)?;
        Ok((Content::Value(kind), next))
    }
}

#[tactic(auto, using(crate::proofs::Views::line_roll))]
fn whole_line(
    head: LineHead,
    attributes: Vec<AttributeSyntax>,
    idents: Vec<IdentList>,
) -> LineSyntax
    ensures { line_of result ≡ a_line (head_of head) (attributes_of attributes.items)
        (lists_of idents.items) }
{
    LineSyntax {
        straights: head.straights,
        arcs: head.arcs,
        vertex: head.vertex,
        overlap: head.overlap,
        attributes,
        idents,
    }
}
