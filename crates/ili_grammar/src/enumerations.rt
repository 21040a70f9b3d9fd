// Enumerations.
ghost use Rattle.std.specs.Prelude.{◌≡◌, ◌<◌, ◌≤◌, ◌∷◌, [], length, IfOk, IfErr};
ghost use Rattle.ili_grammar.specs.Types.{IsElements, IsElement};
ghost use Rattle.ili_grammar.specs.Values.{element_of, elements_of};
ghost use Rattle.ili_grammar.specs.Steps.{all, rest, ReadsParts, Refuses, Goes};
ghost use Rattle.ili_grammar.specs.Machine.{elements, more_parts, maybe_parts};

use super::source::{Source, Wanted, keep};
use super::syntax::{Element, SyntaxFault};
use ili_lexer::Mark;

impl Source<'_> {
    // Elements up to the parenthesis that closes them.
    #[cycle(elements)]
    pub fn elements(&self, at: usize, depth: u32) -> Result<(Vec<Element>, usize), SyntaxFault>
        requires { at ≤ length self.now.tokens.now }
        ensures reads { IfOk result (λ p. IsElements depth (elements_of p.0.items)
            (rest self.now at) (rest self.now p.1)) }
        ensures within { IfOk result (λ p. (at < p.1) × (p.1 ≤ length self.now.tokens.now)) }
        ensures runs { IfOk result (λ p. Goes (rest self.now at) (elements depth ∷ [])
            (rest self.now p.1) []) }
        ensures stops { IfErr result (λ fault. Refuses (all self.now) (rest self.now at)
            (elements depth ∷ []) fault) }
    {
        let mut elements = Vec::new(self.alloc);
        let mut first = at;
        loop {
            let (element, next) = self.element(first, depth)?;
            keep(&mut elements, element)?;
            if !self.is_mark(next, Mark::Comma) {
                let next = self.expect_mark(next, Mark::RightParen)?;
                return Ok((elements, next));
            }
            first = next + 1;
        }
    }

    // A name and its parts.
    #[cycle(elements)]
    fn element(&self, at: usize, depth: u32) -> Result<(Element, usize), SyntaxFault>
        requires { at ≤ length self.now.tokens.now }
        ensures reads { IfOk result (λ p. IsElement depth (element_of p.0) (rest self.now at)
            (rest self.now p.1)) }
        ensures within { IfOk result (λ p. (at < p.1) × (p.1 ≤ length self.now.tokens.now)) }
        ensures runs { IfOk result (λ p. Goes (rest self.now at) (elements depth ∷ [])
            (rest self.now p.1) (more_parts depth ∷ [])) }
        ensures stops { IfErr result (λ fault. Refuses (all self.now) (rest self.now at)
            (elements depth ∷ []) fault) }
    {
        let (name, next) = self.ident(at)?;
        let (parts, next) = self.parts(next, depth)?;
        Ok((Element { name, parts }, next))
    }

    // The parts of an element, if there are any.
    #[cycle(elements)]
    fn parts(&self, at: usize, depth: u32) -> Result<(Vec<Element>, usize), SyntaxFault>
        requires { at ≤ length self.now.tokens.now }
        ensures reads { IfOk result (λ p. ReadsParts depth (elements_of p.0.items)
            (rest self.now at) (rest self.now p.1)) }
        ensures within { IfOk result (λ p. (at ≤ p.1) × (p.1 ≤ length self.now.tokens.now)) }
        ensures runs { IfOk result (λ p. Goes (rest self.now at) (maybe_parts depth ∷ [])
            (rest self.now p.1) []) }
        ensures stops { IfErr result (λ fault. Refuses (all self.now) (rest self.now at)
            (maybe_parts depth ∷ []) fault) }
    {
        if !self.is_mark(at, Mark::LeftParen) {
            return Ok((Vec::new(self.alloc), at));
        }
        if depth == 0 {
            return Err(self.fault(at, Wanted::Shallower));
        }
        self.elements(at + 1, depth - 1)
    }
}
