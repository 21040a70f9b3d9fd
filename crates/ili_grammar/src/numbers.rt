// Types of numbers.
ghost use Rattle.std.specs.Prelude.{◌≡◌, ◌<◌, ◌≤◌, ◌∷◌, [], length, IfOk, IfErr};
ghost use Rattle.ili_grammar.specs.Values.{decimal_of, span_of, corners2_of, corners3_of};
ghost use Rattle.ili_grammar.specs.Steps.{all, rest, Refuses, Goes};
ghost use Rattle.ili_grammar.specs.Machine.{want};
ghost use Rattle.ili_grammar.specs.Tokens.{number, two_periods, right_bracket, star};
ghost use Rattle.ili_grammar.specs.Parts.{ReadsSpan, ReadsRange, ReadsLength, ReadsCorners2};
ghost use Rattle.ili_grammar.specs.Parts.{ReadsCorners3};

use super::source::Source;
use super::syntax::{Corners2, Corners3, Decimal, Span, SyntaxFault};
use ili_lexer::Mark;

impl Source<'_> {
    pub fn span(&self, at: usize) -> Result<(Span, usize), SyntaxFault>
        ensures reads { IfOk result (λ p. ReadsSpan (span_of p.0) (rest self.now at)
            (rest self.now p.1)) }
        ensures within { IfOk result (λ p. (at < p.1) × (p.1 ≤ length self.now.tokens.now)) }
        ensures runs { IfOk result (λ p. Goes (rest self.now at) (want number ∷ want number ∷ [])
            (rest self.now p.1) []) }
        ensures stops { IfErr result (λ fault. Refuses (all self.now) (rest self.now at)
            (want number ∷ want number ∷ []) fault) }
    {
        let (low, next) = self.decimal(at)?;
        let (high, next) = self.decimal(next)?;
        Ok((Span { low, high }, next))
    }

    // Least x, least y, greatest x, greatest y.
    pub fn corners2(&self, at: usize) -> Result<(Corners2, usize), SyntaxFault>
        ensures reads { IfOk result (λ p. ReadsCorners2 (corners2_of p.0) (rest self.now at)
            (rest self.now p.1)) }
        ensures within { IfOk result (λ p. (at < p.1) × (p.1 ≤ length self.now.tokens.now)) }
        ensures runs { IfOk result (λ p. Goes (rest self.now at)
            (want number ∷ want number ∷ want number ∷ want number ∷ []) (rest self.now p.1) []) }
        ensures stops { IfErr result (λ fault. Refuses (all self.now) (rest self.now at)
            (want number ∷ want number ∷ want number ∷ want number ∷ []) fault) }
    {
        let (least, next) = self.span(at)?;
        let (greatest, next) = self.span(next)?;
        let x = Span {
            low: least.low,
            high: greatest.low,
        };
        let y = Span {
            low: least.high,
            high: greatest.high,
        };
        Ok((Corners2 { x, y }, next))
    }

    // Least x, y and z, then greatest x, y and z.
    pub fn corners3(&self, at: usize) -> Result<(Corners3, usize), SyntaxFault>
        ensures reads { IfOk result (λ p. ReadsCorners3 (corners3_of p.0) (rest self.now at)
            (rest self.now p.1)) }
        ensures within { IfOk result (λ p. (at < p.1) × (p.1 ≤ length self.now.tokens.now)) }
        ensures runs { IfOk result (λ p. Goes (rest self.now at)
            (want number ∷ want number ∷ want number ∷ want number ∷ want number ∷ want number ∷ [])
            (rest self.now p.1) []) }
        ensures stops { IfErr result (λ fault. Refuses (all self.now) (rest self.now at)
            (want number ∷ want number ∷ want number ∷ want number ∷ want number ∷ want number ∷ [])
            fault) }
    {
        let (least, next) = self.span(at)?;
        let (middle, next) = self.span(next)?;
        let (greatest, next) = self.span(next)?;
        let x = Span {
            low: least.low,
            high: middle.high,
        };
        let y = Span {
            low: least.high,
            high: greatest.low,
        };
        let z = Span {
            low: middle.low,
            high: greatest.high,
        };
        Ok((Corners3 { x, y, z }, next))
    }

    // A range after its bracket.
    pub fn range(&self, at: usize) -> Result<(Span, usize), SyntaxFault>
        ensures reads { IfOk result (λ p. ReadsRange (span_of p.0) (rest self.now at)
            (rest self.now p.1)) }
        ensures within { IfOk result (λ p. (at < p.1) × (p.1 ≤ length self.now.tokens.now)) }
        ensures runs { IfOk result (λ p. Goes (rest self.now at)
            (want number ∷ want two_periods ∷ want number ∷ want right_bracket ∷ [])
            (rest self.now p.1) []) }
        ensures stops { IfErr result (λ fault. Refuses (all self.now) (rest self.now at)
            (want number ∷ want two_periods ∷ want number ∷ want right_bracket ∷ []) fault) }
    {
        let (low, next) = self.decimal(at)?;
        let next = self.expect_mark(next, Mark::TwoPeriods)?;
        let (high, next) = self.decimal(next)?;
        let next = self.expect_mark(next, Mark::RightBracket)?;
        Ok((Span { low, high }, next))
    }

    // `*` and the length of a text.
    pub fn text_length(&self, at: usize) -> Result<(Decimal, usize), SyntaxFault>
        ensures reads { IfOk result (λ p. ReadsLength (decimal_of p.0) (rest self.now at)
            (rest self.now p.1)) }
        ensures within { IfOk result (λ p. (at < p.1) × (p.1 ≤ length self.now.tokens.now)) }
        ensures runs { IfOk result (λ p. Goes (rest self.now at) (want star ∷ want number ∷ [])
            (rest self.now p.1) []) }
        ensures stops { IfErr result (λ fault. Refuses (all self.now) (rest self.now at)
            (want star ∷ want number ∷ []) fault) }
    {
        let next = self.expect_mark(at, Mark::Star)?;
        let (length, next) = self.decimal(next)?;
        Ok((length, next))
    }
}
