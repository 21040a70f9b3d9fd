// Reading a model.
ghost use Rattle.std.specs.Prelude.{◌≡◌, ◌≤◌, length, IfOk, IfErr};
ghost use Rattle.ili_lexer.specs.Tokens.{AreTokens};
ghost use Rattle.ili_grammar.specs.Faults.{IsFirstFault};
ghost use Rattle.ili_grammar.specs.Limits.{IsWithinLimits};
ghost use Rattle.ili_grammar.specs.Models.{Spells};
ghost use Rattle.ili_grammar.specs.Syntax as written;
ghost use Rattle.ili_grammar.specs.Slices.{toks};
ghost use Rattle.ili_grammar.specs.Values.{model_of};

use super::source::{Source, Wanted};
use super::syntax::{ModelSyntax, SyntaxFault};
use ili_lexer::{Token, text_by_table, tokens_in_order};
use std::alloc::Global;

/// Reads a model from the tokens of its text: the one syntax that they spell, or the first token
/// with which they begin no model and its code. Takes time in proportion to the tokens; the error
/// `Memory` says nothing of them.
pub fn parse(alloc: Global, text: &[u8], tokens: &[Token]) -> Result<ModelSyntax, SyntaxFault>
    requires short { length text.now ≤ 4194304 }
    requires tokens { AreTokens text.now tokens.now }
    ensures spelt { IfOk result (λ model. Spells (model_of model) (toks text.now tokens.now)) }
    ensures within { IfOk result (λ model. IsWithinLimits (model_of model)) }
    ensures fault { IfErr result (λ fault. IsFirstFault (toks text.now tokens.now) fault) }
    ensures complete { (m : written.ModelSyntax) → Spells m (toks text.now tokens.now)
        → IfErr result (λ fault. fault ≡ SyntaxFault.Memory) }
{
    tokens_in_order();
    text_by_table();
    let source = Source {
        alloc,
        text,
        tokens,
    };
    let (model, next) = source.transfer(0)?;
    if next < tokens.len() {
        return Err(source.fault(next, Wanted::Other));
    }
    Ok(model)
}
