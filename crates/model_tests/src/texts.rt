// Texts read as far as a test wants them; nothing comes of a text that is no model.
ghost use Rattle.std.specs.Prelude.{◌≤◌, IfSome, length};
ghost use Rattle.ili_lexer.specs.Tokens.{AreTokens};
ghost use Rattle.ili_grammar.specs.Values.{model_of};
ghost use Rattle.ili_grammar.specs.Limits.{IsWithinLimits};
ghost use Rattle.resolver.specs.Sound.{IsSound};
ghost use Rattle.resolver.specs.Values.{model_of as resolved_of};

use ili_grammar::{ModelSyntax, parse};
use ili_lexer::{Token, lex};
use resolver::{ResolvedModel, resolve};
use std::alloc::Global;

pub fn tokens_of(alloc: Global, text: &[u8]) -> Option<Vec<Token>>
    ensures short { IfSome result (λ tokens. length text.now ≤ 4194304) }
    ensures tokens { IfSome result (λ tokens. AreTokens text.now tokens.items) }
{
    if text.len() > 4_194_304 {
        return None;
    }
    lex(alloc, text).ok()
}

pub fn syntax_of(alloc: Global, text: &[u8]) -> Option<ModelSyntax>
    ensures { IfSome result (λ syntax. IsWithinLimits (model_of syntax)) }
{
    let tokens = tokens_of(alloc, text)?;
    parse(alloc, text, &tokens).ok()
}

pub fn resolved(alloc: Global, text: &[u8]) -> Option<ResolvedModel>
    ensures { IfSome result (λ model. IsSound (resolved_of model)) }
{
    let syntax = syntax_of(alloc, text)?;
    resolve(alloc, &syntax).ok()
}
