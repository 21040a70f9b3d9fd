// The layout of a model's text.
ghost use Rattle.std.specs.Prelude.{IfSome};
ghost use Rattle.ili_grammar.specs.Values.{model_of};
ghost use Rattle.ili_grammar.specs.Limits.{IsWithinLimits};
ghost use Rattle.table_layout.specs.Valid.{IsValid};
ghost use Rattle.table_layout.specs.Values.{layout_view};

use ili_grammar::{ModelSyntax, parse};
use ili_lexer::lex;
use resolver::resolve;
use std::alloc::Global;
use table_layout::{Layout, layout};

fn syntax_of(alloc: Global, text: &[u8]) -> Option<ModelSyntax>
    ensures { IfSome result (λ syntax. IsWithinLimits (model_of syntax)) }
{
    if text.len() > 4_194_304 {
        return None;
    }
    let tokens = lex(alloc, text).ok()?;
    parse(alloc, text, &tokens).ok()
}

/// The layout of a model; none of a text that is no model.
pub fn layout_of(alloc: Global, text: &str) -> Option<Layout>
    ensures { IfSome result (λ layout. IsValid (layout_view layout)) }
{
    let syntax = syntax_of(alloc, text.as_bytes())?;
    let model = resolve(alloc, &syntax).ok()?;
    layout(alloc, &model).ok()
}
