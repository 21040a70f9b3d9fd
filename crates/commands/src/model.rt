// The text of a model becomes its layout, or is refused.
ghost use Rattle.std.specs.Prelude.{◌≡◌, ◌≤◌, length, IfOk, Some};
ghost use Rattle.ili_lexer.specs.Places.{line_after, column_after};
ghost use Rattle.ili_grammar.specs.Slices.{bytes_of};
ghost use Rattle.ili_grammar.specs.Values.{model_of};
ghost use Rattle.ili_grammar.specs.Limits.{IsWithinLimits};
ghost use Rattle.commands.specs.ModelTexts.{wordless, lex_refusal, word_of, token_refusal};
ghost use Rattle.commands.specs.ModelTexts.{end_refusal};
ghost use Rattle.commands.specs.RefusalViews.{refusal_of, IsReading, IsSmallReading};
ghost use Rattle.commands.specs.RefusalViews.{IsModelReading, IsValidReading, IsNameRefusal};
ghost use Rattle.commands.specs.RefusalViews.{IsLaidOut};

use crate::refusals::{Refusal, RefusalCode};
use ili_grammar::{ModelSyntax, SyntaxCode, SyntaxFault, parse};
use ili_lexer::{Kind, LexFault, Token, end_place, lex};
use ports::Memory;
use resolver::{ModelFault, resolve};
use std::alloc::Global;
use table_layout::{Layout, layout};

/// What a model's text is, as far as its tokens and its grammar go.
#[derive(Drop)]
pub enum Reading {
    Syntax(ModelSyntax),
    Refused(Refusal),
}

/// What a model's text is.
#[derive(Drop)]
pub enum ModelReading {
    Laid(Layout),
    Refused(Refusal),
}

// A refusal that names no token.
fn wordless(alloc: Global, code: RefusalCode, line: u32, column: u32) -> Result<Refusal, Memory>
    ensures { IfOk result (λ refusal. refusal_of refusal ≡ wordless code line column) }
{
    Ok(Refusal {
        code,
        line,
        column,
        word: b"-".to_vec(alloc)?,
    })
}

// The refusal of a text that is not cut into tokens.
fn lex_refusal(alloc: Global, fault: LexFault) -> Result<Refusal, Memory>
    ensures { IfOk result (λ refusal. lex_refusal fault ≡ Some (refusal_of refusal)) }
{
    match fault {
        LexFault::BadByte { line, column } => wordless(alloc, RefusalCode::BadByte, line, column),
        LexFault::OpenExplanation { line, column } => {
            wordless(alloc, RefusalCode::OpenExplanation, line, column)
        }
        LexFault::LongNumber { line, column } => {
            wordless(alloc, RefusalCode::LongNumber, line, column)
        }
        LexFault::Memory => Err(Memory),
    }
}

// What a report calls a token.
fn word_of<'a>(text: &'a [u8], token: &Token) -> &'a [u8]
    ensures { result.now ≡ word_of token.now.kind (bytes_of text.now token.now) }
{
    match token.kind {
        Kind::Explanation => b"//",
        _ => token.bytes(text),
    }
}

// The refusal of a token.
fn token_refusal(
    alloc: Global,
    text: &[u8],
    code: SyntaxCode,
    token: &Token,
) -> Result<Refusal, Memory>
    ensures { IfOk result (λ refusal. refusal_of refusal ≡ token_refusal text.now code token.now) }
{
    Ok(Refusal {
        code: RefusalCode::Syntax(code),
        line: token.line,
        column: token.column,
        word: word_of(text, token).to_vec(alloc)?,
    })
}

// The refusal of a text that ends too soon.
fn end_refusal(alloc: Global, text: &[u8], code: SyntaxCode) -> Result<Refusal, Memory>
    requires { length text.now ≤ 4194304 }
    ensures { IfOk result (λ refusal. refusal_of refusal ≡ end_refusal text.now code) }
{
    let (line, column) = end_place(text);
    wordless(alloc, RefusalCode::Syntax(code), line, column)
}

// Reads the syntax that a model's text spells.
fn read_syntax(alloc: Global, text: &[u8]) -> Result<Reading, Memory>
    requires { length text.now ≤ 4194304 }
    ensures reads { IfOk result (λ reading. IsReading text.now reading) }
    ensures small { IfOk result (λ reading. IsSmallReading reading) }
{
    let tokens = match lex(alloc, text) {
        Ok(tokens) => tokens,
        Err(fault) => return Ok(Reading::Refused(lex_refusal(alloc, fault)?)),
    };
    match parse(alloc, text, &tokens) {
        Ok(syntax) => Ok(Reading::Syntax(syntax)),
        Err(SyntaxFault::Memory) => Err(Memory),
        Err(SyntaxFault::At { code, token: None }) => {
            Ok(Reading::Refused(end_refusal(alloc, text, code)?))
        }
        Err(
            SyntaxFault::At {
                code,
                token: Some(at),
            },
        ) => {
            let token = &tokens[at as usize];
            Ok(Reading::Refused(token_refusal(alloc, text, code, token)?))
        }
    }
}

// The refusal of a model whose names and types break a rule.
fn fault_refusal(alloc: Global, fault: ModelFault) -> Result<Refusal, Memory>
    ensures { IfOk result (λ refusal. IsNameRefusal fault (refusal_of refusal)) }
{
    match fault {
        ModelFault::At { code, name } => Ok(Refusal {
            code: RefusalCode::Names(code),
            line: name.line,
            column: name.column,
            word: name.text.bytes().to_vec(alloc)?,
        }),
        ModelFault::Memory => Err(Memory),
    }
}

// The layout of a model by its syntax, or the first broken rule on its names and types.
fn lay_out(alloc: Global, syntax: &ModelSyntax) -> Result<ModelReading, Memory>
    requires { IsWithinLimits (model_of syntax.now) }
    ensures laid { IfOk result (λ reading. IsLaidOut (model_of syntax.now) reading) }
    ensures valid { IfOk result (λ reading. IsValidReading reading) }
{
    match resolve(alloc, syntax) {
        Ok(model) => Ok(ModelReading::Laid(layout(alloc, &model)?)),
        Err(fault) => Ok(ModelReading::Refused(fault_refusal(alloc, fault)?)),
    }
}

/// Reads the model that a text spells, and lays its tables out.
pub fn read_model(alloc: Global, text: &[u8]) -> Result<ModelReading, Memory>
    requires { length text.now ≤ 4194304 }
    ensures reads { IfOk result (λ reading. IsModelReading text.now reading) }
    ensures valid { IfOk result (λ reading. IsValidReading reading) }
{
    match read_syntax(alloc, text)? {
        Reading::Syntax(syntax) => lay_out(alloc, &syntax),
        Reading::Refused(refusal) => Ok(ModelReading::Refused(refusal)),
    }
}
