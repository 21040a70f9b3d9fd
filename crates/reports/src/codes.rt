// The words of the report for codes.
ghost use Rattle.std.specs.Prelude.{◌≡◌};
ghost use Rattle.itf_reader.specs.Refusals.{fault_of};
ghost use Rattle.reports.specs.Codes.{code_text, syntax_text, model_text, refusal_text};
ghost use Rattle.reports.specs.Codes.{structure_text};

use commands::RefusalCode;
use ili_grammar::SyntaxCode;
use itf_reader::{Code, Structure};
use resolver::ModelCode;

fn syntax_text(code: SyntaxCode) -> &'static [u8]
    ensures { result.now ≡ syntax_text code }
{
    match code {
        SyntaxCode::Expected => b"expected",
        SyntaxCode::EndName => b"endname",
        SyntaxCode::FixFormat => b"fixformat",
        SyntaxCode::Views => b"views",
        SyntaxCode::LineForm => b"lineform",
        SyntaxCode::Scaling => b"scaling",
        SyntaxCode::Codes => b"codes",
        SyntaxCode::Deep => b"deep",
    }
}

fn model_text(code: ModelCode) -> &'static [u8]
    ensures { result.now ≡ model_text code }
{
    match code {
        ModelCode::Unknown => b"unknown",
        ModelCode::Twice => b"twice",
        ModelCode::NotTable => b"nottable",
        ModelCode::Cycle => b"cycle",
        ModelCode::Bounds => b"bounds",
        ModelCode::Decimals => b"decimals",
        ModelCode::Wide => b"wide",
        ModelCode::NotCoord => b"notcoord",
        ModelCode::LineAttr => b"lineattr",
        ModelCode::IdentUnknown => b"identunknown",
    }
}

/// Why a model is refused.
pub fn refusal_text(code: RefusalCode) -> &'static [u8]
    ensures { result.now ≡ refusal_text code }
{
    match code {
        RefusalCode::BadByte => b"badbyte",
        RefusalCode::OpenExplanation => b"openexplanation",
        RefusalCode::LongNumber => b"longnumber",
        RefusalCode::Syntax(code) => syntax_text(code),
        RefusalCode::Names(code) => model_text(code),
    }
}

/// Why a line of a transfer is at fault.
pub fn structure_text(code: Structure) -> &'static [u8]
    ensures { result.now ≡ structure_text (fault_of code) }
{
    match code {
        Structure::Word => b"word",
        Structure::Motr => b"motr",
        Structure::Name => b"name",
        Structure::Twice => b"twice",
        Structure::End => b"end",
        Structure::Continue => b"continue",
        Structure::Cont => b"cont",
    }
}

/// What a finding says.
pub fn code_text(code: Code) -> &'static [u8]
    ensures { result.now ≡ code_text code }
{
    match code {
        Code::Count => b"count",
        Code::Undefined => b"undefined",
        Code::Number => b"number",
        Code::Decimals => b"decimals",
        Code::Range => b"range",
        Code::Text => b"text",
        Code::Date => b"date",
        Code::Enum => b"enum",
        Code::Coord => b"coord",
        Code::Arcs => b"arcs",
        Code::Arc => b"arc",
        Code::Short => b"short",
        Code::Tid => b"tid",
        Code::Ident => b"ident",
        Code::Reference => b"reference",
    }
}
