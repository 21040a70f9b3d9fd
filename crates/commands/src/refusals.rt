// Why a model is refused.
use ili_grammar::SyntaxCode;
use resolver::ModelCode;

/// Why a model is refused.
#[derive(Clone, Copy)]
pub enum RefusalCode {
    /// No token begins here.
    BadByte,
    /// An explanation has no end.
    OpenExplanation,
    /// A number has too many digits.
    LongNumber,
    /// With this token the text begins no model.
    Syntax(SyntaxCode),
    /// A rule on names and types is broken at this name.
    Names(ModelCode),
}

/// A refusal, the line and the column of what is at fault, both from 1, and the token there, or
/// a dash where there is none.
#[derive(Drop)]
pub struct Refusal {
    pub code: RefusalCode,
    pub line: u32,
    pub column: u32,
    pub word: Vec<u8>,
}
