// What is wrong with a row, a column or a vertex of a transfer that was read.
ghost use Rattle.std.specs.Prelude.{◌≡◌};
ghost use Rattle.itf_reader.specs.Findings.{code_in};

use itf_lines::Field;

/// Which rule a row, a column or a vertex breaks. The codes are in the order of the report.
#[derive(Clone, Copy, Debug, PartialEq, Eq)]
pub enum Code {
    /// The line of the object has another number of fields than its table needs.
    Count,
    /// A mandatory value is undefined, or only some words of a coordinate are.
    Undefined,
    /// A word that is no number, or one of too many digits.
    Number,
    /// A number with more decimals than its bounds have.
    Decimals,
    /// A number outside its bounds.
    Range,
    /// A text of more bytes than its form allows.
    Text,
    /// Not eight digits with a month from 01 to 12 and a day from 01 to 31.
    Date,
    /// No leaf of the enumeration.
    Enum,
    /// A vertex with another number of fields than its line has axes.
    Coord,
    /// A vertex on an arc, where the line may have none.
    Arcs,
    /// No arc leads over three vertices in their order.
    Arc,
    /// A line of one distinct point.
    Short,
    /// An earlier row of the table has the identification.
    Tid,
    /// An earlier row of the table has the values of an IDENT list.
    Ident,
    /// A reference that names no row of its table.
    Reference,
}

/// Which rule is broken, and what a finding names besides its place.
#[derive(Drop)]
pub enum Fault {
    /// Nothing besides.
    Value(Code),
    /// The line of the earlier row.
    Repeat(Code, u32),
    /// The word that names nothing.
    Reference(Code, Field),
}

/// Something wrong at a line, counted from 1, and in a column, 0 for the identification. It takes
/// 32 bytes.
#[derive(Drop)]
pub struct Finding {
    pub line: u32,
    pub column: u32,
    pub fault: Fault,
}

impl Finding {
    /// The code of the rule that is broken.
    pub fn code(&self) -> Code
        ensures { result ≡ code_in self.now.fault }
    {
        match &self.fault {
            Fault::Value(code) => *code,
            Fault::Repeat(code, _) => *code,
            Fault::Reference(code, _) => *code,
        }
    }
}
