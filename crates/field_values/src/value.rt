// What words stand for, and the rules that they may break.
use super::place::Place;

/// What the words of a column stand for. A word that is no number stands for itself.
#[derive(Clone, Copy)]
pub enum ColumnValue {
    Number(i64),
    Plane(Place),
    Space(Place, i64),
    Word,
}

/// The first rule that words break.
#[derive(Clone, Copy, Debug, PartialEq, Eq)]
pub enum ValueFault {
    /// A word is the undefined word.
    Undefined,
    /// A word that is no number, or one of too many digits.
    Number,
    /// A number with more decimals than its bounds have.
    Decimals,
    /// A number outside its bounds.
    Range,
    /// A text of more bytes than its form allows.
    Text,
    /// Not eight digits with a month from 01 to 12 and a day from 01 to 31.
    Date,
    /// No leaf of the enumeration.
    Enum,
    /// A vertex with another number of fields than its line has axes.
    Coord,
}

/// What a vertex stands for: its place, and its height where its line has one.
#[derive(Clone, Copy)]
pub struct VertexValue {
    pub at: Place,
    pub height: Option<i64>,
}
