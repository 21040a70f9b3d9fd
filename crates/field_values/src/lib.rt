//! The words of a transfer as values: what a word stands for by the form of its column, and what a
//! vertex stands for by its line (INTERLIS 1, SN 612030, the domains of attributes).
//!
//! `read_column` reads the words of a column, `read_vertex` those of a vertex. Each word is read
//! once: the answer is the value, or the first rule that the words break.
//!
//! - **The undefined word** is the one byte of the model's code. It comes before all else, also
//!   where it would be a good value: where the code is `5`, the word `5` is undefined, and `05` is
//!   a number. One undefined word makes a whole coordinate undefined. A vertex has no undefined
//!   word.
//! - **Numbers** are judged word by word: no number or too long a one, then too many decimals,
//!   then out of the bounds, both of which are allowed.
//! - **Texts** are counted in bytes. **Dates** are eight digits with a month from 01 to 12 and a
//!   day from 01 to 31; neither the year nor the length of the month is looked at.
//! - **Leaves** of an enumeration are numbered from 0 and written in digits alone, with no zero in
//!   front. Horizontal alignments have three leaves, vertical ones five.
//! - **Vertices** break at most one rule: that of the first field which is no number within the
//!   bounds of its axis; else `Coord`, where there are more or fewer fields than axes. A field
//!   without an axis is not judged as a number.
//! - **Places** are compared by their numbers, `1.0` as `1.00`. No arc leads over three of them
//!   whose ends are one place, or which lie on one straight, the middle one outside of the ends.
//! - **What is proved.** Each answer is a function of `specs/`: `field_fault` and `value_of` by
//!   cases on the form, `vertex_fault` and `numbers_on`. A column has no fault exactly where no
//!   word is undefined and the words are a value of the form (`Meets`), a number being what has a
//!   value between its bounds. The words that are leaves are the decimal spellings of the numbers
//!   from 0 on (`leaves_are_spelled`).
//! - **Not here:** optional columns, rows, lines of vertices, and whether a reference names a row.
//!   As far as its form goes each word is an identification.
//! - **Degenerate cases:** a word may have no byte: it is then a text or an identification, and no
//!   other value. It may have thousands of digits: they are no leaf, and too long a number if
//!   leading zeros are not counted. `-0` is the number 0, and no leaf. A vertex may have no field.
//!
//! Cost: time linear in the words, and no memory.
#![tactic(auto)]

mod columns;
mod forms;
mod laws;
mod leaves;
mod numbers;
mod place;
mod places;
mod value;
mod vertices;
mod words;

pub use columns::read_column;
pub use forms::width;
pub use laws::{columns_are_met, leaves_are_spelled};
pub use place::Place;
pub use places::{is_no_arc, is_same_place};
pub use value::{ColumnValue, ValueFault, VertexValue};
pub use vertices::read_vertex;
pub use words::is_undefined;
