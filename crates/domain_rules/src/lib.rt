//! The values of a transfer: whether the words of its rows and the vertices of its lines are what
//! the model allows.
//!
//! `check_values` goes over the rows of all tables and reports what is wrong with their values, in
//! order of line, column and code (INTERLIS 1, SN 612030, the domains of attributes). `field_ok`
//! asks the same of a mandatory column alone. Words are read by `field_values`, rows by a
//! `RowReader` of `itf_reader`.
//!
//! - **Rows.** A row has one word for its identification and those of its columns, else `Count` is
//!   reported at column 0 and nothing else. Its columns have the numbers from 1 on, its lines those
//!   after them, and each column has at most one finding, by the first test that fails. An
//!   optional column may have undefined words alone.
//! - **Vertices** have at most one finding each: that of the first field which is no number within
//!   the bounds of its axis; else `Coord`, where there are more or fewer fields than axes; else
//!   `Arcs`, for an ARCP of a line that may have no arcs.
//! - **Lines** without vertices are undefined, which only an optional one may be. Where all
//!   vertices are clean, a line of an AREA has more than one point (`Short`, reported where it
//!   begins), and each ARCP makes an arc with the vertices beside it (`Arc`, reported where the
//!   arc ends): the ends are two places, and where the three places lie on one straight, the middle
//!   one lies between the ends or on one of them. Places are compared by their numbers, `1.0` as
//!   `1.00`, and by x and y alone.
//! - **What is proved.** The answer of `check_values` is `value_findings`, which goes over tables
//!   and rows (`row_findings` of `itf_reader`). `field_ok` answers none exactly where no word is
//!   undefined and the words are a value of the form (`Meets`). Where nothing is found, each vertex
//!   and each point of an area lies in its window, and each arc is one (`clean_places`). Rows that
//!   are judged one after another have the findings of the whole transfer (`fed_values`).
//! - **What it asks.** `check_values` asks for a valid layout, as `layout` gives it. It is made for
//!   a transfer that was read for this layout, but does not ask for that: rows of tables that the
//!   layout lacks are not looked at.
//! - **Not here:** whether identifications and IDENT values repeat, and whether a reference names a
//!   row. By its form each word is an identification.
//! - **Degenerate cases:** a row may have no word and a vertex no field. A line of one vertex has
//!   one point and no arc.
//!
//! Cost: `check_values` reads each word once and copies none. It holds the values of one row at a
//! time and its findings, which it sorts. `field_ok` takes time linear in its words and no memory.
#![tactic(auto)]

mod field;
mod laws;
mod values;

pub use field::field_ok;
pub use laws::{clean_places, fed_values};
pub use values::check_values;
