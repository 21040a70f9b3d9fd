//! The rows of a transfer: which logical lines may follow each other, and what they hold.
//!
//! A text is a line SCNT, free lines, a line of four slashes, MTID, MODL with the model's name,
//! topics with tables with objects with strokes, EMOD and ENDE (INTERLIS 1, SN 612030, free
//! format). Each topic and each table of a topic comes at most once, in any order, and an object
//! has at most as many strokes as its table has lines.
//!
//! - **What is proved.** The form is a relation by cases on whole lists of lines
//!   (`TransferText`). Some lines are the text of at most one transfer (`one_transfer`). A machine
//!   that takes line after line takes exactly what begins a text (`machine_begins`), comes to its
//!   end exactly with a text (`machine_reads`), and stops at the first line with which no text
//!   begins, with the first code that fits it (`machine_stops`). So each list of lines, with its
//!   fault of continuation, is read or refused, never both, and refused at one line with one code
//!   (`one_answer`). What a code means is a relation of the lines alone (`HasCode`): whether a
//!   line of that word may come there at all is asked of the form with further topics and tables,
//!   so that a line TOPI is no wrong word where every topic was read.
//! - **Rows.** Each row has as many strokes as its table has lines (`strokes_counted`), and the
//!   rows that lines close one after another are those of the transfer (`rows_by_table`). In each
//!   table the lines of rows and of their vertices rise (`lines_rise`). A line with the code
//!   `twice` names what an earlier line named (`named_before`).
//! - **Reading.** `read_transfer` takes the lines of a text one after another, by the names of a
//!   layout, and keeps what is open between two of them. It gives the rows of each table in the
//!   order of the layout, none for a table that is not in the text, each row with as many strokes
//!   as its table has lines; or the line at fault and its code. Its answer is exact: it is a
//!   transfer only where the lines are its text, and a refusal only where they are refused at
//!   that line with that code. The only other answer is out of memory.
//! - **In pieces.** A `TransferFeed` takes the lines in pieces: whatever follows them, the answer
//!   is that from its new state on, so that the cut does not matter. A `RowFeed` takes one line
//!   after another, shows each row when it is closed, and keeps none but that. From the opening
//!   both give the answer of the lines, and the rows that are shown are all of them
//!   (`from_the_opening`). `read_transfer` is one feed.
//! - **What lines it takes.** Those that `logical_lines` gives by the layout's codes. Any other
//!   lines are read by the same rules, as if they were such.
//! - **Names.** A line names the first topic, or the first table of the open topic, that has its
//!   one field as its name. A layout of a model has each name once.
//! - **Not here:** how many fields a line must have, beside those that name a model, a topic or a
//!   table, and what fields mean.
//! - **Degenerate cases:** a text may have no topic, a topic no table, a table no object. Before
//!   the line of four slashes each word may come, and after ENDE none.
//!
//! Cost: `Names` sorts the names of a layout, n log n for every layout, and each line TOPI or TABL
//! looks one up by binary search. A feed goes over the lines once: a `RowFeed` moves their fields,
//! and a `TransferFeed` copies them. The strokes that an object leaves out are counted and not
//! made, so that it costs nothing how many lines its table has. A vertex takes 12 bytes, and 16
//! for each of its fields. A `RowFeed` holds the open row and the one that was closed last, and
//! the numbers of the topics and tables so far; the lists of a row's fields and strokes are used
//! again. A `TransferFeed` holds all rows, each moved out of the feed below, and sorts the names
//! anew for each piece. A `RowReader` finds the mandatory lines of its table once; reading a row
//! then takes time in proportion to its words and vertices, to those mandatory lines that it has
//! strokes for, and to its findings.
#![tactic(auto)]

mod fields;
mod findings;
mod laws;
mod machine;
mod order;
mod reading;
mod refusal;
mod row_feed;
mod rows;
mod transfer;
mod transfer_feed;
mod vertices;

pub use findings::{Code, Fault, Finding};
pub use laws::{
    from_the_opening, lines_rise, machine_begins, machine_reads, machine_stops, named_before,
    one_answer, one_transfer, rows_by_table, strokes_counted,
};
pub use machine::Names;
pub use order::sort_findings;
pub use reading::read_transfer;
pub use refusal::ReadRefusal;
pub use row_feed::RowFeed;
pub use rows::{Cell, ReadVertex, RowReader, RowValues, code_of, is_counted, is_sound_line};
pub use transfer::{Row, Stroke, Strokes, Structure, TableRows, Transfer, VertexKind};
pub use transfer_feed::TransferFeed;
pub use vertices::{Vertex, VertexSlice, Vertices};
