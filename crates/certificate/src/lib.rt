//! The text of certificates, both ways.
//!
//! A certificate is what an office files as the proof that the objects of an AREA attribute part
//! the plane: the order of the edges when a line sweeps over them, what region lies on either side
//! of each, and in which region each object's point lies. This crate turns a list of certificates
//! into the bytes of the public format, version 2, and back; version 1, which has no word for the
//! bent drawing, is read too. `docs/certificate-format.md` gives the format and the rules by which
//! a certificate is judged.
//!
//! - **The definition.** `specs/Spelling.antt` has the text as a function of the version and the
//!   list. Its lines are words with one blank between, and LF after each line.
//! - **`write`** appends exactly that text to the named file and changes no other. It takes no
//!   memory: its parts are put into a page on the stack, which is appended when it is full
//!   (`file_pages`), so that some two hundred lines go out in one call. After a failure the file
//!   has a front of the text. It does not fail where the shelf has space for the text.
//! - **`read`** gives the one list that the bytes spell in either version, or the first bad line:
//!   `Short` where the text ends before it, `Number` where it has its form but a number with a
//!   leading zero or one above 4,294,967,295, `Line` where it has not its form. `specs/Parts.antt`
//!   has the forms.
//! - **`CertFeed`** takes a text piece by piece, wherever it is cut, and gives the same list or the
//!   same first bad line as `read` of the whole text. Whole lines are read as they come; held are a
//!   piece and the front of a line.
//! - **`numbers_fit`** says that a certificate has a spelling where it has three names and counts
//!   below 2^32, so that `read` gives a list of fewer than 2^32 such back from its text.
//! - **Degenerate cases.** The empty list has two lines. A last line without LF, a line after the
//!   list, a level above 255, a version but 1 and 2, an empty name and anything but 0 and 1 for
//!   whether a certificate is of the bent drawing are bad lines of the kind `Line`. An empty text
//!   is short of line 1. What is read of version 1 is of no bent drawing.
//! - **Not here:** whether a certificate proves anything. A level of 200, names of no area and a
//!   cycle of links are read and written like others.
//! - **Cost.** `read` and `write` are linear in the text, `numbers_fit` in the certificate, for
//!   which it takes no memory. `read` grows its lists by the lines that come, never by a count
//!   that the text promises, so time and memory are bounded by the text's length whatever its
//!   counts say. A number is read digit by digit, whatever its length, in one pass.
//!
//! The layer above may use the clauses of these calls and the two laws.
#![tactic(auto)]

mod fault;
mod feed;
mod fitting;
mod forms;
mod laws;
mod lines;
mod notes;
mod parts;
mod reading;
mod sections;
mod stages;
mod text;
mod writing;

pub use fault::CertFault;
pub use feed::CertFeed;
pub use fitting::numbers_fit;
pub use laws::{one_list, one_pairing};
pub use notes::{Certificate, HalfNote, Link, PointPlace};
pub use reading::read;
pub use writing::write;
