//! The outcome of a call, and the text of its report.
//!
//! An outcome is a status, the lines of a report, and the text of a file where there is one to
//! write. `outcome` makes each of them: wrong words, a file that was not read, a refused model, a
//! compiled one, a transfer with a line at fault or with findings, links with a line at fault, the
//! answers to all areas, those with the points that links state, what filed certificates prove, and
//! a canonical text or that there is none. `report` gives the text of an outcome, line by line.
//!
//! - **The definitions.** `specs/Outcomes` has the outcomes, `specs/Lines` and `specs/Codes` the
//!   words of each line, `specs/Statuses` the number of each status. Lines name curves and objects
//!   by their lines in the transfer, and areas by their topic, table and attribute
//!   (`specs/AreaNames`).
//! - **Order of a report.** Findings come first, or one line for each table or area; then the line
//!   of a trial, if it is one, or those of links, if no area or SURFACE is at fault or undecided;
//!   the verdict is last. A call that could not read or compile, or that met a limit, has one line,
//!   and two for wrong words.
//! - **Kinds of lines** (`specs/Kinds`). One line that names a fault rejects the transfer, else one
//!   that is undecided leaves it undecided, else it is accepted.
//! - **Not here:** which answer an area has, which points are misplaced, whether certificates prove
//!   anything, and the writing.
//!
//! The layer above may use the clauses of these calls and the definitions. Cost: time and memory in
//! proportion to the report, which is made whole, and no memory for a status.
#![tactic(auto)]

mod area_answers;
mod area_names;
mod codes;
mod kinds;
mod lines;
mod links;
pub mod outcome;
mod status;
mod surface_reports;
mod surfaces;
mod text;
mod verification;

pub use area_answers::{Answers, proof_answer};
pub use area_names::{AreaNames, names_of, table_name, topic_name};
pub use kinds::are_fine;
pub use lines::{AreaAnswer, SurfaceAnswer};
pub use links::Misplaced;
pub use status::Status;
pub use surface_reports::{SurfaceReport, surface_report};
pub use surfaces::{SurfaceOf, surfaces_of};
pub use text::report;
pub use verification::Verification;
