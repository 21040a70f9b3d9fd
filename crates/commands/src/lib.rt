//! What a call is asked for: the words of a command, the files that it reads, the model among them,
//! and the files of a trial, which are made in memory.
//!
//! - **Words.** `command_of` gives the one command that the words spell: `compile M`,
//!   `check M T C`, `verify M T C`, `trial N C`, `polygons M T P`, `canonical M T O` or
//!   `points M T L`. Names of files are not empty and do not begin with a minus, and N is a number
//!   from 1 to 500 without sign or leading zero. All other words spell none. A command has one
//!   `Task`: what is done once its model is compiled, where the transfer comes from, and which file
//!   is read or written besides. `program_words` has the words of the process.
//! - **Files.** `read_file` reads a file whole, in pieces of 65,536 bytes, and refuses one past its
//!   limit: 4,194,304 bytes for a model, 268,435,456 for a transfer, 1,073,741,824 for
//!   certificates, 65,536 for links. It fails only where a count of faults rose, and not where the
//!   file is readable.
//!   `read_pieces` hands the pieces of one, as they come, to whoever takes them (`Taker`).
//! - **Models.** `read_model` turns a text into the layout of its tables, or names the first fault,
//!   of its tokens, of its grammar or of its names and types, with code, line, column and word.
//! - **Trials.** `trial` has the size that a word spells and the two texts of a grid of n times n
//!   cells.
//! - **`Text`** grows part by part and takes memory only when its room is full; trials and reports
//!   are made in it.
//!
//! `specs/Commands` says which files each task reads and writes, and `specs/Gathering` what is
//! read of them all. The layer above may use these and the clauses of the calls here.
//!
//! Cost: reading is linear in the files and holds one whole; a model costs what `resolver` and
//! `table_layout` say; a trial is linear in its number of cells.
#![tactic(auto)]

mod command;
mod file_pieces;
mod files;
mod model;
mod process;
mod refusals;
mod taking;
mod task;
mod text;
pub mod trial;
mod word;

pub use command::{Command, FileNames, Verb, command_of, is_file_name};
pub use files::{File, FileRefusal, read_file};
pub use model::{ModelReading, read_model};
pub use process::program_words;
pub use refusals::{Refusal, RefusalCode};
pub use taking::{Taker, read_pieces};
pub use task::{Filed, Target, Task, TransferSource};
pub use text::Text;
pub use word::Word;
