//! The program: the words of the command line, real files, and the standard output.
//!
//! It hands the words to `delivery::answer`, whose contract says what each number means, and ends
//! with that number. Nothing goes to standard error. A word that is not UTF-8 is
//! handed over as the empty word, which no command takes. Where the words do not fit into memory
//! the program ends with 8, as `run` does.
#![tactic(auto)]

#[cfg(test)]
mod tests;

use commands::program_words;
use delivery::{Status, answer};
use ports::{Memory, RealShelf, RealSink};
use std::process::ExitCode;

fn main(rt: HostRuntime) -> ExitCode {
    let alloc = rt.alloc();
    let number = match program_words(&rt, alloc) {
        Ok(words) => answer(
            alloc,
            &words,
            &mut RealShelf::new(rt),
            &mut RealSink::new(rt),
        ),
        Err(Memory) => Status::Memory.number(),
    };
    ExitCode::from(number)
}
