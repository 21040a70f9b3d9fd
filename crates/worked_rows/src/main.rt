//! Worked rows: calls of `delivery::run` over files in memory, with what a reader of the rules
//! expects of each.
//!
//! Each argument names a file of rows in TOML (`rows` says what stands in it). The program runs
//! each row, prints the name of each one with another outcome and what came, and at the end how
//! many rows hold. Its status is 0 exactly where all do.
#![tactic(auto)]

mod expecting;
mod fields;
mod pieces;
mod rows;
mod running;

use expecting::differences;
use rows::{Row, Rows};
use running::{Failure, run_row};
use std::alloc::Global;
use std::env::{Env, FillError};
use std::fs;
use std::process::ExitCode;

// The system gives no name of a file that is longer.
const LONGEST_NAME: usize = 4096;

// Whether the row holds. What differs is printed.
fn holds(rt: &HostRuntime, alloc: Global, rows: &Rows, row: &Row) -> Result<bool, Failure> {
    let (outcome, verified) = run_row(alloc, rows, row)?;
    let differences = differences(alloc, rows, row, &outcome, &verified)?;
    if differences.is_empty() {
        return Ok(true);
    }
    println!(rt; "{}", row.name)?;
    println!(rt; "{}", differences)?;
    Ok(false)
}

// How many rows of the file hold, and whether all do.
fn run_file(rt: &HostRuntime, alloc: Global, name: &str) -> Result<bool, Failure> {
    let text = fs::read_to_string(rt, name)?;
    let file = toml::table_from_str(alloc, &text)?;
    let rows = Rows::read(alloc, &file)?;
    let mut held = 0usize;
    for row in &rows.rows {
        if holds(rt, alloc, &rows, row)? {
            held = held.saturating_add(1);
        }
    }
    println!(rt; "{}: {} of {} rows hold", name, held, rows.rows.len())?;
    Ok(held == rows.rows.len())
}

fn run_files(rt: &HostRuntime, alloc: Global) -> Result<bool, Failure> {
    let mut buffer = vec![in alloc; 0u8; LONGEST_NAME]?;
    let mut all = true;
    for place in 1..usize::MAX {
        let length = match rt.arg(place, &mut buffer) {
            Ok(length) => length,
            Err(FillError::NotPresent) => break,
            Err(FillError::TooLong) => return Err(Failure::Name),
        };
        let name = std::str::from_utf8(&buffer[..length])?;
        all = run_file(rt, alloc, name)? && all;
    }
    Ok(all)
}

fn main(rt: HostRuntime) -> ExitCode {
    match run_files(&rt, rt.alloc()) {
        Ok(true) => ExitCode::from(0),
        Ok(false) => ExitCode::from(1),
        Err(failure) => {
            let _ = println!(rt; "{}", failure);
            ExitCode::from(2)
        }
    }
}
