//! What a row expects, beside what came.

use super::rows::{Expected, Row, Rows};
use super::running::{Failure, Outcome, before};
use std::alloc::Global;
use std::fmt::Write;

fn shown(bytes: &[u8]) -> &str {
    std::str::from_utf8(bytes).unwrap_or("bytes that are no text")
}

fn shown_file(file: &Option<Vec<u8>>) -> &str {
    match file {
        Some(bytes) => shown(bytes),
        None => "no file",
    }
}

fn holds_text(file: &Option<Vec<u8>>, text: &str) -> bool {
    file.as_ref()
        .is_some_and(|bytes| bytes.as_slice() == text.as_bytes())
}

fn begins_with(file: &Option<Vec<u8>>, text: &str) -> bool {
    file.as_ref()
        .is_some_and(|bytes| bytes.starts_with(text.as_bytes()))
}

// The file is as it was before.
fn is_kept(file: &Option<Vec<u8>>, before: &Option<String>) -> bool {
    match before {
        Some(text) => holds_text(file, text),
        None => file.is_none(),
    }
}

// The certificates are as they are expected.
fn are_filed(alloc: Global, rows: &Rows, row: &Row, outcome: &Outcome) -> Result<bool, Failure> {
    let file = &outcome.certificate;
    if let Some(text) = row.expected.filed {
        return Ok(holds_text(file, text));
    }
    if let Some(text) = row.expected.filed_front {
        return Ok(begins_with(file, text));
    }
    if row.expected.certified {
        return Ok(true);
    }
    let kept = before(alloc, rows, row, "C", row.files.certificate)?;
    Ok(is_kept(file, &kept))
}

// The files that are only read are as before.
fn are_kept(alloc: Global, rows: &Rows, row: &Row, outcome: &Outcome) -> Result<bool, Failure> {
    let model = before(alloc, rows, row, "M", row.files.model)?;
    let transfer = before(alloc, rows, row, "T", row.files.transfer)?;
    Ok(is_kept(&outcome.model, &model) && is_kept(&outcome.transfer, &transfer))
}

// Adds what differs in the answer and the report.
fn add_answer(text: &mut String, expected: &Expected, outcome: &Outcome) -> Result<(), Failure> {
    if outcome.status != expected.status {
        write!(text, "status {}\n", outcome.status)?;
    }
    if outcome.report.as_slice() != expected.report.as_bytes() {
        write!(text, "report\n{}", shown(&outcome.report))?;
    }
    Ok(())
}

/// What differs from what the row expects, nothing where it holds.
pub fn differences(
    alloc: Global,
    rows: &Rows,
    row: &Row,
    outcome: &Outcome,
    verified: &Option<Outcome>,
) -> Result<String, Failure> {
    let mut text = String::new(alloc);
    add_answer(&mut text, &row.expected, outcome)?;
    if !are_filed(alloc, rows, row, outcome)? {
        write!(text, "certificates\n{}", shown_file(&outcome.certificate))?;
    }
    if !are_kept(alloc, rows, row, outcome)? {
        text.push_str("the model or the transfer was changed\n")?;
    }
    if let Some(verified) = verified {
        add_answer(&mut text, &row.expected, verified)?;
    }
    Ok(text)
}
