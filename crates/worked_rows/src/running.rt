//! A row's call of `run`.

use super::pieces::Pieces;
use super::rows::{Change, Row, Rows};
use delivery::{Word, run};
use ports::{Memory, MemoryShelf, MemorySink, Shelf};
use std::alloc::{AllocError, AllocFailed, Global};
use std::str::Utf8Error;
use std::{fmt, io};

/// Why the rows of a file were not run.
#[derive(Drop)]
pub enum Failure {
    /// A name of a file that is too long or no text.
    Name,
    /// Out of memory.
    Memory,
    /// The file was not read, or the output not taken.
    Io,
    /// The file is no TOML.
    Form(toml::de::Error),
    /// A field of that name is missing where it has to be, or has another type than `rows` says.
    Field(&'static str),
    /// A field of that name is nowhere in `rows`, or stands in another table.
    Unknown(String),
    /// A row names a text or a file that is not there.
    Missing(String),
    /// A text that a row changes is not exactly once in its file.
    Change(String),
}

impl fmt::Display for Failure {
    fn fmt<W: fmt::Write>(&self, f: &mut fmt::Formatter<W>) -> fmt::Result {
        match self {
            Failure::Name => f.write_str("the name of a file is too long or no text"),
            Failure::Memory => f.write_str("out of memory"),
            Failure::Io => f.write_str("a file was not read, or the output not taken"),
            Failure::Form(error) => write!(f, "{}", error),
            Failure::Field(name) => write!(f, "the field {} is missing or has another type", name),
            Failure::Unknown(name) => write!(f, "a table has no field of the name {}", name),
            Failure::Missing(name) => write!(f, "no text has the name {}", name),
            Failure::Change(old) => write!(f, "this is not once in the file: {}", old),
        }
    }
}

impl From<Memory> for Failure {
    fn from(_: Memory) -> Self {
        Failure::Memory
    }
}

impl From<AllocError> for Failure {
    fn from(_: AllocError) -> Self {
        Failure::Memory
    }
}

impl<T: Drop> From<AllocFailed<T>> for Failure {
    fn from(_: AllocFailed<T>) -> Self {
        Failure::Memory
    }
}

impl From<io::Error> for Failure {
    fn from(_: io::Error) -> Self {
        Failure::Io
    }
}

impl From<toml::de::Error> for Failure {
    fn from(error: toml::de::Error) -> Self {
        Failure::Form(error)
    }
}

impl From<Utf8Error> for Failure {
    fn from(_: Utf8Error) -> Self {
        Failure::Name
    }
}

/// What a call left: its exit status, what the output gained, and the three files.
#[derive(Drop)]
pub struct Outcome {
    pub status: u8,
    pub report: Vec<u8>,
    pub model: Option<Vec<u8>>,
    pub transfer: Option<Vec<u8>>,
    pub certificate: Option<Vec<u8>>,
}

// The text of that name.
fn text_of<'a>(alloc: Global, rows: &Rows<'a>, name: &str) -> Result<&'a str, Failure> {
    match rows.texts.iter().find(|text| text.name == name) {
        Some(text) => Ok(text.text),
        None => Err(Failure::Missing(String::from_str(alloc, name)?)),
    }
}

// The most that is read of a file.
const LONGEST_FILE: usize = 65_536;

// The words of a command over the three files.
fn command(alloc: Global, name: &str) -> Result<Vec<Word>, Failure> {
    let mut words = Vec::new(alloc);
    for text in [name, "M", "T", "C"] {
        words.push(Word::new(alloc, text)?)?;
    }
    Ok(words)
}

fn words_of(alloc: Global, texts: &[&str]) -> Result<Vec<Word>, Failure> {
    let mut words = Vec::new(alloc);
    for text in texts {
        words.push(Word::new(alloc, text)?)?;
    }
    Ok(words)
}

/// What the file holds before the call: the text of that name, with its changes.
pub fn before(
    alloc: Global,
    rows: &Rows,
    row: &Row,
    file: &str,
    name: Option<&str>,
) -> Result<Option<String>, Failure> {
    let Some(name) = name else {
        return Ok(None);
    };
    let mut text = String::from_str(alloc, text_of(alloc, rows, name)?)?;
    for change in &row.files.changes {
        if change.file == file {
            text = changed(alloc, &text, change)?;
        }
    }
    Ok(Some(text))
}

fn changed(alloc: Global, text: &str, change: &Change) -> Result<String, Failure> {
    if text.matches(change.old).count() != 1 {
        return Err(Failure::Change(String::from_str(alloc, change.old)?));
    }
    Ok(text.replace(alloc, change.old, change.new)?)
}

// Adds the file with the text of that name, if there is one, with its changes.
fn add_file(
    alloc: Global,
    files: &mut MemoryShelf,
    rows: &Rows,
    row: &Row,
    file: &str,
    name: Option<&str>,
) -> Result<(), Failure> {
    if let Some(text) = before(alloc, rows, row, file, name)? {
        files.with_file(file, text.as_bytes())?;
    }
    Ok(())
}

// The files before the call, with the calls that fail.
fn shelf_of(alloc: Global, rows: &Rows, row: &Row) -> Result<Pieces, Failure> {
    let mut files = MemoryShelf::new(alloc);
    add_file(alloc, &mut files, rows, row, "M", row.files.model)?;
    add_file(alloc, &mut files, rows, row, "T", row.files.transfer)?;
    add_file(alloc, &mut files, rows, row, "C", row.files.certificate)?;
    for call in &row.call.failing_shelf_calls {
        files.fail_call(*call)?;
    }
    Ok(Pieces {
        files,
        most: row.call.bytes_a_read,
        faults: 0,
    })
}

fn sink_of(alloc: Global, row: &Row) -> Result<MemorySink, Failure> {
    let mut out = MemorySink::new(alloc);
    for call in &row.call.failing_puts {
        out.fail_call(*call)?;
    }
    Ok(out)
}

// What the file holds, nothing where there is none.
fn held(alloc: Global, files: &mut MemoryShelf, name: &str) -> Result<Option<Vec<u8>>, Failure> {
    let mut buffer = vec![in alloc; 0u8; LONGEST_FILE]?;
    match files.read(name, 0, &mut buffer) {
        Ok(length) => Ok(Some(buffer[..length.min(LONGEST_FILE)].to_vec(alloc)?)),
        Err(_) => Ok(None),
    }
}

// A call with these words over the files, and what it left.
fn call(
    alloc: Global,
    words: &[Word],
    shelf: &mut Pieces,
    out: &mut MemorySink,
) -> Result<Outcome, Failure> {
    let status = run(alloc, words, shelf, out);
    Ok(Outcome {
        status: status.number(),
        report: out.bytes().to_vec(alloc)?,
        model: held(alloc, &mut shelf.files, "M")?,
        transfer: held(alloc, &mut shelf.files, "T")?,
        certificate: held(alloc, &mut shelf.files, "C")?,
    })
}

/// What the call of the row left, and what a call of `verify` left after it, if the row asks for
/// one.
pub fn run_row(
    alloc: Global,
    rows: &Rows,
    row: &Row,
) -> Result<(Outcome, Option<Outcome>), Failure> {
    let words = match &row.call.words {
        Some(texts) => words_of(alloc, texts)?,
        None => command(alloc, "check")?,
    };
    let mut shelf = shelf_of(alloc, rows, row)?;
    let mut out = sink_of(alloc, row)?;
    let outcome = call(alloc, &words, &mut shelf, &mut out)?;
    if !row.expected.certified {
        return Ok((outcome, None));
    }
    let words = command(alloc, "verify")?;
    let verified = call(alloc, &words, &mut shelf, &mut MemorySink::new(alloc))?;
    Ok((outcome, Some(verified)))
}
