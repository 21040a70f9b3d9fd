//! What stands in a file of rows. A field that has no name here is an error, as is one of another
//! type.

use super::fields::{
    list, list_if_any, number_if_any, numbers, only, small_number, switch, table_of, text,
    text_if_any, texts_of,
};
use super::running::Failure;
use std::alloc::Global;
use toml::{Table, Value};

/// Texts that rows name, and the rows.
#[derive(Drop)]
pub struct Rows<'a> {
    pub texts: Vec<Text<'a>>,
    pub rows: Vec<Row<'a>>,
}

/// A text under a name.
#[derive(Clone, Copy)]
pub struct Text<'a> {
    pub name: &'a str,
    pub text: &'a str,
}

/// A call of `run`: its words, the files M, T and C before it, and what is expected. M and T are
/// never changed, and C is as before where nothing is said of it.
#[derive(Drop)]
pub struct Row<'a> {
    pub name: &'a str,
    pub call: Call<'a>,
    pub files: Files<'a>,
    pub expected: Expected<'a>,
}

/// The call of a row.
#[derive(Drop)]
pub struct Call<'a> {
    /// The words, `check M T C` where there are none.
    pub words: Option<Vec<&'a str>>,
    /// The calls of the file store and of the output that fail, each counted from 1.
    pub failing_shelf_calls: Vec<u64>,
    pub failing_puts: Vec<u64>,
    /// The most bytes that a read gives, 0 for as many as are asked for.
    pub bytes_a_read: u64,
}

/// The files before the call.
#[derive(Drop)]
pub struct Files<'a> {
    /// The name of the text that M holds; without one there is no file M. So for T and C.
    pub model: Option<&'a str>,
    pub transfer: Option<&'a str>,
    pub certificate: Option<&'a str>,
    /// What is changed in these files before the call.
    pub changes: Vec<Change<'a>>,
}

/// What the call leaves.
#[derive(Clone, Copy)]
pub struct Expected<'a> {
    /// What the output gained.
    pub report: &'a str,
    /// The exit status.
    pub status: u8,
    /// What C holds after the call.
    pub filed: Option<&'a str>,
    /// What C begins with after the call.
    pub filed_front: Option<&'a str>,
    /// C holds certificates that `verify` accepts after the call, with the same report.
    pub certified: bool,
}

/// A text that is in a file exactly once, and what is put in its place.
#[derive(Clone, Copy)]
pub struct Change<'a> {
    pub file: &'a str,
    pub old: &'a str,
    pub new: &'a str,
}

// The fields of a row.
const ROW_FIELDS: [&str; 14] = [
    "name",
    "words",
    "failing_shelf_calls",
    "failing_puts",
    "bytes_a_read",
    "model",
    "transfer",
    "certificate",
    "changes",
    "report",
    "status",
    "filed",
    "filed_front",
    "certified",
];

impl<'a> Rows<'a> {
    /// The rows of a file.
    pub fn read(alloc: Global, file: &'a Table) -> Result<Rows<'a>, Failure> {
        only(alloc, file, &["texts", "rows"])?;
        let texts = Text::read_all(alloc, list(file, "texts")?)?;
        let rows = match list_if_any(file, "rows")? {
            Some(list) => Row::read_all(alloc, list)?,
            None => return Err(Failure::Field("rows")),
        };
        Ok(Rows { texts, rows })
    }
}

impl<'a> Text<'a> {
    fn read(alloc: Global, table: &'a Table) -> Result<Text<'a>, Failure> {
        only(alloc, table, &["name", "text"])?;
        Ok(Text {
            name: text(table, "name")?,
            text: text(table, "text")?,
        })
    }

    fn read_all(alloc: Global, list: &'a [Value]) -> Result<Vec<Text<'a>>, Failure> {
        let mut texts = Vec::new(alloc);
        for value in list {
            texts.push(Text::read(alloc, table_of(value, "texts")?)?)?;
        }
        Ok(texts)
    }
}

impl<'a> Row<'a> {
    fn read(alloc: Global, table: &'a Table) -> Result<Row<'a>, Failure> {
        only(alloc, table, &ROW_FIELDS)?;
        Ok(Row {
            name: text(table, "name")?,
            expected: Expected::read(table)?,
            call: Call::read(alloc, table)?,
            files: Files::read(alloc, table)?,
        })
    }

    fn read_all(alloc: Global, list: &'a [Value]) -> Result<Vec<Row<'a>>, Failure> {
        let mut rows = Vec::new(alloc);
        for value in list {
            rows.push(Row::read(alloc, table_of(value, "rows")?)?)?;
        }
        Ok(rows)
    }
}

// The words of a row, if it has some.
fn words<'a>(alloc: Global, row: &'a Table) -> Result<Option<Vec<&'a str>>, Failure> {
    match list_if_any(row, "words")? {
        Some(list) => Ok(Some(texts_of(alloc, list, "words")?)),
        None => Ok(None),
    }
}

impl<'a> Call<'a> {
    fn read(alloc: Global, row: &'a Table) -> Result<Call<'a>, Failure> {
        Ok(Call {
            bytes_a_read: number_if_any(row, "bytes_a_read")?.unwrap_or(0),
            words: words(alloc, row)?,
            failing_shelf_calls: numbers(alloc, row, "failing_shelf_calls")?,
            failing_puts: numbers(alloc, row, "failing_puts")?,
        })
    }
}

impl<'a> Files<'a> {
    fn read(alloc: Global, row: &'a Table) -> Result<Files<'a>, Failure> {
        Ok(Files {
            model: text_if_any(row, "model")?,
            transfer: text_if_any(row, "transfer")?,
            certificate: text_if_any(row, "certificate")?,
            changes: Change::read_all(alloc, list(row, "changes")?)?,
        })
    }
}

impl<'a> Expected<'a> {
    fn read(row: &'a Table) -> Result<Expected<'a>, Failure> {
        Ok(Expected {
            report: text(row, "report")?,
            status: small_number(row, "status")?,
            filed: text_if_any(row, "filed")?,
            filed_front: text_if_any(row, "filed_front")?,
            certified: switch(row, "certified")?,
        })
    }
}

impl<'a> Change<'a> {
    fn read(alloc: Global, table: &'a Table) -> Result<Change<'a>, Failure> {
        only(alloc, table, &["file", "old", "new"])?;
        Ok(Change {
            file: text(table, "file")?,
            old: text(table, "old")?,
            new: text(table, "new")?,
        })
    }

    fn read_all(alloc: Global, list: &'a [Value]) -> Result<Vec<Change<'a>>, Failure> {
        let mut changes = Vec::new(alloc);
        for value in list {
            changes.push(Change::read(alloc, table_of(value, "changes")?)?)?;
        }
        Ok(changes)
    }
}
