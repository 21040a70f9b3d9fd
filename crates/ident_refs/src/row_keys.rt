// The keys of the rows of a table by the parts of its IDENT lists.
ghost use Rattle.std.specs.Prelude.{◌≡◌, ◌++◌, ◌∷◌, [], length, map, IfOk, OnOk};
ghost use Rattle.std.specs.Option.{option_map};
ghost use Rattle.ili_grammar.specs.Values.{codes_of};
ghost use Rattle.table_layout.specs.Values.{table_view};
ghost use Rattle.itf_reader.specs.Views.{row_of};
ghost use Rattle.ident_refs.specs.RowKeys.{AreSpans, HasParts, key_by, numbered_key, rows_in};
ghost use Rattle.ident_refs.specs.RowKeys.{several_key};

use super::key_bytes::add_ended;
use super::key_cell::KeyCell;
use super::key_reader::KeyReader;
use itf_reader::Row;
use ports::{Keyed, Memory};
use std::alloc::Global;

/// Where the keys of a row begin and end among those of all rows.
#[derive(Clone, Copy)]
pub struct RowSpan {
    pub start: usize,
    pub end: usize,
}

/// The keys of the rows of a table by some parts of IDENT lists, those of a row one after another.
#[derive(Drop)]
pub struct RowKeys {
    pub keys: Vec<KeyCell>,
    pub rows: Vec<RowSpan>,
    ghost spans: { AreSpans (length keys.items) rows.items },
}

/// The keys of a row by some parts. Those after the last one that it has are left out.
pub fn part_keys(
    alloc: Global,
    reader: &KeyReader,
    parts: &[Option<u32>],
    row: &Row,
) -> Result<Vec<KeyCell>, Memory>
    ensures { IfOk result (λ keys. HasParts (codes_of reader.now.codes.now)
        (table_view reader.now.table.now) (row_of row.now) parts.now keys.items) }
{
    if !reader.is_counted(row) {
        return Ok(Vec::new(alloc));
    }
    let mut keys = Vec::with_capacity(alloc, parts.len())?;
    let mut count = 0;
    for (number, part) in parts.iter().enumerate() {
        let key = reader.key(*part, row)?;
        if key.key().is_some() {
            count = number + 1;
        }
        keys.push(key)?;
    }
    keys.truncate(count);
    Ok(keys)
}

// The key by the part of that number, if there is one.
fn numbered_key(keys: &[KeyCell], number: usize) -> Option<&[u8]>
    ensures { option_map (λ bytes. bytes.now) result ≡ numbered_key keys.now number }
{
    keys.get(number)?.key()
}

// The key by several parts, or by none.
fn several_key(alloc: Global, keys: &[KeyCell], numbers: &[usize]) -> Result<KeyCell, Memory>
    ensures { IfOk result (λ key. key ≡ several_key (map (numbered_key keys.now) numbers.now)) }
{
    let mut bytes = Vec::new(alloc);
    bytes.push(3)?;
    for number in numbers {
        match numbered_key(keys, *number) {
            Some(key) => add_ended(&mut bytes, key)?,
            None => return KeyCell::new(alloc, &[]),
        }
    }
    KeyCell::new(alloc, &bytes)
}

// The key by one part.
fn single_key(alloc: Global, keys: &[KeyCell], number: usize) -> Result<KeyCell, Memory>
    ensures { IfOk result (λ key. key ≡ numbered_key keys.now number) }
{
    match keys.get(number) {
        Some(key) => key.copied(alloc),
        None => KeyCell::new(alloc, &[]),
    }
}

// The key of a row by the list whose parts have these numbers.
fn key_by(alloc: Global, keys: &[KeyCell], numbers: &[usize]) -> Result<KeyCell, Memory>
    ensures { IfOk result (λ key. key ≡ key_by numbers.now keys.now) }
{
    match numbers {
        [number] => single_key(alloc, keys, *number),
        _ => several_key(alloc, keys, numbers),
    }
}

impl RowKeys {
    /// No row.
    pub fn new(alloc: Global) -> RowKeys
        ensures { rows_in result.keys.items result.rows.items ≡ [] }
    {
        RowKeys {
            keys: Vec::new(alloc),
            rows: Vec::new(alloc),
        }
    }

    /// Adds the keys of a row.
    pub fn add(&mut self, keys: &mut Vec<KeyCell>) -> Result<(), Memory>
        ensures { OnOk result (rows_in self.new.keys.items self.new.rows.items
            ≡ rows_in self.old.keys.items self.old.rows.items ++ keys.old.items ∷ []) }
    {
        let start = self.keys.len();
        self.keys.append(keys)?;
        self.rows.push(RowSpan {
            start,
            end: self.keys.len(),
        })?;
        Ok(())
    }

    /// The key of each row by the list whose parts have these numbers.
    pub fn keys_by(&self, alloc: Global, numbers: &[usize]) -> Result<Vec<KeyCell>, Memory>
        ensures { IfOk result (λ keys. keys.items
            ≡ map (key_by numbers.now) (rows_in self.now.keys.items self.now.rows.items)) }
    {
        let mut keys = Vec::with_capacity(alloc, self.rows.len())?;
        for row in &self.rows {
            keys.push(key_by(alloc, &self.keys[row.start..row.end], numbers)?)?;
        }
        Ok(keys)
    }
}
