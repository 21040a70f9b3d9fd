// Rows that repeat a key of their table.
ghost use Rattle.std.specs.Prelude.{◌≡◌, ◌≤◌, [], None, IfOk, IsTrue, OnOk, false, get_or};
ghost use Rattle.std.specs.Prelude.{length, map, take};
ghost use Rattle.std.specs.List.{list_any, position_from};
ghost use Rattle.ports.specs.SortedKeys.{IsSortedKeys, is_key, key_at};
ghost use Rattle.itf_reader.specs.Findings.{AddsFindings};
ghost use Rattle.ident_refs.specs.DistinctKeys.{AreDistinct, HaveOneKey};
ghost use Rattle.ident_refs.specs.KeptRows.{cell_key, first_line, repeat, repeats, zip_keys};

use super::key_cell::KeyCell;
use itf_reader::{Code, Fault, Finding};
use ports::{Keyed, Memory, Ranked, SortedKeys};
use std::alloc::Global;

/// The lines of the rows of a table, a key of each, and these keys in order.
#[derive(Drop)]
pub struct KeyColumn<'a> {
    pub lines: &'a [u32],
    pub keys: &'a [KeyCell],
    pub sorted: SortedKeys,
    ghost keys_sorted: { IsSortedKeys (map cell_key keys.now) sorted },
}

// The key of a row, no bytes where it has none.
fn key_at(keys: &[KeyCell], place: usize) -> &[u8]
    ensures { result.now ≡ key_at keys.now place }
{
    match keys.get(place) {
        Some(cell) => cell.key().unwrap_or(&[]),
        None => &[],
    }
}

// Whether two rows have one key. Keys of different ranks differ.
fn have_one_key(keys: &[KeyCell], a: &Ranked, b: &Ranked) -> bool
    ensures { result ≡ false → HaveOneKey keys.now a.now b.now → ⊥ }
{
    a.rank == b.rank && key_at(keys, a.place) == key_at(keys, b.place)
}

// Whether no two rows have one key: of the keys in order, no two neighbours.
fn are_distinct(keys: &[KeyCell], sorted: &SortedKeys) -> bool
    requires { IsSortedKeys (map cell_key keys.now) sorted.now }
    ensures { IsTrue result → AreDistinct keys.now }
{
    for place in 1..sorted.ranked.len() {
        if have_one_key(keys, &sorted.ranked[place - 1], &sorted.ranked[place]) {
            return false;
        }
    }
    true
}

// Adds a finding for a row whose key a row before it has.
fn add_repeat(
    findings: &mut Vec<Finding>,
    code: Code,
    column: u32,
    line: u32,
    first: Option<u32>,
) -> Result<(), Memory>
    ensures { OnOk result (AddsFindings findings.old.items findings.new.items
        (repeat code column line first)) }
{
    if let Some(first) = first {
        findings.push(Finding {
            line,
            column,
            fault: Fault::Repeat(code, first),
        })?;
    }
    Ok(())
}

impl<'a> KeyColumn<'a> {
    /// Sorts the keys, in n log n comparisons for every input.
    pub fn new(
        alloc: Global,
        lines: &'a [u32],
        keys: &'a [KeyCell],
    ) -> Result<KeyColumn<'a>, Memory>
        ensures lines { IfOk result (λ column. column.lines.now ≡ lines.now) }
        ensures keys { IfOk result (λ column. column.keys.now ≡ keys.now) }
    {
        let sorted = SortedKeys::new(alloc, keys)?;
        Ok(KeyColumn {
            lines,
            keys,
            sorted,
        })
    }

    /// The place of the first row that has that key, by binary search.
    pub fn first(&self, key: &[u8]) -> Option<usize>
        ensures { result ≡ position_from (is_key key.now) 0 self.now.keys.now }
    {
        self.sorted.first(self.keys, key)
    }

    /// Whether some row has that key, by binary search.
    pub fn has(&self, key: &[u8]) -> bool
        ensures { result ≡ list_any (is_key key.now) self.now.keys.now }
    {
        self.first(key).is_some()
    }

    // The line of the first row before that place which has the key of the row there.
    fn first_before(&self, place: usize) -> Option<u32>
        requires { place ≤ length self.now.lines.now }
        ensures { result ≡ first_line (get_or self.now.keys.now place None) (take place
            (zip_keys self.now.lines.now self.now.keys.now)) }
    {
        let key = self.keys.get(place)?.key()?;
        let first = self.sorted.first(self.keys, key)?;
        if first < place {
            Some(*self.lines.get(first)?)
        } else {
            None
        }
    }

    /// Adds a finding for each row whose key a row before it has, with the line of the first of
    /// these. Where no two rows have one key it takes a walk over the keys, else a search for each
    /// row.
    pub fn add_repeats(
        &self,
        code: Code,
        column: u32,
        findings: &mut Vec<Finding>,
    ) -> Result<(), Memory>
        ensures { OnOk result (AddsFindings findings.old.items findings.new.items
            (repeats code column [] (zip_keys self.now.lines.now self.now.keys.now))) }
    {
        if are_distinct(self.keys, &self.sorted) {
            return Ok(());
        }
        for (place, line) in self.lines.iter().enumerate() {
            add_repeat(findings, code, column, *line, self.first_before(place))?;
        }
        Ok(())
    }
}
