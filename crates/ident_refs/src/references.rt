// Words that name rows of other tables.
ghost use Rattle.std.specs.Prelude.{◌≡◌, ◌≤◌, ◌++◌, [], drop, length, slice_index_or, OnOk};
ghost use Rattle.std.specs.List.{list_any, position_from};
ghost use Rattle.ports.specs.SortedKeys.{is_key};
ghost use Rattle.ili_grammar.specs.Values.{codes_of};
ghost use Rattle.resolver.specs.Values.{form_of};
ghost use Rattle.table_layout.specs.Values.{columns_view, table_view};
ghost use Rattle.field_values.specs.Fields.{width};
ghost use Rattle.itf_reader.specs.Findings.{AddsFindings};
ghost use Rattle.itf_reader.specs.RowFindings.{widths};
ghost use Rattle.itf_reader.specs.Views.{row_of};
ghost use Rattle.ident_refs.specs.KeptRows.{column_refs, columns_refs, ref_findings, row_refs};
ghost use Rattle.ident_refs.specs.KeptRows.{ref_names};
ghost use Rattle.ident_refs.specs.KeptViews.{ref_view, refs_view, ids_view, named_view};
ghost use Rattle.ident_refs.specs.KeyFindings.{referred_table};

use super::key_bytes::word_key;
use super::key_cell::KeyCell;
use super::repeats::KeyColumn;
use field_values::{is_undefined, width};
use ili_grammar::Codes;
use itf_lines::Field;
use itf_reader::{Code, Fault, Finding, Row, is_counted};
use ports::{Keyed, Memory};
use resolver::Form;
use std::alloc::Global;
use table_layout::{Column, Table};

/// A reference: the line of its row, its column, its table, and the key of the identification
/// that it names.
#[derive(Drop)]
pub struct KeptRef {
    pub line: u32,
    pub column: u32,
    pub table: u32,
    pub word: KeyCell,
}

/// A row that a reference names: the line of the row that has the reference, and the place of the
/// named row among those of its table, none where no row has that identification.
#[derive(Clone, Copy)]
pub struct NamedRow {
    pub line: u32,
    pub row: Option<usize>,
}

// Adds the reference of a column, if it refers to a table and its word is defined.
fn add_column(
    alloc: Global,
    codes: &Codes,
    form: &Form,
    line: u32,
    number: u32,
    words: &[Field],
    refs: &mut Vec<KeptRef>,
) -> Result<(), Memory>
    requires { length words.now ≡ width (form_of form.now) }
    ensures { OnOk result (refs_view refs.new.items ≡ refs_view refs.old.items ++ column_refs
        (codes_of codes.now) line number (referred_table (form_of form.now)) words.now) }
{
    match (form, words) {
        (Form::Reference(table), [word]) if !is_undefined(codes, word.bytes()) => {
            refs.push(KeptRef {
                line,
                column: number,
                table: *table,
                word: word_key(alloc, word.bytes())?,
            })?;
        }
        _ => {}
    }
    Ok(())
}

// Adds the references of some columns.
fn add_columns(
    alloc: Global,
    codes: &Codes,
    columns: &[Column],
    line: u32,
    words: &[Field],
    refs: &mut Vec<KeptRef>,
) -> Result<(), Memory>
    requires few { length columns.now ≤ 4194306 }
    requires counted { length words.now ≡ widths (columns_view columns.now) }
    ensures { OnOk result (refs_view refs.new.items ≡ refs_view refs.old.items ++ columns_refs
        (codes_of codes.now) line 1 (columns_view columns.now) words.now) }
{
    let mut left = words;
    for (place, column) in columns.iter().enumerate() {
        let (own, rest) = left.split_at(width(&column.form));
        add_column(
            alloc,
            codes,
            &column.form,
            line,
            place as u32 + 1,
            own,
            refs,
        )?;
        left = rest;
    }
    Ok(())
}

/// Adds the references of a row. One with a wrong number of words refers to nothing.
pub fn add_refs(
    alloc: Global,
    codes: &Codes,
    table: &Table,
    row: &Row,
    refs: &mut Vec<KeptRef>,
) -> Result<(), Memory>
    requires few { length table.now.columns.items ≤ 4194306 }
    ensures { OnOk result (refs_view refs.new.items ≡ refs_view refs.old.items ++ row_refs
        (codes_of codes.now) (table_view table.now) (row_of row.now)) }
{
    if is_counted(table, row) {
        add_columns(
            alloc,
            codes,
            &table.columns,
            row.line,
            &row.fields[1..],
            refs,
        )?;
    }
    Ok(())
}

// The place of the first row of the table of that number which has the key.
fn place_in(ids: &[KeyColumn], table: u32, key: &[u8]) -> Option<usize>
    ensures { result ≡ position_from (is_key key.now) 0
        (slice_index_or (ids_view ids.now) table []) }
{
    match ids.get(table as usize) {
        Some(column) => column.first(key),
        None => None,
    }
}

// Whether a row of the table of that number has the key.
fn is_named(ids: &[KeyColumn], table: u32, key: &[u8]) -> bool
    ensures { result ≡ list_any (is_key key.now) (slice_index_or (ids_view ids.now) table []) }
{
    match ids.get(table as usize) {
        Some(column) => column.has(key),
        None => false,
    }
}

// The word of a key.
fn word_of(key: &[u8]) -> &[u8]
    ensures { result.now ≡ drop 1 key.now }
{
    match key {
        [_, word @ ..] => word,
        [] => &[],
    }
}

/// Adds a finding for a reference that names no row, by the identifications of all tables.
pub fn add_dangling(
    alloc: Global,
    ids: &[KeyColumn],
    reference: &KeptRef,
    findings: &mut Vec<Finding>,
) -> Result<(), Memory>
    ensures { OnOk result (AddsFindings findings.old.items findings.new.items
        (ref_findings (ids_view ids.now) (ref_view reference.now))) }
{
    if let Some(key) = reference.word.key() {
        if !is_named(ids, reference.table, key) {
            findings.push(Finding {
                line: reference.line,
                column: reference.column,
                fault: Fault::Reference(Code::Reference, Field::new(alloc, word_of(key))?),
            })?;
        }
    }
    Ok(())
}

/// Adds the row that a reference names, if it stands in that column, by the identifications of all
/// tables.
pub fn add_named(
    ids: &[KeyColumn],
    column: u32,
    reference: &KeptRef,
    named: &mut Vec<NamedRow>,
) -> Result<(), Memory>
    ensures { OnOk result (named_view named.new.items ≡ named_view named.old.items
        ++ ref_names (ids_view ids.now) column (ref_view reference.now)) }
{
    if reference.column != column {
        return Ok(());
    }
    if let Some(key) = reference.word.key() {
        named.push(NamedRow {
            line: reference.line,
            row: place_in(ids, reference.table, key),
        })?;
    }
    Ok(())
}
