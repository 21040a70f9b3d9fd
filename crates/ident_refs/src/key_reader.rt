// The keys of a row by the parts of IDENT lists.
ghost use Rattle.std.specs.Prelude.{◌≡◌, ◌+◌, ◌≤◌, ◌<◌, ◌∷◌, ◌-◌, List, None, [], IsTrue};
ghost use Rattle.std.specs.Prelude.{drop, length, take, map, slice_index_or, IfOk};
ghost use Rattle.std.specs.List.{All};
ghost use Rattle.std.specs.Option.{option_map};
ghost use Rattle.ili_grammar.specs.Values.{codes_of};
ghost use Rattle.resolver.specs.Values.{line_of};
ghost use Rattle.table_layout.specs.Values.{columns_view, role_view, table_view};
ghost use Rattle.itf_reader.specs.Views.{row_of, strokes_of};
ghost use Rattle.itf_reader.specs.RowFindings.{widths, is_counted};
ghost use Rattle.ident_refs.specs.ValueViews.{value_view};
ghost use Rattle.ident_refs.specs.KeptRows.{list_key};
ghost use Rattle.ident_refs.specs.KeyFindings.{column_of};
ghost use Rattle.ident_refs.specs.ListValues.{lines_values, row_values};
ghost use Rattle.ident_refs.specs.RowKeys.{part_key};
ghost use Rattle.ident_refs.specs.Spans.{span_view, spans_from};

use super::key_bytes::value_key;
use super::key_cell::KeyCell;
use super::key_values::Value;
use super::values::{form_value, line_value};
use field_values::width;
use ili_grammar::Codes;
use itf_lines::Field;
use itf_reader::{Row, Stroke};
use ports::Memory;
use resolver::Form;
use std::alloc::Global;
use table_layout::{Column, Table};

/// A column: its form, and where its words begin and end among the fields of a row.
#[derive(Drop)]
pub struct Span<'a> {
    pub form: &'a Form,
    pub start: usize,
    pub end: usize,
}

impl<'a> Span<'a> {
    // The words of the column among the fields of a row.
    fn words<'b>(&self, fields: &'b [Field]) -> &'b [Field]
        requires ordered { self.now.start ≤ self.now.end }
        requires within { self.now.end ≤ length fields.now }
        ensures { result.now
            ≡ take (self.now.end - self.now.start) (drop self.now.start fields.now) }
    {
        &fields[self.start..self.end]
    }
}

/// A table, where the words of its columns are, and how many fields a row has with them.
#[derive(Drop)]
pub struct KeyReader<'a> {
    alloc: Global,
    pub codes: &'a Codes,
    pub table: &'a Table,
    spans: Vec<Span<'a>>,
    fields: usize,
    ghost spread: { map span_view spans.items
        ≡ spans_from 1 (columns_view table.now.columns.items) },
    ghost wide: { fields ≡ 1 + widths (columns_view table.now.columns.items) },
    ghost few: { length table.now.columns.items ≤ 4194306 },
}

// Where the words of some columns are, after the identification, and where they end.
fn spans_of<'a>(alloc: Global, columns: &'a [Column]) -> Result<(Vec<Span<'a>>, usize), Memory>
    requires { length columns.now ≤ 4194306 }
    ensures spread { IfOk result (λ r. map span_view r.0.items ≡ spans_from 1
        (columns_view columns.now)) }
    ensures wide { IfOk result (λ r. r.1 ≡ 1 + widths (columns_view columns.now)) }
{
    let mut spans = Vec::with_capacity(alloc, columns.len())?;
    let mut start = 1;
    for column in columns {
        let end = start + width(&column.form);
        spans.push(Span {
            form: &column.form,
            start,
            end,
        })?;
        start = end;
    }
    Ok((spans, start))
}

/// The column of a finding of an IDENT list: that of its first place, counted from 1.
pub fn column_of(places: &[u32]) -> u32
    requires { All (λ p. p < 4194306) places.now }
    ensures { result ≡ column_of places.now }
{
    match places {
        [place, ..] => *place + 1,
        [] => 0,
    }
}

impl<'a> KeyReader<'a> {
    /// For the rows of a table.
    pub fn new(alloc: Global, codes: &'a Codes, table: &'a Table) -> Result<KeyReader<'a>, Memory>
        requires { length table.now.columns.items ≤ 4194306 }
        ensures codes { IfOk result (λ reader. reader.codes.now ≡ codes.now) }
        ensures table { IfOk result (λ reader. reader.table.now ≡ table.now) }
    {
        let (spans, fields) = spans_of(alloc, &table.columns)?;
        Ok(KeyReader {
            alloc,
            codes,
            table,
            spans,
            fields,
        })
    }

    // The value of the line of that number among those that a row has.
    fn line_at<'b>(&self, strokes: &[Stroke], number: usize) -> Result<Option<Value<'b>>, Memory>
        ensures { IfOk result (λ value. option_map value_view value ≡ slice_index_or (lines_values
            (role_view self.now.table.now.role) (map line_of self.now.table.now.lines.items)
            (strokes_of strokes.now)) number None) }
    {
        let Some(form) = self.table.lines.get(number) else {
            return Ok(None);
        };
        let Some(stroke) = strokes.get(number) else {
            return Ok(None);
        };
        line_value(
            self.alloc,
            self.table.role,
            form,
            stroke.vertices.as_slice(),
        )
    }

    // The value at a place: that of a column, or that of a line after the columns.
    fn value_at<'b>(&self, row: &'b Row, place: usize) -> Result<Option<Value<'b>>, Memory>
        requires { IsTrue (is_counted (table_view self.now.table.now) (row_of row.now)) }
        ensures { IfOk result (λ value. option_map value_view value ≡ slice_index_or (row_values
            (codes_of self.now.codes.now) (table_view self.now.table.now) (row_of row.now)) place
            None) }
    {
        match self.spans.get(place) {
            Some(span) => Ok(form_value(span.form, self.codes, span.words(&row.fields))),
            None => self.line_at(&row.strokes.given, place - self.spans.len()),
        }
    }

    /// Whether the row has as many fields as the table asks for.
    pub fn is_counted(&self, row: &Row) -> bool
        ensures { result ≡ is_counted (table_view self.now.table.now) (row_of row.now) }
    {
        row.fields.len() == self.fields
    }

    // The key of a row by one place.
    fn place_key(&self, place: u32, row: &Row) -> Result<KeyCell, Memory>
        ensures { IfOk result (λ key. key ≡ list_key (codes_of self.now.codes.now)
            (table_view self.now.table.now) (place ∷ []) (row_of row.now)) }
    {
        if row.fields.len() != self.fields {
            return KeyCell::new(self.alloc, &[]);
        }
        match self.value_at(row, place as usize)? {
            Some(value) => value_key(self.alloc, &value),
            None => KeyCell::new(self.alloc, &[]),
        }
    }

    // The key of a row by a list without places, one for all rows that are counted.
    fn empty_key(&self, row: &Row) -> Result<KeyCell, Memory>
        ensures { IfOk result (λ key. key ≡ list_key (codes_of self.now.codes.now)
            (table_view self.now.table.now) [] (row_of row.now)) }
    {
        if row.fields.len() != self.fields {
            return KeyCell::new(self.alloc, &[]);
        }
        KeyCell::new(self.alloc, &[3])
    }

    /// The key of a row by a part of a list: a place, or none for a list without places. None
    /// where the row has no value there.
    pub fn key(&self, part: Option<u32>, row: &Row) -> Result<KeyCell, Memory>
        ensures { IfOk result (λ key. key ≡ part_key (codes_of self.now.codes.now)
            (table_view self.now.table.now) (row_of row.now) part) }
    {
        match part {
            Some(place) => self.place_key(place, row),
            None => self.empty_key(row),
        }
    }
}
