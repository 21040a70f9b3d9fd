// The columns of a row.
ghost use Rattle.std.specs.Prelude.{◌≡◌, ◌≤◌, ◌++◌, ◌∷◌, [], length};
ghost use Rattle.std.specs.List.{list_all};
ghost use Rattle.std.specs.Result.{OnOk};
ghost use Rattle.ili_grammar.specs.Values.{codes_of};
ghost use Rattle.resolver.specs.Values.{form_of};
ghost use Rattle.table_layout.specs.Values.{column_view, columns_view};
ghost use Rattle.field_values.specs.Fields.{is_undefined, width};
ghost use Rattle.field_values.specs.Readings.{column_reading};
ghost use Rattle.itf_reader.specs.Findings.{AddsFindings};
ghost use Rattle.itf_reader.specs.RowFindings.{column_code, columns_findings, field_code, widths};
ghost use Rattle.itf_reader.specs.RowReadings.{cell_by, cell_of, cell_view, cells_of, cells_view};
ghost use Rattle.itf_reader.specs.StrokeFindings.{finding_at};

use super::report::{code_of, report};
use super::values::Cell;
use crate::findings::{Code, Finding};
use field_values::{is_undefined, read_column, width};
use ili_grammar::Codes;
use itf_lines::Field;
use ports::Memory;
use resolver::Form;
use table_layout::Column;

// A column, and what fails at it: in an optional one not that all its words are the undefined word.
fn read_cell(codes: &Codes, column: &Column, words: &[Field]) -> (Cell, Option<Code>)
    requires { length words.now ≡ width (form_of column.now.form) }
    ensures cell { cell_view result.0 ≡ cell_of (codes_of codes.now) (column_view column.now)
        words.now }
    ensures code { result.1 ≡ column_code (codes_of codes.now) (column_view column.now) words.now }
{
    if column.optional && are_undefined(codes, words) {
        return (Cell::Undefined, None);
    }
    read_mandatory(codes, &column.form, words)
}

fn read_mandatory(codes: &Codes, form: &Form, words: &[Field]) -> (Cell, Option<Code>)
    requires { length words.now ≡ width (form_of form.now) }
    ensures cell { cell_view result.0 ≡ cell_by (column_reading (form_of form.now)
        (codes_of codes.now) words.now) }
    ensures code { result.1 ≡ field_code (form_of form.now) (codes_of codes.now) words.now }
{
    match read_column(form, codes, words) {
        Ok(value) => (Cell::Sound(value), None),
        Err(fault) => (Cell::Faulty, Some(code_of(fault))),
    }
}

fn are_undefined(codes: &Codes, words: &[Field]) -> bool
    ensures { result ≡ list_all (is_undefined (codes_of codes.now)) words.now }
{
    words.iter().all(|word| is_undefined(codes, word.bytes()))
}

// Adds a column of that number, and what is wrong with it.
fn add_column(
    codes: &Codes,
    line: u32,
    number: u32,
    column: &Column,
    words: &[Field],
    cells: &mut Vec<Cell>,
    findings: &mut Vec<Finding>,
) -> Result<(), Memory>
    requires { length words.now ≡ width (form_of column.now.form) }
    ensures cells { OnOk result (cells_view cells.new.items ≡ cells_view cells.old.items ++ cell_of
        (codes_of codes.now) (column_view column.now) words.now ∷ []) }
    ensures findings { OnOk result (AddsFindings findings.old.items findings.new.items
        (finding_at line number
        (column_code (codes_of codes.now) (column_view column.now) words.now))) }
{
    let (cell, failed) = read_cell(codes, column, words);
    cells.push(cell)?;
    report(findings, line, number, failed)
}

/// Reads all columns of a row in that line, and adds what is wrong with them.
pub fn read_columns(
    codes: &Codes,
    line: u32,
    columns: &[Column],
    words: &[Field],
    cells: &mut Vec<Cell>,
    findings: &mut Vec<Finding>,
) -> Result<(), Memory>
    requires counted { length words.now ≡ widths (columns_view columns.now) }
    requires few { length columns.now ≤ 4194306 }
    ensures cells { OnOk result (cells_view cells.new.items ≡ cells_view cells.old.items ++ cells_of
        (codes_of codes.now) (columns_view columns.now) words.now) }
    ensures findings { OnOk result (AddsFindings findings.old.items findings.new.items
        (columns_findings (codes_of codes.now) line 1 (columns_view columns.now) words.now)) }
{
    let mut number = 1;
    let mut rest = words;
    for column in columns {
        let (own, after) = rest.split_at(width(&column.form));
        add_column(codes, line, number, column, own, cells, findings)?;
        number += 1;
        rest = after;
    }
    Ok(())
}
