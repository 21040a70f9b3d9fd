// The values of a row.
ghost use Rattle.std.specs.Prelude.{◌≡◌, ◌+◌, ◌++◌, length, IfOk, OnOk};
ghost use Rattle.ili_grammar.specs.Values.{codes_of};
ghost use Rattle.table_layout.specs.Values.{lines_view, role_view, table_view};
ghost use Rattle.itf_reader.specs.Few.{HasFew};
ghost use Rattle.itf_reader.specs.Findings.{AddsFindings};
ghost use Rattle.itf_reader.specs.LeftOut.{mandatory_from};
ghost use Rattle.itf_reader.specs.RowFindings.{is_counted, lines_findings, row_findings};
ghost use Rattle.itf_reader.specs.RowReadings.{Reads, lines_heights, lines_vertices, vertices_view};
ghost use Rattle.itf_reader.specs.Views.{all_strokes, row_of};

use super::columns::read_columns;
use super::counting::is_counted;
use super::lines::{add_left_out, mandatory_lines, read_given};
use super::report::report;
use super::values::RowValues;
use crate::findings::{Code, Finding};
use crate::transfer::Row;
use ili_grammar::Codes;
use ports::Memory;
use std::alloc::Global;
use table_layout::Table;

/// How the rows of a table are read: the table, and which of its lines are mandatory.
#[derive(Drop)]
pub struct RowReader<'a> {
    pub table: &'a Table,
    mandatory: Vec<u32>,
    ghost few: { HasFew (table_view table.now) },
    ghost numbers: { mandatory.items ≡ mandatory_from 0 (lines_view table.now.lines.items) },
}

impl<'a> RowReader<'a> {
    /// For the rows of a table. The only error is out of memory.
    pub fn new(alloc: Global, table: &'a Table) -> Result<RowReader<'a>, Memory>
        requires { HasFew (table_view table.now) }
        ensures { IfOk result (λ reader. reader.table.now ≡ table.now) }
    {
        let mandatory = mandatory_lines(alloc, &table.lines)?;
        Ok(RowReader { table, mandatory })
    }

    // Reads the lines of a row, and adds what is wrong with them. Of those that it leaves out only
    // the mandatory ones are looked at.
    fn read_lines(
        &self,
        row: &Row,
        values: &mut RowValues,
        findings: &mut Vec<Finding>,
    ) -> Result<(), Memory>
        ensures cells { OnOk result (values.new.cells.items ≡ values.old.cells.items) }
        ensures vertices { OnOk result (vertices_view values.new.vertices.items ≡ vertices_view
            values.old.vertices.items ++ lines_vertices (lines_view self.now.table.now.lines.items)
            (all_strokes row.now.strokes)) }
        ensures heights { OnOk result (values.new.heights.items ≡ values.old.heights.items ++
            lines_heights (lines_view self.now.table.now.lines.items)
            (all_strokes row.now.strokes)) }
        ensures findings { OnOk result (AddsFindings findings.old.items findings.new.items
            (lines_findings (role_view self.now.table.now.role) row.now.line
            (1 + length self.now.table.now.columns.items)
            (lines_view self.now.table.now.lines.items) (all_strokes row.now.strokes))) }
    {
        let table = self.table;
        let first = 1 + table.columns.len() as u32;
        read_given(
            table.role,
            row.line,
            first,
            &table.lines,
            &row.strokes.given,
            values,
            findings,
        )?;
        add_left_out(row.line, first, &self.mandatory, &row.strokes, findings)?;
        Ok(())
    }

    /// Reads the words and vertices of a row, each once, adds what is wrong with them, and answers
    /// whether the row has as many words as its table needs. With another number of words nothing
    /// is read, and it has no other finding. The only error is out of memory. It takes time linear
    /// in the row, its findings and the mandatory lines that it has, and no memory beside its
    /// values and findings.
    pub fn read(
        &self,
        codes: &Codes,
        row: &Row,
        values: &mut RowValues,
        findings: &mut Vec<Finding>,
    ) -> Result<bool, Memory>
        ensures counted { IfOk result (λ counted. counted ≡ is_counted
            (table_view self.now.table.now) (row_of row.now)) }
        ensures values { OnOk result (Reads (codes_of codes.now) (table_view self.now.table.now)
            (row_of row.now) values.new) }
        ensures findings { OnOk result (AddsFindings findings.old.items findings.new.items
            (row_findings (codes_of codes.now) (table_view self.now.table.now) (row_of row.now))) }
    {
        values.clear();
        if !is_counted(self.table, row) {
            report(findings, row.line, 0, Some(Code::Count))?;
            return Ok(false);
        }
        let words = &row.fields[1..];
        read_columns(
            codes,
            row.line,
            &self.table.columns,
            words,
            &mut values.cells,
            findings,
        )?;
        self.read_lines(row, values, findings)?;
        Ok(true)
    }
}
