// The values of a transfer.
ghost use Rattle.std.specs.Prelude.{◌≡◌, IfOk, OnOk};
ghost use Rattle.std.specs.List.{All};
ghost use Rattle.ili_grammar.specs.Values.{codes_of};
ghost use Rattle.table_layout.specs.Values.{layout_view, table_view, tables_view};
ghost use Rattle.table_layout.specs.Valid.{IsValid};
ghost use Rattle.itf_reader.specs.Few.{HasFew};
ghost use Rattle.itf_reader.specs.Findings.{AddsFindings, findings_of};
ghost use Rattle.itf_reader.specs.Views.{rows_of, tables_rows_of, transfer_of};
ghost use Rattle.domain_rules.specs.ValueFindings.{table_findings, tables_findings, value_findings};

use ili_grammar::Codes;
use itf_reader::{Finding, Row, RowReader, RowValues, TableRows, Transfer, sort_findings};
use ports::Memory;
use std::alloc::Global;
use table_layout::{Layout, Table};

/// What is wrong with the values of a transfer that was read for the layout, in order of line,
/// column and code. The only error is out of memory.
pub fn check_values(
    alloc: Global,
    layout: &Layout,
    transfer: &Transfer,
) -> Result<Vec<Finding>, Memory>
    requires { IsValid (layout_view layout.now) }
    ensures { IfOk result (λ findings. findings_of findings.items ≡ value_findings
        (layout_view layout.now) (transfer_of transfer.now)) }
{
    let mut values = RowValues::new(alloc);
    let mut findings = Vec::new(alloc);
    add_tables(
        alloc,
        &layout.codes,
        &layout.tables,
        &transfer.tables,
        &mut values,
        &mut findings,
    )?;
    sort_findings(&mut findings)?;
    Ok(findings)
}

// Adds what is wrong with the rows of each table.
fn add_tables(
    alloc: Global,
    codes: &Codes,
    tables: &[Table],
    transfer: &[TableRows],
    values: &mut RowValues,
    findings: &mut Vec<Finding>,
) -> Result<(), Memory>
    requires { All HasFew (tables_view tables.now) }
    ensures { OnOk result (AddsFindings findings.old.items findings.new.items
        (tables_findings (codes_of codes.now) (tables_view tables.now)
        (tables_rows_of transfer.now))) }
{
    for (table, objects) in tables.iter().zip(transfer) {
        let reader = RowReader::new(alloc, table)?;
        add_rows(codes, &reader, &objects.rows, values, findings)?;
    }
    Ok(())
}

// The values of a row are kept up to the next one.
fn add_rows(
    codes: &Codes,
    reader: &RowReader,
    rows: &[Row],
    values: &mut RowValues,
    findings: &mut Vec<Finding>,
) -> Result<(), Memory>
    ensures { OnOk result (AddsFindings findings.old.items findings.new.items
        (table_findings (codes_of codes.now) (table_view reader.now.table.now)
        (rows_of rows.now))) }
{
    for row in rows {
        reader.read(codes, row, values, findings)?;
    }
    Ok(())
}
