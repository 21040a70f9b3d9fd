// The rows of a text, in the order of the layout.
ghost use Rattle.std.specs.Prelude.{◌≡◌, ◌++◌, OnOk, IfOk, replicate, []};
ghost use Rattle.table_layout.specs.Values.{layout_view};
ghost use Rattle.itf_reader.specs.ClosedRows.{by_table, pairs, all_pairs};
ghost use Rattle.itf_reader.specs.ReadRows.{read_rows, read_table_view, read_tables_view};
ghost use Rattle.itf_reader.specs.Layouts.{form_of};
ghost use Rattle.itf_reader.specs.Placing.{with_rows};
ghost use Rattle.itf_reader.specs.Views.{rows_of, tables_rows_of, transfer_of};

use super::read_tables::{ReadTable, ReadTables};
use crate::transfer::{Row, TableRows, Transfer};
use ports::Memory;
use std::alloc::Global;
use table_layout::Layout;

// `count` tables without rows.
fn empty_tables(alloc: Global, count: usize) -> Result<Vec<TableRows>, Memory>
    ensures { IfOk result (λ tables. tables_rows_of tables.items ≡ replicate count []) }
{
    let mut tables = Vec::with_capacity(alloc, count)?;
    for _ in 0..count {
        tables.push(TableRows {
            rows: Vec::new(alloc),
        })?;
    }
    Ok(tables)
}

// Puts rows before those of a table, which mostly has none.
fn put_in_front(table: &mut TableRows, rows: Vec<Row>) -> Result<(), Memory>
    ensures { OnOk result (rows_of table.new.rows.items ≡ rows_of rows.items ++
        rows_of table.old.rows.items) }
{
    let mut all = rows;
    all.append(&mut table.rows)?;
    table.rows = all;
    Ok(())
}

// Puts the rows of a table that was read in its place, before those that are there.
fn put(tables: &mut [TableRows], read: ReadTable) -> Result<(), Memory>
    ensures { OnOk result (tables_rows_of tables.new ≡ with_rows 0 (pairs (read_table_view read))
        (tables_rows_of tables.old)) }
{
    let place = read.table as usize;
    if place < tables.len() {
        put_in_front(&mut tables[place], read.rows)?;
    }
    Ok(())
}

// Puts the rows of all tables that were read, from the last one on, so that they keep their order.
fn put_tables(tables: &mut [TableRows], read: Vec<ReadTable>) -> Result<(), Memory>
    ensures { OnOk result (tables_rows_of tables.new ≡ with_rows 0
        (all_pairs (read_tables_view read.items)) (tables_rows_of tables.old)) }
{
    let mut left = read;
    while let Some(table) = left.pop() {
        put(tables, table)?;
    }
    Ok(())
}

/// The rows of each table in the order of the layout.
pub fn transfer_by_layout(
    alloc: Global,
    layout: &Layout,
    read: ReadTables,
) -> Result<Transfer, Memory>
    ensures { IfOk result (λ transfer. transfer_of transfer ≡ by_table
        (form_of (layout_view layout.now)) (read_rows read)) }
{
    let mut tables = empty_tables(alloc, layout.tables.len())?;
    put(&mut tables, read.last)?;
    put_tables(&mut tables, read.tables)?;
    Ok(Transfer { tables })
}
