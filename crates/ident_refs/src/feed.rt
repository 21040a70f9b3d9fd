// The keys and references of a transfer whose rows come one after another.
ghost use Rattle.std.specs.Prelude.{◌≡◌, ◌≤◌, ◌++◌, ◌∷◌, ℕ, List, [], length, map, IfOk, OnOk};
ghost use Rattle.std.specs.Prelude.{slice_index_or};
ghost use Rattle.std.specs.List.{All};
ghost use Rattle.ili_grammar.specs.Values.{codes_of};
ghost use Rattle.table_layout.specs.Layouts.{Layout as GivenLayout};
ghost use Rattle.table_layout.specs.Valid.{IsValid};
ghost use Rattle.table_layout.specs.Values.{layout_view, tables_view};
ghost use Rattle.itf_reader.specs.ClosedRows.{by_table};
ghost use Rattle.itf_reader.specs.Few.{HasFew};
ghost use Rattle.itf_reader.specs.Forms.{Row as GivenRow};
ghost use Rattle.itf_reader.specs.Layouts.{form_of};
ghost use Rattle.itf_reader.specs.Views.{row_of, rows_of, tables_rows_of};
ghost use Rattle.ident_refs.specs.FedRows.{HasPlaces, fed_rows, fed_tables, row_at};
ghost use Rattle.ident_refs.specs.KeptRows.{all_lines, no_rows};
ghost use Rattle.ident_refs.specs.KeptViews.{HasRows, all_kept_view};
ghost use Rattle.ident_refs.specs.KeysOfRows.{HasKeys};

use super::sorted::Keys;
use super::table_keys::TableKeys;
use ili_grammar::Codes;
use itf_reader::{Row, TableRows};
use ports::Memory;
use std::alloc::Global;
use table_layout::{Layout, Table, TableId};

/// What is kept of the rows of a transfer: for each row its line and its identification, its keys
/// at the places of IDENT lists of its table, and its references.
#[derive(Drop)]
pub struct KeyFeed<'a> {
    alloc: Global,
    tables: Vec<TableKeys<'a>>,
}

// The tables of a layout, without rows.
fn empty_tables<'a>(
    alloc: Global,
    codes: &'a Codes,
    tables: &'a [Table],
) -> Result<Vec<TableKeys<'a>>, Memory>
    requires few { All HasFew (tables_view tables.now) }
    requires places { All HasPlaces (tables_view tables.now) }
    ensures { IfOk result (λ kept. all_kept_view kept.items ≡ map (no_rows (codes_of codes.now))
        (tables_view tables.now)) }
{
    let mut kept = Vec::with_capacity(alloc, tables.len())?;
    for table in tables {
        kept.push(TableKeys::new(alloc, codes, table)?)?;
    }
    Ok(kept)
}

// Adds a row to the table at that place, if there is one.
fn add_at(tables: &mut [TableKeys], place: usize, row: &Row) -> Result<(), Memory>
    ensures { OnOk result (all_kept_view tables.new ≡ row_at place (row_of row.now)
        (all_kept_view tables.old)) }
{
    if place < tables.len() {
        tables[place].add_row(row)?;
    }
    Ok(())
}

// Adds rows to the table at that place.
fn add_rows(tables: &mut [TableKeys], place: usize, rows: &[Row]) -> Result<(), Memory>
    ensures { OnOk result (all_kept_view tables.new ≡ fed_rows place (rows_of rows.now)
        (all_kept_view tables.old)) }
{
    for row in rows {
        add_at(tables, place, row)?;
    }
    Ok(())
}

/// The lines of the rows of the table at that place, none where there is no such table.
pub fn lines_at<'a>(tables: &'a [TableKeys], place: usize) -> &'a [u32]
    ensures { result.now ≡ slice_index_or (all_lines (all_kept_view tables.now)) place [] }
{
    match tables.get(place) {
        Some(table) => &table.lines,
        None => &[],
    }
}

impl<'a> KeyFeed<'a> {
    /// No row. The only error is out of memory.
    pub fn new(alloc: Global, layout: &'a Layout) -> Result<KeyFeed<'a>, Memory>
        requires { IsValid (layout_view layout.now) }
        ensures { IfOk result (λ feed. HasRows (layout_view layout.now) feed []) }
    {
        let tables = empty_tables(alloc, &layout.codes, &layout.tables)?;
        Ok(KeyFeed { alloc, tables })
    }

    /// Adds a row of that table. Nothing is kept of a row whose table the layout lacks. After an
    /// error, which is out of memory, nothing is said of the feed.
    pub fn add_row(&mut self, table: TableId, row: &Row) -> Result<(), Memory>
        ensures { OnOk result ((l : GivenLayout) (rows : List (ℕ × GivenRow))
            → HasRows l self.old rows
            → HasRows l self.new (rows ++ (table.0, row_of row.now) ∷ [])) }
    {
        add_at(&mut self.tables, table.0 as usize, row)?;
        Ok(())
    }

    /// How many rows of that table were added, none of a table that the layout lacks.
    pub fn row_count(&self, table: TableId) -> usize
        ensures { (l : GivenLayout) (rows : List (ℕ × GivenRow))
            → HasRows l self.now rows
            → result ≡ length (slice_index_or (by_table (form_of l) rows) table.0 []) }
    {
        lines_at(&self.tables, table.0 as usize).len()
    }

    /// Adds the rows of all tables, in the order of the layout, one after another.
    pub fn add_tables(&mut self, transfer: &[TableRows]) -> Result<(), Memory>
        ensures { OnOk result (all_kept_view self.new.tables.items ≡ fed_tables 0
            (tables_rows_of transfer.now) (all_kept_view self.old.tables.items)) }
    {
        for (place, table) in transfer.iter().enumerate() {
            add_rows(&mut self.tables, place, &table.rows)?;
        }
        Ok(())
    }

    /// The keys of all rows that were added, in order, by which they can be asked. 16 bytes for
    /// each row; the only error is out of memory.
    pub fn sorted<'b>(&'b self) -> Result<Keys<'b, 'a>, Memory>
        ensures { IfOk result (λ keys. (l : GivenLayout) (rows : List (ℕ × GivenRow))
            → HasRows l self.now rows → HasKeys l keys rows) }
    {
        Keys::new(self.alloc, &self.tables)
    }
}
