// The closed objects of a transfer that is still being read.
ghost use Rattle.std.specs.Prelude.{◌≡◌, ◌++◌, ◌∷◌, [], OnOk};
ghost use Rattle.itf_reader.specs.ReadRows.{read_rows};
ghost use Rattle.itf_reader.specs.Views.{row_of};

use crate::transfer::Row;
use ports::Memory;
use std::alloc::Global;
use std::mem::replace;
use table_layout::TableId;

/// Objects of one table, in the order of the text.
#[derive(Drop)]
pub struct ReadTable {
    pub table: u32,
    pub rows: Vec<Row>,
}

/// The objects in the order of the text, those of one table that follow each other together.
#[derive(Drop)]
pub struct ReadTables {
    pub alloc: Global,
    /// The tables before the last.
    pub tables: Vec<ReadTable>,
    pub last: ReadTable,
}

impl ReadTables {
    /// No object.
    pub fn new(alloc: Global) -> ReadTables
        ensures { read_rows result ≡ [] }
    {
        ReadTables {
            alloc,
            tables: Vec::new(alloc),
            last: ReadTable {
                table: 0,
                rows: Vec::new(alloc),
            },
        }
    }

    // Begins a table.
    fn begin(&mut self, table: u32) -> Result<(), Memory>
        ensures rows { OnOk result (read_rows self.new ≡ read_rows self.old) }
        ensures table { OnOk result (self.new.last.table ≡ table) }
    {
        let next = ReadTable {
            table,
            rows: Vec::new(self.alloc),
        };
        let ended = replace(&mut self.last, next);
        self.tables.push(ended)?;
        Ok(())
    }

    /// Adds an object of that table.
    pub fn add(&mut self, table: TableId, row: Row) -> Result<(), Memory>
        ensures { OnOk result (read_rows self.new ≡ read_rows self.old ++
            (table.0, row_of row) ∷ []) }
    {
        if self.last.table != table.0 {
            self.begin(table.0)?;
        }
        self.last.rows.push(row)?;
        Ok(())
    }
}
