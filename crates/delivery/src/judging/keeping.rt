// What is kept of the rows of a transfer.
ghost use Rattle.std.specs.Prelude.{◌≡◌, ◌≤◌, ◌++◌, ◌∷◌, ℕ, List, [], length, OnOk};
ghost use Rattle.std.specs.Prelude.{slice_index_or};
ghost use Rattle.itf_reader.specs.Forms.{Row as GivenRow};
ghost use Rattle.itf_reader.specs.Views.{row_of};
ghost use Rattle.itf_writer.specs.Feeds.{HoldsRows};
ghost use Rattle.table_layout.specs.Layouts.{Layout as GivenLayout};
ghost use Rattle.table_layout.specs.Values.{layout_view};
ghost use Rattle.delivery.specs.Judging.{objects};
ghost use Rattle.delivery.specs.KeptRows.{transfer_so_far};

use itf_reader::Row;
use itf_writer::CanonFeed;
use ports::Memory;
use table_layout::{Layout, TableId};

/// What takes the rows of a transfer one after another, as they are closed.
pub trait RowKeeper: Drop {
    /// These rows of a layout's tables came, each with the number of its table.
    ghost has_rows: { GivenLayout → List (ℕ × GivenRow) → Self → Type 0 };

    /// Takes a row of that table. The only error is out of memory.
    fn add_row(&mut self, layout: &Layout, table: TableId, row: &Row) -> Result<(), Memory>
        ensures { OnOk result ((rows : List (ℕ × GivenRow))
            → has_rows (layout_view layout.now) rows self.old
            → has_rows (layout_view layout.now) (rows ++ (table.0, row_of row.now) ∷ [])
            self.new) };

    /// How many rows of that table came.
    fn row_count(&self, table: TableId) -> usize
        ensures { (l : GivenLayout) (rows : List (ℕ × GivenRow)) → has_rows l rows self.now
            → result ≡ length (slice_index_or (transfer_so_far l rows) table.0 []) };
}

impl RowKeeper for CanonFeed {
    ghost has_rows = { HoldsRows };

    fn add_row(&mut self, layout: &Layout, table: TableId, row: &Row) -> Result<(), Memory> {
        CanonFeed::add_row(self, layout, table, row)
    }

    fn row_count(&self, table: TableId) -> usize {
        CanonFeed::row_count(self, table)
    }
}

/// The number of objects, those of helper tables included.
pub fn count_objects<K: RowKeeper>(layout: &Layout, kept: &K) -> u128
    requires { length layout.now.tables.items ≤ 4194304 }
    ensures { (rows : List (ℕ × GivenRow)) → K.has_rows (layout_view layout.now) rows kept.now
        → result ≡ objects (transfer_so_far (layout_view layout.now) rows) }
{
    let mut count: u128 = 0;
    for number in 0..layout.tables.len() {
        count += kept.row_count(TableId(number as u32)) as u128;
    }
    count
}
