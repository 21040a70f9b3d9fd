// Which table has a name.
ghost use Rattle.std.specs.Prelude.{◌≡◌, ◌≤◌, length};
ghost use Rattle.table_layout.specs.Finding.{number_of};
ghost use Rattle.table_layout.specs.Values.{layout_view, tables_view, id_view};

use super::layouts::{Layout, TableId};

/// The table of this name in the topic with this number, the first if there are several, or None
/// where the topic has no table of the name. Walks all tables and takes no memory.
pub fn table_of(layout: &Layout, topic: u32, name: &[u8]) -> Option<TableId>
    requires few { length (tables_view layout.now.tables.items) ≤ 4194304 }
    ensures { id_view result ≡ number_of (layout_view layout.now) topic name.now }
{
    for (number, table) in layout.tables.iter().enumerate() {
        if table.topic == topic && table.name.bytes() == name {
            return Some(TableId(number as u32));
        }
    }
    None
}
