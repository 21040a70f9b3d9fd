// The keys of all rows in order.
ghost use Rattle.std.specs.Prelude.{◌≡◌, IfOk};
ghost use Rattle.ident_refs.specs.KeptRows.{all_ids, all_lines};
ghost use Rattle.ident_refs.specs.KeptViews.{ids_view, all_kept_view, row_lines_view};

use super::repeats::KeyColumn;
use super::table_keys::TableKeys;
use ports::Memory;
use std::alloc::Global;

/// What is kept of the rows of a transfer, and their identifications in order.
#[derive(Drop)]
pub struct Keys<'b, 'a> {
    pub alloc: Global,
    pub tables: &'b [TableKeys<'a>],
    pub ids: Vec<KeyColumn<'b>>,
    ghost keys: { ids_view ids.items ≡ all_ids (all_kept_view tables.now) },
    ghost lines: { row_lines_view ids.items ≡ all_lines (all_kept_view tables.now) },
}

// The identifications of each table in order.
fn id_columns<'b, 'a>(
    alloc: Global,
    tables: &'b [TableKeys<'a>],
) -> Result<Vec<KeyColumn<'b>>, Memory>
    ensures keys { IfOk result (λ columns. ids_view columns.items
        ≡ all_ids (all_kept_view tables.now)) }
    ensures lines { IfOk result (λ columns. row_lines_view columns.items ≡ all_lines
        (all_kept_view tables.now)) }
{
    let mut columns = Vec::with_capacity(alloc, tables.len())?;
    for table in tables {
        columns.push(KeyColumn::new(alloc, &table.lines, &table.ids)?)?;
    }
    Ok(columns)
}

impl<'b, 'a> Keys<'b, 'a> {
    /// Sorts the identifications of each table.
    pub fn new(alloc: Global, tables: &'b [TableKeys<'a>]) -> Result<Keys<'b, 'a>, Memory>
        ensures { IfOk result (λ keys. keys.tables.now ≡ tables.now) }
    {
        let ids = id_columns(alloc, tables)?;
        Ok(Keys { alloc, tables, ids })
    }
}
