// How many words a row has, and the first of them.
ghost use Rattle.std.specs.Prelude.{◌≡◌, ◌==◌};
ghost use Rattle.table_layout.specs.Values.{columns_view, table_view};
ghost use Rattle.itf_reader.specs.RowFindings.{widths, is_counted};
ghost use Rattle.itf_reader.specs.Views.{row_of};

use crate::transfer::Row;
use field_values::width;
use ports::Keyed;
use table_layout::{Column, Table};

/// The row has one word for its identification, and those of its table's columns.
pub fn is_counted(table: &Table, row: &Row) -> bool
    ensures { result ≡ is_counted (table_view table.now) (row_of row.now) }
{
    match row.fields.as_slice() {
        [_, words @ ..] => are_wide(&table.columns, words.len()),
        [] => false,
    }
}

// The columns have that many words in all.
fn are_wide(columns: &[Column], words: usize) -> bool
    ensures { result ≡ (words == widths (columns_view columns.now)) }
{
    let mut left = words;
    for column in columns {
        let wide = width(&column.form);
        if left < wide {
            return false;
        }
        left -= wide;
    }
    left == 0
}

/// The key of a row is its identification, its first field.
impl Keyed for Row {
    ghost use Rattle.itf_reader.specs.RowKeys.{row_key};

    ghost key = { row_key };

    fn key(&self) -> Option<&[u8]> {
        match self.fields.as_slice() {
            [word, ..] => Some(word.bytes()),
            [] => None,
        }
    }
}
