// Objects, built up line by line.
ghost use Rattle.std.specs.Prelude.{◌≡◌, [], OnOk};

use crate::transfer::{Row, Strokes};
use itf_lines::Line;
use ports::Memory;
use std::alloc::Global;
use std::mem::swap;

/// No object.
pub fn no_row(alloc: Global) -> Row {
    Row {
        line: 0,
        fields: Vec::new(alloc),
        strokes: Strokes {
            given: Vec::new(alloc),
            left_out: 0,
        },
    }
}

/// Makes a row without strokes the object of a line. It keeps its room, and where its table has
/// lines it gets room for one stroke, since a transfer has millions of objects with one.
pub fn open_row(row: &mut Row, lines: usize, line: &mut Line) -> Result<(), Memory>
    requires { row.old.strokes.given.items ≡ [] }
    ensures line { OnOk result (row.new.line ≡ line.old.number) }
    ensures fields { OnOk result (row.new.fields.items ≡ line.old.fields.items) }
    ensures strokes { OnOk result (row.new.strokes.given.items ≡ []) }
{
    row.line = line.number;
    row.strokes.given.reserve_exact(lines.min(1))?;
    swap(&mut row.fields, &mut line.fields);
    Ok(())
}
