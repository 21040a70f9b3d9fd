// What is kept of the lines of rows.
ghost use Rattle.std.specs.Prelude.{◌≡◌, ◌++◌, [], OnOk};
ghost use Rattle.itf_reader.specs.RowReadings.{vertices_view};
ghost use Rattle.area_drawings.specs.KeptLines.{with_line};
ghost use Rattle.area_drawings.specs.KeptViews.{lines_of};

use itf_reader::ReadVertex;
use ports::Memory;
use std::alloc::Global;
use std::mem::swap;

/// The vertices of lines, one row after another, and how many each row has.
#[derive(Drop)]
pub struct KeptLines {
    pub vertices: Vec<ReadVertex>,
    pub counts: Vec<usize>,
}

impl KeptLines {
    /// No row.
    pub fn new(alloc: Global) -> KeptLines
        ensures { lines_of result ≡ record { vertices = []; counts = [] } }
    {
        KeptLines {
            vertices: Vec::new(alloc),
            counts: Vec::new(alloc),
        }
    }

    /// Adds the vertices of a row, which may be moved.
    pub fn add(&mut self, vertices: &mut Vec<ReadVertex>) -> Result<(), Memory>
        ensures { OnOk result (lines_of self.new ≡ with_line
            (vertices_view vertices.old.items) (lines_of self.old)) }
    {
        self.counts.push(vertices.len())?;
        add_after(&mut self.vertices, vertices)
    }
}

// Adds vertices after others. Where there are none before them they are moved and not copied, so
// that a table of one long line takes no more memory than its row.
fn add_after(kept: &mut Vec<ReadVertex>, vertices: &mut Vec<ReadVertex>) -> Result<(), Memory>
    ensures { OnOk result (kept.new.items ≡ kept.old.items ++ vertices.old.items) }
{
    if kept.is_empty() {
        swap(kept, vertices);
        return Ok(());
    }
    kept.extend_from_slice(vertices)?;
    Ok(())
}
