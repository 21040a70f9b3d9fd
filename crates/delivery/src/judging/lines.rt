// How the bytes of a transfer are taken, one piece after another.
ghost use Rattle.std.specs.Prelude.{◌≡◌, ◌+◌, ◌<◌, ◌≤◌, [], length, OnOk};
ghost use Rattle.itf_reader.specs.Layouts.{form_of};
ghost use Rattle.itf_reader.specs.Names.{form_in};
ghost use Rattle.table_layout.specs.Values.{layout_view};
ghost use Rattle.delivery.specs.Pieces.{IsOpened, Takes};

use super::keeping::RowKeeper;
use super::rows::RowJudge;
use itf_lines::{Line, LineFeed};
use itf_reader::Names;
use ports::Memory;
use std::alloc::Global;
use table_layout::Layout;

/// A transfer that is taken piece by piece, for a keeper of its rows. One line is held, whose room
/// is used again, and the row that is open.
#[derive(Drop)]
pub struct Judge<K: RowKeeper> {
    pub lines: LineFeed,
    pub line: Line,
    pub rows: RowJudge<K>,
}

impl<K: RowKeeper> Judge<K> {
    /// Before the first byte of a transfer of that layout.
    pub fn new(alloc: Global, layout: &Layout, kept: K) -> Judge<K>
        requires { K.has_rows (layout_view layout.now) [] kept }
        ensures { IsOpened K.has_rows (layout_view layout.now) result }
    {
        Judge {
            lines: LineFeed::new(alloc, &layout.codes),
            line: Line::empty(alloc),
            rows: RowJudge::new(alloc, kept),
        }
    }

    /// Takes the next piece of the text, by the names of its layout.
    pub fn take(&mut self, layout: &Layout, names: &Names, piece: &[u8]) -> Result<(), Memory>
        requires named { form_in names.now ≡ form_of (layout_view layout.now) }
        requires few { self.old.lines.ended + length piece.now < 4294967295 }
        ensures takes { OnOk result (Takes K.has_rows (layout_view layout.now) self.old piece.now
            self.new []) }
        ensures few { OnOk result
            (self.new.lines.ended ≤ self.old.lines.ended + length piece.now) }
    {
        let mut at = 0;
        while let Some(n) = self.lines.next(&piece[at..], &mut self.line)? {
            self.rows.take(layout, names, &mut self.line)?;
            at += n;
        }
        Ok(())
    }
}
