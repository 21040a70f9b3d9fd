// A transfer whose lines come in pieces.
ghost use Rattle.std.specs.Prelude.{◌≡◌, ◌<◌, ◌≤◌, ◌++◌, [], List, true, false, length, OnOk};
ghost use Rattle.std.specs.Prelude.{OnErr, IfOk, IsOk, Err};
ghost use Rattle.table_layout.specs.Valid.{IsValid};
ghost use Rattle.table_layout.specs.Values.{layout_view};
ghost use Rattle.itf_lines.specs.declared.logical.LineEnd.{LineEnd};
ghost use Rattle.itf_lines.specs.LogicalLines.{LogicalLine};
ghost use Rattle.itf_lines.specs.Views.{line_view, lines_view};
ghost use Rattle.itf_reader.specs.declared.refusal.ReadRefusal.TheVariants.{Memory as OutOfMemory};
ghost use Rattle.itf_reader.specs.Layouts.{form_of};
ghost use Rattle.itf_reader.specs.Names.{form_in};
ghost use Rattle.itf_reader.specs.Reads.{opening, read_from, Gives};
ghost use Rattle.itf_reader.specs.RowFeeds.{next, shows, after_lines, shown_rows};

mod placing;
mod read_tables;

use super::fields::add_copies;
use super::machine::Names;
use super::refusal::ReadRefusal;
use super::row_feed::RowFeed;
use super::transfer::Transfer;
use itf_lines::{Line, LineEnd};
use placing::transfer_by_layout;
use ports::Memory;
use read_tables::ReadTables;
use std::alloc::Global;
use std::marker::Model;
use table_layout::Layout;

/// A transfer that is read in pieces: the rows of closed objects, and what is open.
#[derive(Drop)]
pub struct TransferFeed {
    alloc: Global,
    feed: RowFeed,
    tables: ReadTables,
    failed: bool,
}

impl Model for TransferFeed {
    ghost use Rattle.itf_reader.specs.Reads.{TransferState};
    ghost use Rattle.itf_reader.specs.ReadRows.{read_rows};

    ghost Value = { TransferState };

    ghost view = { λ feed. record {
      failed = feed.failed;
      rows = read_rows feed.tables;
      at = feed.feed.at;
    } };
}

// A copy of a line.
fn copy(alloc: Global, line: &Line) -> Result<Line, Memory>
    ensures { IfOk result (λ copy. line_view copy ≡ line_view line.now) }
{
    let mut fields = Vec::with_capacity(alloc, line.fields.len())?;
    add_copies(alloc, &mut fields, &line.fields)?;
    Ok(Line {
        number: line.number,
        word: line.word,
        fields,
    })
}

impl TransferFeed {
    /// Before a text that is read by a layout. It takes no memory yet.
    pub fn new(alloc: Global, _layout: &Layout) -> Result<TransferFeed, Memory>
        ensures opening { IfOk result (λ feed. feed ≡ opening) }
        ensures free { IsOk result }
    {
        Ok(TransferFeed {
            alloc,
            feed: RowFeed::new(alloc),
            tables: ReadTables::new(alloc),
            failed: false,
        })
    }

    // Takes a line, and the row that it closes.
    fn take_line(&mut self, names: &Names, line: &Line) -> Result<(), Memory>
        ensures at { OnOk result
            (self.new.at ≡ next (form_in names.now) self.old.at (line_view line.now)) }
        ensures rows { OnOk result
            (self.new.rows ≡ self.old.rows ++ shows self.old.at line.now.word) }
        ensures failed { self.new.failed ≡ self.old.failed }
    {
        let mut line = copy(self.alloc, line)?;
        if let Some(table) = self.feed.take(names, &mut line)? {
            let row = self.feed.take_closed();
            self.tables.add(table, row)?;
        }
        Ok(())
    }

    /// Takes lines by the names of their layout.
    pub fn take_lines(&mut self, names: &Names, lines: &[Line]) -> Result<(), Memory>
        ensures at { OnOk result (self.new.at ≡ after_lines (form_in names.now) self.old.at
            (lines_view lines.now)) }
        ensures rows { OnOk result (self.new.rows ≡ self.old.rows ++
            shown_rows (form_in names.now) self.old.at (lines_view lines.now)) }
        ensures sound { OnOk result ((self.old.failed ≡ false) × (self.new.failed ≡ false)) }
        ensures failed { OnErr result (self.new.failed ≡ true) }
    {
        if self.failed {
            return Err(Memory);
        }
        // Set up to the end, so that each early return leaves it set.
        self.failed = true;
        for line in lines {
            self.take_line(names, line)?;
        }
        self.failed = false;
        Ok(())
    }

    /// Takes the next lines of a transfer's text.
    pub fn take(&mut self, layout: &Layout, lines: Vec<Line>) -> Result<(), Memory>
        requires valid { self.old.failed ≡ false → IsValid (layout_view layout.now) }
        // Whatever follows these lines: the answer is that from here on.
        ensures lines { OnOk result ((more : List LogicalLine) (end : LineEnd)
            → read_from (form_of (layout_view layout.now)) self.old
            (lines_view lines.items ++ more) end
            ≡ read_from (form_of (layout_view layout.now)) self.new more end) }
        // The only error is out of memory, after which each call has it.
        ensures sound { OnOk result ((self.old.failed ≡ false) × (self.new.failed ≡ false)) }
        ensures failed { OnErr result (self.new.failed ≡ true) }
    {
        self.take_all(layout, &lines)
    }

    /// The same, and the lines stay with the caller.
    pub fn take_all(&mut self, layout: &Layout, lines: &[Line]) -> Result<(), Memory>
        requires valid { self.old.failed ≡ false → IsValid (layout_view layout.now) }
        ensures at { OnOk result (self.new.at ≡ after_lines (form_of (layout_view layout.now))
            self.old.at (lines_view lines.now)) }
        ensures rows { OnOk result (self.new.rows ≡ self.old.rows ++
            shown_rows (form_of (layout_view layout.now)) self.old.at (lines_view lines.now)) }
        ensures sound { OnOk result ((self.old.failed ≡ false) × (self.new.failed ≡ false)) }
        ensures failed { OnErr result (self.new.failed ≡ true) }
    {
        if self.failed {
            return Err(Memory);
        }
        self.failed = true;
        let names = Names::new(self.alloc, layout)?;
        self.failed = false;
        self.take_lines(&names, lines)
    }

    /// The text ends here: the rows of each table of the layout, or the first line at fault. A feed
    /// that failed has `Memory`.
    pub fn finish(self, layout: &Layout, end: LineEnd) -> Result<Transfer, ReadRefusal>
        requires { self.failed ≡ false → end.total < 4294967295 }
        ensures gives { self.failed ≡ false
            → Gives (read_from (form_of (layout_view layout.now)) self [] end) result }
        ensures failed { self.failed ≡ true → result ≡ Err OutOfMemory }
    {
        if self.failed {
            return Err(ReadRefusal::Memory);
        }
        self.feed.finish(end)?;
        Ok(transfer_by_layout(self.alloc, layout, self.tables)?)
    }
}
