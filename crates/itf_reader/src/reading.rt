// A transfer, read from its logical lines.
ghost use Rattle.std.specs.Prelude.{◌<◌, IfOk, IfErr};
ghost use Rattle.table_layout.specs.Values.{layout_view};
ghost use Rattle.table_layout.specs.Valid.{IsValid};
ghost use Rattle.itf_lines.specs.Views.{logical_view};
ghost use Rattle.itf_reader.specs.Readings.{IsRead};
ghost use Rattle.itf_reader.specs.Refusals.{Refuses};
ghost use Rattle.itf_reader.specs.Layouts.{form_of};
ghost use Rattle.itf_reader.specs.Views.{transfer_of};

use super::refusal::ReadRefusal;
use super::transfer::Transfer;
use super::transfer_feed::TransferFeed;
use itf_lines::{LineEnd, Lines};
use std::alloc::Global;
use table_layout::Layout;

/// The transfer whose text the lines are, by the layout: the rows of each of its tables, none
/// where a table is not in the text, each row with as many strokes as its table has lines. Else the
/// first line at fault with its code, which is the line of the fault of continuation where all
/// lines before it are a text or begin one, and the one after the last where the text ends before
/// ENDE.
///
/// `lines` are those that `logical_lines` gives by the layout's codes, less than 2^32 - 1 in all.
pub fn read_transfer(alloc: Global, layout: &Layout, lines: &Lines) -> Result<Transfer, ReadRefusal>
    requires valid { IsValid (layout_view layout.now) }
    requires few { lines.now.total < 4294967295 }
    ensures read { IfOk result (λ transfer. IsRead (form_of (layout_view layout.now))
        (logical_view lines.now) (transfer_of transfer)) }
    ensures refused { IfErr result (λ refusal. Refuses (form_of (layout_view layout.now))
        (logical_view lines.now) refusal) }
{
    let mut feed = TransferFeed::new(alloc, layout)?;
    feed.take_all(layout, &lines.lines)?;
    let end = LineEnd {
        fault: lines.fault,
        total: lines.total,
    };
    feed.finish(layout, end)
}
