// A transfer that is read in pieces, for a keeper of its rows.
ghost use Rattle.std.specs.Prelude.{◌≡◌, ◌≢◌, ◌≤◌, [], length, IfOk};
ghost use Rattle.ports.specs.Faults.{Rose};
ghost use Rattle.ports.specs.Reading.{OnlyReads};
ghost use Rattle.itf_reader.specs.Layouts.{form_of};
ghost use Rattle.itf_reader.specs.Names.{form_in};
ghost use Rattle.table_layout.specs.Valid.{IsValid};
ghost use Rattle.table_layout.specs.Values.{layout_view};
ghost use Rattle.delivery.specs.Pieces.{AreFileRows, HasJudged, CanJudge, IsEndedAs};
ghost use Rattle.delivery.specs.Pieces.{IsJudged, IsTransferFor};

use crate::judging::{Judge, Judged, RowKeeper, TransferKept, Wanted, judge_end, judge_rows};
use commands::{File, FileRefusal, Taker, read_pieces};
use itf_reader::{Names, ReadRefusal, Structure};
use ports::{Memory, Shelf};
use std::alloc::Global;
use table_layout::Layout;

/// What the rows of a file are.
#[derive(Drop)]
pub enum RowsReading<K: RowKeeper> {
    Unread(FileRefusal),
    /// The first line at fault, and its code.
    Malformed(u32, Structure),
    /// What is kept of the rows.
    Rows(K),
}

/// What the file of a transfer is.
#[derive(Drop)]
pub enum TransferReading {
    Unread(FileRefusal),
    Judged(Judged),
}

// A judge that takes a file piece by piece, by the names of its layout.
#[derive(Drop)]
struct PieceJudge<'l, 'n, K: RowKeeper> {
    judge: Judge<K>,
    layout: &'l Layout,
    names: &'l Names<'n>,
}

impl<'l, 'n, K: RowKeeper> Taker for PieceJudge<'l, 'n, K> {
    ghost took = { HasJudged K.has_rows };

    ghost can_take = { CanJudge };

    fn take(&mut self, piece: &[u8]) -> Result<(), Memory> {
        self.judge.take(self.layout, self.names, piece)
    }
}

// What the rows of a file are that was refused.
fn unread<K: RowKeeper>(refusal: FileRefusal) -> Result<RowsReading<K>, Memory>
    ensures { IfOk result (λ r. (r ≡ RowsReading.Unread refusal)
        × (refusal ≢ FileRefusal.Memory)) }
{
    match refusal {
        FileRefusal::Memory => Err(Memory),
        FileRefusal::Failed | FileRefusal::TooLong => Ok(RowsReading::Unread(refusal)),
    }
}

// What the rows of a text are whose lines were all taken.
fn ended<K: RowKeeper>(kept: Result<K, ReadRefusal>) -> Result<RowsReading<K>, Memory>
    ensures { IfOk result (IsEndedAs kept) }
{
    match kept {
        Ok(kept) => Ok(RowsReading::Rows(kept)),
        Err(ReadRefusal::At { line, code }) => Ok(RowsReading::Malformed(line, code)),
        Err(ReadRefusal::Memory) => Err(Memory),
    }
}

// What the rows of a file are, by the names of its layout.
fn read_rows<S: Shelf, K: RowKeeper>(
    alloc: Global,
    shelf: &mut S,
    name: &str,
    layout: &Layout,
    names: &Names,
    kept: K,
) -> Result<RowsReading<K>, Memory>
    requires named { form_in names.now ≡ form_of (layout_view layout.now) }
    requires none { K.has_rows (layout_view layout.now) [] kept }
    ensures rows { IfOk result (AreFileRows K.has_rows (S.held shelf.old) name.now
        (layout_view layout.now)
        (Rose (S.read_faults shelf.old name.now) (S.read_faults shelf.new name.now))) }
    ensures reads { OnlyReads (S.readable shelf.old name.now)
        (S.held shelf.old) (S.read_faults shelf.old)
        (S.write_faults shelf.old) (S.readable shelf.old) (S.space shelf.old)
        (S.held shelf.new) (S.read_faults shelf.new) (S.write_faults shelf.new)
        (S.readable shelf.new) (S.space shelf.new) }
{
    let mut taker = PieceJudge {
        judge: Judge::new(alloc, layout, kept),
        layout,
        names,
    };
    let read = read_pieces(alloc, shelf, name, File::Transfer.limit(), &mut taker);
    let judge = taker.judge;
    match read {
        Ok(()) => ended(judge.end(layout, names)),
        Err(refusal) => unread(refusal),
    }
}

/// Reads the file of a transfer in pieces of 65,536 bytes, by the layout of its model, for a keeper
/// of its rows. It is read to its end, or up to a piece past its limit, whatever its first lines
/// hold.
///
/// Cost: time in proportion to the file, and what the keeper takes. Held are a piece, one line, the
/// row that is open and the one that was closed last.
pub fn read_for<S: Shelf, K: RowKeeper>(
    alloc: Global,
    shelf: &mut S,
    name: &str,
    layout: &Layout,
    kept: K,
) -> Result<RowsReading<K>, Memory>
    requires valid { IsValid (layout_view layout.now) }
    requires none { K.has_rows (layout_view layout.now) [] kept }
    ensures rows { IfOk result (AreFileRows K.has_rows (S.held shelf.old) name.now
        (layout_view layout.now)
        (Rose (S.read_faults shelf.old name.now) (S.read_faults shelf.new name.now))) }
    ensures reads { OnlyReads (S.readable shelf.old name.now)
        (S.held shelf.old) (S.read_faults shelf.old)
        (S.write_faults shelf.old) (S.readable shelf.old) (S.space shelf.old)
        (S.held shelf.new) (S.read_faults shelf.new) (S.write_faults shelf.new)
        (S.readable shelf.new) (S.space shelf.new) }
{
    let names = Names::new(alloc, layout)?;
    read_rows(alloc, shelf, name, layout, &names, kept)
}

/// Reads the file of a transfer and judges it by the layout of its model.
///
/// Cost: time in proportion to the file, for each object also to the IDENT lists of its table, and
/// what its findings and keys take to sort. Held are, of all rows, their findings and keys and the
/// places that areas are drawn from.
pub fn read_transfer<S: Shelf>(
    alloc: Global,
    shelf: &mut S,
    name: &str,
    layout: &Layout,
    wanted: Wanted,
) -> Result<TransferReading, Memory>
    requires valid { IsValid (layout_view layout.now) }
    ensures transfer { IfOk result (IsTransferFor wanted (S.held shelf.old) name.now
        (layout_view layout.now)
        (Rose (S.read_faults shelf.old name.now) (S.read_faults shelf.new name.now))) }
    ensures reads { OnlyReads (S.readable shelf.old name.now)
        (S.held shelf.old) (S.read_faults shelf.old)
        (S.write_faults shelf.old) (S.readable shelf.old) (S.space shelf.old)
        (S.held shelf.new) (S.read_faults shelf.new) (S.write_faults shelf.new)
        (S.readable shelf.new) (S.space shelf.new) }
{
    let kept = TransferKept::new(alloc, layout)?;
    match read_for(alloc, shelf, name, layout, kept)? {
        RowsReading::Unread(refusal) => Ok(TransferReading::Unread(refusal)),
        RowsReading::Malformed(line, code) => {
            Ok(TransferReading::Judged(Judged::Malformed(line, code)))
        }
        RowsReading::Rows(kept) => {
            Ok(TransferReading::Judged(judge_rows(alloc, layout, kept, wanted)?))
        }
    }
}

/// Judges the text of a transfer that is held in memory, by the layout of its model.
pub fn judge_text(alloc: Global, layout: &Layout, text: &[u8]) -> Result<Judged, Memory>
    requires valid { IsValid (layout_view layout.now) }
    requires short { length text.now ≤ 268435456 }
    ensures { IfOk result (IsJudged (layout_view layout.now) text.now) }
{
    let names = Names::new(alloc, layout)?;
    let mut judge = Judge::new(alloc, layout, TransferKept::new(alloc, layout)?);
    judge.take(layout, &names, text)?;
    judge_end(alloc, layout, judge.end(layout, &names))
}
