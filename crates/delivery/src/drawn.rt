// A model and a transfer whose areas are drawn, and nothing searched.
ghost use Rattle.std.specs.Prelude.{◌≤◌, ℕ, List, length, IfOk};
ghost use Rattle.ports.specs.Faults.{ReadRose};
ghost use Rattle.ports.specs.Reading.{OnlyReads};
ghost use Rattle.table_layout.specs.Valid.{IsValid};
ghost use Rattle.table_layout.specs.Values.{layout_view};
ghost use Rattle.delivery.specs.Drawn.{AreReadable, IsCleanText, IsDelivered, IsDrawnFile};
ghost use Rattle.delivery.specs.Drawn.{IsDrawnModel};
ghost use Rattle.delivery.specs.Pieces.{IsJudged};

use crate::judging::{Judged, Wanted};
use crate::rows::{Sound, sound_rows};
use crate::transfers::{TransferReading, read_transfer};
use commands::{File, ModelReading, read_file, read_model};
use plane::Drawing;
use ports::{Memory, Shelf};
use reports::SurfaceAnswer;
use reports::outcome::{Outcome, not_read, refused};
use std::alloc::Global;
use table_layout::Layout;

/// A transfer without a finding, none of whose areas is over its limit, by the layout of its
/// model: the number of objects, the drawings of all areas, and the answers to all SURFACEs.
#[derive(Drop)]
pub struct CleanDelivery {
    pub layout: Layout,
    pub objects: u128,
    pub drawings: Vec<Drawing>,
    pub surfaces: Vec<SurfaceAnswer>,
}

/// What a model and a transfer come to before any area is searched.
#[derive(Drop)]
pub enum Delivered<'a> {
    Clean(CleanDelivery),
    /// The outcome of a check of the two files, which ends before.
    Ended(Outcome<'a>),
}

// What a transfer comes to that was judged.
fn from_judged<'a>(alloc: Global, layout: Layout, judged: Judged) -> Result<Delivered<'a>, Memory>
    ensures { (text : List ℕ) → IsJudged (layout_view layout) text judged
        → IfOk result (IsCleanText (layout_view layout) text) }
{
    match sound_rows(alloc, judged)? {
        Sound::Drawn(objects, drawings, surfaces) => Ok(Delivered::Clean(CleanDelivery {
            layout,
            objects,
            drawings,
            surfaces,
        })),
        Sound::Ended(outcome) => Ok(Delivered::Ended(outcome)),
    }
}

// What the file of a transfer comes to.
fn from_transfer<'a, S: Shelf>(
    alloc: Global,
    layout: Layout,
    transfer: &str,
    shelf: &mut S,
) -> Result<Delivered<'a>, Memory>
    requires valid { IsValid (layout_view layout) }
    ensures delivered { IfOk result (IsDrawnFile (S.held shelf.old)
        (ReadRose (S.read_faults shelf.old) (S.read_faults shelf.new))
        (layout_view layout) transfer.now) }
    ensures reads { OnlyReads (S.readable shelf.old transfer.now)
        (S.held shelf.old) (S.read_faults shelf.old)
        (S.write_faults shelf.old) (S.readable shelf.old) (S.space shelf.old)
        (S.held shelf.new) (S.read_faults shelf.new) (S.write_faults shelf.new)
        (S.readable shelf.new) (S.space shelf.new) }
{
    match read_transfer(alloc, shelf, transfer, &layout, Wanted::Everything)? {
        TransferReading::Judged(judged) => from_judged(alloc, layout, judged),
        TransferReading::Unread(refusal) => {
            Ok(Delivered::Ended(not_read(alloc, File::Transfer, refusal)?))
        }
    }
}

// What the text of a model and the file of a transfer come to.
fn from_model<'a, S: Shelf>(
    alloc: Global,
    text: &[u8],
    transfer: &str,
    shelf: &mut S,
) -> Result<Delivered<'a>, Memory>
    requires short { length text.now ≤ 4194304 }
    ensures delivered { IfOk result (IsDrawnModel (S.held shelf.old)
        (ReadRose (S.read_faults shelf.old) (S.read_faults shelf.new))
        text.now transfer.now) }
    ensures reads { OnlyReads (S.readable shelf.old transfer.now)
        (S.held shelf.old) (S.read_faults shelf.old)
        (S.write_faults shelf.old) (S.readable shelf.old) (S.space shelf.old)
        (S.held shelf.new) (S.read_faults shelf.new) (S.write_faults shelf.new)
        (S.readable shelf.new) (S.space shelf.new) }
{
    match read_model(alloc, text)? {
        ModelReading::Laid(layout) => from_transfer(alloc, layout, transfer, shelf),
        ModelReading::Refused(refusal) => Ok(Delivered::Ended(refused(alloc, refusal)?)),
    }
}

/// Reads the files of a model and of a transfer as a check does, in the same order and with the
/// same limits, and draws the areas of a transfer that has no finding. Nothing is written.
pub fn deliver<'a, S: Shelf>(
    alloc: Global,
    model: &str,
    transfer: &str,
    shelf: &mut S,
) -> Result<Delivered<'a>, Memory>
    ensures delivered { IfOk result (IsDelivered (S.held shelf.old)
        (ReadRose (S.read_faults shelf.old) (S.read_faults shelf.new))
        model.now transfer.now) }
    ensures reads { OnlyReads (AreReadable (S.readable shelf.old) model.now transfer.now)
        (S.held shelf.old) (S.read_faults shelf.old)
        (S.write_faults shelf.old) (S.readable shelf.old) (S.space shelf.old)
        (S.held shelf.new) (S.read_faults shelf.new) (S.write_faults shelf.new)
        (S.readable shelf.new) (S.space shelf.new) }
{
    match read_file(alloc, shelf, File::Model, model) {
        Ok(text) => from_model(alloc, &text, transfer, shelf),
        Err(refusal) => Ok(Delivered::Ended(not_read(alloc, File::Model, refusal)?)),
    }
}
