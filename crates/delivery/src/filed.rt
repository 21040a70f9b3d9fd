// A file of certificates that is read in pieces.
ghost use Rattle.std.specs.Prelude.{IfOk, IsErrOf};
ghost use Rattle.ports.specs.Faults.{Rose};
ghost use Rattle.ports.specs.Reading.{OnlyReads};
ghost use Rattle.commands.specs.Reading.{IsLonger};
ghost use Rattle.delivery.specs.FiledLists.{CanTake, HasTaken, IsFileOf};

use certificate::{CertFault, CertFeed, Certificate};
use commands::{File, FileRefusal, Taker, read_pieces};
use ports::{Memory, Shelf};
use std::alloc::Global;

/// What a text of certificates is read as: the list that it spells, or its first bad line.
pub type FiledList = Result<Vec<Certificate>, CertFault>;

// A list of certificates that takes a file piece by piece.
#[derive(Drop)]
struct FileFeed {
    feed: CertFeed,
}

impl Taker for FileFeed {
    ghost took = { HasTaken };

    ghost can_take = { CanTake };

    fn take(&mut self, piece: &[u8]) -> Result<(), Memory> {
        self.feed.take(piece)
    }
}

/// Reads a file of certificates in pieces of 65,536 bytes: the list that it spells, or its first
/// bad line. It is read to its end, or up to a piece past its limit, whatever its first lines hold.
///
/// Cost: time in proportion to the file. Held are a piece, the front of a line before it, and what
/// is read of the list.
pub fn read_certificates<S: Shelf>(
    alloc: Global,
    shelf: &mut S,
    name: &str,
) -> Result<FiledList, FileRefusal>
    ensures whole { IfOk result (IsFileOf (S.held shelf.old) name.now) }
    ensures long { IsErrOf result FileRefusal.TooLong
        → IsLonger (S.held shelf.old) name.now 1073741824 }
    ensures reads { OnlyReads (S.readable shelf.old name.now)
        (S.held shelf.old) (S.read_faults shelf.old)
        (S.write_faults shelf.old) (S.readable shelf.old) (S.space shelf.old)
        (S.held shelf.new) (S.read_faults shelf.new) (S.write_faults shelf.new)
        (S.readable shelf.new) (S.space shelf.new) }
    ensures cause { IsErrOf result FileRefusal.Failed
        → Rose (S.read_faults shelf.old name.now) (S.read_faults shelf.new name.now) }
{
    let mut taker = FileFeed {
        feed: CertFeed::new(alloc),
    };
    read_pieces(alloc, shelf, name, File::Certificate.limit(), &mut taker)?;
    Ok(taker.feed.finish())
}
