// A whole file.
ghost use Rattle.std.specs.Prelude.{◌≡◌, ◌<◌, ◌^◌, ◌++◌, ⊤, IfOk, IsErrOf};
ghost use Rattle.ports.specs.Faults.{Rose};
ghost use Rattle.ports.specs.Reading.{OnlyReads};
ghost use Rattle.commands.specs.Commands.{limit_of};
ghost use Rattle.commands.specs.Reading.{IsWhole, IsLonger};

use super::taking::{Taker, read_pieces};
use ports::{Memory, Shelf};
use std::alloc::Global;

/// A file that is read.
#[derive(Clone, Copy, Debug, PartialEq, Eq)]
pub enum File {
    Model,
    Transfer,
    /// The certificates that `verify` reads.
    Certificate,
    /// The links that `points` reads.
    Links,
}

impl File {
    /// The greatest length of such a file, in bytes.
    pub fn limit(self) -> u64
        ensures limit { result ≡ limit_of self }
        ensures small { result < 2 ^ 32 }
    {
        match self {
            File::Model => 4_194_304,
            File::Transfer => 268_435_456,
            File::Certificate => 1_073_741_824,
            File::Links => 65_536,
        }
    }
}

/// Why a file has no text.
#[derive(Clone, Copy)]
pub enum FileRefusal {
    /// It could not be read.
    Failed,
    /// It is longer than its limit.
    TooLong,
    Memory,
}

// The bytes of a file as far as they were read.
#[derive(Drop)]
struct Front {
    bytes: Vec<u8>,
}

impl Taker for Front {
    ghost took = { λ before bytes now. now.bytes.items ≡ before.bytes.items ++ bytes };

    ghost can_take = { λ front n. ⊤ };

    fn take(&mut self, piece: &[u8]) -> Result<(), Memory> {
        self.bytes.extend_from_slice(piece)?;
        Ok(())
    }
}

/// Reads a file whole, in pieces of 65,536 bytes. It is read to its end, or up to a piece past
/// its limit.
pub fn read_file<S: Shelf>(
    alloc: Global,
    shelf: &mut S,
    file: File,
    name: &str,
) -> Result<Vec<u8>, FileRefusal>
    ensures whole { IfOk result (λ bytes. IsWhole (S.held shelf.old) name.now (limit_of file)
        bytes.items) }
    ensures long { IsErrOf result FileRefusal.TooLong
        → IsLonger (S.held shelf.old) name.now (limit_of file) }
    ensures reads { OnlyReads (S.readable shelf.old name.now)
        (S.held shelf.old) (S.read_faults shelf.old)
        (S.write_faults shelf.old) (S.readable shelf.old) (S.space shelf.old)
        (S.held shelf.new) (S.read_faults shelf.new) (S.write_faults shelf.new)
        (S.readable shelf.new) (S.space shelf.new) }
    ensures cause { IsErrOf result FileRefusal.Failed
        → Rose (S.read_faults shelf.old name.now) (S.read_faults shelf.new name.now) }
{
    let mut front = Front {
        bytes: Vec::new(alloc),
    };
    read_pieces(alloc, shelf, name, file.limit(), &mut front)?;
    Ok(front.bytes)
}
