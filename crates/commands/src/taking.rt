// Files that are read piece by piece, for whoever takes the pieces.
ghost use Rattle.std.specs.Prelude.{◌≡◌, ◌≤◌, ◌<◌, ◌+◌, ◌++◌, ◌^◌, ℕ, List, [], length};
ghost use Rattle.std.specs.Prelude.{OnOk, IfErr, IsErrOf};
ghost use Rattle.ports.specs.Faults.{Rose};
ghost use Rattle.ports.specs.Reading.{OnlyReads};
ghost use Rattle.commands.specs.Reading.{IsWhole, IsLonger, IsFront};

use super::file_pieces::{PIECE, buffer, read_piece};
use super::files::FileRefusal;
use ports::{Memory, Shelf};
use std::alloc::Global;

/// What takes the bytes of a file, piece by piece.
pub trait Taker {
    /// These bytes were taken, piece by piece, since it was as the first.
    ghost took: { Self → List ℕ → Self → Type 0 };

    /// It can take so many bytes more.
    ghost can_take: { Self → ℕ → Type 0 };

    /// Takes a piece. The only error is out of memory.
    fn take(&mut self, piece: &[u8]) -> Result<(), Memory>
        requires { can_take self.old (length piece.now) }
        ensures took { OnOk result ((start : Self) (front : List ℕ) → took start front self.old
            → took start (front ++ piece.now) self.new) }
        ensures further { OnOk result ((n : ℕ) → can_take self.old (length piece.now + n)
            → can_take self.new n) };
}

// Hands a piece on.
fn hand_on<T: Taker>(taker: &mut T, piece: &[u8]) -> Result<(), FileRefusal>
    requires { T.can_take taker.old (length piece.now) }
    ensures took { OnOk result ((start : T) (front : List ℕ) → T.took start front taker.old
        → T.took start (front ++ piece.now) taker.new) }
    ensures further { OnOk result ((n : ℕ) → T.can_take taker.old (length piece.now + n)
        → T.can_take taker.new n) }
    ensures memory { IfErr result (λ e. e ≡ FileRefusal.Memory) }
{
    match taker.take(piece) {
        Ok(()) => Ok(()),
        Err(_) => Err(FileRefusal::Memory),
    }
}

/// Reads a file to its end, in pieces of at most 65,536 bytes, and hands each on as it comes; or
/// until more bytes were read than the limit, where the last piece is not handed on.
///
/// Cost: one read for each piece, as the shelf gives them, and a buffer of 65,536 bytes.
pub fn read_pieces<S: Shelf, T: Taker>(
    alloc: Global,
    shelf: &mut S,
    name: &str,
    limit: u64,
    taker: &mut T,
) -> Result<(), FileRefusal>
    requires small { limit < 2 ^ 32 }
    requires none { T.took taker.old [] taker.old }
    requires room { (n : ℕ) → n ≤ limit → T.can_take taker.old n }
    ensures whole { OnOk result ((text : List ℕ) × IsWhole (S.held shelf.old) name.now limit text
        × T.took taker.old text taker.new) }
    ensures long { IsErrOf result FileRefusal.TooLong → IsLonger (S.held shelf.old) name.now limit }
    ensures reads { OnlyReads (S.readable shelf.old name.now)
        (S.held shelf.old) (S.read_faults shelf.old)
        (S.write_faults shelf.old) (S.readable shelf.old) (S.space shelf.old)
        (S.held shelf.new) (S.read_faults shelf.new) (S.write_faults shelf.new)
        (S.readable shelf.new) (S.space shelf.new) }
    ensures cause { IsErrOf result FileRefusal.Failed
        → Rose (S.read_faults shelf.old name.now) (S.read_faults shelf.new name.now) }
{
    let mut piece = match buffer(alloc, PIECE) {
        Ok(piece) => piece,
        Err(_) => return Err(FileRefusal::Memory),
    };
    let mut from: u64 = 0;
    // A shelf may give as little as one byte a call, and each call but the last gives one.
    for _ in 0..limit + 1 {
        let n = read_piece(shelf, name, from, &mut piece)?;
        if n == 0 {
            return Ok(());
        }
        from += n as u64;
        if limit < from {
            return Err(FileRefusal::TooLong);
        }
        hand_on(taker, &piece[..n])?;
    }
    Err(FileRefusal::TooLong)
}
