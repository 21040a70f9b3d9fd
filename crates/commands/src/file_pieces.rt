// Pieces of a file.
ghost use Rattle.std.specs.Prelude.{◌≡◌, ◌≤◌, ◌<◌, ◌++◌, ℕ, List, length, take, IfOk, IsErrOf};
ghost use Rattle.ports.specs.Faults.{Rose};
ghost use Rattle.ports.specs.Reading.{OnlyReads};
ghost use Rattle.commands.specs.Reading.{IsFront, IsEnd};

use super::files::FileRefusal;
use ports::{Memory, Shelf};
use std::alloc::Global;

/// The length of a piece, in bytes.
pub const PIECE: usize = 65_536;

/// A buffer of that length. No clause says what its bytes are: a list of 65,536 of them would be
/// computed in every goal above.
pub fn buffer(alloc: Global, size: usize) -> Result<Vec<u8>, Memory>
    ensures { IfOk result (λ buffer. length buffer.items ≡ size) }
{
    Ok(vec![in alloc; 0u8; size]?)
}

/// Reads the piece of a file from a place on, of as many bytes as the shelf gives at once. The
/// number of its bytes, which is 0 at the end of the file alone. The only error is `Failed`.
pub fn read_piece<S: Shelf>(
    shelf: &mut S,
    name: &str,
    from: u64,
    piece: &mut [u8],
) -> Result<usize, FileRefusal>
    requires room { 0 < length piece.old }
    ensures front { IfOk result (λ n. (front : List ℕ) → length front ≡ from
        → IsFront (S.held shelf.old) name.now front
        → IsFront (S.held shelf.old) name.now (front ++ take n piece.new)) }
    ensures ended { IfOk result (λ n. n ≡ 0 → (front : List ℕ) → length front ≡ from
        → IsFront (S.held shelf.old) name.now front
        → IsEnd (S.held shelf.old) name.now front) }
    ensures fits { IfOk result (λ n. n ≤ length piece.new) }
    ensures same { length piece.new ≡ length piece.old }
    ensures reads { OnlyReads (S.readable shelf.old name.now)
        (S.held shelf.old) (S.read_faults shelf.old)
        (S.write_faults shelf.old) (S.readable shelf.old) (S.space shelf.old)
        (S.held shelf.new) (S.read_faults shelf.new) (S.write_faults shelf.new)
        (S.readable shelf.new) (S.space shelf.new) }
    ensures cause { IsErrOf result FileRefusal.Failed
        → Rose (S.read_faults shelf.old name.now) (S.read_faults shelf.new name.now) }
    ensures refusal { IsErrOf result FileRefusal.TooLong → ⊥ }
    ensures memory { IsErrOf result FileRefusal.Memory → ⊥ }
{
    match shelf.read(name, from, piece) {
        Ok(n) => Ok(n),
        Err(_) => Err(FileRefusal::Failed),
    }
}
