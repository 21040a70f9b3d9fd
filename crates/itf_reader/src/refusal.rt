// Why a text is not read.
ghost use Rattle.std.specs.Prelude.{◌≡◌};
ghost use Rattle.itf_reader.specs.declared.refusal.ReadRefusal.TheVariants.{Memory as OutOfMemory};

use super::transfer::Structure;
use ports::Memory;

/// The first line at fault and its code, or out of memory. Where the text ends too soon, the
/// line is the one after the last.
#[derive(Clone, Copy, Debug, PartialEq, Eq)]
pub enum ReadRefusal {
    At { line: u32, code: Structure },
    Memory,
}

impl From<Memory> for ReadRefusal {
    ghost from_gives = { λ _ e. e ≡ OutOfMemory };

    fn from(_: Memory) -> ReadRefusal {
        ReadRefusal::Memory
    }
}
