// Why a text is no list of certificates.
ghost use Rattle.std.specs.Prelude.{◌≡◌};
ghost use Rattle.certificate.specs.declared.fault.CertFault.TheVariants.{Memory as OutOfMemory};

use ports::Memory;
use std::alloc::{AllocError, AllocFailed};
use thiserror::Error;

/// The first bad line of a text, counted from 1, and what is wrong with it.
#[derive(Clone, Copy, Debug, PartialEq, Eq, Error)]
pub enum CertFault {
    /// The line has not the form that its place asks for.
    #[error("line {0} has a wrong form")]
    Line(u32),
    /// The line has the right form, but one of its numbers has a leading zero or is greater than
    /// 4,294,967,295.
    #[error("line {0} has a number that is spelt wrong")]
    Number(u32),
    /// The text ends before this line, which it still asks for.
    #[error("line {0} is missing")]
    Short(u32),
    /// Out of memory.
    #[error("out of memory")]
    Memory,
}

impl From<Memory> for CertFault {
    ghost from_gives = { λ _ e. e ≡ OutOfMemory };

    fn from(_: Memory) -> CertFault {
        CertFault::Memory
    }
}

impl From<AllocError> for CertFault {
    ghost from_gives = { λ _ e. e ≡ OutOfMemory };

    fn from(_: AllocError) -> CertFault {
        CertFault::Memory
    }
}

impl<T: Drop> From<AllocFailed<T>> for CertFault {
    ghost from_gives = { λ _ e. e ≡ OutOfMemory };

    fn from(_: AllocFailed<T>) -> CertFault {
        CertFault::Memory
    }
}
