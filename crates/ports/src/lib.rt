//! The outside of the program: files by name (`Shelf`) and one output (`Sink`).
//!
//! Every other crate reads and writes through these two traits, so that each of their contracts
//! can speak of the bytes that were read and written, and of the faults that came on the way.
//! A crate above may use the clauses of the traits alone; a test may also use what
//! `MemoryShelf` and `MemorySink` promise beyond them.
//!
//! - **What a contract sees.** A shelf has `held`, a map from names to bytes, where it says what
//!   it holds, a count of failed reads for each name, and one count of failed writes. A sink has
//!   `written`, where it says what was written, and one count of faults. A shelf or a sink that
//!   says so before a call says so after it. No count ever falls; each stays at 2^64 - 1 once it is
//!   there.
//! - **When a call fails.** `Failed` comes only where the count of that call rose (`Rose`).
//!   Then a prefix of the bytes may have been added, or a file that was to be started may be
//!   empty; no file of another name has changed. A call that does not fail moves no count.
//! - **When none fails.** A shelf says of which files a read is not to fail (`readable`), and how
//!   much can be written under a name without a fault (`space`); a sink has a `space`, too.
//! - **In memory** (`MemoryShelf`, `MemorySink`) all bytes are known, chosen calls fail, and the
//!   contracts say exactly when a call fails and how much room there is without a refusal. Once
//!   all chosen calls are over they say that no further one fails.
//! - **Real files and standard output** (`RealShelf`, `RealSink`) never say what they hold. They
//!   are a few lines over std, and what they read or write is trusted, not proved.
//! - **Names.** `Bytes` owns a list of bytes, `Name` those of a name; `Key` borrows them as the key
//!   of a map. A contract sees each as a list of bytes.
//! - **Sorted keys.** `SortedKeys` has the keys of a column in order and finds the first element
//!   with a key. It takes n log n comparisons for every input, where a map with a hash that is
//!   known can be made slow by whoever writes the keys.
//! - **Not here:** no layer of this crate looks at what the bytes mean.
//!
//! Cost: `MemoryShelf` finds a file in time linear in the number of files; a read copies what it
//! gives; an append is amortised linear in the bytes added. `RealShelf` opens the file anew for
//! each call. `Bytes` and a `Name` take 16 bytes; only more than 14 bytes have a block of their
//! own.
#![tactic(auto)]

mod bytes;
mod calls;
mod key;
mod memory_shelf;
mod memory_sink;
mod name;
mod real;
mod shelf;
mod short;
mod sink;
mod sorted_keys;
mod stored;

pub use bytes::Bytes;
pub use key::Key;
pub use memory_shelf::MemoryShelf;
pub use memory_sink::MemorySink;
pub use name::Name;
pub use real::{RealShelf, RealSink};
pub use shelf::Shelf;
pub use sink::Sink;
pub use sorted_keys::{Keyed, Ranked, SortedKeys};
use std::alloc::{AllocError, AllocFailed};

/// A read or a write that the outside refused. It comes only where a count of faults rose.
#[derive(Clone, Copy, Debug, PartialEq, Eq)]
pub struct Failed;

/// Out of memory. Each crate has it as the one answer that no clause gives a cause for.
#[derive(Clone, Copy, Debug, PartialEq, Eq)]
pub struct Memory;

impl From<AllocError> for Memory {
    fn from(_: AllocError) -> Self {
        Memory
    }
}

impl<T: Drop> From<AllocFailed<T>> for Memory {
    fn from(_: AllocFailed<T>) -> Self {
        Memory
    }
}
