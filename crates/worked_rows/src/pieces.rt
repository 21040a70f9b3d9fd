//! Files in memory whose reads give few bytes.

use ports::{Failed, MemoryShelf, Shelf};

/// Files in memory of which a call gives at most so many bytes, any number where that is 0.
#[derive(Drop)]
pub struct Pieces {
    pub files: MemoryShelf,
    pub most: u64,
    pub faults: u64,
}

impl Shelf for Pieces {
    ghost use Rattle.std.specs.Prelude.{None};

    ghost held = { λ s. None };

    ghost read_faults = { λ s q. s.faults };

    ghost write_faults = { λ s. s.faults };

    ghost readable = { λ s q. ⊥ };

    ghost space = { λ s q. None };

    fn read(&mut self, name: &str, from: u64, into: &mut [u8]) -> Result<usize, Failed> {
        let most = match self.most {
            0 => into.len(),
            most => (most as usize).max(1).min(into.len()),
        };
        match self.files.read(name, from, &mut into[..most]) {
            Ok(length) => Ok(length.min(most)),
            Err(failed) => {
                self.faults = self.faults.saturating_add(1);
                Err(failed)
            }
        }
    }

    fn start(&mut self, name: &str) -> Result<(), Failed> {
        match self.files.start(name) {
            Ok(()) => Ok(()),
            Err(failed) => {
                self.faults = self.faults.saturating_add(1);
                Err(failed)
            }
        }
    }

    fn append(&mut self, name: &str, bytes: &[u8]) -> Result<(), Failed> {
        match self.files.append(name, bytes) {
            Ok(()) => Ok(()),
            Err(failed) => {
                self.faults = self.faults.saturating_add(1);
                Err(failed)
            }
        }
    }
}
