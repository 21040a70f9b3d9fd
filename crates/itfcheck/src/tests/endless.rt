//! A transfer that is longer than any that is read, given without being held.

use super::calls::{CHECK, words_of};
use super::growths::MODEL;
use delivery::{Status, run};
use ports::{Failed, MemoryShelf, MemorySink, Shelf};
use std::test::Fail;

const LENGTH: u64 = 268_435_457;

// Files in memory, but for `T`, which has so many spaces.
#[derive(Drop)]
struct Endless {
    files: MemoryShelf,
    faults: u64,
}

impl Shelf for Endless {
    ghost use Rattle.std.specs.Prelude.{None};

    ghost held = { λ s. None };

    ghost read_faults = { λ s q. s.faults };

    ghost write_faults = { λ s. s.faults };

    ghost readable = { λ s q. ⊥ };

    ghost space = { λ s q. None };

    fn read(&mut self, name: &str, from: u64, into: &mut [u8]) -> Result<usize, Failed> {
        if name == "T" {
            let left = LENGTH.saturating_sub(from);
            let length = into.len();
            if left < length as u64 {
                into.fill(b' ');
                return Ok(left as usize);
            }
            into.fill(b' ');
            return Ok(length);
        }
        match self.files.read(name, from, into) {
            Ok(length) => Ok(length),
            Err(failed) => {
                self.faults = self.faults.saturating_add(1);
                Err(failed)
            }
        }
    }

    fn start(&mut self, _name: &str) -> Result<(), Failed> {
        self.faults = self.faults.saturating_add(1);
        Err(Failed)
    }

    fn append(&mut self, _name: &str, _bytes: &[u8]) -> Result<(), Failed> {
        self.faults = self.faults.saturating_add(1);
        Err(Failed)
    }
}

#[test]
fn a_byte_too_many_is_over_the_limit(rt: HostRuntime) -> Result<(), Fail> {
    let alloc = rt.alloc();
    let mut files = MemoryShelf::new(alloc);
    files.with_file("M", MODEL.as_bytes())?;
    let mut shelf = Endless { files, faults: 0 };
    let mut out = MemorySink::new(alloc);
    let words = words_of(alloc, CHECK)?;
    let status = run(alloc, &words, &mut shelf, &mut out);
    assert_eq!(rt; status, Status::OverLimit);
    assert_eq!(rt; out.bytes(), b"FAULT LIMIT transfer\n".as_slice());
    Ok(())
}
