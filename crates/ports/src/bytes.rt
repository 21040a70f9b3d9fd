// Bytes that are kept, in the value itself where they are few.
ghost use Rattle.std.specs.Prelude.{◌≡◌, [], IfOk, OnOk, OnErr};

use super::Memory;
use super::short::{ROOM, Short};
use std::alloc::Global;
use std::marker::Model;

// Where the bytes are kept.
#[derive(Drop)]
enum Kept {
    Short(Short),
    Long(Box<Vec<u8>>),
}

/// A list of bytes of any length. Up to 14 bytes are kept in the value, which takes 16; more are
/// kept in a block of their own.
#[derive(Drop)]
pub struct Bytes {
    kept: Kept,
}

impl Model for Bytes {
    ghost use Rattle.std.specs.Prelude.{List, ℕ};
    ghost use Rattle.ports.specs.Kept.{kept_bytes};

    ghost Value = { List ℕ };

    ghost view = { λ bytes. kept_bytes bytes.kept };
}

impl Bytes {
    /// Copies the bytes. The only error is out of memory.
    pub fn new(alloc: Global, bytes: &[u8]) -> Result<Bytes, Memory>
        ensures { IfOk result (λ copy. copy ≡ bytes.now) }
    {
        if let Some(short) = Short::of(bytes) {
            return Ok(Bytes {
                kept: Kept::Short(short),
            });
        }
        let copy = Box::new(alloc, bytes.to_vec(alloc)?)?;
        Ok(Bytes {
            kept: Kept::Long(copy),
        })
    }

    /// No bytes.
    pub fn empty() -> Bytes
        ensures { result ≡ [] }
    {
        Bytes {
            kept: Kept::Short(Short::empty()),
        }
    }

    /// Puts copies of these bytes in the place of its own, which stay where it fails. The only
    /// error is out of memory.
    pub fn set(&mut self, alloc: Global, bytes: &[u8]) -> Result<(), Memory>
        ensures set { OnOk result (self.new ≡ bytes.now) }
        ensures unchanged { OnErr result (self.new ≡ self.old) }
    {
        if bytes.len() <= ROOM {
            if let Kept::Short(short) = &mut self.kept {
                short.set(bytes);
                return Ok(());
            }
        }
        *self = Bytes::new(alloc, bytes)?;
        Ok(())
    }

    /// The bytes that `new` or `set` took.
    pub fn as_slice(&self) -> &[u8]
        ensures { result.now ≡ self.now }
    {
        match &self.kept {
            Kept::Short(short) => short.bytes(),
            Kept::Long(long) => long.as_slice(),
        }
    }
}
