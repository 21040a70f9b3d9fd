// A field of a line, seen as the list of its bytes.
ghost use Rattle.std.specs.Prelude.{◌≡◌, [], IfOk, OnOk, OnErr};

use ports::{Bytes, Memory};
use std::alloc::Global;
use std::marker::Model;

/// A field: one or more bytes as they are in the text, or any other list of bytes. It takes 16
/// bytes, and a block of its own for more than 14 (`Bytes`).
#[derive(Drop)]
pub struct Field {
    bytes: Bytes,
}

impl Model for Field {
    ghost use Rattle.std.specs.Prelude.{List, ℕ};

    ghost Value = { List ℕ };

    ghost view = { λ field. field.bytes };
}

impl Field {
    /// Copies the bytes. The only error is out of memory.
    pub fn new(alloc: Global, bytes: &[u8]) -> Result<Field, Memory>
        ensures { IfOk result (λ field. field ≡ bytes.now) }
    {
        let bytes = Bytes::new(alloc, bytes)?;
        Ok(Field { bytes })
    }

    /// A field of no bytes, to be filled.
    pub fn empty() -> Field
        ensures { result ≡ [] }
    {
        Field {
            bytes: Bytes::empty(),
        }
    }

    /// Puts copies of these bytes in the place of its own, which stay where it fails. The only
    /// error is out of memory.
    pub fn set(&mut self, alloc: Global, bytes: &[u8]) -> Result<(), Memory>
        ensures set { OnOk result (self.new ≡ bytes.now) }
        ensures unchanged { OnErr result (self.new ≡ self.old) }
    {
        self.bytes.set(alloc, bytes)
    }

    /// The bytes that `new` or `set` took.
    pub fn bytes(&self) -> &[u8]
        ensures { result.now ≡ self.now }
    {
        self.bytes.as_slice()
    }
}
