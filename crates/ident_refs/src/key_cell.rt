// Keys as bytes.
ghost use Rattle.std.specs.Prelude.{◌≡◌, IfOk};
ghost use Rattle.ident_refs.specs.KeyBytes.{key_in};

use itf_lines::Field;
use ports::{Keyed, Memory};
use std::alloc::Global;
use std::marker::Model;

/// The bytes of a key, or no byte for no key.
#[derive(Drop)]
pub struct KeyCell {
    bytes: Field,
}

impl Model for KeyCell {
    ghost use Rattle.std.specs.Prelude.{List, ℕ, Option};
    ghost use Rattle.ident_refs.specs.KeyBytes.{key_in};

    ghost Value = { Option (List ℕ) };

    ghost view = { λ cell. key_in cell.bytes };
}

impl KeyCell {
    /// Copies the bytes of a key. The only error is out of memory.
    pub fn new(alloc: Global, bytes: &[u8]) -> Result<KeyCell, Memory>
        ensures { IfOk result (λ cell. cell ≡ key_in bytes.now) }
    {
        Ok(KeyCell {
            bytes: Field::new(alloc, bytes)?,
        })
    }

    /// The same key. The only error is out of memory.
    pub fn copied(&self, alloc: Global) -> Result<KeyCell, Memory>
        ensures { IfOk result (λ cell. cell ≡ self.now) }
    {
        KeyCell::new(alloc, self.bytes.bytes())
    }
}

impl Keyed for KeyCell {
    ghost key = { λ cell. cell };

    fn key(&self) -> Option<&[u8]> {
        match self.bytes.bytes() {
            [] => None,
            bytes => Some(bytes),
        }
    }
}
