// A text that is made part by part.
ghost use Rattle.std.specs.Prelude.{◌≡◌, ◌++◌, [], codes, decimal, IfOk, OnOk};

use itoa::Buffer;
use ports::Memory;
use std::alloc::Global;
use std::marker::Model;

/// A text as far as it is made.
#[derive(Drop)]
pub struct Text {
    bytes: Vec<u8>,
}

impl Model for Text {
    ghost use Rattle.std.specs.Prelude.{List, ℕ};

    ghost Value = { List ℕ };

    ghost view = { λ text. text.bytes.items };
}

impl Text {
    /// An empty text.
    pub fn new(alloc: Global) -> Text
        ensures { result ≡ [] }
    {
        Text {
            bytes: Vec::new(alloc),
        }
    }

    /// An empty text, with room for so many bytes.
    pub fn with_room(alloc: Global, room: usize) -> Result<Text, Memory>
        ensures { IfOk result (λ text. text ≡ []) }
    {
        let bytes = Vec::with_capacity(alloc, room)?;
        Ok(Text { bytes })
    }

    /// The bytes of the text.
    pub fn into_bytes(self) -> Vec<u8>
        ensures { result.items ≡ self }
    {
        self.bytes
    }

    /// Adds bytes.
    pub fn add(&mut self, bytes: &[u8]) -> Result<(), Memory>
        ensures { OnOk result (self.new ≡ self.old ++ bytes.now) }
    {
        self.bytes.extend_from_slice(bytes)?;
        Ok(())
    }

    /// Adds a count.
    pub fn add_count(&mut self, count: u128) -> Result<(), Memory>
        ensures { OnOk result (self.new ≡ self.old ++ decimal count) }
    {
        let mut buffer = Buffer::new();
        self.add(buffer.format(count).as_bytes())
    }

    /// Adds a number.
    pub fn add_number(&mut self, number: u32) -> Result<(), Memory>
        ensures { OnOk result (self.new ≡ self.old ++ decimal number) }
    {
        self.add_count(u128::from(number))
    }

    /// Adds a word, with a blank before it.
    pub fn add_next(&mut self, word: &[u8]) -> Result<(), Memory>
        ensures { OnOk result (self.new ≡ self.old ++ (codes " " ++ word.now)) }
    {
        self.add(b" ")?;
        self.add(word)
    }

    /// Adds a count, with a blank before it.
    pub fn add_next_count(&mut self, count: u128) -> Result<(), Memory>
        ensures { OnOk result (self.new ≡ self.old ++ (codes " " ++ decimal count)) }
    {
        self.add(b" ")?;
        self.add_count(count)
    }
}
