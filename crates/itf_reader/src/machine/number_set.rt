// A set of small numbers.
ghost use Rattle.std.specs.Prelude.{◌≡◌, ◌<◌, ℕ, List, [], ◌∷◌, ◌++◌, OnOk, length, get_or, true};
ghost use Rattle.std.specs.Prelude.{false};
ghost use Rattle.itf_reader.specs.Numbers.{has_number, AreFlags};

use ports::Memory;
use std::alloc::Global;
use std::marker::Model;

/// Numbers in the order in which they were added, with a flag for each number up to the greatest,
/// so that `has` is one load.
#[derive(Drop)]
pub struct NumberSet {
    list: Vec<usize>,
    flags: Vec<bool>,
}

impl Model for NumberSet {
    ghost use Rattle.std.specs.Prelude.{List, ℕ};
    ghost use Rattle.itf_reader.specs.Numbers.{AreFlags};

    ghost Value = { List ℕ };

    ghost view = { λ set. set.list.items };

    ghost invariant = { λ set. AreFlags set.list.items set.flags.items };
}

// Makes room for the flag of a number.
fn grow(flags: &mut Vec<bool>, number: usize) -> Result<(), Memory>
    ensures same { (n : ℕ)
        → get_or flags.new.items n false ≡ get_or flags.old.items n false }
    ensures long { OnOk result (number < length flags.new.items) }
{
    while flags.len() <= number {
        flags.push(false)?;
    }
    Ok(())
}

// Forgets the numbers, in time in proportion to how many they are.
fn forget(list: &mut Vec<usize>, flags: &mut Vec<bool>)
    requires { AreFlags list.old.items flags.old.items }
    ensures list { list.new.items ≡ [] }
    ensures flags { AreFlags [] flags.new.items }
{
    while let Some(number) = list.pop() {
        if number < flags.len() {
            flags[number] = false;
        }
    }
}

impl NumberSet {
    /// No number.
    pub fn new(alloc: Global) -> NumberSet
        ensures { result ≡ [] }
    {
        NumberSet {
            list: Vec::new(alloc),
            flags: Vec::new(alloc),
        }
    }

    /// The number was added.
    pub fn has(&self, number: usize) -> bool
        ensures { result ≡ has_number number self.now }
    {
        match self.flags.get(number) {
            Some(flag) => *flag,
            None => false,
        }
    }

    /// Adds a number.
    pub fn add(&mut self, number: usize) -> Result<(), Memory>
        ensures { OnOk result (self.new ≡ self.old ++ number ∷ []) }
    {
        grow(&mut self.flags, number)?;
        self.list.push(number)?;
        self.flags[number] = true;
        Ok(())
    }

    /// Forgets all numbers, and keeps their room.
    pub fn clear(&mut self)
        ensures { self.new ≡ [] }
    {
        forget(&mut self.list, &mut self.flags);
    }
}
