// Parts of a text that are held in memory.
ghost use Rattle.std.specs.Prelude.{◌≡◌, ◌++◌, [], take, drop, OnOk, IfOk, IfSome, true, false};
ghost use Rattle.file_pages.specs.Held.{times};
ghost use Rattle.file_pages.specs.Writing.{sight, Wrote};

use super::page::Page;
use super::putting::put;
use ports::{Memory, Shelf};
use std::alloc::Global;
use std::marker::Model;

// The bytes of a block: enough that a text has few blocks, and that what a block leaves free
// counts for little.
const SIZE: usize = 65_536;

// A place among the bytes of a block, by how many stand between it and the place before, and how
// often the block's line stands there.
#[derive(Clone, Copy, Drop)]
struct Repeat {
    after: u32,
    count: u32,
}

// The place behind so many bytes at which a line stands so often, where both numbers are small.
fn repeat_of(after: usize, count: usize) -> Option<Repeat>
    ensures after { IfSome result (λ repeat. repeat.after ≡ after) }
    ensures count { IfSome result (λ repeat. repeat.count ≡ count) }
{
    let after = u32::try_from(after).ok()?;
    let count = u32::try_from(count).ok()?;
    Some(Repeat { after, count })
}

/// A part of a text: its bytes, but for a line that stands at places among them and is held once.
#[derive(Drop)]
pub struct Block {
    line: Vec<u8>,
    bytes: Vec<u8>,
    repeats: Vec<Repeat>,
    settled: usize,
}

impl Model for Block {
    ghost use Rattle.std.specs.Prelude.{◌≡◌, ◌≤◌, List, ℕ, length};
    ghost use Rattle.file_pages.specs.Held.{settled_by, spliced};

    ghost Value = { List ℕ };

    ghost view = { λ block. spliced block.line.items block.repeats.items block.bytes.items };

    ghost invariant = { λ block. (settled_by block.repeats.items ≡ block.settled)
        × (block.settled ≤ length block.bytes.items) };
}

impl Block {
    /// No byte, and no line that stands often.
    pub fn empty(alloc: Global) -> Block
        ensures { result ≡ [] }
    {
        Block {
            line: Vec::new(alloc),
            bytes: Vec::new(alloc),
            repeats: Vec::new(alloc),
            settled: 0,
        }
    }

    /// No byte yet, of a text in which that line may stand often.
    pub fn new(alloc: Global, line: &[u8]) -> Result<Block, Memory>
        ensures { IfOk result (λ block. block ≡ []) }
    {
        let line = Vec::from_slice(alloc, line)?;
        Ok(Block {
            line,
            bytes: Vec::new(alloc),
            repeats: Vec::new(alloc),
            settled: 0,
        })
    }

    /// No byte yet, for what follows a block that is full.
    pub fn after(alloc: Global, block: &Block) -> Result<Block, Memory>
        ensures { IfOk result (λ block. block ≡ []) }
    {
        let line = Vec::from_slice(alloc, &block.line)?;
        let bytes = Vec::with_capacity(alloc, SIZE)?;
        Ok(Block {
            line,
            bytes,
            repeats: Vec::new(alloc),
            settled: 0,
        })
    }

    /// How many bytes it may still take.
    pub fn room(&self) -> usize {
        SIZE.saturating_sub(self.bytes.len())
    }

    /// Adds bytes.
    pub fn add(&mut self, bytes: &[u8]) -> Result<(), Memory>
        ensures { OnOk result (self.new ≡ self.old ++ bytes.now) }
    {
        self.bytes.extend_from_slice(bytes)?;
        Ok(())
    }

    /// Adds a line so many times, where it is the line of the block: else nothing.
    pub fn add_line(&mut self, line: &[u8], count: usize) -> Result<bool, Memory>
        ensures added { IfOk result (λ added. added ≡ true
            → self.new ≡ self.old ++ times count line.now) }
        ensures other { IfOk result (λ added. added ≡ false → self.new ≡ self.old) }
    {
        if self.line.as_slice() != line {
            return Ok(false);
        }
        let Some(repeat) = repeat_of(self.bytes.len() - self.settled, count) else {
            return Err(Memory);
        };
        self.repeats.push(repeat)?;
        self.settled = self.bytes.len();
        Ok(true)
    }
}

// The first bytes, as many as there are up to that count, and the others.
fn split(bytes: &[u8], count: usize) -> (&[u8], &[u8])
    ensures first { result.0.now ≡ take count bytes.now }
    ensures rest { result.1.now ≡ drop count bytes.now }
{
    if count < bytes.len() {
        bytes.split_at(count)
    } else {
        (bytes, &[])
    }
}

// Puts a line so many times.
fn put_times<S: Shelf>(shelf: &mut S, name: &str, page: &mut Page, line: &[u8], count: u32)
    ensures { Wrote name.now (times count line.now)
        (sight (S.held shelf.old) (S.space shelf.old name.now) (S.read_faults shelf.old)
        (S.write_faults shelf.old)) page.old
        (sight (S.held shelf.new) (S.space shelf.new name.now) (S.read_faults shelf.new)
        (S.write_faults shelf.new)) page.new }
{
    for _ in 0..count {
        put(shelf, name, page, line);
    }
}

// Puts what stands up to a place, and the line there, and answers the bytes behind it.
fn put_up_to<'a, S: Shelf>(
    shelf: &mut S,
    name: &str,
    page: &mut Page,
    line: &[u8],
    left: &'a [u8],
    repeat: &Repeat,
) -> &'a [u8]
    ensures wrote { Wrote name.now (take repeat.now.after left.now
        ++ times repeat.now.count line.now)
        (sight (S.held shelf.old) (S.space shelf.old name.now) (S.read_faults shelf.old)
        (S.write_faults shelf.old)) page.old
        (sight (S.held shelf.new) (S.space shelf.new name.now) (S.read_faults shelf.new)
        (S.write_faults shelf.new)) page.new }
    ensures rest { result.now ≡ drop repeat.now.after left.now }
{
    let (front, rest) = split(left, repeat.after as usize);
    put(shelf, name, page, front);
    put_times(shelf, name, page, line, repeat.count);
    rest
}

/// Puts the text of a block.
pub fn put_block<S: Shelf>(shelf: &mut S, name: &str, page: &mut Page, block: &Block)
    ensures { Wrote name.now block.now
        (sight (S.held shelf.old) (S.space shelf.old name.now) (S.read_faults shelf.old)
        (S.write_faults shelf.old)) page.old
        (sight (S.held shelf.new) (S.space shelf.new name.now) (S.read_faults shelf.new)
        (S.write_faults shelf.new)) page.new }
{
    let mut left: &[u8] = &block.bytes;
    for repeat in &block.repeats {
        left = put_up_to(shelf, name, page, &block.line, left, repeat);
    }
    put(shelf, name, page, left);
}
