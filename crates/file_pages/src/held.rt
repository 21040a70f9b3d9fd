// A text that is held in memory, to be written later.
ghost use Rattle.std.specs.Prelude.{◌≡◌, ◌++◌, [], OnOk, IfOk};
ghost use Rattle.file_pages.specs.Held.{joined, times};
ghost use Rattle.file_pages.specs.Writing.{sight, Appends, Wrote};

use super::blocks::{Block, put_block};
use super::page::Page;
use super::putting::finish;
use ports::{Failed, Memory, Shelf};
use std::alloc::Global;
use std::marker::Model;
use std::mem::replace;

// So often a line is held as it stands: a place among the bytes takes as much.
const FEW: usize = 1;

/// A text that is held in memory, to be written later without more of it. Bytes are added at its
/// end. One line, which is said at the beginning, may stand in it many times at one place and is
/// then not held there.
///
/// Cost: a byte for each byte that was added, in blocks of 65,536, and 8 bytes for each place at
/// which the line stands twice or more. Adding costs time in proportion to what is held for it.
#[derive(Drop)]
pub struct HeldText {
    alloc: Global,
    full: Vec<Block>,
    last: Block,
}

impl Model for HeldText {
    ghost use Rattle.std.specs.Prelude.{List, ℕ, ◌++◌};
    ghost use Rattle.file_pages.specs.Held.{joined};

    ghost Value = { List ℕ };

    ghost view = { λ text. joined text.full.items ++ text.last };
}

impl HeldText {
    /// An empty text, in which that line may stand often.
    pub fn new(alloc: Global, line: &[u8]) -> Result<HeldText, Memory>
        ensures { IfOk result (λ text. text ≡ []) }
    {
        let last = Block::new(alloc, line)?;
        Ok(HeldText {
            alloc,
            full: Vec::new(alloc),
            last,
        })
    }

    // Begins a block behind the last one.
    fn begin_block(&mut self) -> Result<(), Memory>
        ensures { OnOk result (self.new ≡ self.old) }
    {
        let block = Block::after(self.alloc, &self.last)?;
        let last = replace(&mut self.last, block);
        self.full.push(last)?;
        Ok(())
    }

    /// Adds bytes. The only error is out of memory, here and below; nothing is then said of the
    /// text.
    pub fn add(&mut self, bytes: &[u8]) -> Result<(), Memory>
        ensures { OnOk result (self.new ≡ self.old ++ bytes.now) }
    {
        let room = self.last.room();
        if bytes.len() <= room {
            return self.last.add(bytes);
        }
        let (front, rest) = bytes.split_at(room);
        self.last.add(front)?;
        self.begin_block()?;
        self.last.add(rest)
    }

    /// Adds a line so many times.
    pub fn add_times(&mut self, line: &[u8], count: usize) -> Result<(), Memory>
        ensures { OnOk result (self.new ≡ self.old ++ times count line.now) }
    {
        if FEW < count && self.last.add_line(line, count)? {
            return Ok(());
        }
        self.add_each(line, count)
    }

    // Adds a line so many times, which is held each time.
    fn add_each(&mut self, line: &[u8], count: usize) -> Result<(), Memory>
        ensures { OnOk result (self.new ≡ self.old ++ times count line.now) }
    {
        for _ in 0..count {
            self.add(line)?;
        }
        Ok(())
    }

    /// Adds another text, whose blocks are moved. Nothing is said of what it holds then.
    pub fn append(&mut self, other: &mut HeldText) -> Result<(), Memory>
        ensures { OnOk result (self.new ≡ self.old ++ other.old) }
    {
        let last = replace(&mut other.last, Block::empty(self.alloc));
        let closed = replace(&mut self.last, last);
        self.full.push(closed)?;
        self.full.append(&mut other.full)?;
        Ok(())
    }

    /// Appends the text to the file of that name, and makes the file if there is none. It takes no
    /// memory. `Failed` comes only where a write failed; the file has then gained a front of the
    /// text.
    pub fn put<S: Shelf>(&self, shelf: &mut S, name: &str) -> Result<(), Failed>
        ensures { Appends name.now self.now
            (sight (S.held shelf.old) (S.space shelf.old name.now) (S.read_faults shelf.old)
            (S.write_faults shelf.old)) result
            (sight (S.held shelf.new) (S.space shelf.new name.now) (S.read_faults shelf.new)
            (S.write_faults shelf.new)) }
    {
        let mut page = Page::new();
        put_blocks(shelf, name, &mut page, &self.full);
        put_block(shelf, name, &mut page, &self.last);
        finish(shelf, name, page)
    }
}

// Puts some blocks.
fn put_blocks<S: Shelf>(shelf: &mut S, name: &str, page: &mut Page, blocks: &[Block])
    ensures { Wrote name.now (joined blocks.now)
        (sight (S.held shelf.old) (S.space shelf.old name.now) (S.read_faults shelf.old)
        (S.write_faults shelf.old)) page.old
        (sight (S.held shelf.new) (S.space shelf.new name.now) (S.read_faults shelf.new)
        (S.write_faults shelf.new)) page.new }
{
    for block in blocks {
        put_block(shelf, name, page, block);
    }
}
