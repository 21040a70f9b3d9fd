// A list that is changed in place, kept in chunks.
ghost use Rattle.std.specs.Prelude.{◌≡◌, ◌+◌, ◌^◌, ◌<◌, ◌≤◌, ◌++◌, [], length, take, drop};
ghost use Rattle.std.specs.Prelude.{OnErr, OnOk, slice_index_or};
ghost use Rattle.straight_predicates.specs.Chunks.{joined};

use super::chunk::Chunk;
use super::chunks::{copy_part, find, replace};
use ports::Memory;
use std::alloc::Global;
use std::marker::Model;

/// A list of values in chunks of some thousands. A change moves one chunk of them at most, and
/// passes over the chunks before it, whatever the length of the list.
#[derive(Drop)]
pub struct ChunkedList<T> {
    alloc: Global,
    chunks: Vec<Chunk<T>>,
    size: usize,
}

impl<T> Model for ChunkedList<T> {
    ghost use Rattle.std.specs.Prelude.{◌≡◌, List, length};
    ghost use Rattle.straight_predicates.specs.Chunks.{joined};

    ghost Value = { List T };

    ghost view = { λ list. joined list.chunks.items };

    ghost invariant = { λ list. list.size ≡ length (joined list.chunks.items) };
}

impl<T: Copy> ChunkedList<T> {
    /// A list of nothing.
    pub fn new(alloc: Global) -> ChunkedList<T>
        ensures { result ≡ [] }
    {
        ChunkedList {
            alloc,
            chunks: Vec::new(alloc),
            size: 0,
        }
    }

    pub fn len(&self) -> usize
        ensures { result ≡ length self.now }
    {
        self.size
    }

    /// The value at a place.
    pub fn get(&self, place: usize) -> T
        requires { place < length self.now }
        ensures { (d : T) → result ≡ slice_index_or self.now place d }
    {
        let spot = find(&self.chunks, place);
        self.chunks[spot.chunk].values()[spot.offset]
    }

    /// Copies `count` values from the place `from` on into another list, whose values go.
    pub fn copy_part(&self, from: usize, count: usize, into: &mut Vec<T>) -> Result<(), Memory>
        requires { from + count ≤ length self.now }
        ensures { OnOk result (into.new.items ≡ take count (drop from self.now)) }
    {
        let _size = self.size;
        copy_part(&self.chunks, from, count, into)
    }

    /// The chunks, whose values are those of the list one after another.
    pub(crate) fn chunks(&self) -> &[Chunk<T>]
        ensures joined { joined result.now ≡ self.now }
        ensures few { length self.now < 2 ^ 64 }
    {
        let _size = self.size;
        &self.chunks
    }

    /// Puts values in the place of `count` others, from `from` on. After `Memory` it is empty.
    pub fn replace(&mut self, from: usize, count: usize, with: &[T]) -> Result<(), Memory>
        requires { from + count ≤ length self.old }
        ensures values { OnOk result (self.new ≡ take from self.old
            ++ (with.now ++ drop (from + count) self.old)) }
        ensures emptied { OnErr result (self.new ≡ []) }
    {
        let size = (self.size - count).checked_add(with.len());
        let done = replace(self.alloc, &mut self.chunks, from, count, with);
        if let (Some(size), Ok(())) = (size, done) {
            self.size = size;
            return Ok(());
        }
        self.chunks.clear();
        self.size = 0;
        Err(Memory)
    }
}
