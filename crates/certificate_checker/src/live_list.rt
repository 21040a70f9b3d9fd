// The live list of a replay, with room for the most edges that it holds.
ghost use Rattle.std.specs.Prelude.{◌≡◌, ℕ, ◌+◌, ◌-◌, ◌^◌, ◌<◌, ◌≤◌, ◌++◌, [], length, take, drop};
ghost use Rattle.std.specs.Prelude.{IfOk, replicate, slice_index_or, vec_capacity};
ghost use Rattle.plane.specs.Runs.Gaps.{edge_at, edge_before};

use super::blocks::Block;
use super::places::{HALF, append_part, find, replace};
use ports::Memory;
use std::alloc::Global;
use std::marker::Model;

/// A list of edges in blocks, with room from the start for as many as it may hold. A change moves
/// one block of them at most, and passes over the blocks before it. Where a block has no more
/// room, all edges are spread anew, half a block at a time: so that comes once for 512 edges that
/// are put in.
#[derive(Drop)]
pub struct LiveList {
    blocks: Vec<Block>,
    spare: Vec<u32>,
    size: usize,
    most: usize,
}

impl Model for LiveList {
    ghost use Rattle.certificate_checker.specs.LiveLists.{IsKept, Live};
    ghost use Rattle.straight_predicates.specs.Chunks.{joined};
    ghost use Rattle.std.specs.Prelude.{vec_capacity};

    ghost Value = { Live };

    ghost view = { λ l. record { edges = joined l.blocks.items; most = l.most } };

    ghost invariant = { λ l. IsKept l.blocks.items (vec_capacity l.spare) l.size l.most };
}

impl LiveList {
    /// A list of no edge, with room for so many.
    pub fn new(alloc: Global, most: usize) -> Result<LiveList, Memory>
        ensures edges { IfOk result (λ l. l.edges ≡ []) }
        ensures most { IfOk result (λ l. l.most ≡ most) }
        ensures few { IfOk result (λ l. l.most < 2 ^ 63) }
    {
        let spare = Vec::with_capacity(alloc, most)?;
        let blocks = empty_blocks(alloc, most / HALF + 1)?;
        Ok(LiveList {
            blocks,
            spare,
            size: 0,
            most,
        })
    }

    pub fn len(&self) -> usize
        ensures { result ≡ length self.now.edges }
    {
        self.size
    }

    /// The edge at a place.
    pub fn get(&self, place: usize) -> u32
        requires { place < length self.now.edges }
        ensures { (d : ℕ) → result ≡ slice_index_or self.now.edges place d }
    {
        let spot = find(&self.blocks, place);
        self.blocks[spot.block].edges()[spot.offset]
    }

    /// The edge before a place, and None before all.
    pub fn edge_before(&self, place: usize) -> Option<u32>
        requires { place ≤ length self.now.edges }
        ensures { result ≡ edge_before self.now.edges place }
    {
        if place == 0 {
            None
        } else {
            Some(self.get(place - 1))
        }
    }

    /// The edge at a place, and None after all.
    pub fn edge_at(&self, place: usize) -> Option<u32>
        ensures { result ≡ edge_at self.now.edges place }
    {
        if place < self.len() {
            Some(self.get(place))
        } else {
            None
        }
    }

    /// Copies `count` edges from the place `from` on into another list, which has room for them
    /// and whose edges go.
    pub fn copy_part(&self, from: usize, count: usize, into: &mut Vec<u32>)
        requires within { from + count ≤ length self.now.edges }
        requires room { count ≤ vec_capacity into.old }
        ensures items { into.new.items ≡ take count (drop from self.now.edges) }
        ensures capacity { vec_capacity into.new ≡ vec_capacity into.old }
    {
        let _size = self.size;
        into.clear();
        append_part(&self.blocks, from, count, into);
    }

    /// Puts edges in the place of `count` others, from `from` on. There is room for them.
    pub fn replace(&mut self, from: usize, count: usize, with: &[u32])
        requires within { from + count ≤ length self.old.edges }
        requires room { length self.old.edges - count + length with.now ≤ self.old.most }
        ensures edges { self.new.edges ≡ take from self.old.edges
            ++ (with.now ++ drop (from + count) self.old.edges) }
        ensures most { self.new.most ≡ self.old.most }
    {
        replace(
            &mut self.blocks,
            &mut self.spare,
            self.size,
            from,
            count,
            with,
        );
        self.size = self.size - count + with.len();
    }
}

// So many blocks without edges.
fn empty_blocks(alloc: Global, count: usize) -> Result<Vec<Block>, Memory>
    ensures { IfOk result (λ blocks. blocks.items ≡ replicate count []) }
{
    let mut blocks = Vec::with_capacity(alloc, count)?;
    for _ in 0..count {
        blocks.push(Block::new(alloc)?)?;
    }
    Ok(blocks)
}
