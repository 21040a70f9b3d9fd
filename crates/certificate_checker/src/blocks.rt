// Some live edges in one piece of memory.
ghost use Rattle.std.specs.Prelude.{◌≡◌, ◌+◌, ◌-◌, ◌<◌, ◌≤◌, ◌++◌, [], length, take, drop, IfOk};
ghost use Rattle.std.specs.Prelude.{vec_capacity};

use ports::Memory;
use std::alloc::Global;
use std::marker::Model;

/// The most edges in a block, so that a change of one moves 1,024 edges at most.
pub const MOST: usize = 1024;

/// Up to 1,024 edges, for which there is room from the start.
#[derive(Drop)]
pub struct Block {
    edges: Vec<u32>,
}

impl Model for Block {
    ghost use Rattle.std.specs.Prelude.{◌≤◌, ℕ, List, length, vec_capacity};

    ghost Value = { List ℕ };

    ghost view = { λ b. b.edges.items };

    ghost invariant = { λ b. (length b.edges.items ≤ 1024) × (1024 ≤ vec_capacity b.edges) };
}

impl Block {
    /// No edges.
    pub fn new(alloc: Global) -> Result<Block, Memory>
        ensures { IfOk result (λ block. block ≡ []) }
    {
        let edges = Vec::with_capacity(alloc, MOST)?;
        Ok(Block { edges })
    }

    pub fn edges(&self) -> &[u32]
        ensures { result.now ≡ self.now }
    {
        &self.edges
    }

    pub fn len(&self) -> usize
        ensures size { result ≡ length self.now }
        ensures most { result ≤ 1024 }
    {
        self.edges.len()
    }

    /// Puts edges in the place of `count` others, from `from` on.
    pub fn replace(&mut self, from: usize, count: usize, with: &[u32])
        requires within { from + count ≤ length self.old }
        requires room { length self.old - count + length with.now ≤ 1024 }
        ensures { self.new ≡ take from self.old
            ++ (with.now ++ drop (from + count) self.old) }
    {
        change(&mut self.edges, from, count, with);
    }

    /// Puts edges in the place of all.
    pub fn refill(&mut self, with: &[u32])
        requires { length with.now ≤ 1024 }
        ensures { self.new ≡ with.now }
    {
        self.edges.clear();
        insert_edges(&mut self.edges, 0, with);
    }
}

// Puts edges in the place of `count` others, from `from` on. There is room for them. Where as many
// come as go, nothing else is moved; else each edge after them is moved once or twice.
fn change(edges: &mut Vec<u32>, from: usize, count: usize, with: &[u32])
    requires within { from + count ≤ length edges.old.items }
    requires room { length edges.old.items - count + length with.now ≤ vec_capacity edges.old }
    ensures items { edges.new.items ≡ take from edges.old.items
        ++ (with.now ++ drop (from + count) edges.old.items) }
    ensures capacity { vec_capacity edges.new ≡ vec_capacity edges.old }
{
    let common = count.min(with.len());
    write_over(edges, from, &with[..common]);
    if common < with.len() {
        insert_edges(edges, from + common, &with[common..]);
    } else {
        remove_edges(edges, from + common, count - common);
    }
}

// Writes edges over as many others, from `at` on.
fn write_over(edges: &mut Vec<u32>, at: usize, with: &[u32])
    requires { at + length with.now ≤ length edges.old.items }
    ensures items { edges.new.items
        ≡ take at edges.old.items ++ (with.now ++ drop (at + length with.now) edges.old.items) }
    ensures capacity { vec_capacity edges.new ≡ vec_capacity edges.old }
{
    edges[at..at + with.len()].copy_from_slice(with);
}

/// Puts edges in before the one at `at`. There is room for them.
pub fn insert_edges(edges: &mut Vec<u32>, at: usize, more: &[u32])
    requires place { at ≤ length edges.old.items }
    requires room { length edges.old.items + length more.now ≤ vec_capacity edges.old }
    ensures items { edges.new.items
        ≡ take at edges.old.items ++ (more.now ++ drop at edges.old.items) }
    ensures capacity { vec_capacity edges.new ≡ vec_capacity edges.old }
{
    if let [edge] = more {
        let _ = edges.insert(at, *edge);
        return;
    }
    for edge in more {
        edges.push_reserved(*edge);
    }
    edges[at..].rotate_right(more.len());
}

// Takes out `count` edges from `at` on.
fn remove_edges(edges: &mut Vec<u32>, at: usize, count: usize)
    requires { at + count ≤ length edges.old.items }
    ensures items { edges.new.items
        ≡ take at edges.old.items ++ drop (at + count) edges.old.items }
    ensures capacity { vec_capacity edges.new ≡ vec_capacity edges.old }
{
    if count == 1 {
        edges.remove(at);
        return;
    }
    edges[at..].rotate_left(count);
    edges.truncate(edges.len() - count);
}
