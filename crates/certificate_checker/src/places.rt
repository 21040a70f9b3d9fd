// Places of a list that is kept in blocks.
ghost use Rattle.std.specs.Prelude.{◌≡◌, ◌+◌, ◌-◌, ◌*◌, ◌^◌, ◌<◌, ◌≤◌, ◌++◌, length, take, drop};
ghost use Rattle.std.specs.Prelude.{IsTrue, vec_capacity};
ghost use Rattle.straight_predicates.specs.Chunks.{IsAt, joined};

use super::blocks::{Block, MOST, insert_edges};

// As many edges as a block gets when all are spread anew.
pub const HALF: usize = MOST / 2;

/// A place of the list: its block, and its place there.
#[derive(Clone, Copy)]
pub struct Spot {
    pub block: usize,
    pub offset: usize,
}

/// The block of a place, and after all edges the end of the last one.
pub fn find(blocks: &[Block], place: usize) -> Spot
    requires some { 0 < length blocks.now }
    requires place { place ≤ length (joined blocks.now) }
    ensures { IsAt blocks.now place result.block result.offset }
{
    let mut block = 0;
    let mut offset = place;
    while block + 1 < blocks.len() && blocks[block].len() <= offset {
        offset -= blocks[block].len();
        block += 1;
    }
    Spot { block, offset }
}

/// Appends `count` edges from a place on to another list, in which there is room for them.
pub fn append_part(blocks: &[Block], from: usize, count: usize, into: &mut Vec<u32>)
    requires few { length (joined blocks.now) < 2 ^ 64 }
    requires within { from + count ≤ length (joined blocks.now) }
    requires room { length into.old.items + count ≤ vec_capacity into.old }
    ensures items { into.new.items ≡ into.old.items ++ take count (drop from (joined blocks.now)) }
    ensures capacity { vec_capacity into.new ≡ vec_capacity into.old }
{
    let mut done = 0;
    while done < count {
        done += append_some(blocks, from + done, count - done, into);
    }
}

// Appends those of the edges that are in one block, and answers how many.
fn append_some(blocks: &[Block], place: usize, count: usize, into: &mut Vec<u32>) -> usize
    requires some { 0 < count }
    requires within { place + count ≤ length (joined blocks.now) }
    requires room { length into.old.items + count ≤ vec_capacity into.old }
    ensures some { 0 < result }
    ensures most { result ≤ count }
    ensures items { into.new.items
        ≡ into.old.items ++ take result (drop place (joined blocks.now)) }
    ensures capacity { vec_capacity into.new ≡ vec_capacity into.old }
{
    let spot = find(blocks, place);
    let edges = blocks[spot.block].edges();
    let more = count.min(edges.len() - spot.offset);
    let end = into.len();
    insert_edges(into, end, &edges[spot.offset..spot.offset + more]);
    more
}

/// Puts edges in the place of `count` others, from `from` on. Where they do not fit into one block,
/// all are spread anew, by way of `spare`, which has room for all.
pub fn replace(
    blocks: &mut [Block],
    spare: &mut Vec<u32>,
    size: usize,
    from: usize,
    count: usize,
    with: &[u32],
)
    requires some { 0 < length blocks.old }
    requires size { size ≡ length (joined blocks.old) }
    requires within { from + count ≤ size }
    requires spare { size - count + length with.now ≤ vec_capacity spare.old }
    requires room { size - count + length with.now ≤ 512 * length blocks.old }
    ensures joined { joined blocks.new ≡ take from (joined blocks.old)
        ++ (with.now ++ drop (from + count) (joined blocks.old)) }
    ensures capacity { vec_capacity spare.new ≡ vec_capacity spare.old }
{
    let spot = find(blocks, from);
    let block = &mut blocks[spot.block];
    if fits(block.len(), spot.offset, count, with.len()) {
        block.replace(spot.offset, count, with);
        return;
    }
    remove(blocks, from, count);
    insert(blocks, spare, size - count, from, with);
}

// Whether so many edges from the place on are all in the block, and others in their place fit.
fn fits(size: usize, offset: usize, count: usize, more: usize) -> bool
    requires offset { offset ≤ size }
    requires most { size ≤ 1024 }
    ensures within { IsTrue result → offset + count ≤ size }
    ensures room { IsTrue result → size - count + more ≤ 1024 }
{
    count <= size - offset && more <= MOST - (size - count)
}

// Takes out `count` edges from `from` on.
fn remove(blocks: &mut [Block], from: usize, count: usize)
    requires some { 0 < length blocks.old }
    requires within { from + count ≤ length (joined blocks.old) }
    ensures { joined blocks.new ≡ take from (joined blocks.old)
        ++ drop (from + count) (joined blocks.old) }
{
    let mut left = count;
    while left > 0 {
        left -= remove_some(blocks, from, left);
    }
}

// Takes out those of the edges that are in one block, and answers how many.
fn remove_some(blocks: &mut [Block], from: usize, count: usize) -> usize
    requires blocks { 0 < length blocks.old }
    requires some { 0 < count }
    requires within { from + count ≤ length (joined blocks.old) }
    ensures some { 0 < result }
    ensures most { result ≤ count }
    ensures joined { joined blocks.new ≡ take from (joined blocks.old)
        ++ drop (from + result) (joined blocks.old) }
{
    let spot = find(blocks, from);
    let block = &mut blocks[spot.block];
    let taken = count.min(block.len() - spot.offset);
    block.replace(spot.offset, taken, &[]);
    taken
}

// Puts edges in before the place.
fn insert(blocks: &mut [Block], spare: &mut Vec<u32>, size: usize, place: usize, with: &[u32])
    requires some { 0 < length blocks.old }
    requires size { size ≡ length (joined blocks.old) }
    requires place { place ≤ size }
    requires spare { size + length with.now ≤ vec_capacity spare.old }
    requires room { size + length with.now ≤ 512 * length blocks.old }
    ensures joined { joined blocks.new ≡ take place (joined blocks.old)
        ++ (with.now ++ drop place (joined blocks.old)) }
    ensures capacity { vec_capacity spare.new ≡ vec_capacity spare.old }
{
    let spot = find(blocks, place);
    let block = &mut blocks[spot.block];
    if fits(block.len(), spot.offset, 0, with.len()) {
        block.replace(spot.offset, 0, with);
        return;
    }
    collect(blocks, spare, size, place, with);
    spread(blocks, spare);
}

// Writes all edges into the spare list, with others before the place.
fn collect(blocks: &[Block], spare: &mut Vec<u32>, size: usize, place: usize, with: &[u32])
    requires size { size ≡ length (joined blocks.now) }
    requires place { place ≤ size }
    requires spare { size + length with.now ≤ vec_capacity spare.old }
    ensures items { spare.new.items ≡ take place (joined blocks.now)
        ++ (with.now ++ drop place (joined blocks.now)) }
    ensures capacity { vec_capacity spare.new ≡ vec_capacity spare.old }
{
    spare.clear();
    append_part(blocks, 0, place, spare);
    insert_edges(spare, place, with);
    append_part(blocks, place, size - place, spare);
}

// Spreads edges over the blocks, half a block at a time.
fn spread(blocks: &mut [Block], edges: &[u32])
    requires { length edges.now ≤ 512 * length blocks.old }
    ensures { joined blocks.new ≡ edges.now }
{
    let mut from = 0;
    for i in 0..blocks.len() {
        let upto = from + HALF.min(edges.len() - from);
        blocks[i].refill(&edges[from..upto]);
        from = upto;
    }
}
