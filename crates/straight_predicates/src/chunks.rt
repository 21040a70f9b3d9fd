// A list of values in chunks, one after another.
ghost use Rattle.std.specs.Prelude.{◌≡◌, ℕ, ◌+◌, ◌-◌, ◌^◌, ◌<◌, ◌≤◌, ◌++◌, [], length, take, drop};
ghost use Rattle.std.specs.Prelude.{IfOk, IsTrue, OnOk, slice_index_or};
ghost use Rattle.straight_predicates.specs.Chunks.{IsAt, joined};

use super::chunk::{Chunk, insert_values};
use ports::Memory;
use std::alloc::Global;

// The most values in a chunk, so that a change of one moves 1,024 values at most.
const MOST: usize = 1024;

/// A place of the list: its chunk, and its place there.
#[derive(Clone, Copy)]
pub struct Spot {
    pub chunk: usize,
    pub offset: usize,
}

/// The chunk of a place, and after all values the end of the last one.
pub fn find<T: Copy>(chunks: &[Chunk<T>], place: usize) -> Spot
    requires some { 0 < length chunks.now }
    requires place { place ≤ length (joined chunks.now) }
    ensures { IsAt chunks.now place result.chunk result.offset }
{
    let mut chunk = 0;
    let mut offset = place;
    while chunk + 1 < chunks.len() && chunks[chunk].len() <= offset {
        offset -= chunks[chunk].len();
        chunk += 1;
    }
    Spot { chunk, offset }
}

/// The place of a chunk's first value.
pub fn start<T: Copy>(chunks: &[Chunk<T>], chunk: usize) -> usize
    requires few { length (joined chunks.now) < 2 ^ 64 }
    requires chunk { chunk ≤ length chunks.now }
    ensures { result ≡ length (joined (take chunk chunks.now)) }
{
    let mut place = 0;
    for i in 0..chunk {
        place += chunks[i].len();
    }
    place
}

/// Puts values in the place of `count` others, from `from` on. After `Memory` its contents are
/// unspecified.
pub fn replace<T: Copy>(
    alloc: Global,
    chunks: &mut Vec<Chunk<T>>,
    from: usize,
    count: usize,
    with: &[T],
) -> Result<(), Memory>
    requires { from + count ≤ length (joined chunks.old.items) }
    ensures { OnOk result (joined chunks.new.items ≡ take from (joined chunks.old.items)
        ++ (with.now ++ drop (from + count) (joined chunks.old.items))) }
{
    if chunks.len() > 0 {
        let spot = find(chunks, from);
        let chunk = &mut chunks[spot.chunk];
        if fits(chunk.len(), spot.offset, count, with.len()) {
            chunk.replace(spot.offset, count, with)?;
            return Ok(());
        }
    }
    remove(chunks, from, count);
    insert(alloc, chunks, from, with)
}

// Whether so many values from the place on are all in the chunk, and others in their place fit.
fn fits(size: usize, offset: usize, count: usize, more: usize) -> bool
    requires { offset ≤ size }
    ensures within { IsTrue result → offset + count ≤ size }
    ensures left { IsTrue result → 0 < size - count + more }
{
    if count > size - offset {
        return false;
    }
    let kept = size - count;
    kept <= MOST && more <= MOST - kept && (kept > 0 || more > 0)
}

// Takes out `count` values from `from` on.
fn remove<T: Copy>(chunks: &mut Vec<Chunk<T>>, from: usize, count: usize)
    requires { from + count ≤ length (joined chunks.old.items) }
    ensures { joined chunks.new.items ≡ take from (joined chunks.old.items)
        ++ drop (from + count) (joined chunks.old.items) }
{
    let mut left = count;
    while left > 0 {
        left -= remove_some(chunks, from, left);
    }
}

// Takes out those of the values that are in one chunk, and answers how many.
fn remove_some<T: Copy>(chunks: &mut Vec<Chunk<T>>, from: usize, count: usize) -> usize
    requires some { 0 < count }
    requires within { from + count ≤ length (joined chunks.old.items) }
    ensures some { 0 < result }
    ensures most { result ≤ count }
    ensures joined { joined chunks.new.items ≡ take from (joined chunks.old.items)
        ++ drop (from + result) (joined chunks.old.items) }
{
    let spot = find(chunks, from);
    let size = chunks[spot.chunk].len();
    let taken = count.min(size - spot.offset);
    if taken == size {
        chunks.remove(spot.chunk);
    } else {
        chunks[spot.chunk].remove(spot.offset, taken);
    }
    taken
}

// Puts values in before the place, from the last on, half a chunk at a time.
fn insert<T: Copy>(
    alloc: Global,
    chunks: &mut Vec<Chunk<T>>,
    place: usize,
    with: &[T],
) -> Result<(), Memory>
    requires { place ≤ length (joined chunks.old.items) }
    ensures { OnOk result (joined chunks.new.items ≡ take place (joined chunks.old.items)
        ++ (with.now ++ drop place (joined chunks.old.items))) }
{
    let mut left = with.len();
    while left > 0 {
        let from = left - left.min(MOST / 2);
        insert_some(alloc, chunks, place, &with[from..left])?;
        left = from;
    }
    Ok(())
}

// Puts some values in before the place.
fn insert_some<T: Copy>(
    alloc: Global,
    chunks: &mut Vec<Chunk<T>>,
    place: usize,
    with: &[T],
) -> Result<(), Memory>
    requires some { 0 < length with.now }
    requires place { place ≤ length (joined chunks.old.items) }
    ensures { OnOk result (joined chunks.new.items ≡ take place (joined chunks.old.items)
        ++ (with.now ++ drop place (joined chunks.old.items))) }
{
    if chunks.len() == 0 {
        chunks.push(Chunk::new(alloc, with)?)?;
        return Ok(());
    }
    make_room(chunks, find(chunks, place).chunk, with.len())?;
    let spot = find(chunks, place);
    chunks[spot.chunk].replace(spot.offset, 0, with)?;
    Ok(())
}

// Cuts the chunk in two where so many more values do not fit.
fn make_room<T: Copy>(chunks: &mut Vec<Chunk<T>>, chunk: usize, more: usize) -> Result<(), Memory>
    requires { chunk < length chunks.old.items }
    ensures some { OnOk result (0 < length chunks.new.items) }
    ensures joined { OnOk result (joined chunks.new.items ≡ joined chunks.old.items) }
{
    let size = chunks[chunk].len();
    if size < 2 || (size <= MOST && more <= MOST - size) {
        return Ok(());
    }
    let tail = chunks[chunk].halve()?;
    chunks.insert(chunk + 1, tail)?;
    Ok(())
}

/// Writes `count` values from a place on over those of another list.
pub fn copy_part<T: Copy>(
    chunks: &[Chunk<T>],
    from: usize,
    count: usize,
    into: &mut Vec<T>,
) -> Result<(), Memory>
    requires few { length (joined chunks.now) < 2 ^ 64 }
    requires within { from + count ≤ length (joined chunks.now) }
    ensures { OnOk result (into.new.items ≡ take count (drop from (joined chunks.now))) }
{
    into.clear();
    let mut done = 0;
    while done < count {
        done += copy_some(chunks, from + done, count - done, into)?;
    }
    Ok(())
}

// Appends those of the values that are in one chunk, and answers how many.
fn copy_some<T: Copy>(
    chunks: &[Chunk<T>],
    place: usize,
    count: usize,
    into: &mut Vec<T>,
) -> Result<usize, Memory>
    requires some { 0 < count }
    requires within { place + count ≤ length (joined chunks.now) }
    ensures some { IfOk result (λ n. 0 < n) }
    ensures most { IfOk result (λ n. n ≤ count) }
    ensures items { IfOk result (λ n. into.new.items
        ≡ into.old.items ++ take n (drop place (joined chunks.now))) }
{
    let spot = find(chunks, place);
    let values = chunks[spot.chunk].values();
    let more = count.min(values.len() - spot.offset);
    into.reserve(more)?;
    let end = into.len();
    insert_values(into, end, &values[spot.offset..spot.offset + more]);
    Ok(more)
}
