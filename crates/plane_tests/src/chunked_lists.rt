// A list of many chunks, changed in place, beside a plain list.
ghost use Rattle.std.specs.Prelude.{◌+◌, ◌≤◌, IsTrue, length};

use ports::Memory;
use std::alloc::Global;
use std::test::Fail;
use straight_predicates::ChunkedList;

// A change: from which place on, how many values go, and the first and the last number of those
// that come in their place, the last one left out. A chunk has at most 1,024 values.
type Change = (usize, usize, u32, u32);

const CHANGES: [Change; 8] = [
    // all at once, and one more in the middle
    (0, 0, 0, 20_000),
    (10_000, 0, 500_000, 500_001),
    // two for three, and as many values as go, over the place of a chunk's end
    (10_000, 3, 600_000, 600_002),
    (8_000, 400, 610_000, 610_400),
    // more values than a chunk has, in the middle of one
    (5_000, 1, 700_000, 709_000),
    // whole chunks go, and values come at both ends
    (3_000, 20_000, 800_000, 800_001),
    (0, 1, 900_000, 900_003),
    (6_001, 2_000, 0, 0),
];

fn numbers(alloc: Global, first: u32, upto: u32) -> Result<Vec<u32>, Memory> {
    let mut numbers = Vec::new(alloc);
    for number in first..upto {
        numbers.push(number)?;
    }
    Ok(numbers)
}

fn is_part(from: usize, count: usize, size: usize) -> bool
    ensures { IsTrue result → from + count ≤ size }
{
    from <= size && count <= size - from
}

// The plain list after the change.
fn changed(
    alloc: Global,
    list: &[u32],
    from: usize,
    count: usize,
    with: &[u32],
) -> Result<Vec<u32>, Memory>
    requires { from + count ≤ length list.now }
{
    let mut changed = Vec::from_slice(alloc, &list[..from])?;
    changed.extend_from_slice(with)?;
    changed.extend_from_slice(&list[from + count..])?;
    Ok(changed)
}

// Whether both hold the same values, one by one and as a part of the first one.
fn are_same(alloc: Global, chunked: &ChunkedList<u32>, list: &[u32]) -> Result<bool, Memory> {
    let mut part = Vec::new(alloc);
    chunked.copy_part(0, chunked.len(), &mut part)?;
    Ok(part.as_slice() == list && have_same_values(chunked, list))
}

fn have_same_values(chunked: &ChunkedList<u32>, list: &[u32]) -> bool {
    for place in 0..chunked.len() {
        if list.get(place).copied() != Some(chunked.get(place)) {
            return false;
        }
    }
    true
}

// Changes both, where both have the part that goes.
fn change_both(
    alloc: Global,
    chunked: &mut ChunkedList<u32>,
    list: &mut Vec<u32>,
    change: Change,
) -> Result<bool, Memory> {
    let (from, count, first, upto) = change;
    if !is_part(from, count, chunked.len()) || !is_part(from, count, list.len()) {
        return Ok(false);
    }
    let with = numbers(alloc, first, upto)?;
    chunked.replace(from, count, &with)?;
    *list = changed(alloc, list, from, count, &with)?;
    are_same(alloc, chunked, list)
}

// The length after all changes; none where a change leaves the two different.
fn length_after(alloc: Global) -> Result<Option<usize>, Memory> {
    let mut chunked = ChunkedList::new(alloc);
    let mut list = Vec::new(alloc);
    for change in &CHANGES {
        if !change_both(alloc, &mut chunked, &mut list, *change)? {
            return Ok(None);
        }
    }
    Ok(Some(chunked.len()))
}

#[test]
fn a_list_of_many_chunks_is_as_a_plain_list(rt: HostRuntime) -> Result<(), Fail> {
    assert_eq!(rt; length_after(rt.alloc())?, Some(7_002));
    Ok(())
}
