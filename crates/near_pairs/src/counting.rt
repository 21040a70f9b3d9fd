// Whether there are many pairs to test.
ghost use Rattle.std.specs.Prelude.{◌≡◌, ◌<◌, ◌^◌, length};
ghost use Rattle.near_pairs.specs.Columns.{IsRising};

use super::column::{Item, are_level, block, column};
use super::marks::has_mark;
use super::reaches::Reach;
use ports::Memory;
use std::alloc::Global;

// So many boxes may begin within a marked one along x, for each box, before there are many.
const MOST_BESIDE: usize = 1 << 16;

// So many of them may share a place with it.
const MOST_NEAR: usize = 32;

/// Whether a search for the least pair looks at many pairs: for each box on the average, at more
/// than 2^16 by their extents along x, or at more than 32 that share a place. No answer rests on
/// it: it says which of two ways is shorter. The only error is out of memory. It takes a sort and
/// two binary searches for each marked box; where these do not show that there are many, two more,
/// and a comparison for each box that begins within a marked one, at most 2^16 a box on the
/// average; and 32 bytes for each box.
pub fn are_many(alloc: Global, boxes: &[Reach], marked: &[bool]) -> Result<bool, Memory>
    requires few { length boxes.now < 2 ^ 32 }
    requires marks { length marked.now ≡ length boxes.now }
{
    if !has_mark(marked) {
        return Ok(false);
    }
    let items = column(alloc, boxes)?;
    Ok(are_many_beside(boxes, marked, &items) || are_many_near(boxes, marked, &items))
}

// Whether more than 2^16 boxes, for each box on the average, begin within a marked one along x.
fn are_many_beside(boxes: &[Reach], marked: &[bool], column: &[Item]) -> bool
    requires few { length boxes.now < 2 ^ 32 }
    requires marks { length marked.now ≡ length boxes.now }
    requires rising { IsRising column.now }
{
    let mut most = boxes.len() * MOST_BESIDE;
    for (number, reach) in boxes.iter().enumerate() {
        if marked[number] {
            let count = block(column, reach.low.x, reach.high.x).len();
            if most < count {
                return true;
            }
            most -= count;
        }
    }
    false
}

// Whether more than 32 of them, for each box on the average, share a place with it.
fn are_many_near(boxes: &[Reach], marked: &[bool], column: &[Item]) -> bool
    requires few { length boxes.now < 2 ^ 32 }
    requires marks { length marked.now ≡ length boxes.now }
    requires rising { IsRising column.now }
{
    let mut most = boxes.len() * MOST_NEAR;
    for (number, reach) in boxes.iter().enumerate() {
        if marked[number] {
            let count = level_count(reach, block(column, reach.low.x, reach.high.x));
            if most < count {
                return true;
            }
            most -= count;
        }
    }
    false
}

// How many of the items share a y with the box.
fn level_count(reach: &Reach, items: &[Item]) -> usize {
    items.iter().filter(|item| are_level(reach, item)).count()
}
