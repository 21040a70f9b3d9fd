// Boxes in the order of their low x.
ghost use Rattle.std.specs.Prelude.{◌≡◌, ◌↔◌, ◌<◌, ◌^◌, ◌≤ℤ◌, IfOk, IsTrue, length};
ghost use Rattle.std.specs.List.{Contains, filter};
ghost use Rattle.near_pairs.specs.Boxes.{mark_of};
ghost use Rattle.near_pairs.specs.Columns.{AreLevel, IsColumn, IsRising, item_of};
ghost use Rattle.near_pairs.specs.declared.column.Item.{Item};

use super::marks::is_marked;
use super::reaches::Reach;
use ports::Memory;
use std::alloc::Global;

/// A box with its number: where it begins along x, and its extent along y.
#[derive(Clone, Copy)]
pub struct Item {
    pub low_x: i64,
    pub low_y: i64,
    pub high_y: i64,
    pub number: u32,
}

impl Item {
    fn new(number: u32, reach: &Reach) -> Item
        ensures { result ≡ item_of number reach.now }
    {
        Item {
            low_x: reach.low.x,
            low_y: reach.low.y,
            high_y: reach.high.y,
            number,
        }
    }
}

/// Whether the box and that of the item share a y.
pub fn are_level(reach: &Reach, item: &Item) -> bool
    ensures { IsTrue result ↔ AreLevel reach.now item.now }
{
    reach.low.y <= item.high_y && item.low_y <= reach.high.y
}

fn low_x(item: &Item) -> i64
    ensures { result ≡ item.now.low_x }
{
    item.low_x
}

/// The boxes by their low x: 32 bytes for each.
pub fn column(alloc: Global, boxes: &[Reach]) -> Result<Vec<Item>, Memory>
    requires few { length boxes.now < 2 ^ 32 }
    ensures { IfOk result (λ column. IsColumn boxes.now column.items) }
{
    let mut column = Vec::with_capacity(alloc, boxes.len())?;
    for (number, reach) in boxes.iter().enumerate() {
        column.push(Item::new(number as u32, reach))?;
    }
    column.sort_unstable_by_key(low_x);
    Ok(column)
}

/// Keeps the marked boxes alone, in their order. It takes no memory.
pub fn keep_marked(column: &mut Vec<Item>, marked: &[bool])
    ensures { column.new.items ≡ filter (λ item. mark_of marked.now item.number) column.old.items }
{
    column.retain(|item| is_marked(marked, item.number));
}

/// The boxes that begin from `low` to `high` along x.
pub fn block(column: &[Item], low: i64, high: i64) -> &[Item]
    requires { IsRising column.now }
    ensures known { (item : Item) → Contains result.now item → Contains column.now item }
    ensures whole { (item : Item) → Contains column.now item → low ≤ℤ item.low_x
        → item.low_x ≤ℤ high → Contains result.now item }
{
    let start = column.partition_point(move |item| item.low_x < low);
    let rest = &column[start..];
    let end = rest.partition_point(move |item| item.low_x <= high);
    &rest[..end]
}
