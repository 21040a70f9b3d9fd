// Points in order, with their numbers.
ghost use Rattle.std.specs.Prelude.{◌≡◌, IfOk};
ghost use Rattle.point_location.specs.Numbered.{IsInOrder};

use plane::Point;
use ports::Memory;
use std::alloc::Global;

/// A point with its number in the list.
#[derive(Clone, Copy)]
pub struct Numbered {
    pub at: Point,
    pub number: usize,
}

fn key(point: &Numbered) -> (i64, i64)
    ensures { result ≡ (point.now.at.x, point.now.at.y) }
{
    (point.at.x, point.at.y)
}

/// The points by x, then y, each with its number.
pub fn in_order(alloc: Global, points: &[Point]) -> Result<Vec<Numbered>, Memory>
    ensures { IfOk result (λ order. IsInOrder points.now order.items) }
{
    let mut order = Vec::with_capacity(alloc, points.len())?;
    for (number, at) in points.iter().enumerate() {
        order.push(Numbered { at: *at, number })?;
    }
    order.sort_unstable_by_key(key);
    Ok(order)
}
