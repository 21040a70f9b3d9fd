// Boxes of points.
ghost use Rattle.std.specs.Prelude.{◌≤ℤ◌};
ghost use Rattle.plane.specs.Forms.Boxes.{InBox};
ghost use Rattle.plane.specs.Forms.Vectors.{point};
ghost use Rattle.near_pairs.specs.Boxes.{box_of};
ghost use Rattle.level_breaks.specs.Groups.{Covers};

use near_pairs::Reach;
use plane::{Edge, Point};

/// The box of one point.
pub fn around(p: Point) -> Reach
    ensures { InBox (box_of result) (point p) }
{
    Reach { low: p, high: p }
}

/// The least box that holds what the box holds, and the point.
pub fn grown(reach: Reach, p: Point) -> Reach
    ensures kept { Covers (box_of result) (box_of reach) }
    ensures point { InBox (box_of result) (point p) }
{
    let low = Point {
        x: lesser(reach.low.x, p.x),
        y: lesser(reach.low.y, p.y),
    };
    let high = Point {
        x: greater(reach.high.x, p.x),
        y: greater(reach.high.y, p.y),
    };
    Reach { low, high }
}

/// The box of an edge's ends.
pub fn edge_reach(edge: &Edge) -> Reach
    ensures low { InBox (box_of result) (point edge.now.low) }
    ensures high { InBox (box_of result) (point edge.now.high) }
{
    grown(around(edge.low), edge.high)
}

fn lesser(a: i64, b: i64) -> i64
    ensures first { result ≤ℤ a }
    ensures second { result ≤ℤ b }
{
    if a < b { a } else { b }
}

fn greater(a: i64, b: i64) -> i64
    ensures first { a ≤ℤ result }
    ensures second { b ≤ℤ result }
{
    if a < b { b } else { a }
}
