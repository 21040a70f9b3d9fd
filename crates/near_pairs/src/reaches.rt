// Boxes.
ghost use Rattle.std.specs.Prelude.{◌↔◌, ℤ, ◌≤ℤ◌, IsTrue};
ghost use Rattle.plane.specs.Forms.Boxes.{InBox};
ghost use Rattle.plane.specs.Rule.Places.{point};
ghost use Rattle.near_pairs.specs.Boxes.{ShareANumber, ShareAPlace, box_of};

use plane::Point;

/// A closed box, by its lower left corner and its upper right one, in whole units.
#[derive(Clone, Copy, Debug, PartialEq, Eq)]
pub struct Reach {
    pub low: Point,
    pub high: Point,
}

impl Reach {
    /// The least box that holds both points. It takes no memory.
    pub fn around(p: Point, q: Point) -> Reach
        ensures first { InBox (box_of result) (point p) }
        ensures second { InBox (box_of result) (point q) }
    {
        Reach {
            low: Point {
                x: lesser(p.x, q.x),
                y: lesser(p.y, q.y),
            },
            high: Point {
                x: greater(p.x, q.x),
                y: greater(p.y, q.y),
            },
        }
    }

    /// Whether some place is in both boxes. It takes no memory.
    pub fn meets(&self, other: &Reach) -> bool
        ensures { IsTrue result ↔ ShareAPlace (box_of self.now) (box_of other.now) }
    {
        share_a_number(self.low.x, self.high.x, other.low.x, other.high.x)
            && share_a_number(self.low.y, self.high.y, other.low.y, other.high.y)
    }
}

// Whether some number is from `a` to `b` and from `c` to `d`.
fn share_a_number(a: i64, b: i64, c: i64, d: i64) -> bool
    ensures { IsTrue result ↔ ShareANumber a b c d }
{
    let low = greater(a, c);
    low <= b && low <= d
}

fn greater(a: i64, b: i64) -> i64
    ensures first { a ≤ℤ result }
    ensures second { b ≤ℤ result }
    ensures least { (m : ℤ) → a ≤ℤ m → b ≤ℤ m → result ≤ℤ m }
{
    if a < b { b } else { a }
}

fn lesser(a: i64, b: i64) -> i64
    ensures first { result ≤ℤ a }
    ensures second { result ≤ℤ b }
{
    if a < b { a } else { b }
}
