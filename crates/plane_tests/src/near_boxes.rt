// Boxes of which some are marked, and the pairs of them that share a place.
ghost use Rattle.std.specs.Prelude.{◌≡◌, ◌↔◌, ◌<◌, ◌^◌, IsTrue, length};
ghost use Rattle.near_pairs.specs.Boxes.{AreNear};

use near_pairs::{NearPair, PairTest, Reach, least};
use plane::Point;
use ports::Memory;
use std::alloc::Global;
use std::test::Fail;

// All pairs that share a place and of which one is marked, from a first number on.
#[derive(Drop)]
struct FromOn<'a> {
    boxes: &'a [Reach],
    marked: &'a [bool],
    from: u32,
}

impl<'a> PairTest for FromOn<'a> {
    ghost use Rattle.std.specs.Prelude.{◌≡◌, ◌<◌, ◌≤◌, length};
    ghost use Rattle.near_pairs.specs.Boxes.{AreNear};

    ghost can_test = { λ s i j. (i < length s.boxes.now) × (j < length s.boxes.now)
        × (length s.marked.now ≡ length s.boxes.now) };

    ghost sought = { λ s i j. AreNear s.boxes.now s.marked.now i j × (s.from ≤ i) };

    fn is_sought(&self, first: u32, second: u32) -> bool {
        let i = first as usize;
        let j = second as usize;
        is_near(self.boxes, self.marked, i, j) && self.from <= first
    }
}

fn is_near(boxes: &[Reach], marked: &[bool], i: usize, j: usize) -> bool
    requires first { i < length boxes.now }
    requires second { j < length boxes.now }
    requires marks { length marked.now ≡ length boxes.now }
    ensures { IsTrue result ↔ AreNear boxes.now marked.now i j }
{
    (marked[i] || marked[j]) && boxes[i].meets(&boxes[j])
}

fn least_from(
    alloc: Global,
    boxes: &[Reach],
    marked: &[bool],
    from: u32,
) -> Result<Option<NearPair>, Memory>
    requires few { length boxes.now < 2 ^ 32 }
    requires marks { length marked.now ≡ length boxes.now }
{
    let test = FromOn {
        boxes,
        marked,
        from,
    };
    least(alloc, boxes, marked, &test)
}

// Boxes by their low and their high corner, whether each is marked, and the pairs in their order.
type Case = (
    &'static str,
    &'static [[i64; 4]],
    &'static [bool],
    &'static [[u32; 2]],
);

const LOW: i64 = i64::MIN;

const HIGH: i64 = i64::MAX;

const CASES: [Case; 12] = [
    ("no box", &[], &[], &[]),
    ("one box", &[[0, 0, 4, 4]], &[true], &[]),
    (
        "equal boxes, none marked",
        &[[0, 0, 4, 4], [0, 0, 4, 4]],
        &[false, false],
        &[],
    ),
    (
        "equal boxes",
        &[[0, 0, 4, 4], [0, 0, 4, 4], [0, 0, 4, 4]],
        &[true, false, false],
        &[[0, 1], [0, 2]],
    ),
    (
        "corners that touch",
        &[[2, 2, 4, 4], [0, 0, 2, 2]],
        &[false, true],
        &[[0, 1]],
    ),
    (
        "a unit apart along x, and along y",
        &[[0, 0, 2, 2], [3, 0, 5, 2], [0, 3, 5, 5]],
        &[true, true, true],
        &[],
    ),
    (
        "a marked box within another that begins before it",
        &[[0, 0, 9, 9], [3, 3, 4, 4]],
        &[false, true],
        &[[0, 1]],
    ),
    (
        "a box within a marked one that begins before it",
        &[[3, 3, 4, 4], [0, 0, 9, 9]],
        &[false, true],
        &[[0, 1]],
    ),
    (
        "a lesser pair whose first is not marked",
        &[[1, 1, 9, 9], [2, 2, 3, 3], [0, 0, 2, 2], [2, 2, 2, 2]],
        &[false, true, true, false],
        &[[0, 1], [0, 2], [1, 2], [1, 3], [2, 3]],
    ),
    (
        "one that holds nothing",
        &[[0, 0, 9, 9], [5, 5, 4, 9]],
        &[true, true],
        &[],
    ),
    (
        "points and a segment",
        &[[3, 3, 3, 3], [3, 0, 3, 9], [3, 3, 3, 3]],
        &[true, false, false],
        &[[0, 1], [0, 2]],
    ),
    (
        "the whole plane and its corners",
        &[
            [LOW, LOW, LOW, LOW],
            [LOW, LOW, HIGH, HIGH],
            [HIGH, HIGH, HIGH, HIGH],
        ],
        &[false, true, true],
        &[[0, 1], [1, 2]],
    ),
];

fn boxes_of(alloc: Global, rows: &[[i64; 4]]) -> Result<Vec<Reach>, Memory> {
    let mut boxes = Vec::new(alloc);
    for row in rows {
        boxes.push(Reach {
            low: Point {
                x: row[0],
                y: row[1],
            },
            high: Point {
                x: row[2],
                y: row[3],
            },
        })?;
    }
    Ok(boxes)
}

// Whether the least pair from a first number on is that of the table's row, which has a mark for
// each box, and at most 100.
fn is_found(alloc: Global, case: &Case, from: u32) -> Result<bool, Memory> {
    let boxes = boxes_of(alloc, case.1)?;
    if boxes.len() != case.2.len() || boxes.len() > 100 {
        return Ok(false);
    }
    Ok(least_from(alloc, &boxes, case.2, from)? == first_from(case.3, from))
}

fn first_from(pairs: &[[u32; 2]], from: u32) -> Option<NearPair> {
    for pair in pairs {
        if from <= pair[0] {
            return Some(NearPair {
                first: pair[0],
                second: pair[1],
            });
        }
    }
    None
}

#[test]
fn least_pairs_are_found(rt: HostRuntime) -> Result<(), Fail> {
    for case in &CASES {
        for from in 0..4 {
            assert!(rt; is_found(rt.alloc(), case, from)?, "{} from {from}", case.0);
        }
    }
    Ok(())
}
