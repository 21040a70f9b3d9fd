// Boundaries: whether edges are rings around one region, and what is wrong first where they are
// not. Of edges that meet badly each row has one pair alone.
ghost use Rattle.std.specs.Prelude.{◌<◌, All, length};
ghost use Rattle.line_sweep.specs.TestEdges.{IsFit};

use super::small_edges::{are_fit, edges_of};
use plane::Edge;
use ports::Memory;
use std::alloc::Global;
use std::process::Abort;
use std::test::Fail;
use surface_rings::{RingAnswer, rings};

// The edges by the coordinates of their low and high ends, and the answer.
type Row = (&'static str, &'static [[i64; 4]], RingAnswer);

const WHOLE: [Row; 10] = [
    (
        "square",
        &[[0, 0, 4, 0], [0, 0, 0, 4], [0, 4, 4, 4], [4, 0, 4, 4]],
        RingAnswer::Holds,
    ),
    (
        "triangle without an upright edge",
        &[[0, 0, 4, 1], [0, 0, 2, 4], [2, 4, 4, 1]],
        RingAnswer::Holds,
    ),
    (
        "square with a hole, whose edges come first",
        &[
            [4, 4, 8, 4],
            [4, 4, 4, 8],
            [4, 8, 8, 8],
            [8, 4, 8, 8],
            [0, 0, 12, 0],
            [0, 0, 0, 12],
            [0, 12, 12, 12],
            [12, 0, 12, 12],
        ],
        RingAnswer::Holds,
    ),
    (
        "square with two holes",
        &[
            [0, 0, 12, 0],
            [0, 0, 0, 12],
            [0, 12, 12, 12],
            [12, 0, 12, 12],
            [1, 1, 4, 1],
            [1, 1, 4, 4],
            [4, 1, 4, 4],
            [7, 7, 9, 7],
            [7, 7, 9, 9],
            [9, 7, 9, 9],
        ],
        RingAnswer::Holds,
    ),
    (
        "hole in the corner of its ring",
        &[
            [0, 0, 12, 0],
            [0, 0, 0, 12],
            [0, 12, 12, 12],
            [12, 0, 12, 12],
            [0, 0, 6, 2],
            [0, 0, 2, 6],
            [2, 6, 6, 2],
        ],
        RingAnswer::Holds,
    ),
    (
        "two holes that touch in a corner",
        &[
            [0, 0, 12, 0],
            [0, 0, 0, 12],
            [0, 12, 12, 12],
            [12, 0, 12, 12],
            [2, 2, 6, 6],
            [2, 2, 6, 3],
            [6, 3, 6, 6],
            [6, 6, 10, 10],
            [6, 6, 6, 9],
            [6, 9, 10, 10],
        ],
        RingAnswer::Holds,
    ),
    (
        "comb",
        &[
            [0, 0, 9, 0],
            [0, 0, 1, 9],
            [1, 9, 2, 1],
            [2, 1, 3, 9],
            [3, 9, 4, 1],
            [4, 1, 5, 9],
            [5, 9, 9, 0],
        ],
        RingAnswer::Holds,
    ),
    (
        "star",
        &[
            [-6, 0, -1, 1],
            [-1, 1, 0, 6],
            [0, 6, 1, 1],
            [1, 1, 6, 0],
            [1, -1, 6, 0],
            [0, -6, 1, -1],
            [-1, -1, 0, -6],
            [-6, 0, -1, -1],
        ],
        RingAnswer::Holds,
    ),
    (
        "sides of several edges",
        &[
            [0, 0, 2, 0],
            [2, 0, 4, 0],
            [0, 0, 0, 1],
            [0, 1, 0, 4],
            [0, 4, 4, 4],
            [4, 0, 4, 2],
            [4, 2, 4, 4],
        ],
        RingAnswer::Holds,
    ),
    (
        "square as wide as these tests go",
        &[
            [-1000, -1000, 1000, -1000],
            [-1000, -1000, -1000, 1000],
            [-1000, 1000, 1000, 1000],
            [1000, -1000, 1000, 1000],
        ],
        RingAnswer::Holds,
    ),
];

const PARTED: [Row; 8] = [
    (
        "two triangles apart",
        &[
            [0, 0, 4, 0],
            [0, 0, 4, 4],
            [4, 0, 4, 4],
            [6, 0, 9, 0],
            [6, 0, 9, 4],
            [9, 0, 9, 4],
        ],
        RingAnswer::Parts,
    ),
    (
        "one triangle over another",
        &[
            [0, 0, 9, 0],
            [0, 0, 5, 2],
            [5, 2, 9, 0],
            [0, 9, 9, 9],
            [0, 9, 5, 6],
            [5, 6, 9, 9],
        ],
        RingAnswer::Parts,
    ),
    (
        "two triangles that share a corner",
        &[
            [0, 0, 4, 4],
            [0, 0, 4, 0],
            [4, 0, 4, 4],
            [4, 4, 8, 8],
            [4, 4, 4, 8],
            [4, 8, 8, 8],
        ],
        RingAnswer::Parts,
    ),
    (
        "island in a hole",
        &[
            [0, 0, 12, 0],
            [0, 0, 0, 12],
            [0, 12, 12, 12],
            [12, 0, 12, 12],
            [2, 2, 10, 2],
            [2, 2, 2, 10],
            [2, 10, 10, 10],
            [10, 2, 10, 10],
            [4, 4, 8, 4],
            [4, 4, 6, 8],
            [6, 8, 8, 4],
        ],
        RingAnswer::Parts,
    ),
    (
        "island that touches its hole in a corner",
        &[
            [0, 0, 12, 0],
            [0, 0, 0, 12],
            [0, 12, 12, 12],
            [12, 0, 12, 12],
            [2, 2, 10, 2],
            [2, 2, 2, 10],
            [2, 10, 10, 10],
            [10, 2, 10, 10],
            [2, 2, 8, 4],
            [2, 2, 6, 8],
            [6, 8, 8, 4],
        ],
        RingAnswer::Parts,
    ),
    (
        "hole from corner to corner of its ring",
        &[
            [0, 0, 12, 0],
            [0, 0, 0, 12],
            [0, 12, 12, 12],
            [12, 0, 12, 12],
            [0, 0, 8, 4],
            [8, 4, 12, 12],
            [0, 0, 4, 8],
            [4, 8, 12, 12],
        ],
        RingAnswer::Parts,
    ),
    (
        "two holes that touch in two corners",
        &[
            [0, 0, 12, 0],
            [0, 0, 0, 12],
            [0, 12, 12, 12],
            [12, 0, 12, 12],
            [2, 6, 6, 2],
            [6, 2, 10, 6],
            [2, 6, 6, 4],
            [6, 4, 10, 6],
            [2, 6, 6, 8],
            [6, 8, 10, 6],
            [2, 6, 6, 10],
            [6, 10, 10, 6],
        ],
        RingAnswer::Parts,
    ),
    (
        "three triangles in a ring, corner to corner",
        &[
            [0, 0, 4, 0],
            [0, 0, 2, 4],
            [2, 4, 4, 0],
            [4, 0, 8, 0],
            [4, 0, 6, 4],
            [6, 4, 8, 0],
            [2, 4, 6, 4],
            [2, 4, 4, 8],
            [4, 8, 6, 4],
        ],
        RingAnswer::Parts,
    ),
];

const BROKEN: [Row; 11] = [
    ("one edge", &[[0, 0, 4, 2]], RingAnswer::Odd { edge: 0 }),
    (
        "square without its last side",
        &[[0, 0, 0, 4], [0, 0, 4, 0], [0, 4, 4, 4]],
        RingAnswer::Odd { edge: 1 },
    ),
    (
        "edge that begins at the corner of a square",
        &[
            [0, 0, 4, 0],
            [0, 0, 0, 4],
            [0, 4, 4, 4],
            [4, 0, 4, 4],
            [4, 4, 6, 6],
        ],
        RingAnswer::Odd { edge: 2 },
    ),
    (
        "edge that ends at the corner of a square",
        &[
            [0, 4, 4, 4],
            [4, 0, 4, 4],
            [0, 0, 4, 0],
            [0, 0, 0, 4],
            [-3, 1, 0, 0],
        ],
        RingAnswer::Odd { edge: 2 },
    ),
    (
        "square with a chord",
        &[
            [0, 0, 4, 0],
            [0, 0, 4, 4],
            [0, 0, 0, 4],
            [0, 4, 4, 4],
            [4, 0, 4, 4],
        ],
        RingAnswer::Odd { edge: 0 },
    ),
    (
        "two triangles apart, one without a side",
        &[
            [0, 0, 4, 0],
            [0, 0, 4, 4],
            [4, 0, 4, 4],
            [6, 0, 9, 0],
            [6, 0, 9, 4],
        ],
        RingAnswer::Odd { edge: 3 },
    ),
    (
        "two edges cross",
        &[[4, 0, 4, 4], [0, 0, 4, 4], [0, 4, 4, 0], [0, 0, 0, 4]],
        RingAnswer::Meeting {
            first: 1,
            second: 2,
        },
    ),
    (
        "two edges cross in the other order",
        &[[0, 4, 4, 0], [4, 0, 4, 4], [0, 0, 0, 4], [0, 0, 4, 4]],
        RingAnswer::Meeting {
            first: 0,
            second: 3,
        },
    ),
    (
        "equal edges, which part nothing",
        &[[0, 0, 4, 2], [0, 0, 4, 2]],
        RingAnswer::Meeting {
            first: 0,
            second: 1,
        },
    ),
    (
        "a corner on another edge",
        &[[0, 0, 4, 0], [0, 0, 0, 4], [0, 4, 4, 0], [-3, 3, 0, 2]],
        RingAnswer::Meeting {
            first: 1,
            second: 3,
        },
    ),
    (
        "edges of one line overlap",
        &[[0, 0, 4, 2], [2, 1, 6, 3]],
        RingAnswer::Meeting {
            first: 0,
            second: 1,
        },
    ),
];

// The answer to the edges.
fn answer_of(alloc: Global, edges: &[Edge]) -> Result<RingAnswer, Memory>
    requires fit { All IsFit edges.now }
    requires few { length edges.now < 1000 }
    requires some { 0 < length edges.now }
{
    rings(alloc, edges)
}

// Whether the edges have this answer.
fn answers(alloc: Global, rows: &[[i64; 4]], wanted: RingAnswer) -> Result<bool, Memory> {
    let edges = edges_of(alloc, rows)?;
    if !are_fit(&edges) || edges.len() >= 1000 || edges.is_empty() {
        return Ok(false);
    }
    Ok(answer_of(alloc, &edges)? == wanted)
}

// Holds each row against its answer.
fn hold(rt: &impl Abort, alloc: Global, rows: &[Row]) -> Result<(), Fail> {
    for (name, edges, answer) in rows {
        assert!(rt; answers(alloc, edges, *answer)?, "{name}");
    }
    Ok(())
}

#[test]
fn rings_around_one_region_hold(rt: HostRuntime) -> Result<(), Fail> {
    hold(&rt, rt.alloc(), &WHOLE)
}

#[test]
fn regions_of_several_parts_are_told(rt: HostRuntime) -> Result<(), Fail> {
    hold(&rt, rt.alloc(), &PARTED)
}

#[test]
fn edges_that_bound_no_region_are_told(rt: HostRuntime) -> Result<(), Fail> {
    hold(&rt, rt.alloc(), &BROKEN)
}
