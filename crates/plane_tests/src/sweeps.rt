// Small drawings: the sweep refuses exactly those in which a comparison of all pairs finds two
// edges that are bad.
ghost use Rattle.std.specs.Prelude.{◌<◌, All, length};
ghost use Rattle.line_sweep.specs.TestEdges.{IsFit};

use super::small_edges::{are_fit, edges_of};
use line_sweep::{SweepRefusal, sweep};
use plane::Edge;
use ports::Memory;
use std::alloc::Global;
use std::test::Fail;
use straight_predicates::{Meet, meet};

// The edges by the coordinates of their low and high ends, the number of cells that a sweep
// answers, and whether two edges are bad.
type Row = (&'static str, &'static [[i64; 4]], usize, bool);

const ROWS: [Row; 14] = [
    ("no edge", &[], 0, false),
    ("one edge", &[[0, 0, 4, 2]], 2, false),
    (
        "square with a chord",
        &[
            [0, 0, 4, 0],
            [0, 0, 4, 4],
            [0, 0, 0, 4],
            [0, 4, 4, 4],
            [4, 0, 4, 4],
        ],
        8,
        false,
    ),
    (
        "comb",
        &[[0, 0, 1, 9], [1, 0, 2, 9], [2, 0, 3, 9], [3, 0, 4, 9]],
        11,
        false,
    ),
    (
        "comb with a bar through it",
        &[[0, 0, 1, 9], [1, 0, 2, 9], [2, 0, 3, 9], [0, 5, 4, 5]],
        0,
        true,
    ),
    (
        "star",
        &[
            [0, 0, 5, 0],
            [0, 0, 5, 5],
            [0, 0, 0, 5],
            [-5, 5, 0, 0],
            [-5, 0, 0, 0],
            [-5, -5, 0, 0],
            [0, -5, 0, 0],
            [0, 0, 5, -5],
        ],
        16,
        false,
    ),
    (
        "upright edges in one line",
        &[[0, 0, 0, 1], [0, 1, 0, 2], [0, 2, 0, 3]],
        6,
        false,
    ),
    (
        "upright edges from one point",
        &[[0, 0, 0, 1], [0, 0, 0, 2]],
        0,
        true,
    ),
    ("equal edges", &[[0, 0, 4, 2], [0, 0, 4, 2]], 0, true),
    (
        "edges of one line overlap",
        &[[0, 0, 4, 2], [2, 1, 6, 3]],
        0,
        true,
    ),
    (
        "edges of one line with a gap",
        &[[0, 0, 2, 1], [4, 2, 6, 3]],
        4,
        false,
    ),
    (
        "an edge begins on another",
        &[[0, 0, 4, 0], [2, 0, 3, 3]],
        0,
        true,
    ),
    (
        "an edge ends on another",
        &[[0, 0, 4, 0], [1, 3, 2, 0]],
        0,
        true,
    ),
    (
        "two cross late, a third ends before",
        &[[0, 0, 10, 10], [0, 1, 10, 0], [5, 100, 6, 100]],
        0,
        true,
    ),
];

// Whether two of the edges are bad, by comparing all pairs.
fn some_are_bad(edges: &[Edge]) -> bool
    requires { All IsFit edges.now }
{
    for (i, first) in edges.iter().enumerate() {
        for (j, second) in edges.iter().enumerate() {
            if i != j && meet(first, second) == Meet::Bad {
                return true;
            }
        }
    }
    false
}

// The number of cells that a sweep answers, or none where it names two edges.
fn cells_of(alloc: Global, edges: &[Edge]) -> Result<Option<usize>, Memory>
    requires fit { All IsFit edges.now }
    requires few { length edges.now < 1000 }
{
    match sweep(alloc, edges) {
        Ok(swept) => Ok(Some(swept.cells.len())),
        Err(SweepRefusal::Bad { .. }) => Ok(None),
        Err(SweepRefusal::Memory) => Err(Memory),
    }
}

// Whether all pairs are compared and the edges swept with this outcome.
fn agrees(alloc: Global, rows: &[[i64; 4]], cells: usize, bad: bool) -> Result<bool, Memory> {
    let edges = edges_of(alloc, rows)?;
    if !are_fit(&edges) || edges.len() >= 1000 {
        return Ok(false);
    }
    let want = if bad { None } else { Some(cells) };
    Ok(some_are_bad(&edges) == bad && cells_of(alloc, &edges)? == want)
}

#[test]
fn the_sweep_and_all_pairs_agree(rt: HostRuntime) -> Result<(), Fail> {
    for (name, rows, cells, bad) in &ROWS {
        assert!(rt; agrees(rt.alloc(), rows, *cells, *bad)?, "{name}");
    }
    Ok(())
}
