// Edges and points with small coordinates. What the sweep asks of them is checked as a test runs.
ghost use Rattle.std.specs.Prelude.{All, IsTrue};
ghost use Rattle.line_sweep.specs.TestEdges.{IsFit, IsMiddle};

use plane::{Edge, Point};
use ports::Memory;
use std::alloc::Global;
use straight_predicates::before;

pub fn edges_of(alloc: Global, rows: &[[i64; 4]]) -> Result<Vec<Edge>, Memory> {
    let mut edges = Vec::new(alloc);
    for row in rows {
        edges.push(Edge {
            low: Point {
                x: row[0],
                y: row[1],
            },
            high: Point {
                x: row[2],
                y: row[3],
            },
        })?;
    }
    Ok(edges)
}

fn is_middle(p: Point) -> bool
    ensures { IsTrue result → IsMiddle p }
{
    -1000 <= p.x && p.x <= 1000 && -1000 <= p.y && p.y <= 1000
}

fn is_fit(e: &Edge) -> bool
    ensures { IsTrue result → IsFit e.now }
{
    before(e.low, e.high) && is_middle(e.low) && is_middle(e.high)
}

pub fn are_fit(edges: &[Edge]) -> bool
    ensures { IsTrue result → All IsFit edges.now }
{
    for e in edges {
        if !is_fit(e) {
            return false;
        }
    }
    true
}

pub fn are_middle(points: &[Point]) -> bool
    ensures { IsTrue result → All IsMiddle points.now }
{
    for p in points {
        if !is_middle(*p) {
            return false;
        }
    }
    true
}
