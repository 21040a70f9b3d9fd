// Points in small drawings: at vertices, on edges, in cells and outside.
ghost use Rattle.std.specs.Prelude.{◌<◌, All, length};
ghost use Rattle.line_sweep.specs.TestEdges.{IsFit, IsMiddle};

use super::small_edges::{are_fit, are_middle, edges_of};
use line_sweep::{SweepRefusal, sweep};
use plane::{Edge, Point};
use point_location::{Place, locate};
use ports::Memory;
use std::alloc::Global;
use std::test::Fail;

// The edges by the coordinates of their low and high ends, and points with their places.
type Row = (
    &'static str,
    &'static [[i64; 4]],
    &'static [(i64, i64, Place)],
);

const OUTSIDE: Place = Place::Cell {
    position: 0,
    lower: None,
    upper: None,
};

const ROWS: [Row; 7] = [
    ("no edge and no point", &[], &[]),
    ("no edge", &[], &[(3, 3, OUTSIDE)]),
    ("no point", &[[0, 0, 4, 2]], &[]),
    (
        "square with a chord",
        &[
            [0, 0, 4, 0],
            [0, 0, 4, 4],
            [0, 0, 0, 4],
            [0, 4, 4, 4],
            [4, 0, 4, 4],
        ],
        &[
            (9, 9, OUTSIDE),
            (4, 9, OUTSIDE),
            (4, 4, Place::OnEdge(1)),
            (4, 2, Place::OnEdge(4)),
            (4, 0, Place::OnEdge(0)),
            (
                4,
                -1,
                Place::Cell {
                    position: 0,
                    lower: None,
                    upper: Some(0),
                },
            ),
            (
                3,
                1,
                Place::Cell {
                    position: 1,
                    lower: Some(0),
                    upper: Some(1),
                },
            ),
            (
                1,
                3,
                Place::Cell {
                    position: 2,
                    lower: Some(1),
                    upper: Some(3),
                },
            ),
            (
                3,
                1,
                Place::Cell {
                    position: 1,
                    lower: Some(0),
                    upper: Some(1),
                },
            ),
            (2, 2, Place::OnEdge(1)),
            (2, 0, Place::OnEdge(0)),
            (2, 4, Place::OnEdge(3)),
            (
                1,
                -5,
                Place::Cell {
                    position: 0,
                    lower: None,
                    upper: Some(0),
                },
            ),
            (
                1,
                9,
                Place::Cell {
                    position: 3,
                    lower: Some(3),
                    upper: None,
                },
            ),
            (0, 4, Place::OnEdge(2)),
            (0, 2, Place::OnEdge(2)),
            (0, 0, Place::OnEdge(0)),
            (0, 0, Place::OnEdge(0)),
            (-5, 0, OUTSIDE),
        ],
    ),
    (
        "the least edge ends above another",
        &[[-2, 2, 0, 0], [-2, -2, 0, 0], [0, 0, 2, 0]],
        &[(0, 0, Place::OnEdge(0))],
    ),
    (
        "the least edge starts where another ends",
        &[[5, 5, 6, 6], [0, 0, 2, 0], [-2, 0, 0, 0]],
        &[(0, 0, Place::OnEdge(1)), (6, 6, Place::OnEdge(0))],
    ),
    (
        "upright edges with a gap",
        &[[0, 0, 0, 1], [0, 3, 0, 4]],
        &[(0, 2, OUTSIDE), (0, 3, Place::OnEdge(1))],
    ),
];

fn points_of(alloc: Global, rows: &[(i64, i64, Place)]) -> Result<Vec<Point>, Memory> {
    let mut points = Vec::new(alloc);
    for row in rows {
        points.push(Point { x: row.0, y: row.1 })?;
    }
    Ok(points)
}

// The places of the points in a sweep over the edges, or none where that names two edges.
fn places_of(alloc: Global, edges: &[Edge], points: &[Point]) -> Result<Option<Vec<Place>>, Memory>
    requires fit { All IsFit edges.now }
    requires middle { All IsMiddle points.now }
    requires few { length edges.now < 1000 }
{
    match sweep(alloc, edges) {
        Ok(swept) => Ok(Some(locate(alloc, edges, &swept, points)?)),
        Err(SweepRefusal::Bad { .. }) => Ok(None),
        Err(SweepRefusal::Memory) => Err(Memory),
    }
}

// Whether each point of a row has its place.
fn agrees(alloc: Global, rows: &[[i64; 4]], wanted: &[(i64, i64, Place)]) -> Result<bool, Memory> {
    let edges = edges_of(alloc, rows)?;
    let points = points_of(alloc, wanted)?;
    if !are_fit(&edges) || !are_middle(&points) || edges.len() >= 1000 {
        return Ok(false);
    }
    let Some(places) = places_of(alloc, &edges, &points)? else {
        return Ok(false);
    };
    Ok(places.iter().eq(wanted.iter().map(|row| &row.2)))
}

#[test]
fn points_have_their_places(rt: HostRuntime) -> Result<(), Fail> {
    for (name, edges, points) in &ROWS {
        assert!(rt; agrees(rt.alloc(), edges, points)?, "{name}");
    }
    Ok(())
}
