// The tubes of half arcs at level 0, corner by corner.
ghost use Rattle.std.specs.Prelude.{◌≡◌, ◌^◌, IfOk, IsTrue, Some};
ghost use Rattle.plane.specs.Lists.{Each};
ghost use Rattle.plane.specs.Numbers.{IsWithin};
ghost use Rattle.plane.specs.Rule.Windows.{IsShort};
ghost use Rattle.straight_predicates.specs.Meetings.{AreClose};
ghost use Rattle.tubes.specs.Holding.{IsSomeTube};
ghost use Rattle.tubes.specs.declared.kinds.Tube.{Tube};

use super::meetings_of_edges::are_close;
use plane::{Curve, CurveKind, Point};
use ports::Memory;
use std::alloc::Global;
use std::test::Fail;
use tubes::{Tube, holds, tube};

// The coordinates of the half arc's two ends and of its third point.
type Three = [i64; 6];

// The inner corners of a tube at level 0, then its outer ones.
type Corners = [[i64; 2]; 5];

type Row = (&'static str, Three, Option<Corners>);

// A quarter of the circle round (500000, 500000) with the radius 10000.
const QUARTER: Three = [510_000, 500_000, 500_000, 510_000, 490_000, 500_000];

const QUARTER_CORNERS: Corners = [
    [510_000, 500_000],
    [507_071, 507_071],
    [500_000, 510_000],
    [510_301, 504_266],
    [504_266, 510_301],
];

const FAR: i64 = 999_999_999_999_990_000;

const ROWS: [Row; 14] = [
    ("a quarter", QUARTER, Some(QUARTER_CORNERS)),
    (
        "the quarter from its other end",
        [500_000, 510_000, 510_000, 500_000, 490_000, 500_000],
        Some([
            [500_000, 510_000],
            [507_071, 507_071],
            [510_000, 500_000],
            [504_266, 510_301],
            [510_301, 504_266],
        ]),
    ),
    (
        "the quarter far away",
        [FAR, FAR, FAR - 10_000, FAR + 10_000, FAR - 20_000, FAR],
        Some([
            [FAR, FAR],
            [FAR - 2_929, FAR + 7_071],
            [FAR - 10_000, FAR + 10_000],
            [FAR + 301, FAR + 4_266],
            [FAR - 5_734, FAR + 10_301],
        ]),
    ),
    (
        "the third point on the left",
        [0, 0, 100, 0, 50, 200],
        Some([[0, 0], [50, -12], [100, 0], [21, -22], [78, -22]]),
    ),
    (
        "the third point on the right",
        [0, 0, 100, 0, 50, -200],
        Some([[0, 0], [50, 12], [100, 0], [20, 24], [79, 24]]),
    ),
    (
        "a quarter of 14 units",
        [14, 0, 0, 14, -14, 0],
        Some([[14, 0], [9, 9], [0, 14], [24, 11], [11, 24]]),
    ),
    ("a quarter of 13 units", [13, 0, 0, 13, -13, 0], None),
    ("a quarter of two units", [6, 4, 4, 6, 2, 4], None),
    ("half a turn", [0, 0, 10, 0, 5, 5], None),
    ("more than half a turn", [0, 0, 10, 0, 4, 2], None),
    (
        "as wide as may be",
        [0, 0, 67_108_863, 0, 33_554_431, 67_108_863],
        Some([
            [0, 0],
            [33_554_431, -16_777_215],
            [67_108_863, 0],
            [11_826_507, -18_290_024],
            [55_282_354, -18_290_024],
        ]),
    ),
    ("wider", [0, 0, 67_108_864, 0, 33_554_431, 67_108_863], None),
    ("collinear", [0, 0, 5, 5, 9, 9], None),
    ("a unit long", [0, 0, 1, 0, 1, 5], None),
];

// The count of the quarter's outer corners at each level.
const COUNTS: [(u8, usize); 6] = [(0, 2), (1, 4), (2, 8), (3, 16), (4, 32), (5, 64)];

// Whether the quarter's tube at level 0 holds a point.
const HELD: [([i64; 2], bool); 12] = [
    ([510_000, 500_000], true),
    ([510_301, 504_266], true),
    ([507_071, 507_071], true),
    ([509_239, 503_827], true),
    ([503_827, 509_239], true),
    ([508_536, 503_536], true),
    ([508_535, 503_535], false),
    ([507_283, 507_283], true),
    ([507_284, 507_284], false),
    ([507_070, 507_070], false),
    ([500_000, 500_000], false),
    ([510_000, 499_999], false),
];

// The first half arc with other corners.
fn first_other(alloc: Global) -> Result<Option<&'static str>, Memory> {
    for (name, arc, want) in &ROWS {
        if corners_of(alloc, *arc)? != *want {
            return Ok(Some(*name));
        }
    }
    Ok(None)
}

// The first level with other counts.
fn first_miscounted(alloc: Global) -> Result<Option<u8>, Memory> {
    for (level, count) in &COUNTS {
        if counts(alloc, QUARTER, *level)? != Some((count.saturating_add(1), *count)) {
            return Ok(Some(*level));
        }
    }
    Ok(None)
}

#[test]
fn half_arcs_have_the_tubes_of_the_rule(rt: HostRuntime) -> Result<(), Fail> {
    assert_eq!(rt; first_other(rt.alloc())?, None);
    assert_eq!(rt; first_miscounted(rt.alloc())?, None);
    Ok(())
}

#[test]
fn tubes_hold_the_points_of_their_triangles(rt: HostRuntime) -> Result<(), Fail> {
    for ([x, y], want) in &HELD {
        let held = is_held(rt.alloc(), QUARTER, Point { x: *x, y: *y })?;
        assert!(rt; held == Some(*want), "{x} {y}");
    }
    Ok(())
}

fn half_arc(arc: Three) -> Curve {
    let [from_x, from_y, to_x, to_y, third_x, third_y] = arc;
    Curve {
        kind: CurveKind::HalfArc,
        from: Point {
            x: from_x,
            y: from_y,
        },
        to: Point { x: to_x, y: to_y },
        third: Point {
            x: third_x,
            y: third_y,
        },
        line: 1,
    }
}

fn tube_of(alloc: Global, arc: &Curve, level: u8) -> Result<Option<Tube>, Memory>
    ensures { IfOk result (λ o. (t : Tube) → o ≡ Some t → IsSomeTube t) }
{
    if !(level <= 5
        && is_short(arc.from)
        && are_close(arc.from, arc.to)
        && are_close(arc.from, arc.third)
        && are_close(arc.to, arc.third))
    {
        return Ok(None);
    }
    tube(alloc, arc, level)
}

fn is_short(p: Point) -> bool
    ensures { IsTrue result → IsShort p }
{
    is_small(p.x) && is_small(p.y)
}

fn is_small(z: i64) -> bool
    ensures { IsTrue result → IsWithin (10 ^ 18) z }
{
    -1_000_000_000_000_000_000 < z && z < 1_000_000_000_000_000_000
}

// The corners of a tube with as many as one at level 0 has, else five times the origin.
fn corners(tube: &Tube) -> Corners {
    let inner = &tube.inner;
    let outer = &tube.outer;
    if inner.len() != 3 || outer.len() != 2 {
        return [[0, 0]; 5];
    }
    [
        [inner[0].x, inner[0].y],
        [inner[1].x, inner[1].y],
        [inner[2].x, inner[2].y],
        [outer[0].x, outer[0].y],
        [outer[1].x, outer[1].y],
    ]
}

// The corners of the half arc's tube at level 0, where it has one.
fn corners_of(alloc: Global, arc: Three) -> Result<Option<Corners>, Memory> {
    match tube_of(alloc, &half_arc(arc), 0)? {
        Some(tube) => Ok(Some(corners(&tube))),
        None => Ok(None),
    }
}

// How many inner and outer corners the half arc's tube has at the level, where it has one.
fn counts(alloc: Global, arc: Three, level: u8) -> Result<Option<(usize, usize)>, Memory> {
    match tube_of(alloc, &half_arc(arc), level)? {
        Some(tube) => Ok(Some((tube.inner.len(), tube.outer.len()))),
        None => Ok(None),
    }
}

// Whether the tube of the half arc at level 0 holds the point, where it has one.
fn is_held(alloc: Global, arc: Three, at: Point) -> Result<Option<bool>, Memory> {
    let Some(tube) = tube_of(alloc, &half_arc(arc), 0)? else {
        return Ok(None);
    };
    if !(are_all_close(&tube.inner, at) && are_all_close(&tube.outer, at)) {
        return Ok(None);
    }
    Ok(Some(holds(&tube, at)))
}

fn are_all_close(points: &[Point], at: Point) -> bool
    ensures { IsTrue result → Each (λ p. AreClose p at) points.now }
{
    for point in points {
        if !are_close(*point, at) {
            return false;
        }
    }
    true
}
