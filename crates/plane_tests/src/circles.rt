// Circles, places and straights, judged by hand.
ghost use Rattle.std.specs.Prelude.{◌^◌, IsTrue};
ghost use Rattle.plane.specs.Numbers.{IsNear};
ghost use Rattle.plane.specs.Rule.Turns.{AreNear};
ghost use Rattle.arc_predicates.specs.Circles.{AreClose};
ghost use Rattle.arc_predicates.specs.Trials.{CurvesAreClose};

use arc_predicates::{Side, circle, crosses, determinant, dot, is_at_most_zero, place_of};
use plane::{Curve, CurveKind, Point};

fn is_close(a: i64, b: i64) -> bool
    ensures { IsTrue result → IsNear (2 ^ 41) a b }
{
    let difference = i128::from(a) - i128::from(b);
    -2_199_023_255_552 < difference && difference < 2_199_023_255_552
}

fn are_close(p: Point, q: Point) -> bool
    ensures { IsTrue result → AreClose p q }
{
    is_close(p.x, q.x) && is_close(p.y, q.y)
}

fn curves_are_close(straight: &Curve, arc: &Curve) -> bool
    ensures { IsTrue result → CurvesAreClose straight.now arc.now }
{
    are_close(arc.from, arc.to)
        && are_close(arc.from, arc.third)
        && are_close(arc.to, arc.third)
        && are_close(arc.from, straight.from)
        && are_close(arc.from, straight.to)
}

fn is_near(a: i64, b: i64) -> bool
    ensures { IsTrue result → IsNear (2 ^ 32) a b }
{
    let difference = i128::from(a) - i128::from(b);
    -4_294_967_296 < difference && difference < 4_294_967_296
}

fn are_near(p: Point, q: Point) -> bool
    ensures { IsTrue result → AreNear (2 ^ 32) p q }
{
    is_near(p.x, q.x) && is_near(p.y, q.y)
}

type Three = [i64; 6];

fn point(x: i64, y: i64) -> Point {
    Point { x, y }
}

// The numbers of the circle of three points, and the side of a fourth one.
fn judged(arc: Three, p: [i64; 2]) -> Option<([i128; 3], Side)> {
    let from = point(arc[0], arc[1]);
    let to = point(arc[2], arc[3]);
    let third = point(arc[4], arc[5]);
    if !(are_close(from, to) && are_close(from, third) && are_close(to, third)) {
        return None;
    }
    let circle = circle(from, to, third)?;
    let at = point(p[0], p[1]);
    if !are_near(circle.s, at) {
        return None;
    }
    Some(([circle.d, circle.a, circle.b], place_of(&circle, at)))
}

// The first of the sixteenths at which the straight of the last four numbers crosses the half arc.
fn crossed(arc: Three, straight: [i64; 4]) -> Option<u8> {
    let arc = curve(
        CurveKind::HalfArc,
        point(arc[0], arc[1]),
        point(arc[2], arc[3]),
        point(arc[4], arc[5]),
    );
    let to = point(straight[2], straight[3]);
    let straight = curve(CurveKind::Straight, point(straight[0], straight[1]), to, to);
    if !curves_are_close(&straight, &arc) {
        return None;
    }
    let trial = crosses(&straight, &arc)?;
    Some(trial.sixteenth)
}

fn curve(kind: CurveKind, from: Point, to: Point, third: Point) -> Curve {
    Curve {
        kind,
        from,
        to,
        third,
        line: 1,
    }
}

// Half a turn below the circle round (5, 0) with the radius 5.
const HALF: Three = [0, 0, 10, 0, 5, 5];

const FAR: i64 = 1_000_000_000_000_000_000;

// The same, far away.
const SHIFTED: Three = [-FAR, FAR, -FAR + 10, FAR, -FAR + 5, FAR + 5];

// 2^26 - 1 wide, and one unit high in its middle.
const FLAT: Three = [0, 0, 67_108_863, 0, 33_554_432, 1];

type Judgement = (&'static str, Three, [i64; 2], Option<([i128; 3], Side)>);

const JUDGED: [Judgement; 11] = [
    (
        "on the circle",
        HALF,
        [5, -5],
        Some(([50, 500, 0], Side::On)),
    ),
    (
        "on it by 3, 4, 5",
        HALF,
        [8, 4],
        Some(([50, 500, 0], Side::On)),
    ),
    (
        "a unit inside",
        HALF,
        [5, -4],
        Some(([50, 500, 0], Side::Inside)),
    ),
    (
        "a unit outside",
        HALF,
        [5, -6],
        Some(([50, 500, 0], Side::Outside)),
    ),
    (
        "turned to the other side",
        [0, 0, 10, 0, 5, -5],
        [5, 4],
        Some(([-50, -500, 0], Side::Inside)),
    ),
    (
        "far from the origin",
        SHIFTED,
        [-FAR + 5, FAR - 5],
        Some(([50, 500, 0], Side::On)),
    ),
    ("collinear", [0, 0, 1, 1, 2, 2], [0, 0], None),
    ("too wide", [0, 0, 67_108_864, 0, 5, 5], [0, 0], None),
    (
        "too wide between the last two",
        [0, 1, -33_554_432, 0, 33_554_432, 0],
        [0, 0],
        None,
    ),
    (
        "wide enough by a unit",
        [0, 1, -33_554_432, 0, 33_554_431, 0],
        [0, 1],
        Some((
            [67_108_863, -67_108_863, -75_557_860_348_214_703_554_559],
            Side::On,
        )),
    ),
    (
        "almost straight",
        FLAT,
        [33_554_431, 1],
        Some((FLAT_NUMBERS, Side::On)),
    ),
];

const FLAT_NUMBERS: [i128; 3] = [
    67_108_863,
    4_503_599_493_152_769,
    -75_557_860_348_214_569_336_833,
];

type Crossing = (&'static str, [i64; 4], Option<u8>);

const CROSSED: [Crossing; 7] = [
    ("from inside", [5, 0, 5, -7], Some(11)),
    ("from outside", [5, -7, 5, 0], Some(4)),
    ("from the third point's side", [5, 3, 5, -12], Some(8)),
    ("by a place on the circle", [5, 0, 5, -16], None),
    ("on the third point's side alone", [5, 0, 5, 7], None),
    ("inside alone", [2, -1, 8, -1], None),
    (
        "through both sides between two places",
        [-95, -4, 115, -4],
        None,
    ),
];

#[test]
fn places_and_straights_are_judged(rt: HostRuntime) {
    for (name, arc, at, want) in &JUDGED {
        assert!(rt; judged(*arc, *at) == *want, "{name}");
    }
    for (name, straight, want) in &CROSSED {
        assert!(rt; crossed(HALF, *straight) == *want, "{name}");
    }
}

#[test]
fn sums_and_signs_of_products_are_exact(rt: HostRuntime) {
    let sums = [dot(3, -4, 5, 6), determinant(3, 4, 5, 6)];
    let signs = [is_at_most_zero(-2, 7), is_at_most_zero(-2, -7)];
    assert!(rt; sums == [-9, -2] && signs == [true, false]);
}
