// Zones of straights that fork from half arcs, worked by hand.
ghost use Rattle.std.specs.Prelude.{◌^◌, IsTrue};
ghost use Rattle.forks.specs.Zones.{AreInReach};
ghost use Rattle.plane.specs.Numbers.{IsNear, IsWithin};
ghost use Rattle.plane.specs.Rule.Overlaps.{IsTolerance};
ghost use Rattle.plane.specs.Rule.Turns.{AreNear};
ghost use Rattle.plane.specs.Rule.Windows.{IsShort};

use super::drawn::Line;
use super::drawn::Line::{Arc, Straight};
use forks::fork_zone;
use plane::{Curve, CurveKind, Point};
use std::process::Abort;
use std::test::Fail;

fn is_near(a: i64, b: i64) -> bool
    ensures { IsTrue result → IsNear (2 ^ 40) a b }
{
    let difference = i128::from(a) - i128::from(b);
    -1_099_511_627_776 < difference && difference < 1_099_511_627_776
}

fn are_near(p: Point, q: Point) -> bool
    ensures { IsTrue result → AreNear (2 ^ 40) p q }
{
    is_near(p.x, q.x) && is_near(p.y, q.y)
}

fn is_short(a: i64) -> bool
    ensures { IsTrue result → IsWithin (10 ^ 18) a }
{
    -1_000_000_000_000_000_000 < a && a < 1_000_000_000_000_000_000
}

fn are_short(p: Point) -> bool
    ensures { IsTrue result → IsShort p }
{
    is_short(p.x) && is_short(p.y)
}

fn are_in_reach(arc: &Curve, straight: &Curve) -> bool
    ensures { IsTrue result → AreInReach arc.now straight.now }
{
    are_near(arc.from, arc.to)
        && are_near(arc.from, arc.third)
        && are_near(arc.to, arc.third)
        && are_near(straight.from, straight.to)
        && are_short(straight.from)
        && are_short(straight.to)
}

pub fn is_tolerance(d: i64) -> bool
    ensures { IsTrue result → IsTolerance d }
{
    0 <= d && d <= 1_048_576
}

// A straight, or the first half arc of an arc.
fn curve_of(line: &Line) -> Curve {
    match line {
        Straight([x, y, to_x, to_y]) => {
            let to = Point { x: *to_x, y: *to_y };
            Curve {
                kind: CurveKind::Straight,
                from: Point { x: *x, y: *y },
                to,
                third: to,
                line: 1,
            }
        }
        Arc([x, y, to_x, to_y, third_x, third_y]) => Curve {
            kind: CurveKind::HalfArc,
            from: Point { x: *x, y: *y },
            to: Point { x: *to_x, y: *to_y },
            third: Point {
                x: *third_x,
                y: *third_y,
            },
            line: 1,
        },
    }
}

// Whether the bend is at `from`, and its coordinates.
type Bend = (bool, i64, i64);

fn zone(first: &Line, second: &Line, tolerance: i64) -> Option<Bend> {
    let first = curve_of(first);
    let second = curve_of(second);
    if !are_in_reach(&first, &second) || !is_tolerance(tolerance) {
        return None;
    }
    let zone = fork_zone(&first, &second, tolerance)?;
    Some((zone.at_from, zone.bend.x, zone.bend.y))
}

// What is drawn, the overlap, and the bend.
type Case = (&'static str, Line, Line, i64, Option<Bend>);

// From the right end of a circle round (500000, 500000) to its top, and so of a smaller circle.
const QUARTER: Line = Arc([510_000, 500_000, 500_000, 510_000, 490_000, 500_000]);

const SMALL: Line = Arc([508_020, 500_000, 500_000, 508_020, 491_980, 500_000]);

const KINDS: [Case; 13] = [
    (
        "a little inside of the tangent",
        QUARTER,
        Straight([510_000, 500_000, 509_900, 520_000]),
        50,
        Some((true, 510_046, 500_400)),
    ),
    (
        "at to",
        QUARTER,
        Straight([509_900, 520_000, 510_000, 500_000]),
        50,
        Some((false, 510_046, 500_400)),
    ),
    (
        "half arc back",
        Arc([500_000, 510_000, 510_000, 500_000, 490_000, 500_000]),
        Straight([510_000, 500_000, 509_900, 520_000]),
        50,
        Some((true, 510_046, 500_400)),
    ),
    (
        "along the tangent",
        QUARTER,
        Straight([510_000, 500_000, 510_000, 520_000]),
        50,
        Some((true, 510_048, 500_400)),
    ),
    (
        "mirrored",
        Arc([500_000, 510_000, 510_000, 500_000, 500_000, 490_000]),
        Straight([500_000, 510_000, 520_000, 509_900]),
        50,
        Some((true, 500_400, 510_046)),
    ),
    (
        "no common end",
        QUARTER,
        Straight([510_001, 500_000, 509_900, 520_000]),
        50,
        None,
    ),
    (
        "both ends",
        QUARTER,
        Straight([510_000, 500_000, 500_000, 510_000]),
        50,
        None,
    ),
    (
        "two straights",
        Straight([510_000, 500_000, 500_000, 510_000]),
        Straight([510_000, 500_000, 509_900, 520_000]),
        50,
        None,
    ),
    (
        "two half arcs",
        QUARTER,
        Arc([500_000, 510_000, 510_000, 500_000, 490_000, 500_000]),
        50,
        None,
    ),
    (
        "third point is no end",
        QUARTER,
        Straight([490_000, 500_000, 490_000, 520_000]),
        50,
        None,
    ),
    (
        "points 2^26 apart",
        Arc([510_000, 500_000, -66_598_864, 500_001, -33_044_432, 480_000]),
        Straight([510_000, 500_000, 509_990, 560_000]),
        50,
        None,
    ),
    (
        "d 7",
        QUARTER,
        Straight([510_000, 500_000, 509_900, 520_000]),
        7,
        None,
    ),
    (
        "d 8",
        QUARTER,
        Straight([510_000, 500_000, 509_900, 520_000]),
        8,
        Some((true, 510_005, 500_064)),
    ),
];

const EDGES: [Case; 13] = [
    (
        "h is 32 d",
        QUARTER,
        Straight([510_000, 500_000, 510_000, 501_600]),
        50,
        Some((true, 510_048, 500_400)),
    ),
    (
        "h is 32 d less 1",
        QUARTER,
        Straight([510_000, 500_000, 510_000, 501_599]),
        50,
        None,
    ),
    (
        "root rounded down",
        QUARTER,
        Straight([510_000, 500_000, 510_010, 501_599]),
        50,
        None,
    ),
    (
        "h 32 d by its root",
        QUARTER,
        Straight([510_000, 500_000, 509_940, 501_599]),
        50,
        Some((true, 510_032, 500_401)),
    ),
    (
        "d 0",
        QUARTER,
        Straight([510_000, 500_000, 509_900, 520_000]),
        0,
        None,
    ),
    (
        "d greatest",
        QUARTER,
        Straight([510_000, 500_000, 510_000, 34_054_432]),
        1_048_576,
        Some((true, 1_558_574, 8_888_608)),
    ),
    (
        "ahead by one",
        Arc([510_000, 500_000, 490_000, 500_001, 500_000, 490_000]),
        Straight([510_000, 500_000, 510_000, 520_000]),
        50,
        Some((true, 510_048, 500_400)),
    ),
    (
        "beside",
        Arc([510_000, 500_000, 490_000, 500_000, 500_000, 490_000]),
        Straight([510_000, 500_000, 510_000, 520_000]),
        50,
        None,
    ),
    (
        "behind",
        QUARTER,
        Straight([510_000, 500_000, 510_000, 480_000]),
        50,
        None,
    ),
    (
        "out a sixteenth",
        QUARTER,
        Straight([510_000, 500_000, 511_250, 520_000]),
        50,
        Some((true, 510_072, 500_396)),
    ),
    (
        "out more",
        QUARTER,
        Straight([510_000, 500_000, 511_251, 520_000]),
        50,
        None,
    ),
    (
        "in a sixteenth",
        QUARTER,
        Straight([510_000, 500_000, 508_750, 520_000]),
        50,
        Some((true, 510_022, 500_402)),
    ),
    (
        "in more",
        QUARTER,
        Straight([510_000, 500_000, 508_749, 520_000]),
        50,
        None,
    ),
];

const PLACES: [Case; 11] = [
    (
        "ends on the circle",
        SMALL,
        Straight([508_020, 500_000, 507_980, 500_800]),
        25,
        None,
    ),
    (
        "ends outside",
        SMALL,
        Straight([508_020, 500_000, 507_981, 500_800]),
        25,
        Some((true, 508_033, 500_201)),
    ),
    (
        "ends inside",
        SMALL,
        Straight([508_020, 500_000, 507_979, 500_800]),
        25,
        None,
    ),
    (
        "18 digits",
        Arc([
            999_999_999_999_000_000,
            -999_999_999_998_500_000,
            999_999_999_998_990_000,
            -999_999_999_998_490_000,
            999_999_999_998_980_000,
            -999_999_999_998_500_000,
        ]),
        Straight([
            999_999_999_999_000_000,
            -999_999_999_998_500_000,
            999_999_999_998_999_900,
            -999_999_999_998_480_000,
        ]),
        50,
        Some((true, 999_999_999_999_000_046, -999_999_999_998_499_600)),
    ),
    (
        "quarter 1",
        Arc([500_000, 510_000, 490_000, 500_000, 500_000, 490_000]),
        Straight([500_000, 510_000, 480_000, 509_900]),
        50,
        Some((true, 499_599, 510_046)),
    ),
    (
        "quarter 2",
        Arc([490_000, 500_000, 500_000, 490_000, 510_000, 500_000]),
        Straight([490_000, 500_000, 490_100, 480_000]),
        50,
        Some((true, 489_954, 499_599)),
    ),
    (
        "quarter 3",
        Arc([500_000, 490_000, 510_000, 500_000, 500_000, 510_000]),
        Straight([500_000, 490_000, 520_000, 490_100]),
        50,
        Some((true, 500_400, 489_954)),
    ),
    (
        "quarter 0, other side",
        Arc([500_000, 510_000, 510_000, 500_000, 500_000, 490_000]),
        Straight([500_000, 510_000, 520_003, 509_871]),
        49,
        Some((true, 500_392, 510_044)),
    ),
    (
        "quarter 1, other side",
        Arc([510_000, 500_000, 500_000, 490_000, 490_000, 500_000]),
        Straight([510_000, 500_000, 509_871, 479_997]),
        49,
        Some((true, 510_044, 499_607)),
    ),
    (
        "quarter 2, other side",
        Arc([500_000, 490_000, 490_000, 500_000, 500_000, 510_000]),
        Straight([500_000, 490_000, 479_997, 490_129]),
        49,
        Some((true, 499_607, 489_955)),
    ),
    (
        "quarter 3, other side",
        Arc([490_000, 500_000, 500_000, 510_000, 510_000, 500_000]),
        Straight([490_000, 500_000, 490_129, 520_003]),
        49,
        Some((true, 489_955, 500_392)),
    ),
];

fn judge(rt: &impl Abort, cases: &[Case]) -> Result<(), Fail> {
    for (label, first, second, tolerance, wanted) in cases {
        assert!(rt; zone(first, second, *tolerance) == *wanted, "{label}");
    }
    Ok(())
}

#[test]
fn zones_have_two_curves_with_one_common_end(rt: HostRuntime) -> Result<(), Fail> {
    judge(&rt, &KINDS)
}

#[test]
fn zones_end_at_their_limits(rt: HostRuntime) -> Result<(), Fail> {
    judge(&rt, &EDGES)
}

#[test]
fn zones_lie_all_ways_round(rt: HostRuntime) -> Result<(), Fail> {
    judge(&rt, &PLACES)
}
