// Drawings with straights that fork from half arcs, and what becomes of them, by hand.
ghost use Rattle.std.specs.Prelude.{◌≤◌};

use super::drawn::Line::{Arc, Straight};
use super::drawn::{Line, drawn, is_inside};
use super::fork_zones::is_tolerance;
use forks::{Bent, bent};
use plane::{CurveKind, Drawing, Point, Window2};
use ports::Memory;
use std::alloc::Global;
use std::process::Abort;
use std::test::Fail;

// What is drawn in which window, the objects' points, the overlap, and of each straight then its
// origin and its two ends.
type Case = (
    &'static str,
    Window2,
    &'static [Line],
    &'static [[i64; 2]],
    i64,
    &'static [[i64; 5]],
);

const WHOLE: Window2 = Window2 {
    low: Point { x: 0, y: 0 },
    high: Point {
        x: 1_000_000,
        y: 1_000_000,
    },
};

// Ten units right of the circle of UPPER.
const NARROW: Window2 = Window2 {
    low: Point { x: 0, y: 0 },
    high: Point {
        x: 510_010,
        y: 1_000_000,
    },
};

// The upper half of a circle, and the lower half of one 40000 units above it.
const UPPER: Line = Arc([510_000, 500_000, 500_000, 510_000, 490_000, 500_000]);

const LOWER: Line = Arc([510_000, 540_000, 500_000, 530_000, 490_000, 540_000]);

// From the right end of UPPER: a flat arc whose centre is on the right.
const FLAT: Line = Arc([510_000, 500_000, 509_600, 510_000, 509_800, 520_000]);

// From the right end of UPPER: along the tangent, a little inside of it, and inside of FLAT too.
const ALONG: Line = Straight([510_000, 500_000, 510_000, 520_000]);

const INSIDE: Line = Straight([510_000, 500_000, 509_900, 520_000]);

const FAR_INSIDE: Line = Straight([510_000, 500_000, 509_000, 520_000]);

// From LOWER to UPPER, along the tangents of both.
const BETWEEN: Line = Straight([510_000, 540_000, 510_000, 500_000]);

const BENDS: [Case; 8] = [
    (
        "a little inside of the tangent",
        WHOLE,
        &[UPPER, INSIDE],
        &[],
        50,
        &[
            [2, 510_000, 500_000, 510_046, 500_400],
            [2, 510_046, 500_400, 509_900, 520_000],
        ],
    ),
    (
        "along the tangent, to the half arc",
        WHOLE,
        &[Straight([510_000, 520_000, 510_000, 500_000]), UPPER],
        &[],
        50,
        &[
            [0, 510_000, 520_000, 510_048, 500_400],
            [0, 510_048, 500_400, 510_000, 500_000],
        ],
    ),
    (
        "no overlap",
        WHOLE,
        &[UPPER, INSIDE],
        &[],
        0,
        &[[2, 510_000, 500_000, 509_900, 520_000]],
    ),
    (
        "straights alone",
        WHOLE,
        &[ALONG, INSIDE],
        &[],
        50,
        &[
            [0, 510_000, 500_000, 510_000, 520_000],
            [1, 510_000, 500_000, 509_900, 520_000],
        ],
    ),
    (
        "a chord",
        WHOLE,
        &[UPPER, Straight([510_000, 500_000, 500_000, 510_000])],
        &[],
        50,
        &[[2, 510_000, 500_000, 500_000, 510_000]],
    ),
    (
        "a bend at both ends",
        WHOLE,
        &[UPPER, LOWER, BETWEEN],
        &[],
        50,
        &[
            [4, 510_000, 540_000, 510_048, 539_600],
            [4, 510_048, 539_600, 510_048, 500_400],
            [4, 510_048, 500_400, 510_000, 500_000],
        ],
    ),
    (
        "the lesser of two half arcs",
        WHOLE,
        &[UPPER, FLAT, FAR_INSIDE],
        &[],
        50,
        &[
            [4, 510_000, 500_000, 510_027, 500_401],
            [4, 510_027, 500_401, 509_000, 520_000],
        ],
    ),
    (
        "the greater one where the bend of the lesser is outside of the window",
        NARROW,
        &[UPPER, FLAT, FAR_INSIDE],
        &[],
        50,
        &[
            [4, 510_000, 500_000, 509_932, 500_397],
            [4, 509_932, 500_397, 509_000, 520_000],
        ],
    ),
];

const POINTS: [Case; 6] = [
    (
        "a point on the bend",
        WHOLE,
        &[UPPER, INSIDE],
        &[[510_046, 500_400]],
        50,
        &[[2, 510_000, 500_000, 509_900, 520_000]],
    ),
    (
        "a point beside the bend",
        WHOLE,
        &[UPPER, INSIDE],
        &[[510_047, 500_400]],
        50,
        &[
            [2, 510_000, 500_000, 510_046, 500_400],
            [2, 510_046, 500_400, 509_900, 520_000],
        ],
    ),
    (
        "a point on the first part",
        WHOLE,
        &[UPPER, ALONG],
        &[[510_024, 500_200]],
        50,
        &[[2, 510_000, 500_000, 510_000, 520_000]],
    ),
    (
        "a point on the last part",
        WHOLE,
        &[UPPER, Straight([510_000, 500_000, 510_000, 520_008])],
        &[[400_000, 400_000], [510_024, 510_204]],
        50,
        &[[2, 510_000, 500_000, 510_000, 520_008]],
    ),
    (
        "a point on the part between two bends",
        WHOLE,
        &[UPPER, LOWER, BETWEEN],
        &[[510_048, 520_000]],
        50,
        &[[4, 510_000, 540_000, 510_000, 500_000]],
    ),
    (
        "a point on the straight and on none of its parts",
        WHOLE,
        &[UPPER, ALONG],
        &[[510_000, 510_000]],
        50,
        &[
            [2, 510_000, 500_000, 510_048, 500_400],
            [2, 510_048, 500_400, 510_000, 520_000],
        ],
    ),
];

// False where a point is not in the window, or the overlap not in its range.
fn add_points(drawing: &mut Drawing, points: &[[i64; 2]], overlap: i64) -> Result<bool, Memory> {
    for [x, y] in points {
        let at = Point { x: *x, y: *y };
        if drawing.points.len() >= 100 || !is_inside(&drawing.window, at) {
            return Ok(false);
        }
        drawing.add_point(at, 0)?;
    }
    if !is_tolerance(overlap) {
        return Ok(false);
    }
    drawing.set_tolerance(overlap);
    Ok(true)
}

// None where the case cannot be drawn.
fn bent_case(alloc: Global, case: &Case) -> Result<Option<Bent>, Memory> {
    let (_, window, lines, points, overlap, _) = case;
    match drawn(alloc, *window, lines)? {
        Some(mut drawing) => {
            let drawable = add_points(&mut drawing, points, *overlap)?;
            if !drawable || drawing.curves.len() > 16_000_000 {
                return Ok(None);
            }
            let found = bent(alloc, &drawing)?;
            Ok(Some(found))
        }
        None => Ok(None),
    }
}

fn straights_of(alloc: Global, found: &Bent) -> Result<Vec<[i64; 5]>, Memory> {
    let mut straights = Vec::new(alloc);
    for (curve, origin) in found.drawing.curves.iter().zip(found.origin.iter()) {
        if curve.kind == CurveKind::Straight {
            straights.push([
                i64::from(*origin),
                curve.from.x,
                curve.from.y,
                curve.to.x,
                curve.to.y,
            ])?;
        }
    }
    Ok(straights)
}

fn judge(rt: &impl Abort, alloc: Global, cases: &[Case]) -> Result<(), Fail> {
    for case in cases {
        match bent_case(alloc, case)? {
            Some(found) => {
                let straights = straights_of(alloc, &found)?;
                assert!(rt;
                    straights.as_slice() == case.5,
                    "{}: {:?}",
                    case.0,
                    straights
                );
            }
            None => assert!(rt; false, "{}: cannot be drawn", case.0),
        }
    }
    Ok(())
}

#[test]
fn forks_are_bent_at_their_ends(rt: HostRuntime) -> Result<(), Fail> {
    judge(&rt, rt.alloc(), &BENDS)
}

#[test]
fn a_straight_with_a_point_on_its_parts_stays(rt: HostRuntime) -> Result<(), Fail> {
    judge(&rt, rt.alloc(), &POINTS)
}
