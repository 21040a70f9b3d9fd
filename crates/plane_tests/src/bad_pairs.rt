// Drawings with half arcs, and the pair of their curves that is named as bad.
use super::drawn::Line::{Arc, Straight};
use super::drawn::{Line, WINDOWS, at, drawn, is_inside};
use meetings::{BadPair, arc_meeting, bad_meeting, is_on, reach};
use near_pairs::Reach;
use plane::{Drawing, Point, Window2};
use ports::Memory;
use std::alloc::Global;
use std::test::Fail;

type Case = (&'static str, &'static [Line], Option<[u32; 2]>);

// Of the circle round (1050, 1050) with the radius 50 the quarters left above and right above.
const ABOVE: Line = Arc([1000, 1050, 1050, 1100, 1100, 1050]);

const BELOW: Line = Arc([1100, 1050, 1050, 1000, 1000, 1050]);

const CASES: [Case; 19] = [
    ("nothing", &[], None),
    ("an arc", &[ABOVE], None),
    ("a circle", &[ABOVE, BELOW], None),
    (
        "its chord",
        &[ABOVE, Straight([1000, 1050, 1050, 1100])],
        None,
    ),
    (
        "a straight from outside ends on it",
        &[ABOVE, Straight([1020, 1090, 1000, 1100])],
        Some([0, 2]),
    ),
    (
        "a straight from inside ends on it",
        &[ABOVE, Straight([1050, 1050, 1020, 1090])],
        Some([0, 2]),
    ),
    (
        "a straight from inside ends a unit from it",
        &[ABOVE, Straight([1050, 1050, 1021, 1089])],
        None,
    ),
    (
        "a straight ends on the other part of its circle",
        &[ABOVE, Straight([1050, 1050, 1020, 1010])],
        None,
    ),
    (
        "a straight crosses it",
        &[Straight([1050, 1050, 1010, 1110]), ABOVE],
        Some([0, 1]),
    ),
    (
        "a straight crosses it and back between two sixteenths",
        &[ABOVE, Straight([265, 335, 1865, 1935])],
        None,
    ),
    ("one arc twice", &[ABOVE, ABOVE], Some([0, 2])),
    (
        "one arc there and back",
        &[ABOVE, Arc([1100, 1050, 1050, 1100, 1000, 1050])],
        Some([0, 3]),
    ),
    (
        "arcs of one circle overlap",
        &[ABOVE, Arc([1020, 1090, 1064, 1098, 1098, 1064])],
        Some([0, 2]),
    ),
    (
        "a half arc of more than half a turn",
        &[
            Arc([1000, 1050, 1020, 1090, 1010, 1080]),
            Straight([1100, 1050, 1150, 1050]),
        ],
        Some([0, 2]),
    ),
    (
        "straights come before a lesser pair with an arc",
        &[
            ABOVE,
            Straight([1020, 1090, 1000, 1100]),
            Straight([0, 0, 9, 9]),
            Straight([0, 9, 9, 0]),
        ],
        Some([3, 4]),
    ),
    (
        "the least of two pairs with an arc",
        &[
            Straight([1080, 1090, 1100, 1100]),
            Straight([1020, 1090, 1000, 1100]),
            ABOVE,
        ],
        Some([0, 3]),
    ),
    (
        "a circle round a square",
        &[
            Arc([510_000, 500_000, 500_000, 510_000, 490_000, 500_000]),
            Arc([490_000, 500_000, 500_000, 490_000, 510_000, 500_000]),
            Straight([508_860, 503_660, 508_880, 503_660]),
            Straight([508_880, 503_660, 508_880, 503_680]),
            Straight([508_880, 503_680, 508_860, 503_680]),
            Straight([508_860, 503_680, 508_860, 503_660]),
        ],
        None,
    ),
    (
        "a strip between two arcs, with a straight across",
        &[
            Arc([510_000, 500_000, 508_000, 506_000, 500_000, 510_000]),
            Straight([500_000, 510_000, 500_000, 509_700]),
            Arc([500_000, 509_700, 507_760, 505_820, 509_700, 500_000]),
            Straight([509_700, 500_000, 510_000, 500_000]),
            Straight([505_760, 507_680, 505_910, 507_880]),
        ],
        Some([3, 6]),
    ),
    (
        "two arcs that leave one point in one direction",
        &[
            Arc([500_000, 500_000, 506_000, 502_000, 510_000, 510_000]),
            Arc([500_000, 500_000, 512_000, 504_000, 520_000, 520_000]),
        ],
        None,
    ),
];

// A line, one of its curves, a point, and whether it is on that curve.
type Place = (&'static str, Line, usize, [i64; 2], bool);

const PLACES: [Place; 9] = [
    ("an end", ABOVE, 0, [1000, 1050], true),
    ("on the half arc", ABOVE, 0, [1020, 1090], true),
    ("on the other half arc", ABOVE, 1, [1020, 1090], false),
    ("on the rest of the circle", ABOVE, 0, [1020, 1010], false),
    ("beside the half arc", ABOVE, 0, [1021, 1090], false),
    ("on a straight", Straight([0, 0, 30, 60]), 0, [10, 20], true),
    ("an end of it", Straight([30, 60, 0, 0]), 0, [0, 0], true),
    (
        "behind its end",
        Straight([0, 0, 30, 60]),
        0,
        [40, 80],
        false,
    ),
    ("beside it", Straight([0, 0, 30, 60]), 0, [10, 21], false),
];

// A line, one of its curves, and the low and the high corner of the curve's box.
type Extent = (&'static str, Line, usize, [i64; 4]);

const EXTENTS: [Extent; 4] = [
    (
        "a straight",
        Straight([30, 10, 20, 60]),
        0,
        [20, 10, 30, 60],
    ),
    ("less than half a turn", ABOVE, 0, [975, 1025, 1075, 1125]),
    (
        "an odd extent",
        Arc([1000, 1000, 1001, 1003, 1010, 1010]),
        0,
        [998, 999, 1003, 1004],
    ),
    (
        "more than half a turn",
        Arc([1000, 1050, 1020, 1090, 1010, 1080]),
        0,
        [759, 809, 1241, 1291],
    ),
];

fn named(pair: Option<[u32; 2]>) -> Option<BadPair> {
    let [first, second] = pair?;
    Some(BadPair { first, second })
}

// The bad pair of the lines; none where they are not drawn.
fn met(alloc: Global, window: Window2, lines: &[Line]) -> Result<Option<Option<BadPair>>, Memory> {
    match drawn(alloc, window, lines)? {
        Some(drawing) => Ok(Some(bad_meeting(alloc, &drawing)?)),
        None => Ok(None),
    }
}

#[test]
fn bad_pairs_are_named(rt: HostRuntime) -> Result<(), Fail> {
    for window in &WINDOWS {
        for (name, lines, want) in &CASES {
            let pair = met(rt.alloc(), *window, lines)?;
            assert!(rt; pair == Some(named(*want)), "{name}");
        }
    }
    Ok(())
}

// Two straights that cross are no bad pair with an arc.
fn met_with_arc(alloc: Global) -> Result<Option<Option<BadPair>>, Memory> {
    let lines = [Straight([0, 0, 9, 9]), Straight([0, 9, 9, 0])];
    match drawn(alloc, WINDOWS[0], &lines)? {
        Some(drawing) => Ok(Some(arc_meeting(alloc, &drawing)?)),
        None => Ok(None),
    }
}

fn is_on_curve(drawing: &Drawing, number: usize, p: Point) -> Option<bool> {
    if number < drawing.curves.len() && is_inside(&drawing.window, p) {
        return Some(is_on(&drawing.curves[number], p));
    }
    None
}

fn placed(drawing: &Drawing, number: usize, place: [i64; 2]) -> Option<bool> {
    let p = at(&drawing.window, place[0], place[1])?;
    is_on_curve(drawing, number, p)
}

fn box_of_curve(drawing: &Drawing, number: usize) -> Option<Reach> {
    if number < drawing.curves.len() {
        return Some(reach(&drawing.curves[number]));
    }
    None
}

fn corners(window: &Window2, corners: [i64; 4]) -> Option<Reach> {
    let low = at(window, corners[0], corners[1])?;
    let high = at(window, corners[2], corners[3])?;
    Some(Reach { low, high })
}

// Whether the place is on its curve as it is wanted.
fn is_placed(alloc: Global, place: &Place) -> Result<bool, Memory> {
    match drawn(alloc, WINDOWS[1], &[place.1])? {
        Some(drawing) => Ok(placed(&drawing, place.2, place.3) == Some(place.4)),
        None => Ok(false),
    }
}

fn is_extended(alloc: Global, extent: &Extent) -> Result<bool, Memory> {
    match drawn(alloc, WINDOWS[2], &[extent.1])? {
        Some(drawing) => Ok(box_of_curve(&drawing, extent.2) == corners(&WINDOWS[2], extent.3)),
        None => Ok(false),
    }
}

#[test]
fn points_and_boxes_are_on_curves(rt: HostRuntime) -> Result<(), Fail> {
    for place in &PLACES {
        assert!(rt; is_placed(rt.alloc(), place)?, "{}", place.0);
    }
    for extent in &EXTENTS {
        assert!(rt; is_extended(rt.alloc(), extent)?, "{}", extent.0);
    }
    assert!(rt; met_with_arc(rt.alloc())? == Some(None), "two straights");
    Ok(())
}
