// Drawings of straights and arcs, whose coordinates are checked as a test runs.
ghost use Rattle.std.specs.Prelude.{◌≡◌, IsTrue, pos};
ghost use Rattle.plane.specs.Rule.Turns.{cross};
ghost use Rattle.plane.specs.Rule.Windows.{IsInside};

use super::meetings_of_edges::are_close;
use plane::{Drawing, Point, Window2};
use ports::Memory;
use std::alloc::Global;
use straight_predicates::{Turn, turn};

/// The coordinates of a line's vertices, from the window's low corner: two of a straight, three of
/// an arc, which is two half arcs.
#[derive(Clone, Copy)]
pub enum Line {
    Straight([i64; 4]),
    Arc([i64; 6]),
}

use Line::{Arc, Straight};

pub const WINDOWS: [Window2; 3] = [
    Window2 {
        low: Point { x: 0, y: 0 },
        high: Point {
            x: 1_000_000,
            y: 1_000_000,
        },
    },
    Window2 {
        low: Point {
            x: 999_999_999_998_999_999,
            y: -999_999_999_999_999_999,
        },
        high: Point {
            x: 999_999_999_999_999_999,
            y: -999_999_999_998_999_999,
        },
    },
    Window2 {
        low: Point {
            x: -999_999_999_999_999_999,
            y: 999_999_999_998_999_999,
        },
        high: Point {
            x: -999_999_999_998_999_999,
            y: 999_999_999_999_999_999,
        },
    },
];

pub fn is_inside(window: &Window2, p: Point) -> bool
    ensures { IsTrue result → IsInside window.now.low window.now.high p }
{
    if window.low.x <= p.x && p.x <= window.high.x && window.low.y <= p.y && p.y <= window.high.y {
        return true;
    }
    false
}

fn are_bent(a: Point, b: Point, c: Point) -> bool
    ensures { IsTrue result → cross a b c ≡ pos 0 → ⊥ }
{
    if !are_close(a, b) || !are_close(a, c) {
        return false;
    }
    match turn(a, b, c) {
        Turn::Straight => false,
        Turn::Left => true,
        Turn::Right => true,
    }
}

/// The point with these coordinates from the window's low corner.
pub fn at(window: &Window2, x: i64, y: i64) -> Option<Point> {
    let x = window.low.x.checked_add(x)?;
    let y = window.low.y.checked_add(y)?;
    Some(Point { x, y })
}

// False where the line cannot be drawn.
fn add_line(drawing: &mut Drawing, line: &Line) -> Result<bool, Memory> {
    match line {
        Straight(ends) => {
            let from = at(&drawing.window, ends[0], ends[1]);
            let to = at(&drawing.window, ends[2], ends[3]);
            match (from, to) {
                (Some(from), Some(to)) => add_straight(drawing, from, to),
                _ => Ok(false),
            }
        }
        Arc(places) => {
            let start = at(&drawing.window, places[0], places[1]);
            let on = at(&drawing.window, places[2], places[3]);
            let end = at(&drawing.window, places[4], places[5]);
            match (start, on, end) {
                (Some(start), Some(on), Some(end)) => add_arc(drawing, start, on, end),
                _ => Ok(false),
            }
        }
    }
}

fn add_straight(drawing: &mut Drawing, from: Point, to: Point) -> Result<bool, Memory> {
    if from != to
        && drawing.curves.len() < 100
        && is_inside(&drawing.window, from)
        && is_inside(&drawing.window, to)
    {
        drawing.add_straight(from, to, 0)?;
        return Ok(true);
    }
    Ok(false)
}

fn add_arc(drawing: &mut Drawing, start: Point, on: Point, end: Point) -> Result<bool, Memory> {
    if are_bent(start, on, end)
        && drawing.curves.len() < 100
        && is_inside(&drawing.window, start)
        && is_inside(&drawing.window, on)
        && is_inside(&drawing.window, end)
    {
        drawing.add_arc(start, on, end, 0, 0)?;
        return Ok(true);
    }
    Ok(false)
}

/// The drawing of the lines, none where one of them cannot be drawn.
pub fn drawn(alloc: Global, window: Window2, lines: &[Line]) -> Result<Option<Drawing>, Memory> {
    let mut drawing = Drawing::new(alloc, window);
    for line in lines {
        if !add_line(&mut drawing, line)? {
            return Ok(None);
        }
    }
    Ok(Some(drawing))
}
