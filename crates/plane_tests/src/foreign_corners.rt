// The first event at which a corner of a tube is another curve's too.
ghost use Rattle.std.specs.Prelude.{◌≤◌};
ghost use Rattle.plane.specs.Rule.Plans.{plan};
ghost use Rattle.tubes.specs.TubedEdges.{AreUsable, IsTubedList};

use super::drawn::Line::{Arc, Straight};
use super::drawn::{Line, WINDOWS, drawn};
use plane::Drawing;
use ports::Memory;
use std::alloc::Global;
use std::test::Fail;
use straight_predicates::Timetable;
use tubes::{EdgeList, edge_list, foreign_corner};

// The round side from right over the top to the left, and the straight back.
const ROUND: Line = Arc([510_000, 500_000, 500_000, 510_000, 490_000, 500_000]);

const FLAT: Line = Straight([490_000, 500_000, 510_000, 500_000]);

const DISC: &[Line] = &[ROUND, FLAT];

// One line more: to an inner corner of the first tube, to an outer corner, and to the end of both.
const INNER: &[Line] = &[ROUND, FLAT, Straight([500_000, 500_000, 507_071, 507_071])];

const OUTER: &[Line] = &[ROUND, FLAT, Straight([520_000, 510_000, 510_301, 504_266])];

const END: &[Line] = &[ROUND, FLAT, Straight([520_000, 510_000, 510_000, 500_000])];

// A half disc that is too small for tubes.
const NARROW: &[Line] = &[
    Arc([500_013, 500_000, 500_000, 500_013, 499_987, 500_000]),
    Straight([499_987, 500_000, 500_013, 500_000]),
];

// Lines, a level, and the event, as bench/tubes.py makes the corners; events are counted from the
// left.
type Row = (&'static str, &'static [Line], u8, Option<u32>);

const ROWS: [Row; 6] = [
    ("only the half arcs' own", DISC, 0, None),
    ("an inner corner", INNER, 0, Some(7)),
    ("the same corner at the next level", INNER, 1, Some(13)),
    ("an outer corner", OUTER, 0, Some(8)),
    ("no corner of the next level", OUTER, 1, None),
    ("the end of a half arc", END, 0, None),
];

// None where the lines are not drawn or have no edges at the level.
fn found(alloc: Global, lines: &[Line], level: u8) -> Result<Option<Option<u32>>, Memory> {
    let Some(drawing) = drawn(alloc, WINDOWS[0], lines)? else {
        return Ok(None);
    };
    found_in(alloc, &drawing, level.min(5))
}

fn found_in(alloc: Global, drawing: &Drawing, level: u8) -> Result<Option<Option<u32>>, Memory>
    requires { level ≤ 5 }
{
    match edge_list(alloc, drawing, level)? {
        Some(list) => Ok(Some(found_among(alloc, drawing, &list, level)?)),
        None => Ok(None),
    }
}

fn found_among(
    alloc: Global,
    drawing: &Drawing,
    list: &EdgeList,
    level: u8,
) -> Result<Option<u32>, Memory>
    requires low { level ≤ 5 }
    requires list { IsTubedList (plan drawing.now) (λ n. level) list.now }
    requires usable { AreUsable (plan drawing.now) list.now.edges.items }
{
    if list.edges.len() >= 1 << 31 {
        return Err(Memory);
    }
    let table = Timetable::new(alloc, &list.edges)?;
    let of = table.edge_events(alloc, &list.edges)?;
    foreign_corner(alloc, drawing, list, &of.low, &of.high, table.events())
}

#[test]
fn the_first_foreign_corner_is_found(rt: HostRuntime) -> Result<(), Fail> {
    for (name, lines, level, want) in &ROWS {
        assert!(rt; found(rt.alloc(), lines, *level)? == Some(*want), "{name}");
    }
    assert!(rt;
        found(rt.alloc(), NARROW, 0)?.is_none(),
        "half arcs of 13 units"
    );
    Ok(())
}
