// The edges of small drawings, and the sides that face their tubes.
ghost use Rattle.std.specs.Prelude.{◌≤◌};

use super::drawn::Line::{Arc, Straight};
use super::drawn::{Line, WINDOWS, drawn};
use plane::Drawing;
use ports::Memory;
use std::alloc::Global;
use std::test::Fail;
use tubes::{EdgeList, Facing, Owner, Part, edge_list, facings};

// The ends of an edge, what it is of which curve, and the side that faces its tube.
type Row = ([i64; 4], u32, Part, Facing);

const THREE: [Line; 3] = [
    Straight([0, 50, 0, 0]),
    Straight([0, 50, 50, 50]),
    Straight([50, 50, 0, 0]),
];

const SIDES: [Row; 3] = [
    ([0, 0, 0, 50], 0, Part::Straight, Facing::Neither),
    ([0, 50, 50, 50], 1, Part::Straight, Facing::Neither),
    ([0, 0, 50, 50], 2, Part::Straight, Facing::Neither),
];

// The straight from C to A and the half arcs from A over B to C.
const SECTOR: [Line; 2] = [Straight([50, 50, 0, 0]), Arc([0, 0, 0, 50, 50, 50])];

// Its edges at level 0.
const TUBED: [Row; 11] = [
    ([0, 0, 50, 50], 0, Part::Straight, Facing::Neither),
    ([-10, 25, 0, 0], 1, Part::Inner, Facing::Below),
    ([-10, 25, 0, 50], 1, Part::Inner, Facing::Above),
    ([-19, 7, 0, 0], 1, Part::Outer, Facing::Above),
    ([-19, 7, -19, 42], 1, Part::Outer, Facing::Below),
    ([-19, 42, 0, 50], 1, Part::Outer, Facing::Below),
    ([0, 50, 25, 60], 2, Part::Inner, Facing::Above),
    ([25, 60, 50, 50], 2, Part::Inner, Facing::Above),
    ([0, 50, 6, 70], 2, Part::Outer, Facing::Below),
    ([6, 70, 43, 70], 2, Part::Outer, Facing::Below),
    ([43, 70, 50, 50], 2, Part::Outer, Facing::Below),
];

// Whether the edges, their curves and their sides are those of the table.
fn are_rows(list: &EdgeList, sides: &[Facing], rows: &[Row]) -> bool {
    for (((edge, owner), side), (ends, curve, part, facing)) in list
        .edges
        .iter()
        .zip(&list.owners)
        .zip(sides)
        .zip(rows)
    {
        let found = [edge.low.x, edge.low.y, edge.high.x, edge.high.y];
        let owned = (owner.curve, owner.part, *side);
        if found != *ends || owned != (*curve, *part, *facing) {
            return false;
        }
    }
    let count = rows.len();
    list.edges.len() == count && list.owners.len() == count && sides.len() == count
}

// Whether the drawing has these edges at the level; none where it has no edges there.
fn has_edges(
    alloc: Global,
    drawing: &Drawing,
    level: u8,
    rows: &[Row],
) -> Result<Option<bool>, Memory>
    requires { level ≤ 5 }
{
    match edge_list(alloc, drawing, level)? {
        Some(list) => {
            let sides = facings(alloc, drawing, &list)?;
            Ok(Some(are_rows(&list, &sides, rows)))
        }
        None => Ok(None),
    }
}

// Whether the lines have these edges, false where they are not drawn.
fn have_edges(
    alloc: Global,
    lines: &[Line],
    level: u8,
    rows: &[Row],
) -> Result<Option<bool>, Memory>
    requires { level ≤ 5 }
{
    match drawn(alloc, WINDOWS[0], lines)? {
        Some(drawing) => has_edges(alloc, &drawing, level, rows),
        None => Ok(Some(false)),
    }
}

#[test]
fn straights_and_half_arcs_have_their_edges(rt: HostRuntime) -> Result<(), Fail> {
    let alloc = rt.alloc();
    let answers = [
        have_edges(alloc, &THREE, 0, &SIDES)?,
        have_edges(alloc, &SECTOR, 0, &TUBED)?,
        have_edges(alloc, &SECTOR, 5, &TUBED)?,
    ];
    assert_eq!(rt; answers, [Some(true), Some(true), None]);
    Ok(())
}
