// The pairs of a rule, from what is kept of the rows of a transfer.
ghost use Rattle.std.specs.Prelude.{◌≡◌, ◌≤◌, ℕ, List, IfOk};
ghost use Rattle.std.specs.Prelude.{option_and_then};
ghost use Rattle.std.specs.Option.{option_map};
ghost use Rattle.area_drawings.specs.KeptViews.{kept_in};
ghost use Rattle.area_links.specs.Pairs.{pairs_of};
ghost use Rattle.area_links.specs.Views.{rule_view};
ghost use Rattle.ident_refs.specs.KeptViews.{named_view};
ghost use Rattle.itf_reader.specs.Forms.{Row as GivenRow};
ghost use Rattle.table_layout.specs.Valid.{IsValid};
ghost use Rattle.table_layout.specs.Values.{layout_view};
ghost use Rattle.delivery.specs.KeptRows.{transfer_so_far};
ghost use Rattle.delivery.specs.LinkJoins.{RiseFrom, joined, line_pair, name_in, names_after};
ghost use Rattle.delivery.specs.LinkJoins.{numbered, object_at, point_in, points_after};
ghost use Rattle.delivery.specs.LinkRows.{AreLinksKept, IsGoodRule, points_in};

use area_drawings::{KeptPoints, TablePlaces};
use area_links::{LinkPair, LinkRule};
use ident_refs::{Keys, NamedRow};
use plane::{Placed, Point};
use ports::Memory;
use std::alloc::Global;
use table_layout::Layout;

// The point of the row in that line, where it is the first of these.
fn point_in(line: u32, points: &[Placed]) -> Option<Point>
    ensures { result ≡ point_in line points.now }
{
    match points {
        [first, ..] => {
            if first.line == line {
                Some(first.at)
            } else {
                None
            }
        }
        [] => None,
    }
}

// The points of the rows after that line.
fn points_after(line: u32, points: &[Placed]) -> &[Placed]
    ensures { result.now ≡ points_after line points.now }
{
    match points {
        [first, others @ ..] => { if first.line == line { others } else { points } }
        [] => points,
    }
}

// The row that the row in that line refers to, where it is the first of these that has a reference.
fn name_in(line: u32, names: &[NamedRow]) -> Option<Option<usize>>
    ensures { result ≡ name_in line (named_view names.now) }
{
    match names {
        [first, ..] => {
            if first.line == line {
                Some(first.row)
            } else {
                None
            }
        }
        [] => None,
    }
}

// What the rows after that line refer to.
fn names_after(line: u32, names: &[NamedRow]) -> &[NamedRow]
    ensures { named_view result.now ≡ names_after line (named_view names.now) }
{
    match names {
        [first, others @ ..] => { if first.line == line { others } else { names } }
        [] => names,
    }
}

// The numbers of the objects in these lines among those with a point, none for the others.
fn numbered(alloc: Global, lines: &[u32], points: &[Placed]) -> Result<Vec<Option<u32>>, Memory>
    requires { RiseFrom 0 lines.now }
    ensures { IfOk result (λ numbers. numbers.items ≡ numbered 0 lines.now points.now) }
{
    let mut numbers = Vec::with_capacity(alloc, lines.len())?;
    let mut left = points;
    let mut count: u64 = 0;
    for line in lines {
        if point_in(*line, left).is_some() {
            numbers.push(Some(count as u32))?;
            count += 1;
        } else {
            numbers.push(None)?;
        }
        left = points_after(*line, left);
    }
    Ok(numbers)
}

// The number of the object at a place, if there is one.
fn object_at(numbers: &[Option<u32>], place: Option<usize>) -> Option<u32>
    ensures { result ≡ object_at numbers.now place }
{
    match numbers.get(place?) {
        Some(number) => *number,
        None => None,
    }
}

// The pair of the row in that line, where it has a point and a reference.
fn line_pair(
    numbers: &[Option<u32>],
    line: u32,
    points: &[Placed],
    names: &[NamedRow],
) -> Option<LinkPair>
    ensures { result ≡ line_pair numbers.now line points.now (named_view names.now) }
{
    let at = point_in(line, points)?;
    let place = name_in(line, names)?;
    let object = object_at(numbers, place);
    Some(LinkPair { line, at, object })
}

// The pairs of the rows in these lines.
fn joined(
    alloc: Global,
    numbers: &[Option<u32>],
    lines: &[u32],
    points: &[Placed],
    names: &[NamedRow],
) -> Result<Vec<LinkPair>, Memory>
    ensures { IfOk result (λ pairs. pairs.items ≡ joined numbers.now lines.now points.now
        (named_view names.now)) }
{
    let mut pairs = Vec::new(alloc);
    let mut points_left = points;
    let mut names_left = names;
    for line in lines {
        if let Some(pair) = line_pair(numbers, *line, points_left, names_left) {
            pairs.push(pair)?;
        }
        points_left = points_after(*line, points_left);
        names_left = names_after(*line, names_left);
    }
    Ok(pairs)
}

/// The pairs of a rule, in the order of their rows: each row of its table with a point and a
/// reference, and the number of the object referred to. It takes a binary search for each
/// reference, one walk over the rows of each of the two tables, and 24 bytes for a reference, 8 for
/// a row of the main table of the area and 32 for a pair. The only error is out of memory.
pub fn rule_pairs(
    alloc: Global,
    layout: &Layout,
    keys: &Keys,
    places: &[TablePlaces],
    points: &[KeptPoints],
    rule: &LinkRule,
) -> Result<Vec<LinkPair>, Memory>
    requires valid { IsValid (layout_view layout.now) }
    requires good { IsGoodRule (layout_view layout.now) (rule_view rule.now) }
    requires rows { (rows : List (ℕ × GivenRow)) × AreLinksKept (layout_view layout.now) rows
        (kept_in places.now) (points_in points.now) keys.now }
    ensures { (rows : List (ℕ × GivenRow)) → AreLinksKept (layout_view layout.now) rows
        (kept_in places.now) (points_in points.now) keys.now
        → IfOk result (λ ps. ps.items ≡ pairs_of (layout_view layout.now)
        (transfer_so_far (layout_view layout.now) rows) (rule_view rule.now)) }
{
    let area = &layout.areas[rule.area as usize];
    let objects = places[area.main.0 as usize].points(area.column);
    let numbers = numbered(alloc, keys.row_lines(area.main), objects)?;
    let own = points[rule.table.0 as usize].column(rule.point);
    let named = keys.rows_named(rule.table, rule.reference + 1)?;
    joined(alloc, &numbers, keys.row_lines(rule.table), own, &named)
}
