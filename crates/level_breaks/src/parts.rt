// The parts of a curve by their numbers, and the boxes that hold them.
ghost use Rattle.std.specs.Prelude.{◌≡◌, ◌+◌, ◌<◌, ◌≤◌, ◌∷◌, ◌++◌, [], suc, length};
ghost use Rattle.near_pairs.specs.Boxes.{box_of};
ghost use Rattle.straight_predicates.specs.EdgeLists.{edge_of};
ghost use Rattle.level_breaks.specs.Groups.{Covers, HoldsPoint, IsEdged, bays_of, edges_with, nth};
ghost use Rattle.level_breaks.specs.Parts.{HoldsPart, HoldsStart, HoldsTubePart};
ghost use Rattle.level_breaks.specs.Stretches.{IsPlaced};

use super::boxes::{around, grown};
use super::groups::{Group, bay_count, edge_at, end, start};
use near_pairs::Reach;
use plane::{Curve, Edge, Point};
use tubes::Tube;

/// How many parts a curve has, one more than bays.
pub fn part_count(group: &Group) -> usize
    requires { IsEdged group.now.curve.now group.now.tube.now }
    ensures { result ≡ suc (bays_of group.now.tube.now) }
{
    bay_count(group) + 1
}

/// The edge of a part in the outer chain, or the straight.
pub fn outer_of(group: &Group, part: usize) -> Edge
    requires edged { IsEdged group.now.curve.now group.now.tube.now }
    requires there { part ≤ bays_of group.now.tube.now }
    ensures { result ≡ edge_of (edges_with group.now.curve.now group.now.tube.now)
        (bays_of group.now.tube.now + part) }
{
    edge_at(group, bay_count(group) + part)
}

/// The edge of a part in the inner chain. The last part has none.
pub fn inner_of(group: &Group, part: usize) -> Edge
    requires edged { IsEdged group.now.curve.now group.now.tube.now }
    requires there { part < bays_of group.now.tube.now }
    ensures { result ≡ edge_of (edges_with group.now.curve.now group.now.tube.now) part }
{
    edge_at(group, part)
}

/// A box that holds the parts from one number to before another.
pub fn parts_reach(group: &Group, from: usize, to: usize) -> Reach
    requires edged { IsEdged group.now.curve.now group.now.tube.now }
    requires some { from < to }
    requires there { to ≤ suc (bays_of group.now.tube.now) }
    ensures { IsPlaced (HoldsPart group.now.curve.now group.now.tube.now (box_of result))
        from to }
{
    match group.tube {
        Some(tube) => tube_reach(group.curve, tube, from, to),
        None => grown(around(group.curve.from), group.curve.to),
    }
}

fn tube_reach(curve: &Curve, tube: &Tube, from: usize, to: usize) -> Reach
    requires sizes { length tube.now.inner.items ≡ suc (length tube.now.outer.items) }
    requires some { from < to }
    requires there { to ≤ suc (length tube.now.outer.items) }
    ensures { IsPlaced (HoldsTubePart curve.now tube.now (box_of result)) from to }
{
    let first = point_at(&tube.inner, from);
    let mut reach = grown(around(first), start(curve, &tube.outer, from));
    for number in from..to {
        reach = with_part(reach, curve, tube, number);
    }
    reach
}

// A box that holds what the box holds, among it the first corners of the part, and the part.
fn with_part(reach: Reach, curve: &Curve, tube: &Tube, number: usize) -> Reach
    requires sizes { length tube.now.inner.items ≡ suc (length tube.now.outer.items) }
    requires there { number ≤ length tube.now.outer.items }
    requires begins { HoldsStart curve.now tube.now (box_of reach) number }
    ensures kept { Covers (box_of result) (box_of reach) }
    ensures part { HoldsTubePart curve.now tube.now (box_of result) number }
{
    let over = grown(reach, end(curve, &tube.outer, number));
    with_next(over, &tube.inner, number)
}

// A box that holds what the box holds, and the point after that of the number, where there is one.
fn with_next(reach: Reach, inner: &[Point], number: usize) -> Reach
    requires { number < length inner.now }
    ensures kept { Covers (box_of result) (box_of reach) }
    ensures next { suc number < length inner.now
        → HoldsPoint (box_of result) (nth inner.now (suc number)) }
{
    if number + 1 < inner.len() {
        grown(reach, point_at(inner, number + 1))
    } else {
        reach
    }
}

fn point_at(points: &[Point], number: usize) -> Point
    requires { number < length points.now }
    ensures { result ≡ nth points.now number }
{
    points[number]
}
