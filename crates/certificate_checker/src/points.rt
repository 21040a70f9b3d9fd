// Points in the cells of the live list.
ghost use Rattle.std.specs.Prelude.{◌≡◌, ◌↔◌, ◌⊎◌, ℕ, suc, ◌+◌, ◌-◌, ◌<◌, ◌≤◌, ◌^◌, Some};
ghost use Rattle.std.specs.Prelude.{None, IfOk, IsTrue, length};
ghost use Rattle.plane.specs.Faces.Halves.{Half};
ghost use Rattle.plane.specs.Forms.Vectors.{Before};
ghost use Rattle.plane.specs.Rule.Plans.{IsHalfArc};
ghost use Rattle.straight_predicates.specs.EdgeLists.{AreBelow, IsCloseToAll, edge_of};
ghost use Rattle.certificate_checker.specs.Cases.{IsFit, judged};
ghost use Rattle.certificate_checker.specs.InCells.{AreBothLabels, IsBetweenEdges};
ghost use Rattle.certificate_checker.specs.InCells.{IsCellOf, IsNextEvent, IsOverUnder, IsSpotOf};
ghost use Rattle.certificate_checker.specs.Marked.{HasNote, IsMarked};
ghost use Rattle.certificate_checker.specs.Placed.{ArePlacedTo, AreSpots, IsAfter, IsLater};
ghost use Rattle.certificate_checker.specs.Placed.{IsPointOf, IsWorse, OfPoint, spot_at};
ghost use Rattle.certificate_checker.specs.Placed.{spots_from};
ghost use Rattle.certificate_checker.specs.Rules.{IsInOwnTube};
ghost use Rattle.certificate_checker.specs.Subjects.{live_list, place_at, side_label};

use super::case::Case;
use super::chains::side_label;
use super::events::{is_above, is_below};
use super::labels::{label_over, label_under};
use super::live_list::LiveList;
use super::marks::mark;
use super::state::{Placing, Spot};
use certificate::{HalfNote, PointPlace};
use plane::{Edge, Placed, Point};
use ports::Memory;
use std::alloc::Global;
use straight_predicates::before;

fn key(spot: &Spot) -> (i64, i64)
    ensures { result ≡ (spot.now.at.x, spot.now.at.y) }
{
    (spot.at.x, spot.at.y)
}

/// The points by x, then y, none of which was passed. The only error is out of memory.
pub fn in_order(alloc: Global, points: &[Placed]) -> Result<Placing, Memory>
    requires few { length points.now < 2 ^ 30 }
    ensures spots { IfOk result (λ p. AreSpots points.now p.spots.items) }
    ensures next { IfOk result (λ p. p.next ≡ 0) }
    ensures bad { IfOk result (λ p. p.bad ≡ length points.now) }
{
    let mut spots = spots_of(alloc, points)?;
    spots.sort_unstable_by_key(key);
    let bad = points.len() as u32;
    Ok(Placing {
        spots,
        next: 0,
        bad,
    })
}

fn spots_of(alloc: Global, points: &[Placed]) -> Result<Vec<Spot>, Memory>
    requires few { length points.now < 2 ^ 30 }
    ensures { IfOk result (λ spots. spots.items ≡ spots_from 0 points.now) }
{
    let mut spots = Vec::with_capacity(alloc, points.len())?;
    for (j, point) in points.iter().enumerate() {
        let number = j as u32;
        spots.push(Spot {
            at: point.at,
            number,
        })?;
    }
    Ok(spots)
}

/// Places the points that do not come after the next event, or all that are left where there is
/// none.
pub fn place_points(
    case: &Case,
    event: u32,
    live: &LiveList,
    placing: &mut Placing,
    marks: &mut [bool],
)
    requires fit { IsFit case.now }
    requires event { event ≤ length (judged case.now).table }
    requires live { live.now.edges ≡ live_list (judged case.now) event }
    requires known { AreBelow (length case.now.edges.now) live.now.edges }
    requires placed { ArePlacedTo (judged case.now) event placing.old.next placing.old.bad
        placing.old.spots.items marks.old }
    ensures placed { ArePlacedTo (judged case.now) event placing.new.next placing.new.bad
        placing.new.spots.items marks.new }
    ensures later { IsLater (judged case.now) event placing.new.next placing.new.spots.items }
{
    let upto = next_event(case, event);
    let size = placing.spots.len();
    for i in placing.next..size {
        let spot = nth_spot(&placing.spots, i);
        if is_later(spot.at, upto) {
            return;
        }
        place_point(case, event, live, upto, spot, &mut placing.bad, marks);
        placing.next = i + 1;
    }
}

fn nth_spot(spots: &[Spot], place: usize) -> Spot
    requires { place < length spots.now }
    ensures { result ≡ spot_at spots.now place }
{
    spots[place]
}

// The point of the event of that number, if there is one.
fn next_event(case: &Case, event: u32) -> Option<Point>
    requires event { event ≤ length (judged case.now).table }
    ensures { IsNextEvent (judged case.now) event result }
{
    if event < case.table.events() {
        Some(case.table.at(event))
    } else {
        None
    }
}

// Whether the point comes after the next event.
fn is_later(at: Point, upto: Option<Point>) -> bool
    ensures { IsTrue result ↔ IsAfter upto at }
{
    match upto {
        None => false,
        Some(event) => before(event, at),
    }
}

// Marks the half-edges that bound the cell of the point, or notes that it is neither in such a
// cell nor in a tube.
fn place_point(
    case: &Case,
    event: u32,
    live: &LiveList,
    upto: Option<Point>,
    spot: Spot,
    bad: &mut u32,
    marks: &mut [bool],
)
    requires fit { IsFit case.now }
    requires event { event ≤ length (judged case.now).table }
    requires live { live.now.edges ≡ live_list (judged case.now) event }
    requires known { AreBelow (length case.now.edges.now) live.now.edges }
    requires next { IsNextEvent (judged case.now) event upto }
    requires spot { IsSpotOf (judged case.now) event spot }
    requires size { length marks.old ≡ length case.now.certificate.now.notes.items }
    ensures bad { IsWorse (judged case.now) spot.number bad.old bad.new }
    ensures marks { (h : Half) → IsMarked marks.new h
        ↔ (IsMarked marks.old h ⊎ OfPoint (judged case.now) spot.number h) }
{
    match cell_of(case, event, live, upto, spot) {
        Some(i) => {
            mark(marks, 2 * live.get(i - 1) + 1);
            mark(marks, 2 * live.get(i));
        }
        None => {
            if !is_in_own_tube(case, spot.number) {
                *bad = (*bad).min(spot.number);
            }
        }
    }
}

// Whether the point is placed in a tube that holds it, with its label outside the chain on its
// side.
fn is_in_own_tube(case: &Case, number: u32) -> bool
    requires fit { IsFit case.now }
    requires number { number < length (judged case.now).points }
    ensures { IsTrue result ↔ IsInOwnTube (judged case.now) number }
{
    let PointPlace::Tube { curve, inside } = place_of(case, number) else {
        return false;
    };
    if !case.held[number as usize] {
        return false;
    }
    is_side_labelled(case, inside, curve, number + 1)
}

// Whether that is the label outside the first edge of that chain of the curve's tube.
fn is_side_labelled(case: &Case, inside: bool, curve: u32, label: u32) -> bool
    requires fit { IsFit case.now }
    requires half_arc { IsHalfArc (judged case.now).drawing curve }
    ensures { IsTrue result ↔ (side_label (judged case.now) inside curve ≡ label) }
{
    side_label(case, inside, curve) == label
}

// The place of the edge over the point in the live list, where the point is in the cell that the
// certificate says, with its label on both sides, and is no event.
fn cell_of(
    case: &Case,
    event: u32,
    live: &LiveList,
    upto: Option<Point>,
    spot: Spot,
) -> Option<usize>
    requires fit { IsFit case.now }
    requires event { event ≤ length (judged case.now).table }
    requires live { live.now.edges ≡ live_list (judged case.now) event }
    requires known { AreBelow (length case.now.edges.now) live.now.edges }
    requires next { IsNextEvent (judged case.now) event upto }
    requires spot { IsSpotOf (judged case.now) event spot }
    ensures { IsCellOf (judged case.now) spot.number live.now.edges result }
{
    let PointPlace::Cell(position) = place_of(case, spot.number) else {
        return None;
    };
    if is_at(spot.at, upto) {
        return None;
    }
    if !is_in_cell(case, live, position as usize, spot) {
        return None;
    }
    Some(position as usize)
}

/// Where the point is placed.
pub fn place_of(case: &Case, number: u32) -> PointPlace
    requires fit { IsFit case.now }
    requires number { number < length (judged case.now).points }
    ensures { result ≡ place_at (judged case.now) number }
{
    let places: &[PointPlace] = &case.certificate.places;
    places[number as usize]
}

// Whether the point is the next event.
fn is_at(at: Point, upto: Option<Point>) -> bool
    ensures { IsTrue result ↔ (upto ≡ Some at) }
{
    match upto {
        None => false,
        Some(event) => event == at,
    }
}

// Whether the point is between the edges on both sides of the place, with its label at both.
fn is_in_cell(case: &Case, live: &LiveList, place: usize, spot: Spot) -> bool
    requires fit { IsFit case.now }
    requires known { AreBelow (length case.now.edges.now) live.now.edges }
    requires spot { IsPointOf (judged case.now).points spot }
    ensures { IsTrue result ↔ IsBetweenEdges (judged case.now) live.now.edges spot.number place }
{
    if !is_inside(place, live.len()) {
        return false;
    }
    if !is_over_and_under(case.edges, live.get(place - 1), live.get(place), spot.at) {
        return false;
    }
    let notes: &[HalfNote] = &case.certificate.notes;
    are_both(notes, live.get(place - 1), live.get(place), spot.number + 1)
}

fn is_inside(place: usize, size: usize) -> bool
    ensures { IsTrue result ↔ ((0 < place) × (place < size)) }
{
    0 < place && place < size
}

fn is_over_and_under(edges: &[Edge], lower: u32, upper: u32, at: Point) -> bool
    requires lower { lower < length edges.now }
    requires upper { upper < length edges.now }
    requires close { IsCloseToAll edges.now at }
    ensures { IsTrue result ↔ IsOverUnder (edge_of edges.now) lower upper at }
{
    is_above(edges, lower, at) && is_below(edges, upper, at)
}

fn are_both(notes: &[HalfNote], lower: u32, upper: u32, label: u32) -> bool
    requires few { length notes.now < 2 ^ 32 }
    requires lower { HasNote notes.now (Some lower) }
    requires upper { HasNote notes.now (Some upper) }
    ensures { IsTrue result ↔ AreBothLabels notes.now lower upper label }
{
    label_over(notes, Some(lower)) == label && label_under(notes, Some(upper)) == label
}
