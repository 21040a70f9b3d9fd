// The first object's point on a curve, whether a level settles the drawing or not.
ghost use Rattle.std.specs.Prelude.{◌≡◌, ◌↔◌, ℕ, ◌<◌, ◌^◌, [], IfOk, IsTrue, OnOk, true};
ghost use Rattle.std.specs.Prelude.{length};
ghost use Rattle.near_pairs.specs.LeastPairs.{IsLess};
ghost use Rattle.plane.specs.Rule.Plans.{plan};
ghost use Rattle.meetings.specs.StraightRuns.{IsClearRun};
ghost use Rattle.area_search.specs.Unsettled.CurvePoints.{AreCurveBoxes, AreNumbers};
ghost use Rattle.area_search.specs.Unsettled.CurvePoints.{ArePointBoxes, IsFirstOn, IsFirstOnCurve};
ghost use Rattle.area_search.specs.Unsettled.CurvePoints.{IsLeastOf, IsLesserOn, LiesOnMarked};
ghost use Rattle.area_search.specs.Unsettled.CurvePoints.{LiesOnStraight};
ghost use Rattle.area_search.specs.Unsettled.SetAside.{AreAside};

use super::aside::ExcludedCurves;
use crate::numbers::numbers_with;
use crate::points::{OnCurve, points_at};
use line_sweep::Swept;
use meetings::{Straights, is_on, reach};
use near_pairs::{PairTest, Reach, least, marked_from};
use plane::{Drawing, Placed};
use point_location::{Place, locate};
use ports::Memory;
use std::alloc::Global;

/// The least object's point that lies on a curve, and the least curve on which it lies; None
/// exactly where no point does: by the one that was found on the curves that are not set aside, and
/// those that are. The only error is out of memory. It takes the curves set aside times the points
/// that begin within their boxes along x, or the other way round, and 65 bytes for each of both.
pub(crate) fn first_on_curve(
    alloc: Global,
    drawing: &Drawing,
    aside: &ExcludedCurves,
) -> Result<Option<OnCurve>, Memory>
    requires { AreAside (plan drawing.now) aside.now.marks.items aside.now.on_others }
    ensures { IfOk result (IsFirstOnCurve (plan drawing.now)) }
{
    let on_marked = first_on_marked(alloc, drawing, &aside.marks)?;
    Ok(lesser(aside.on_others, on_marked))
}

/// The least point on a straight, and the least straight with it. It takes what the places of the
/// points among the straights take. The only error is out of memory.
pub(crate) fn first_on_straight(
    alloc: Global,
    drawing: &Drawing,
    straights: &Straights,
    swept: &Swept,
) -> Result<Option<OnCurve>, Memory>
    requires { IsClearRun (plan drawing.now) straights.now swept.now }
    ensures { IfOk result (IsLeastOf (LiesOnStraight (plan drawing.now))) }
{
    let points = points_at(alloc, &drawing.points)?;
    let places = locate(alloc, &straights.edges, swept, &points)?;
    match first_on(&places) {
        Some(on) => Ok(Some(OnCurve {
            point: on.point,
            curve: straights.numbers[on.curve as usize],
        })),
        None => Ok(None),
    }
}

// The first point that lies on an edge, with the edge's number.
fn first_on(places: &[Place]) -> Option<OnCurve>
    requires { length places.now < 2 ^ 30 }
    ensures { IsFirstOn places.now result }
{
    for point in 0..places.len() {
        if let Place::OnEdge(curve) = places[point] {
            return Some(OnCurve {
                point: point as u32,
                curve,
            });
        }
    }
    None
}

/// Curves by their numbers, of which pairs with an object's point are tested. The points come
/// first, then the curves.
#[derive(Drop)]
pub(super) struct OnTest<'a> {
    pub drawing: &'a Drawing,
    pub numbers: &'a [u32],
}

impl<'a> PairTest for OnTest<'a> {
    ghost use Rattle.std.specs.Prelude.{◌+◌, ◌<◌, length};
    ghost use Rattle.plane.specs.Rule.Plans.{plan};
    ghost use Rattle.area_search.specs.Unsettled.CurvePoints.{AreNumbers, IsPointOnCurve};

    ghost can_test = { λ s i j. (i < j)
        × (j < length s.drawing.now.points.items + length s.numbers.now)
        × AreNumbers (length s.drawing.now.curves.items) s.numbers.now };

    ghost sought = { λ s i j. IsPointOnCurve (plan s.drawing.now) s.numbers.now i j };

    fn is_sought(&self, first: u32, second: u32) -> bool {
        let points = self.drawing.points.as_slice();
        let point = first as usize;
        let curve = second as usize;
        if points.len() <= point || curve < points.len() {
            return false;
        }
        let number = self.numbers[curve - points.len()];
        is_on(&self.drawing.curves[number as usize], points[point].at)
    }
}

// The least point on a marked curve, and the least such curve with it; of half arcs those that
// have a side for it.
fn first_on_marked(
    alloc: Global,
    drawing: &Drawing,
    aside: &[bool],
) -> Result<Option<OnCurve>, Memory>
    requires { length aside.now ≡ length drawing.now.curves.items }
    ensures { IfOk result (IsLeastOf (LiesOnMarked (plan drawing.now) aside.now true)) }
{
    plane::arcs::boxes_of_bad_curves_meet();
    let points = drawing.points.as_slice();
    let numbers = numbers_with(alloc, aside, true)?;
    let boxes = boxes(alloc, drawing, &numbers)?;
    let marks = marked_from(alloc, points.len(), boxes.as_slice().len())?;
    let test = OnTest {
        drawing,
        numbers: &numbers,
    };
    match least(alloc, &boxes, &marks, &test)? {
        Some(pair) => Ok(Some(OnCurve {
            point: pair.first,
            curve: numbers[pair.second as usize - points.len()],
        })),
        None => Ok(None),
    }
}

/// The boxes of the objects' points, and then those of the curves of these numbers.
pub(super) fn boxes(alloc: Global, drawing: &Drawing, numbers: &[u32]) -> Result<Vec<Reach>, Memory>
    requires { AreNumbers (length drawing.now.curves.items) numbers.now }
    ensures { IfOk result (λ boxes. AreCurveBoxes (plan drawing.now) numbers.now
        (length numbers.now) boxes.items) }
{
    let mut boxes = Vec::new(alloc);
    add_point_boxes(&mut boxes, &drawing.points)?;
    add_curve_boxes(&mut boxes, drawing, numbers)?;
    Ok(boxes)
}

fn add_point_boxes(boxes: &mut Vec<Reach>, points: &[Placed]) -> Result<(), Memory>
    requires { boxes.old.items ≡ [] }
    ensures { OnOk result (ArePointBoxes points.now (length points.now) boxes.new.items) }
{
    for point in points {
        boxes.push(Reach {
            low: point.at,
            high: point.at,
        })?;
    }
    Ok(())
}

fn add_curve_boxes(boxes: &mut Vec<Reach>, drawing: &Drawing, numbers: &[u32]) -> Result<(), Memory>
    requires numbers { AreNumbers (length drawing.now.curves.items) numbers.now }
    requires points { ArePointBoxes drawing.now.points.items (length drawing.now.points.items)
        boxes.old.items }
    ensures { OnOk result (AreCurveBoxes (plan drawing.now) numbers.now (length numbers.now)
        boxes.new.items) }
{
    for number in numbers {
        boxes.push(reach(&drawing.curves[*number as usize]))?;
    }
    Ok(())
}

// The lesser of two, by the point, then by the curve.
fn lesser(first: Option<OnCurve>, second: Option<OnCurve>) -> Option<OnCurve>
    ensures { IsLesserOn first second result }
{
    match first {
        Some(first) => Some(lesser_of(first, second)),
        None => second,
    }
}

fn lesser_of(first: OnCurve, second: Option<OnCurve>) -> OnCurve
    ensures { IsLesserOn (Some first) second (Some result) }
{
    match second {
        Some(second) => {
            if is_less(second, first) {
                second
            } else {
                first
            }
        }
        None => first,
    }
}

fn is_less(a: OnCurve, b: OnCurve) -> bool
    ensures { IsTrue result ↔ IsLess a.point a.curve b.point b.curve }
{
    a.point < b.point || (a.point == b.point && a.curve < b.curve)
}
