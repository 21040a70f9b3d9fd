// Marks for curves of which each bad pair has one.
ghost use Rattle.std.specs.Prelude.{◌≡◌, ◌↔◌, ◌^◌, ◌<◌, None, IfOk, IfSome, IsTrue, length};
ghost use Rattle.std.specs.Prelude.{replicate, true, false};
ghost use Rattle.plane.specs.Rule.Plans.{plan};
ghost use Rattle.plane.specs.declared.kinds.CurveKind.TheVariants as kind;
ghost use Rattle.straight_predicates.specs.EdgeLists.{AreAllClose, AreSorted};
ghost use Rattle.near_pairs.specs.Boxes.{mark_of};
ghost use Rattle.meetings.specs.CurveBoxes.{IsEachPlaced};
ghost use Rattle.area_faults.specs.MeetingMarks.{AreArcPairMarks, AreMeetingMarks, AreMoreMarks};
ghost use Rattle.area_faults.specs.MeetingMarks.{AreUnmarked, HasArcMarks};

use area_search::few_aside;
use line_sweep::{BadEdges, SweepRefusal, clashing, sweep};
use meetings::{BadPair, half_arc_marks, has_many_pairs};
use plane::{Curve, CurveKind, Drawing, Edge};
use ports::Memory;
use std::alloc::Global;
use straight_predicates::edge_between;

// The most sweeps before all curves are marked.
const ROUNDS: u32 = 8;

// The most curves of a drawing of which `few_aside` finds some.
const MOST_CURVES: usize = 16_000_000;

/// Marks for curves of which each pair that meets badly has one: straights without which no two of
/// the others are bad, or all, where such straights are not found; and all half arcs, or, where
/// these have many others near them, few curves without which level 5 settles the drawing, if they
/// are found. The only error is out of memory. It takes two sweeps of the straights, up to nine
/// times, of which the first is left out where two curves are known that meet badly and all are
/// straights; and where half arcs have many others near them what `few_aside` takes.
pub(crate) fn meeting_marks(
    alloc: Global,
    drawing: &Drawing,
    known: Option<BadPair>,
) -> Result<Vec<bool>, Memory>
    ensures { IfOk result (λ marks. AreMeetingMarks (plan drawing.now) marks.items) }
{
    let marks = marks_with_arcs(alloc, drawing, known)?;
    match few_marks(alloc, drawing)? {
        Some(few) => with_few(alloc, drawing, &marks, &few),
        None => Ok(marks),
    }
}

// Marks for the half arcs, and for straights without which no two of the others are bad; or for all
// curves.
fn marks_with_arcs(
    alloc: Global,
    drawing: &Drawing,
    known: Option<BadPair>,
) -> Result<Vec<bool>, Memory>
    ensures { IfOk result (λ marks. AreMeetingMarks (plan drawing.now) marks.items) }
{
    let mut marks = first_marks(alloc, drawing, known)?;
    for _ in 0..ROUNDS {
        match next_marks(alloc, drawing, &marks)? {
            Some(next) => marks = next,
            None => return Ok(marks),
        }
    }
    let all = all_marks(alloc, drawing.curves.len())?;
    Ok(all)
}

// Marks for the half arcs, and where there are none and two straights are known that are bad, for
// those that a sweep marks which goes past bad edges.
fn first_marks(
    alloc: Global,
    drawing: &Drawing,
    known: Option<BadPair>,
) -> Result<Vec<bool>, Memory>
    ensures { IfOk result (λ marks. HasArcMarks (plan drawing.now) marks.items) }
{
    let marks = half_arc_marks(alloc, &drawing.curves)?;
    match known {
        Some(pair) => marks_by_known(alloc, drawing, marks, pair),
        None => Ok(marks),
    }
}

fn marks_by_known(
    alloc: Global,
    drawing: &Drawing,
    marks: Vec<bool>,
    pair: BadPair,
) -> Result<Vec<bool>, Memory>
    requires { HasArcMarks (plan drawing.now) marks.items }
    ensures { IfOk result (λ more. HasArcMarks (plan drawing.now) more.items) }
{
    let edges = unmarked_edges(alloc, &drawing.curves, &marks)?;
    if edges.numbers.len() < drawing.curves.len() {
        return Ok(marks);
    }
    let known = BadEdges {
        first: pair.first,
        second: pair.second,
    };
    with_clashing(alloc, &edges, &marks, known)
}

fn all_marks(alloc: Global, count: usize) -> Result<Vec<bool>, Memory>
    ensures { IfOk result (λ marks. marks.items ≡ replicate count true) }
{
    Ok(vec![in alloc; true; count]?)
}

// Marks for more curves, by a sweep of those that are not marked; None where no two of these are
// bad.
fn next_marks(alloc: Global, drawing: &Drawing, marks: &[bool]) -> Result<Option<Vec<bool>>, Memory>
    requires { HasArcMarks (plan drawing.now) marks.now }
    ensures next { IfOk result (λ r. IfSome r (λ next. HasArcMarks (plan drawing.now)
        next.items)) }
    ensures none { IfOk result (λ r. r ≡ None → AreMeetingMarks (plan drawing.now) marks.now) }
{
    let edges = unmarked_edges(alloc, &drawing.curves, marks)?;
    match sweep(alloc, &edges.edges) {
        Ok(_) => Ok(None),
        Err(SweepRefusal::Bad { first, second }) => {
            let known = BadEdges { first, second };
            Ok(Some(with_clashing(alloc, &edges, marks, known)?))
        }
        Err(SweepRefusal::Memory) => Err(Memory),
    }
}

// Edges, each with the number of its curve.
#[derive(Drop)]
struct CurveEdges {
    edges: Vec<Edge>,
    numbers: Vec<u32>,
}

// The edge between the two ends of each curve that is not marked.
fn unmarked_edges(alloc: Global, curves: &[Curve], marks: &[bool]) -> Result<CurveEdges, Memory>
    requires size { length marks.now ≡ length curves.now }
    requires few { length curves.now < 2 ^ 30 }
    requires placed { IsEachPlaced curves.now }
    ensures { IfOk result (AreUnmarked curves.now marks.now) }
{
    let mut edges = Vec::new(alloc);
    let mut numbers = Vec::new(alloc);
    for (number, curve) in curves.iter().enumerate() {
        if is_unmarked(marks, number) {
            edges.push(edge_between(curve.from, curve.to))?;
            numbers.push(number as u32)?;
        }
    }
    Ok(CurveEdges { edges, numbers })
}

fn is_unmarked(marks: &[bool], number: usize) -> bool
    requires { number < length marks.now }
    ensures { IsTrue result ↔ (mark_of marks.now number ≡ false) }
{
    !marks[number]
}

// The marks, and marks for curves of edges that are bad, by these two and others.
fn with_clashing(
    alloc: Global,
    edges: &CurveEdges,
    marks: &[bool],
    known: BadEdges,
) -> Result<Vec<bool>, Memory>
    requires few { length edges.now.edges.items < 2 ^ 31 }
    requires sorted { AreSorted edges.now.edges.items }
    requires close { AreAllClose edges.now.edges.items }
    ensures { IfOk result (λ next. AreMoreMarks marks.now next.items) }
{
    let firm = vec![in alloc; false; marks.len()]?;
    let near = clashing(alloc, &edges.edges, &edges.numbers, &firm, known)?;
    either(alloc, marks, &near)
}

// Marks for what one of the two lists marks.
fn either(alloc: Global, first: &[bool], second: &[bool]) -> Result<Vec<bool>, Memory>
    requires { length second.now ≡ length first.now }
    ensures { IfOk result (λ marks. AreMoreMarks first.now marks.items) }
{
    let mut marks = Vec::with_capacity(alloc, first.len())?;
    for number in 0..first.len() {
        marks.push(first[number] || second[number])?;
    }
    Ok(marks)
}

// Few curves of which each bad pair with a half arc has one, where half arcs have many others near
// them and such curves are found.
fn few_marks(alloc: Global, drawing: &Drawing) -> Result<Option<Vec<bool>>, Memory>
    ensures { IfOk result (λ r. IfSome r (λ few. AreArcPairMarks (plan drawing.now) few.items)) }
{
    if drawing.curves.len() > MOST_CURVES {
        return Ok(None);
    }
    let half_arcs = half_arc_marks(alloc, &drawing.curves)?;
    if !has_many_pairs(alloc, drawing, &half_arcs)? {
        return Ok(None);
    }
    match few_aside(alloc, drawing)? {
        Some(aside) => Ok(Some(aside.marks)),
        None => Ok(None),
    }
}

// Marks for the few curves, and for those straights that are marked.
fn with_few(
    alloc: Global,
    drawing: &Drawing,
    marks: &[bool],
    few: &[bool],
) -> Result<Vec<bool>, Memory>
    requires marks { AreMeetingMarks (plan drawing.now) marks.now }
    requires few { AreArcPairMarks (plan drawing.now) few.now }
    ensures { IfOk result (λ both. AreMeetingMarks (plan drawing.now) both.items) }
{
    let mut both = Vec::with_capacity(alloc, marks.len())?;
    for number in 0..drawing.curves.len() {
        both.push(few[number] || (marks[number] && is_straight(&drawing.curves[number])))?;
    }
    Ok(both)
}

fn is_straight(curve: &Curve) -> bool
    ensures { curve.now.kind ≡ kind.Straight → result ≡ true }
{
    curve.kind == CurveKind::Straight
}
