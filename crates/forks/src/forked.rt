// Straights that have a bend, and their parts.
ghost use Rattle.std.specs.Prelude.{◌≡◌, ◌+◌, ◌++◌, ◌<◌, ◌≤◌, IfOk, None, OnOk, false, length};
ghost use Rattle.std.specs.Prelude.{true};
ghost use Rattle.plane.specs.Rule.Plans.{curve, plan, straight};
ghost use Rattle.plane.specs.declared.kinds.CurveKind.TheVariants.{Straight};
ghost use Rattle.forks.specs.Bent.{IsBendAt, parts};
ghost use Rattle.forks.specs.Ends.{AreEnds};
ghost use Rattle.forks.specs.ForkedStraights.{AreForkedTo};

use super::bends::bend_at;
use super::ends::{End, ends};
use plane::{Curve, CurveKind, Drawing, Point};
use ports::Memory;
use std::alloc::Global;

/// A straight that has a bend, by its number, and where its parts start and end in the list of
/// them.
#[derive(Clone, Copy)]
pub struct Forked {
    pub number: u32,
    pub start: usize,
    pub end: usize,
}

/// The straights that have a bend, in order, and the parts of all of them.
#[derive(Drop)]
pub struct ForkedStraights {
    pub straights: Vec<Forked>,
    pub parts: Vec<Curve>,
}

/// The straights of a drawing that have a bend. The only error is out of memory. It takes the time
/// of a sort of the ends of half arcs and of two searches in them for each straight, and a zone for
/// each end of a half arc at an end of a straight: k times k where k of both end in one point. It
/// keeps 64 bytes for each half arc while it works.
pub fn forked_straights(alloc: Global, drawing: &Drawing) -> Result<ForkedStraights, Memory>
    requires few { length drawing.now.curves.items ≤ 16000000 }
    ensures { IfOk result (AreForkedTo drawing.now.tolerance (plan drawing.now)
        (length drawing.now.curves.items)) }
{
    let ends = ends(alloc, &drawing.curves)?;
    let mut forked = ForkedStraights {
        straights: Vec::new(alloc),
        parts: Vec::new(alloc),
    };
    for number in 0..drawing.curves.len() {
        add_curve(&mut forked, drawing, &ends, number as u32)?;
    }
    Ok(forked)
}

// Adds the curve of that number, if it is a straight that has a bend.
fn add_curve(
    forked: &mut ForkedStraights,
    drawing: &Drawing,
    ends: &[End],
    number: u32,
) -> Result<(), Memory>
    requires there { number < length drawing.now.curves.items }
    requires ends { AreEnds drawing.now.curves.items ends.now }
    requires forked { AreForkedTo drawing.now.tolerance (plan drawing.now) number forked.old }
    ensures { OnOk result (AreForkedTo drawing.now.tolerance (plan drawing.now) (number + 1)
        forked.new) }
{
    match drawing.curves[number as usize].kind {
        CurveKind::Straight => add_straight(forked, drawing, ends, number),
        CurveKind::HalfArc => Ok(()),
    }
}

fn add_straight(
    forked: &mut ForkedStraights,
    drawing: &Drawing,
    ends: &[End],
    number: u32,
) -> Result<(), Memory>
    requires there { number < length drawing.now.curves.items }
    requires straight { (curve (plan drawing.now) number).kind ≡ Straight }
    requires ends { AreEnds drawing.now.curves.items ends.now }
    requires forked { AreForkedTo drawing.now.tolerance (plan drawing.now) number forked.old }
    ensures { OnOk result (AreForkedTo drawing.now.tolerance (plan drawing.now) (number + 1)
        forked.new) }
{
    let first = bend_at(drawing, ends, number, true);
    let last = bend_at(drawing, ends, number, false);
    match (first, last) {
        (None, None) => Ok(()),
        _ => add_parts(forked, drawing, number, first, last),
    }
}

// Adds the straight with these bends.
fn add_parts(
    forked: &mut ForkedStraights,
    drawing: &Drawing,
    number: u32,
    first: Option<Point>,
    last: Option<Point>,
) -> Result<(), Memory>
    requires there { number < length drawing.now.curves.items }
    requires straight { (curve (plan drawing.now) number).kind ≡ Straight }
    requires first { IsBendAt drawing.now.tolerance (plan drawing.now) number true first }
    requires last { IsBendAt drawing.now.tolerance (plan drawing.now) number false last }
    requires bends { first ≡ None → last ≡ None → ⊥ }
    requires forked { AreForkedTo drawing.now.tolerance (plan drawing.now) number forked.old }
    ensures { OnOk result (AreForkedTo drawing.now.tolerance (plan drawing.now) (number + 1)
        forked.new) }
{
    let straight = &drawing.curves[number as usize];
    let start = forked.parts.len();
    push_parts(&mut forked.parts, straight, first, last)?;
    let end = forked.parts.len();
    forked.straights.push(Forked { number, start, end })?;
    Ok(())
}

// Appends the parts of a straight with these bends.
fn push_parts(
    into: &mut Vec<Curve>,
    straight: &Curve,
    first: Option<Point>,
    last: Option<Point>,
) -> Result<(), Memory>
    ensures { OnOk result (into.new.items ≡ into.old.items ++ parts straight.now first last) }
{
    let (from, to, line) = (straight.from, straight.to, straight.line);
    match (first, last) {
        (Some(first), Some(last)) => into.extend_from_slice(&[
            part(from, first, line),
            part(first, last, line),
            part(last, to, line),
        ])?,
        (Some(bend), None) => {
            into.extend_from_slice(&[part(from, bend, line), part(bend, to, line)])?
        }
        (None, Some(bend)) => {
            into.extend_from_slice(&[part(from, bend, line), part(bend, to, line)])?
        }
        (None, None) => into.push(part(from, to, line))?,
    }
    Ok(())
}

fn part(from: Point, to: Point, line: u32) -> Curve
    ensures { result ≡ straight from to line }
{
    Curve {
        kind: CurveKind::Straight,
        from,
        to,
        third: to,
        line,
    }
}
