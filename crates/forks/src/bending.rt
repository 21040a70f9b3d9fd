// The drawing that becomes of one when its forks are bent.
ghost use Rattle.std.specs.Prelude.{◌≡◌, ◌↔◌, ◌+◌, ◌<◌, ◌≤◌, [], ◌∷◌, IfOk, IsTrue, OnOk, length};
ghost use Rattle.plane.specs.Rule.Plans.{curve, plan};
ghost use Rattle.forks.specs.Bent.{IsBentOf, StandFor};
ghost use Rattle.forks.specs.ForkedStraights.{AreForkedTo, AreHeld, AreInOrder, ArePieces};
ghost use Rattle.forks.specs.ForkedStraights.{IsAnyHeld, IsForked, IsNext, IsNextAt};

use super::bent_drawing::Bent;
use super::forked::{Forked, ForkedStraights, forked_straights};
use super::held::held_parts;
use plane::{Curve, Drawing};
use ports::Memory;
use std::alloc::Global;

// Curves that stand for those of a drawing, in turn, and for each the number of that one.
#[derive(Drop)]
struct Pieces {
    curves: Vec<Curve>,
    origin: Vec<u32>,
}

impl Pieces {
    ghost use Rattle.std.specs.Prelude.{◌≡◌, ◌++◌, [], IfOk, OnOk, length, replicate};

    fn new(alloc: Global, room: usize) -> Result<Pieces, Memory>
        ensures curves { IfOk result (λ p. p.curves.items ≡ []) }
        ensures origin { IfOk result (λ p. p.origin.items ≡ []) }
    {
        let curves = Vec::with_capacity(alloc, room)?;
        let origin = Vec::with_capacity(alloc, room)?;
        Ok(Pieces { curves, origin })
    }

    // Adds what stands for the curve of that number.
    fn add(&mut self, piece: &[Curve], number: u32) -> Result<(), Memory>
        ensures curves { OnOk result (self.new.curves.items
            ≡ self.old.curves.items ++ piece.now) }
        ensures origin { OnOk result (self.new.origin.items
            ≡ self.old.origin.items ++ replicate (length piece.now) number) }
    {
        for curve in piece {
            self.curves.push(*curve)?;
            self.origin.push(number)?;
        }
        Ok(())
    }
}

/// What becomes of a drawing when its forks are bent, by the overlap that it permits. It is a copy
/// where nothing is bent. The only error is out of memory.
///
/// For n curves and m points it takes n log n and m log m, and the parts times the points that are
/// near them along x; where k half arcs and k straights end in one point, k times k zones besides.
/// While it works it keeps 64 bytes for each half arc; then 66 bytes for each part and each point,
/// where there is a part; and 60 bytes for each curve of the bent drawing, 32 for each point.
pub fn bent(alloc: Global, drawing: &Drawing) -> Result<Bent, Memory>
    requires few { length drawing.now.curves.items ≤ 16000000 }
    ensures bent { IfOk result (λ b. IsBentOf drawing.now.tolerance (plan drawing.now)
        (plan b.drawing) b.origin.items) }
    ensures tolerance { IfOk result (λ b. b.drawing.tolerance ≡ drawing.now.tolerance) }
{
    let pieces = all_pieces(alloc, drawing)?;
    let points = Vec::from_slice(alloc, &drawing.points)?;
    Ok(Bent {
        drawing: Drawing {
            window: drawing.window,
            curves: pieces.curves,
            points,
            tolerance: drawing.tolerance,
        },
        origin: pieces.origin,
    })
}

// What stands for the curves of a drawing.
fn all_pieces(alloc: Global, drawing: &Drawing) -> Result<Pieces, Memory>
    requires few { length drawing.now.curves.items ≤ 16000000 }
    ensures { IfOk result (λ p. ArePieces drawing.now.tolerance (plan drawing.now)
        (length drawing.now.curves.items) p.curves.items p.origin.items) }
{
    let forked = forked_straights(alloc, drawing)?;
    let held = held_parts(alloc, drawing, &forked.parts)?;
    joined(alloc, drawing, &forked, &held)
}

fn joined(
    alloc: Global,
    drawing: &Drawing,
    forked: &ForkedStraights,
    held: &[bool],
) -> Result<Pieces, Memory>
    requires few { length drawing.now.curves.items ≤ 16000000 }
    requires forked { AreForkedTo drawing.now.tolerance (plan drawing.now)
        (length drawing.now.curves.items) forked.now }
    requires held { AreHeld (plan drawing.now) forked.now.parts.items held.now }
    ensures { IfOk result (λ p. ArePieces drawing.now.tolerance (plan drawing.now)
        (length drawing.now.curves.items) p.curves.items p.origin.items) }
{
    let room = drawing.curves.len() + forked.parts.len();
    let mut pieces = Pieces::new(alloc, room)?;
    let mut next = 0;
    for number in 0..drawing.curves.len() {
        next = add_curve(&mut pieces, drawing, forked, held, number as u32, next)?;
    }
    Ok(pieces)
}

// Adds what stands for the curve of that number, and counts the forked straights up to it.
fn add_curve(
    pieces: &mut Pieces,
    drawing: &Drawing,
    forked: &ForkedStraights,
    held: &[bool],
    number: u32,
    next: usize,
) -> Result<usize, Memory>
    requires there { number < length drawing.now.curves.items }
    requires forked { AreForkedTo drawing.now.tolerance (plan drawing.now)
        (length drawing.now.curves.items) forked.now }
    requires held { AreHeld (plan drawing.now) forked.now.parts.items held.now }
    requires next { IsNextAt number forked.now.straights.items next }
    requires pieces { ArePieces drawing.now.tolerance (plan drawing.now) number
        pieces.old.curves.items pieces.old.origin.items }
    ensures next { IfOk result (IsNextAt (number + 1) forked.now.straights.items) }
    ensures pieces { OnOk result (ArePieces drawing.now.tolerance (plan drawing.now) (number + 1)
        pieces.new.curves.items pieces.new.origin.items) }
{
    match straight_at(&forked.straights, next, number) {
        Some(straight) => {
            pieces.add(piece_of(drawing, forked, held, straight), number)?;
            Ok(next + 1)
        }
        None => {
            pieces.add(itself(drawing, number), number)?;
            Ok(next)
        }
    }
}

// The next one of the straights, if it has that number.
fn straight_at(straights: &[Forked], next: usize, number: u32) -> Option<Forked>
    requires rising { AreInOrder straights.now }
    requires next { IsNextAt number straights.now next }
    ensures { IsNext number straights.now next result }
{
    match straights.get(next) {
        Some(straight) => {
            if straight.number == number {
                Some(*straight)
            } else {
                None
            }
        }
        None => None,
    }
}

// The parts of a forked straight, or itself where an object's point lies on one of them.
fn piece_of<'a>(
    drawing: &'a Drawing,
    forked: &'a ForkedStraights,
    held: &[bool],
    straight: Forked,
) -> &'a [Curve]
    requires held { AreHeld (plan drawing.now) forked.now.parts.items held.now }
    requires straight { IsForked drawing.now.tolerance (plan drawing.now) forked.now.parts.items
        straight }
    ensures { StandFor drawing.now.tolerance (plan drawing.now) straight.number result.now }
{
    if is_held(held, straight) {
        itself(drawing, straight.number)
    } else {
        &forked.parts[straight.start..straight.end]
    }
}

// Whether an object's point lies on one of its parts.
fn is_held(held: &[bool], straight: Forked) -> bool
    requires order { straight.start ≤ straight.end }
    requires fits { straight.end ≤ length held.now }
    ensures { IsTrue result ↔ IsAnyHeld held.now straight.start straight.end }
{
    held[straight.start..straight.end].contains(&true)
}

fn itself(drawing: &Drawing, number: u32) -> &[Curve]
    requires { number < length drawing.now.curves.items }
    ensures { result.now ≡ curve (plan drawing.now) number ∷ [] }
{
    let number = number as usize;
    &drawing.curves[number..number + 1]
}
