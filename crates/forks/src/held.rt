// Parts on which an object's point lies.
ghost use Rattle.std.specs.Prelude.{◌+◌, ◌<◌, ◌≤◌, All, IfOk, length};
ghost use Rattle.plane.specs.Rule.Plans.{plan};
ghost use Rattle.forks.specs.ForkedStraights.{AreBoxes, AreHeld, IsBoxOf, IsPart};

use near_pairs::{PairTest, Reach, marked_from, partnered};
use plane::{Curve, Drawing};
use ports::Memory;
use std::alloc::Global;
use straight_predicates::is_on_straight;

// Parts of straights, of which pairs with an object's point are tested. The parts come first, then
// the points.
#[derive(Drop)]
struct HeldTest<'a> {
    drawing: &'a Drawing,
    parts: &'a [Curve],
}

impl<'a> PairTest for HeldTest<'a> {
    ghost use Rattle.std.specs.Prelude.{◌+◌, ◌<◌, All, length};
    ghost use Rattle.plane.specs.Rule.Plans.{plan};
    ghost use Rattle.forks.specs.ForkedStraights.{HoldsAt, IsPart};

    ghost can_test = { λ s i j. (i < j)
        × (j < length s.parts.now + length s.drawing.now.points.items)
        × All (IsPart (plan s.drawing.now)) s.parts.now };

    ghost sought = { λ s i j. HoldsAt (plan s.drawing.now) s.parts.now i j };

    fn is_sought(&self, first: u32, second: u32) -> bool {
        let part = first as usize;
        let point = second as usize;
        if self.parts.len() <= part || point < self.parts.len() {
            return false;
        }
        let straight = &self.parts[part];
        let at = self.drawing.points[point - self.parts.len()].at;
        is_on_straight(straight.from, straight.to, at)
    }
}

/// Of each part whether an object's point lies on it. The only error is out of memory. It takes the
/// parts times the points that are near them along x, and 66 bytes for each part and each point;
/// nothing where there is no part.
pub fn held_parts(alloc: Global, drawing: &Drawing, parts: &[Curve]) -> Result<Vec<bool>, Memory>
    requires few { length parts.now ≤ 48000000 }
    requires parts { All (IsPart (plan drawing.now)) parts.now }
    ensures { IfOk result (λ held. AreHeld (plan drawing.now) parts.now held.items) }
{
    if parts.is_empty() {
        return Ok(Vec::new(alloc));
    }
    let boxes = boxes(alloc, drawing, parts)?;
    let marks = marked_from(alloc, parts.len(), boxes.len())?;
    let test = HeldTest { drawing, parts };
    partnered(alloc, &boxes, &marks, &test)
}

// The boxes of the parts, and then those of the objects' points.
fn boxes(alloc: Global, drawing: &Drawing, parts: &[Curve]) -> Result<Vec<Reach>, Memory>
    requires { length parts.now ≤ 48000000 }
    ensures { IfOk result (λ boxes. AreBoxes (plan drawing.now) parts.now
        (length parts.now + length drawing.now.points.items) boxes.items) }
{
    let count = parts.len() + drawing.points.len();
    let mut boxes = Vec::with_capacity(alloc, count)?;
    for number in 0..count {
        boxes.push(box_at(drawing, parts, number))?;
    }
    Ok(boxes)
}

fn box_at(drawing: &Drawing, parts: &[Curve], number: usize) -> Reach
    requires { number < length parts.now + length drawing.now.points.items }
    ensures { IsBoxOf (plan drawing.now) parts.now number result }
{
    if number < parts.len() {
        let part = &parts[number];
        Reach::around(part.from, part.to)
    } else {
        let at = drawing.points[number - parts.len()].at;
        Reach::around(at, at)
    }
}
