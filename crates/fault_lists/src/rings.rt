// The rings of faces.
//
// Each ring is walked by the sides that are said to follow one another (`DrawingFaces::next`).
// Each step is tested: the next side is one of the same face, it begins where the last one ends,
// and no ring has it yet. Where a test fails no ring is told. None fails where these sides go round
// the faces (`GoRound`).
ghost use Rattle.std.specs.Prelude.{◌≡◌, ◌+◌, ◌*◌, ◌<◌, ◌++◌, ◌∷◌, [], true, false, IfOk, OnOk};
ghost use Rattle.std.specs.Prelude.{length};
ghost use Rattle.fault_lists.specs.DrawingFaces.{IsNumbered};
ghost use Rattle.fault_lists.specs.FaceLists.{IsSide, side_number};
ghost use Rattle.fault_lists.specs.Rings.{AreRegions, end_of, GoRound, start_of};
ghost use Rattle.fault_lists.specs.Tracing.{AreBlank, AreFollowed, AreSlots, AreTracedAll};
ghost use Rattle.fault_lists.specs.Tracing.{AreTracedTo, Follows, IsMarked, IsRound, is_passed};
ghost use Rattle.fault_lists.specs.Tracing.{rings_of, sides_of, TellsNext};
ghost use Rattle.plane.specs.Rule.Plans.{plan};

use crate::faces::DrawingFaces;
use crate::kinds::{Region, Ring, SideAt};
use crate::slots::{face_of, side_number, side_of, slots_of};
use plane::{Drawing, Point};
use ports::Memory;
use std::alloc::Global;

/// The faces of these sides, each with its rings, or each with no ring. With its rings where the
/// sides that are said to follow one another go round the faces, and the given ones are of
/// different faces. The only error is out of memory. It takes time linear in the sides, the faces
/// and the curves, and for a while 8 bytes a face and 2 a curve.
pub fn regions(
    alloc: Global,
    drawing: &Drawing,
    faces: &DrawingFaces,
    sides: &[SideAt],
) -> Result<Vec<Region>, Memory>
    requires numbered { IsNumbered faces.now }
    requires curves { length faces.now.curves.items ≡ length (plan drawing.now).curves }
    ensures { IfOk result (λ rs. AreRegions (plan drawing.now) faces.now sides.now rs.items) }
{
    if let Some(slots) = slots_of(alloc, faces, sides)? {
        let mut regions = without_rings(alloc, sides)?;
        if trace_all(alloc, drawing, faces, &slots, &mut regions)? {
            return Ok(regions);
        }
    }
    let regions = without_rings(alloc, sides)?;
    Ok(regions)
}

// The faces of these sides with no ring.
fn without_rings(alloc: Global, sides: &[SideAt]) -> Result<Vec<Region>, Memory>
    ensures { IfOk result (λ rs. AreBlank sides.now rs.items) }
{
    let mut regions = Vec::with_capacity(alloc, sides.len())?;
    for side in sides {
        regions.push(without_ring(alloc, *side))?;
    }
    Ok(regions)
}

fn without_ring(alloc: Global, side: SideAt) -> Region
    ensures side { result.side ≡ side }
    ensures none { result.rings.items ≡ [] }
{
    Region {
        side,
        rings: Vec::new(alloc),
    }
}

// Adds the rings of all faces that have a slot, or answers that a step is wrong.
fn trace_all(
    alloc: Global,
    drawing: &Drawing,
    faces: &DrawingFaces,
    slots: &[usize],
    regions: &mut [Region],
) -> Result<bool, Memory>
    requires numbered { IsNumbered faces.now }
    requires curves { length faces.now.curves.items ≡ length (plan drawing.now).curves }
    requires slots { AreSlots faces.now (sides_of regions.old) (length (sides_of regions.old))
        slots.now }
    requires blank { AreBlank (sides_of regions.old) regions.old }
    ensures sides { OnOk result (sides_of regions.new ≡ sides_of regions.old) }
    ensures traced { IfOk result (λ done. done ≡ true → AreTracedAll (plan drawing.now) faces.now
        slots.now (rings_of regions.new)) }
    ensures wrong { IfOk result (λ done. done ≡ false → GoRound (plan drawing.now) faces.now → ⊥) }
{
    let mut marks = vec![in alloc; false; 2 * drawing.curves.len()]?;
    for number in 0..2 * drawing.curves.len() {
        let side = side_of(number);
        if !trace_from(alloc, drawing, faces, slots, side, &mut marks, regions)? {
            return Ok(false);
        }
    }
    Ok(true)
}

// Adds the ring through the side, where its face has a slot and the side is not yet passed; or
// answers that a step is wrong.
fn trace_from(
    alloc: Global,
    drawing: &Drawing,
    faces: &DrawingFaces,
    slots: &[usize],
    side: SideAt,
    marks: &mut [bool],
    regions: &mut [Region],
) -> Result<bool, Memory>
    requires numbered { IsNumbered faces.now }
    requires curves { length faces.now.curves.items ≡ length (plan drawing.now).curves }
    requires slots { AreSlots faces.now (sides_of regions.old) (length (sides_of regions.old))
        slots.now }
    requires traced { AreTracedTo (plan drawing.now) faces.now slots.now (side_number side)
        marks.old (rings_of regions.old) }
    ensures sides { OnOk result (sides_of regions.new ≡ sides_of regions.old) }
    ensures traced { IfOk result (λ done. done ≡ true → AreTracedTo (plan drawing.now) faces.now
        slots.now (side_number side + 1) marks.new (rings_of regions.new)) }
    ensures wrong { IfOk result (λ done. done ≡ false → GoRound (plan drawing.now) faces.now → ⊥) }
{
    let face = match face_of(faces, side) {
        Some(face) => face,
        None => return Ok(true),
    };
    let slot = slots[face as usize];
    if slot >= regions.len() || marks[side_number(side)] {
        return Ok(true);
    }
    match ring_from(alloc, drawing, faces, face, side, marks)? {
        Some(ring) => {
            add_ring(&mut regions[slot], ring)?;
            Ok(true)
        }
        None => Ok(false),
    }
}

fn add_ring(region: &mut Region, ring: Ring) -> Result<(), Memory>
    ensures side { region.new.side ≡ region.old.side }
    ensures rings { OnOk result (region.new.rings.items ≡ region.old.rings.items ++ ring ∷ []) }
{
    region.rings.push(ring)?;
    Ok(())
}

// The ring of the face from the side on, whose sides it marks; or None where a step is wrong.
fn ring_from(
    alloc: Global,
    drawing: &Drawing,
    faces: &DrawingFaces,
    face: u32,
    from: SideAt,
    marks: &mut [bool],
) -> Result<Option<Ring>, Memory>
    requires numbered { IsNumbered faces.now }
    requires curves { length faces.now.curves.items ≡ length (plan drawing.now).curves }
    requires size { length marks.old ≡ 2 * length faces.now.curves.items }
    requires side { IsSide faces.now face from }
    requires free { is_passed marks.old from ≡ false }
    requires followed { AreFollowed faces.now marks.old }
    ensures { IfOk result (IsRound (plan drawing.now) faces.now face from marks.old marks.new) }
{
    let mut sides = Vec::new(alloc);
    let mut side = from;
    loop {
        mark(marks, side);
        sides.push(side)?;
        side = match next_of(drawing, faces, face, side) {
            Some(next) => next,
            None => return Ok(None),
        };
        if side == from {
            return Ok(Some(Ring::new(sides)));
        }
        if marks[side_number(side)] {
            return Ok(None);
        }
    }
}

fn mark(marks: &mut [bool], side: SideAt)
    requires { side_number side < length marks.old }
    ensures { IsMarked marks.old (side_number side) marks.new }
{
    marks[side_number(side)] = true;
}

// The side that follows the given one round the face, or None where it is no such side.
fn next_of(drawing: &Drawing, faces: &DrawingFaces, face: u32, side: SideAt) -> Option<SideAt>
    requires numbered { IsNumbered faces.now }
    requires curves { length faces.now.curves.items ≡ length (plan drawing.now).curves }
    requires side { IsSide faces.now face side }
    ensures { Follows (plan drawing.now) faces.now face side result }
{
    let next = said_next(faces, side)?;
    let of_next = face_of(faces, next)?;
    if of_next != face {
        return None;
    }
    if end_of(drawing, side) == start_of(drawing, next) {
        Some(next)
    } else {
        None
    }
}

// The side that is said to follow, if any is.
fn said_next(faces: &DrawingFaces, side: SideAt) -> Option<SideAt>
    ensures { TellsNext faces.now side result }
{
    match faces.next.get(side_number(side)) {
        Some(number) => Some(side_of(*number as usize)),
        None => None,
    }
}

// Where the side begins, as it is passed with its face on the left.
fn start_of(drawing: &Drawing, side: SideAt) -> Point
    requires { side.curve < length (plan drawing.now).curves }
    ensures { result ≡ start_of (plan drawing.now) side }
{
    let curve = &drawing.curves[side.curve as usize];
    if side.left { curve.from } else { curve.to }
}

// Where it ends.
fn end_of(drawing: &Drawing, side: SideAt) -> Point
    requires { side.curve < length (plan drawing.now).curves }
    ensures { result ≡ end_of (plan drawing.now) side }
{
    let curve = &drawing.curves[side.curve as usize];
    if side.left { curve.to } else { curve.from }
}
