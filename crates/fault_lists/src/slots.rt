// Faces by sides, and their places in a list of sides.
ghost use Rattle.std.specs.Prelude.{◌≡◌, ◌^◌, ◌<◌, Some, None, true, false, IfOk, length};
ghost use Rattle.std.specs.Option.{IfSome};
ghost use Rattle.fault_lists.specs.DrawingFaces.{IsNumbered, face_count};
ghost use Rattle.fault_lists.specs.FaceLists.{side_number};
ghost use Rattle.fault_lists.specs.Rings.{AreOfFaces};
ghost use Rattle.fault_lists.specs.Tracing.{AreSlots, HasNoFreeSlot, IsFaceOf, IsSlotTaken};

use crate::faces::DrawingFaces;
use crate::kinds::SideAt;
use ports::Memory;
use std::alloc::Global;

/// The number of a side in the order of sides: of one curve the left one comes first.
pub fn side_number(side: SideAt) -> usize
    ensures { result ≡ side_number side }
{
    2 * side.curve as usize + usize::from(!side.left)
}

/// The side of a number.
pub(crate) fn side_of(number: usize) -> SideAt
    requires { number < 2 ^ 33 }
    ensures { side_number result ≡ number }
{
    SideAt {
        curve: (number / 2) as u32,
        left: number % 2 == 0,
    }
}

/// The face of a side, None where the curve is left out or is none.
pub(crate) fn face_of(faces: &DrawingFaces, side: SideAt) -> Option<u32>
    requires { IsNumbered faces.now }
    ensures { IsFaceOf faces.now side result }
{
    let curve = side.curve as usize;
    if curve >= faces.curves.len() {
        return None;
    }
    match faces.curves[curve] {
        Some(beside) => Some(if side.left { beside.left } else { beside.right }),
        None => None,
    }
}

/// Of each face the place of its side in the list, and the length of the list where none is there;
/// or None where two sides are of one face, or one is of none.
pub(crate) fn slots_of(
    alloc: Global,
    faces: &DrawingFaces,
    sides: &[SideAt],
) -> Result<Option<Vec<usize>>, Memory>
    requires { IsNumbered faces.now }
    ensures slots { IfOk result (λ o. IfSome o (λ slots. AreSlots faces.now sides.now
        (length sides.now) slots.items)) }
    ensures none { IfOk result (λ o. o ≡ None → AreOfFaces faces.now sides.now → ⊥) }
{
    let mut slots = vec![in alloc; sides.len(); faces.open.len()]?;
    for place in 0..sides.len() {
        if !take_slot(faces, sides[place], place, sides.len(), &mut slots) {
            return Ok(None);
        }
    }
    Ok(Some(slots))
}

// Gives the face of the side the place, if it has none.
fn take_slot(
    faces: &DrawingFaces,
    side: SideAt,
    place: usize,
    none: usize,
    slots: &mut [usize],
) -> bool
    requires numbered { IsNumbered faces.now }
    requires size { length slots.old ≡ face_count faces.now }
    ensures taken { result ≡ true → IsSlotTaken faces.now side place none slots.old slots.new }
    ensures refused { result ≡ false → HasNoFreeSlot faces.now side none slots.old }
{
    match face_of(faces, side) {
        Some(face) if slots[face as usize] == none => {
            slots[face as usize] = place;
            true
        }
        _ => false,
    }
}
