// The least sides of faces.
ghost use Rattle.std.specs.Prelude.{◌≡◌, ◌↔◌, ◌^◌, ◌<◌, true, false, IfOk, length, slice_set};
ghost use Rattle.fault_lists.specs.DrawingFaces.{IsNumbered, face_count};
ghost use Rattle.fault_lists.specs.FaceLists.{HasExactly, IsBroken, IsEmptyFace, IsLeastSideOf};
ghost use Rattle.fault_lists.specs.FaceLists.{side_number};
ghost use Rattle.fault_lists.specs.Telling.{AreFirst, AreMarks, is_marked, with_side};

use crate::faces::DrawingFaces;
use crate::kinds::SideAt;
use ports::Memory;
use std::alloc::Global;

/// Of each closed bounded face without a point its least side. `first` has the least point of each
/// face. The only error is out of memory.
pub(crate) fn empty_sides(
    alloc: Global,
    faces: &DrawingFaces,
    first: &[Option<u32>],
) -> Result<Vec<SideAt>, Memory>
    requires numbered { IsNumbered faces.now }
    requires few { length faces.now.curves.items < 2 ^ 32 }
    requires first { AreFirst faces.now first.now }
    ensures { IfOk result (λ sides. HasExactly (IsLeastSideOf faces.now (IsEmptyFace faces.now))
        side_number sides.items) }
{
    let mut marks = empty_faces(alloc, faces, first)?;
    least_sides(alloc, faces, &mut marks)
}

/// Of each open bounded face its least side. The only error is out of memory.
pub(crate) fn open_sides(alloc: Global, faces: &DrawingFaces) -> Result<Vec<SideAt>, Memory>
    requires numbered { IsNumbered faces.now }
    requires few { length faces.now.curves.items < 2 ^ 32 }
    ensures { IfOk result (λ sides. HasExactly (IsLeastSideOf faces.now (IsBroken faces.now))
        side_number sides.items) }
{
    let mut marks = open_faces(alloc, faces)?;
    least_sides(alloc, faces, &mut marks)
}

// Marks the closed bounded faces without a point.
fn empty_faces(
    alloc: Global,
    faces: &DrawingFaces,
    first: &[Option<u32>],
) -> Result<Vec<bool>, Memory>
    requires first { AreFirst faces.now first.now }
    ensures { IfOk result (λ marks. AreMarks (face_count faces.now) (IsEmptyFace faces.now)
        marks.items) }
{
    let mut marks = Vec::with_capacity(alloc, faces.open.len())?;
    for face in 0..faces.open.len() {
        marks.push(is_empty(faces, first, face))?;
    }
    Ok(marks)
}

fn is_empty(faces: &DrawingFaces, first: &[Option<u32>], face: usize) -> bool
    requires there { face < face_count faces.now }
    requires first { AreFirst faces.now first.now }
    ensures { (result ≡ true) ↔ IsEmptyFace faces.now face }
{
    face != 0 && !faces.open[face] && first[face].is_none()
}

// Marks the open bounded faces.
fn open_faces(alloc: Global, faces: &DrawingFaces) -> Result<Vec<bool>, Memory>
    ensures { IfOk result (λ marks. AreMarks (face_count faces.now) (IsBroken faces.now)
        marks.items) }
{
    let mut marks = Vec::with_capacity(alloc, faces.open.len())?;
    for face in 0..faces.open.len() {
        marks.push(is_broken(faces, face))?;
    }
    Ok(marks)
}

fn is_broken(faces: &DrawingFaces, face: usize) -> bool
    requires { face < face_count faces.now }
    ensures { (result ≡ true) ↔ IsBroken faces.now face }
{
    face != 0 && faces.open[face]
}

// Of each marked face its least side. It takes the marks away.
fn least_sides(
    alloc: Global,
    faces: &DrawingFaces,
    marks: &mut [bool],
) -> Result<Vec<SideAt>, Memory>
    requires numbered { IsNumbered faces.now }
    requires few { length faces.now.curves.items < 2 ^ 32 }
    requires size { length marks.old ≡ face_count faces.now }
    ensures { IfOk result (λ sides. HasExactly (IsLeastSideOf faces.now
        (λ n. is_marked marks.old n ≡ true)) side_number sides.items) }
{
    let mut sides = Vec::new(alloc);
    for number in 0..faces.curves.len() {
        if let Some(beside) = faces.curves[number] {
            let curve = number as u32;
            add_side(beside.left, SideAt { curve, left: true }, marks, &mut sides)?;
            add_side(
                beside.right,
                SideAt { curve, left: false },
                marks,
                &mut sides,
            )?;
        }
    }
    Ok(sides)
}

// Adds the side of the face where that is marked, and takes the mark away.
fn add_side(
    face: u32,
    side: SideAt,
    marks: &mut [bool],
    sides: &mut Vec<SideAt>,
) -> Result<(), Memory>
    requires { face < length marks.old }
    ensures marks { marks.new ≡ slice_set marks.old face false }
    ensures sides { IfOk result (λ _. sides.new.items
        ≡ with_side (is_marked marks.old face) side sides.old.items) }
{
    let is_new = marks[face as usize];
    marks[face as usize] = false;
    if is_new {
        sides.push(side)?;
    }
    Ok(())
}
