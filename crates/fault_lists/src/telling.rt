// The faults that the numbers of faces tell.
ghost use Rattle.std.specs.Prelude.{◌≡◌, ◌↔◌, ◌^◌, ◌<◌, true, IfOk, length};
ghost use Rattle.fault_lists.specs.DrawingFaces.{IsNumbered, face_count};
ghost use Rattle.fault_lists.specs.FaceLists.{AreFaceFaults, ArePair, HasExactly, HasOneFace};
ghost use Rattle.fault_lists.specs.FaceLists.{IsIn, IsJudged, IsOutside, IsUnjudged};
ghost use Rattle.fault_lists.specs.Telling.{AreFirst, IsPairOf, TellsFirst};

use crate::faces::{DrawingFaces, PointPlace};
use crate::kinds::{FaceFaults, PointPair};
use crate::sides::{empty_sides, open_sides};
use ports::Memory;
use std::alloc::Global;

/// What is at fault in the faces of a drawing, by their numbers. The only error is out of memory.
pub fn face_faults(alloc: Global, faces: &DrawingFaces) -> Result<FaceFaults, Memory>
    requires numbered { IsNumbered faces.now }
    requires few_curves { length faces.now.curves.items < 2 ^ 32 }
    requires few_points { length faces.now.points.items < 2 ^ 32 }
    ensures { IfOk result (AreFaceFaults faces.now) }
{
    let first = first_points(alloc, faces)?;
    let outside = points_outside(alloc, faces)?;
    let shared = points_shared(alloc, faces, &first)?;
    let empty = empty_sides(alloc, faces, &first)?;
    let cuts = cuts(alloc, faces)?;
    let open = open_sides(alloc, faces)?;
    let unjudged = points_unjudged(alloc, faces)?;
    Ok(FaceFaults {
        outside,
        shared,
        empty,
        cuts,
        outer_open: faces.open[0],
        open,
        unjudged,
    })
}

// Of each face its least point.
fn first_points(alloc: Global, faces: &DrawingFaces) -> Result<Vec<Option<u32>>, Memory>
    requires numbered { IsNumbered faces.now }
    requires few { length faces.now.points.items < 2 ^ 32 }
    ensures { IfOk result (λ first. AreFirst faces.now first.items) }
{
    let mut first = vec![in alloc; None; faces.open.len()]?;
    for number in 0..faces.points.len() {
        if let PointPlace::InFace(face) = faces.points[number] {
            let least = first[face as usize].unwrap_or(number as u32);
            first[face as usize] = Some(least);
        }
    }
    Ok(first)
}

fn points_outside(alloc: Global, faces: &DrawingFaces) -> Result<Vec<u32>, Memory>
    requires numbered { IsNumbered faces.now }
    requires few { length faces.now.points.items < 2 ^ 32 }
    ensures { IfOk result (λ points. HasExactly (IsOutside faces.now) (λ j. j) points.items) }
{
    let mut points = Vec::new(alloc);
    for number in 0..faces.points.len() {
        if is_outside(faces, number) {
            points.push(number as u32)?;
        }
    }
    Ok(points)
}

fn is_outside(faces: &DrawingFaces, number: usize) -> bool
    requires numbered { IsNumbered faces.now }
    requires there { number < length faces.now.points.items }
    ensures { (result ≡ true) ↔ IsOutside faces.now number }
{
    match faces.points[number] {
        PointPlace::InFace(face) => face == 0 && !faces.open[0],
        PointPlace::OnCurve(_) => false,
    }
}

fn points_unjudged(alloc: Global, faces: &DrawingFaces) -> Result<Vec<u32>, Memory>
    requires numbered { IsNumbered faces.now }
    requires few { length faces.now.points.items < 2 ^ 32 }
    ensures { IfOk result (λ points. HasExactly (IsUnjudged faces.now) (λ j. j) points.items) }
{
    let mut points = Vec::new(alloc);
    for number in 0..faces.points.len() {
        if is_unjudged(faces, number) {
            points.push(number as u32)?;
        }
    }
    Ok(points)
}

fn is_unjudged(faces: &DrawingFaces, number: usize) -> bool
    requires numbered { IsNumbered faces.now }
    requires there { number < length faces.now.points.items }
    ensures { (result ≡ true) ↔ IsUnjudged faces.now number }
{
    match faces.points[number] {
        PointPlace::InFace(face) => faces.open[face as usize],
        PointPlace::OnCurve(_) => false,
    }
}

fn points_shared(
    alloc: Global,
    faces: &DrawingFaces,
    first: &[Option<u32>],
) -> Result<Vec<PointPair>, Memory>
    requires numbered { IsNumbered faces.now }
    requires few { length faces.now.points.items < 2 ^ 32 }
    requires first { AreFirst faces.now first.now }
    ensures { IfOk result (λ pairs. HasExactly (ArePair faces.now) (λ p. p.second)
        pairs.items) }
{
    let mut pairs = Vec::new(alloc);
    for number in 0..faces.points.len() {
        if let Some(pair) = pair_of(faces, first, number as u32) {
            pairs.push(pair)?;
        }
    }
    Ok(pairs)
}

// The pair of the point, if it is not the least one in a face that is judged.
fn pair_of(faces: &DrawingFaces, first: &[Option<u32>], number: u32) -> Option<PointPair>
    requires numbered { IsNumbered faces.now }
    requires there { number < length faces.now.points.items }
    requires first { AreFirst faces.now first.now }
    ensures { IsPairOf faces.now number result }
{
    match faces.points[number as usize] {
        PointPlace::InFace(face) => pair_in(faces, face, first[face as usize], number),
        PointPlace::OnCurve(_) => None,
    }
}

// The pair of the point in that face, whose least point is `first`.
fn pair_in(faces: &DrawingFaces, face: u32, first: Option<u32>, number: u32) -> Option<PointPair>
    requires there { face < face_count faces.now }
    requires in_face { IsIn faces.now number face }
    requires first { TellsFirst faces.now face first }
    ensures { IsPairOf faces.now number result }
{
    match first {
        Some(first) if first < number && is_judged(faces, face) => Some(PointPair {
            first,
            second: number,
        }),
        _ => None,
    }
}

fn is_judged(faces: &DrawingFaces, face: u32) -> bool
    requires { face < face_count faces.now }
    ensures { (result ≡ true) ↔ IsJudged faces.now face }
{
    face != 0 && !faces.open[face as usize]
}

// Curves with one closed face on both sides.
fn cuts(alloc: Global, faces: &DrawingFaces) -> Result<Vec<u32>, Memory>
    requires numbered { IsNumbered faces.now }
    requires few { length faces.now.curves.items < 2 ^ 32 }
    ensures { IfOk result (λ curves. HasExactly (HasOneFace faces.now) (λ i. i) curves.items) }
{
    let mut curves = Vec::new(alloc);
    for number in 0..faces.curves.len() {
        if is_cut(faces, number) {
            curves.push(number as u32)?;
        }
    }
    Ok(curves)
}

fn is_cut(faces: &DrawingFaces, number: usize) -> bool
    requires numbered { IsNumbered faces.now }
    requires there { number < length faces.now.curves.items }
    ensures { (result ≡ true) ↔ HasOneFace faces.now number }
{
    match faces.curves[number] {
        Some(beside) => beside.left == beside.right && !faces.open[beside.left as usize],
        None => false,
    }
}
