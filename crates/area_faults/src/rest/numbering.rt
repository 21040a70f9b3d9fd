// What the faces of the run say of the drawing: which are open, and those of points and of curves.
ghost use Rattle.std.specs.Prelude.{◌≡◌, ◌*◌, ◌^◌, ◌<◌, ◌≤◌, ℕ, IfOk, length, map};
ghost use Rattle.std.specs.Prelude.{slice_index_or, take};
ghost use Rattle.area_search.specs.Faced.{IsAmong};
ghost use Rattle.area_search.specs.Settled.Cases.{face_over};
ghost use Rattle.area_search.specs.Unsettled.CurvePoints.{AreNumbers};
ghost use Rattle.half_edges.specs.HalfEdges.{face_of, over_of, size};
ghost use Rattle.meetings.specs.StraightEdges.{IsRising};
ghost use Rattle.point_location.specs.Places.{no_place};
ghost use Rattle.area_faults.specs.RestFaces.{AreCurveFacesTo, AreOpenTo, AreSidesOf};
ghost use Rattle.area_faults.specs.RestFaces.{IsKnownPlace, IsOpenedBy, point_place};

use faces::Labelled;
use fault_lists::{CurveFaces, PointPlace};
use half_edges::{HalfEdgeId, Mesh};
use plane::Curve;
use point_location::Place;
use ports::Memory;
use std::alloc::Global;
use straight_predicates::before;

/// Of each face whether one of the places from the first one on lies in it.
pub(super) fn open_faces(
    alloc: Global,
    labelled: &Labelled,
    places: &[Place],
    first: usize,
) -> Result<Vec<bool>, Memory>
    requires known { (j : ℕ) → j < length places.now
        → IsKnownPlace (size labelled.now.mesh) (slice_index_or places.now j no_place) }
    requires below { (h : ℕ) → h < size labelled.now.mesh
        → face_of labelled.now.mesh h < labelled.now.count }
    requires some { 0 < labelled.now.count }
    requires first { first ≤ length places.now }
    ensures { IfOk result (λ marks. AreOpenTo labelled.now.mesh.face labelled.now.count places.now
        first (length places.now) marks.items) }
{
    let mut marks = vec![in alloc; false; labelled.count as usize]?;
    for number in first..places.len() {
        open_face(&mut marks, &labelled.mesh, &places[number]);
    }
    Ok(marks)
}

// Opens the face in which the place lies, if it is in one.
fn open_face(marks: &mut [bool], mesh: &Mesh, place: &Place)
    requires known { IsKnownPlace (size mesh.now) place.now }
    requires below { (h : ℕ) → h < size mesh.now → face_of mesh.now h < length marks.old }
    requires some { 0 < length marks.old }
    ensures { IsOpenedBy mesh.now.face place.now marks.old marks.new }
{
    if let Place::Cell { lower, .. } = place {
        marks[face_over(mesh, *lower) as usize] = true;
    }
}

// The face over an edge, 0 where there is none.
fn face_over(mesh: &Mesh, lower: Option<u32>) -> u32
    requires { IsAmong (size mesh.now) lower }
    ensures { result ≡ face_over mesh.now.face lower }
{
    let _ = mesh.edges();
    match lower {
        Some(edge) => mesh.face(HalfEdgeId::over(edge)).0,
        None => 0,
    }
}

/// Where each of the first so many points lies, by its place.
pub(super) fn point_places(
    alloc: Global,
    mesh: &Mesh,
    kept: &[u32],
    places: &[Place],
    count: usize,
) -> Result<Vec<PointPlace>, Memory>
    requires known { (j : ℕ) → j < length places.now
        → IsKnownPlace (size mesh.now) (slice_index_or places.now j no_place) }
    requires size { size mesh.now ≡ 2 * length kept.now }
    requires count { count ≤ length places.now }
    ensures { IfOk result (λ ps. ps.items ≡ map (point_place mesh.now.face kept.now)
        (take count places.now)) }
{
    let mut points = Vec::with_capacity(alloc, count)?;
    for number in 0..count {
        points.push(point_place(mesh, kept, &places[number]))?;
    }
    Ok(points)
}

fn point_place(mesh: &Mesh, kept: &[u32], place: &Place) -> PointPlace
    requires known { IsKnownPlace (size mesh.now) place.now }
    requires size { size mesh.now ≡ 2 * length kept.now }
    ensures { result ≡ point_place mesh.now.face kept.now place.now }
{
    match place {
        Place::OnEdge(edge) => PointPlace::OnCurve(kept[*edge as usize]),
        Place::Cell { lower, .. } => PointPlace::InFace(face_over(mesh, *lower)),
    }
}

/// The faces beside each curve that stays.
pub(super) fn curve_faces(
    alloc: Global,
    curves: &[Curve],
    mesh: &Mesh,
    kept: &[u32],
) -> Result<Vec<Option<CurveFaces>>, Memory>
    requires kept { AreNumbers (length curves.now) kept.now }
    requires rising { IsRising kept.now }
    requires few { length kept.now < 2 ^ 31 }
    requires size { size mesh.now ≡ 2 * length kept.now }
    ensures { IfOk result (λ fs. AreCurveFacesTo curves.now kept.now mesh.now.face
        (length kept.now) fs.items) }
{
    let mut faces = vec![in alloc; None; curves.len()]?;
    for edge in 0..kept.len() {
        let number = kept[edge] as usize;
        faces[number] = Some(sides_of(&curves[number], mesh, edge as u32));
    }
    Ok(faces)
}

// The faces on both sides of a curve, by those of its edge. What is over the edge is on the left
// where the curve runs to the edge's high end.
fn sides_of(curve: &Curve, mesh: &Mesh, edge: u32) -> CurveFaces
    requires { over_of edge < size mesh.now }
    ensures { AreSidesOf curve.now mesh.now.face edge result }
{
    let _ = mesh.edges();
    let over = mesh.face(HalfEdgeId::over(edge)).0;
    let under = mesh.face(HalfEdgeId::under(edge)).0;
    if before(curve.from, curve.to) {
        CurveFaces {
            left: over,
            right: under,
        }
    } else {
        CurveFaces {
            left: under,
            right: over,
        }
    }
}
