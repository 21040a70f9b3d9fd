// Polygons of faces: the two triangles of a square with a chord and what is outside of it; and
// edges that are not linked, each a ring of two corners, for the order of rings.
ghost use Rattle.std.specs.Prelude.{◌≡◌, IfOk, length};
ghost use Rattle.half_edges.specs.HalfEdges.{size};

use super::event_squares::square;
use half_edges::{FaceId, Mesh, VertexId};
use plane::Point;
use polygons::{Polygon, polygon};
use ports::Memory;
use std::alloc::Global;
use std::test::Fail;

// The rings of a polygon by their corners.
type Rings = &'static [&'static [(i64, i64)]];

// Whether the polygon has these rings, in this order.
fn has_rings(polygon: &Polygon, wanted: Rings) -> bool {
    if polygon.rings.len() != wanted.len() {
        return false;
    }
    for (ring, corners) in polygon.rings.iter().zip(wanted) {
        if !has_corners(&ring.corners, corners) {
            return false;
        }
    }
    true
}

// Whether these are the corners, in this order.
fn has_corners(corners: &[Point], wanted: &[(i64, i64)]) -> bool {
    if corners.len() != wanted.len() {
        return false;
    }
    for (corner, place) in corners.iter().zip(wanted) {
        if corner.x != place.0 || corner.y != place.1 {
            return false;
        }
    }
    true
}

// The points with these coordinates.
fn points_of(alloc: Global, places: &[(i64, i64)]) -> Result<Vec<Point>, Memory> {
    let mut points = Vec::new(alloc);
    for place in places {
        points.push(Point {
            x: place.0,
            y: place.1,
        })?;
    }
    Ok(points)
}

// The face of each half-edge of the square, the triangle under the chord being face 1.
const FACES: [FaceId; 10] = [
    FaceId(0),
    FaceId(1),
    FaceId(1),
    FaceId(2),
    FaceId(2),
    FaceId(0),
    FaceId(2),
    FaceId(0),
    FaceId(0),
    FaceId(1),
];

// Where its events lie, and the polygon of each face. Outside the ring turns right.
const CORNERS: [(i64, i64); 4] = [(0, 0), (0, 4), (4, 0), (4, 4)];

const TRIANGLES: [Rings; 3] = [
    &[&[(4, 0), (0, 0), (0, 4), (4, 4)]],
    &[&[(0, 0), (4, 0), (4, 4)]],
    &[&[(0, 0), (4, 4), (0, 4)]],
];

// Whether the face of the square has these rings.
fn has_face(alloc: Global, face: FaceId, wanted: Rings) -> Result<bool, Memory> {
    let mut mesh = square(alloc)?;
    let at = points_of(alloc, &CORNERS)?;
    if at.len() != 4 || !mesh.faces_agree(&FACES) {
        return Ok(false);
    }
    mesh.set_faces(&FACES);
    let polygon = polygon(alloc, &mesh, &at, face)?;
    Ok(has_rings(&polygon, wanted))
}

#[test]
fn a_square_with_a_chord_has_two_triangles(rt: HostRuntime) -> Result<(), Fail> {
    for (face, rings) in TRIANGLES.iter().enumerate() {
        assert!(rt; has_face(rt.alloc(), FaceId(face as u32), rings)?, "{face}");
    }
    Ok(())
}

// Four edges that are not linked: where the low and the high end of each lie, and the rings of
// face 0. The ring of an edge begins at its high end.
type Row = (&'static str, [(i64, i64); 8], Rings);

const ROWS: [Row; 5] = [
    (
        "in order",
        [
            (0, 0),
            (1, 1),
            (2, 0),
            (3, 1),
            (4, 0),
            (5, 1),
            (6, 0),
            (7, 1),
        ],
        &[
            &[(1, 1), (0, 0)],
            &[(3, 1), (2, 0)],
            &[(5, 1), (4, 0)],
            &[(7, 1), (6, 0)],
        ],
    ),
    (
        "the third has the least corner, the others keep their order",
        [
            (6, 0),
            (7, 1),
            (4, 0),
            (5, 1),
            (0, 0),
            (1, 1),
            (2, 0),
            (3, 1),
        ],
        &[
            &[(1, 1), (0, 0)],
            &[(7, 1), (6, 0)],
            &[(5, 1), (4, 0)],
            &[(3, 1), (2, 0)],
        ],
    ),
    (
        "the last has it, by y",
        [
            (0, 3),
            (1, 1),
            (0, 2),
            (3, 1),
            (0, 1),
            (5, 1),
            (0, 0),
            (7, 1),
        ],
        &[
            &[(7, 1), (0, 0)],
            &[(1, 1), (0, 3)],
            &[(3, 1), (0, 2)],
            &[(5, 1), (0, 1)],
        ],
    ),
    (
        "of two that have it the one with the least half-edge comes first",
        [
            (6, 0),
            (7, 1),
            (0, 0),
            (5, 1),
            (0, 0),
            (1, 1),
            (2, 0),
            (3, 1),
        ],
        &[
            &[(5, 1), (0, 0)],
            &[(7, 1), (6, 0)],
            &[(1, 1), (0, 0)],
            &[(3, 1), (2, 0)],
        ],
    ),
    (
        "a ring begins at its half-edge and not at its least corner",
        [
            (9, 9),
            (8, 8),
            (7, 7),
            (0, 0),
            (6, 6),
            (5, 5),
            (4, 4),
            (3, 3),
        ],
        &[
            &[(0, 0), (7, 7)],
            &[(8, 8), (9, 9)],
            &[(5, 5), (6, 6)],
            &[(3, 3), (4, 4)],
        ],
    ),
];

// Four edges between eight vertices, nothing linked.
fn lone_edges(alloc: Global) -> Result<Mesh, Memory>
    ensures { IfOk result (λ mesh. mesh.vertices ≡ 8) }
{
    let mut mesh = Mesh::new(alloc, 8)?;
    mesh.add_edge(VertexId(0), VertexId(1))?;
    mesh.add_edge(VertexId(2), VertexId(3))?;
    mesh.add_edge(VertexId(4), VertexId(5))?;
    mesh.add_edge(VertexId(6), VertexId(7))?;
    Ok(mesh)
}

// Whether the edges at these places have these rings.
fn has_order(alloc: Global, places: &[(i64, i64)], wanted: Rings) -> Result<bool, Memory> {
    let mesh = lone_edges(alloc)?;
    let at = points_of(alloc, places)?;
    if at.len() != 8 {
        return Ok(false);
    }
    let polygon = polygon(alloc, &mesh, &at, FaceId(0))?;
    Ok(has_rings(&polygon, wanted))
}

#[test]
fn the_ring_with_the_least_corner_comes_first(rt: HostRuntime) -> Result<(), Fail> {
    for (name, places, rings) in &ROWS {
        assert!(rt; has_order(rt.alloc(), places, rings)?, "{name}");
    }
    Ok(())
}
