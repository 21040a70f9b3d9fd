// What the polygons of faces are in the plane.
ghost use Rattle.std.specs.Prelude.{◌≡◌, ℕ, ℤ, List, length, map, slice_index};
ghost use Rattle.plane.specs.declared.kinds.Edge.{Edge};
ghost use Rattle.plane.specs.declared.kinds.Point.{Point};
ghost use Rattle.plane.specs.Faces.Cells.{position};
ghost use Rattle.plane.specs.Faces.Classes.{IsFaces, face_of};
ghost use Rattle.plane.specs.Faces.DrawnRuns.{IsRunOf, drawn};
ghost use Rattle.plane.specs.Faces.Halves.{number};
ghost use Rattle.plane.specs.Faces.PlacedPoints.{IsLocated};
ghost use Rattle.plane.specs.Rule.Cuts.{HasNoCut};
ghost use Rattle.plane.specs.Rule.Plans.{Plan};
ghost use Rattle.plane.specs.Runs.Steps.{Step};
ghost use Rattle.half_edges.specs.HalfEdges.{HalfEdges};
ghost use Rattle.half_edges.specs.Meshes.{IsMesh};
ghost use Rattle.event_mesh.specs.Turned.{IsTurned, points_of};
ghost use Rattle.polygons.specs.Polygons.{IsPolygonOf};
ghost use Rattle.polygons.specs.Regions.{AreRingsAbout};

/// In a drawing of straights without a cut the polygon of a face, by the mesh of a run with its
/// faces, bounds what is joined to a point in that face, which is not the outer one: its sides are
/// straights, each once, that enclose it and nothing else.
pub fn rings_bound_a_region()
    ensures { (w : ℤ) (d : Plan) (E : ℕ → Edge) (steps : List Step) (m : HalfEdges)
        (at : List Point) (f : ℕ) (a : Point) (k i : ℕ) (rings : List (List Point))
        → IsRunOf d E steps → HasNoCut d → IsMesh m
        → IsTurned (length d.curves) E steps m (length steps) → at ≡ points_of steps
        → IsFaces (drawn w d E steps) (λ h. slice_index m.face (number h))
        → IsLocated (drawn w d E steps) a k i
        → face_of (drawn w d E steps) (λ h. slice_index m.face (number h)) (position k i) ≡ f
        → (f ≡ 0 → ⊥) → IsPolygonOf m at f rings → AreRingsAbout d E a rings }
{}

/// Rings about a point are given by the drawing: any two lists of them are equal, corner by corner.
pub fn rings_are_given()
    ensures { (d : Plan) (E : ℕ → Edge) (steps : List Step) (a : Point)
        (rings others : List (List Point))
        → IsRunOf d E steps → AreRingsAbout d E a rings → AreRingsAbout d E a others
        → rings ≡ others }
{}
