// Laws of the edges of drawings, of the tubes of half arcs, and of levels that settle a drawing.
ghost use Rattle.std.specs.Prelude.{◌≡◌, ◌↔◌, ℕ, suc, ◌+◌, ◌*◌, ◌^◌, ◌<◌, ◌≤◌, None, List, length};
ghost use Rattle.std.specs.Prelude.{Some, get_or};
ghost use Rattle.plane.specs.declared.kinds.Edge.{Edge};
ghost use Rattle.plane.specs.declared.kinds.Point.{Point};
ghost use Rattle.plane.specs.Forms.Segments.{AreEdgesOf};
ghost use Rattle.plane.specs.Forms.Vectors.{Before};
ghost use Rattle.plane.specs.Lists.{Each};
ghost use Rattle.plane.specs.Rule.HalfArcs.{HalfArc};
ghost use Rattle.plane.specs.CurveRuns.Levels.{AreWide, IsSettledDrawing};
ghost use Rattle.plane.specs.CurveRuns.TubedRuns.{Connects, IsOfTube, IsTubedRun, edge_list};
ghost use Rattle.plane.specs.CurveRuns.TubedRuns.{first_edge, inner, outer, owned, whole};
ghost use Rattle.plane.specs.Rule.Curves.{arc};
ghost use Rattle.plane.specs.Rule.Plans.{IsHalfArc, IsStraight, Plan, curve};
ghost use Rattle.plane.specs.Rule.Turns.{AreNear};
ghost use Rattle.plane.specs.Runs.Steps.{Run, Step};
ghost use Rattle.plane.specs.Runs.Timetables.{IsTimetable, Timed};
ghost use Rattle.straight_predicates.specs.EdgeLists.{HasEnds, edge_of};
ghost use Rattle.plane.specs.Tubes.Bays.{IsTube, bays};
ghost use Rattle.tubes.specs.DrawnEdges.{AreStraights, edge_from, edges_of};
ghost use Rattle.tubes.specs.FewEdges.{HasFewEdges};
ghost use Rattle.tubes.specs.HalfArcTubes.{IsTubeOf, root};
ghost use Rattle.tubes.specs.Settled.{HaveTubes, IsFirstForeign, IsOwnCorner, IsSettledAt};
ghost use Rattle.tubes.specs.Settled.{edge_at, edges_at, owned_at};
ghost use Rattle.tubes.specs.TubedEdges.{HasTube, IsTubedList, drawn_bays, owner_as};
ghost use Rattle.tubes.specs.declared.kinds.EdgeList.{EdgeList};
ghost use Rattle.tubes.specs.declared.kinds.Owner.{Owner};

/// There is one edge for each straight, that of its ends; and two points have one edge.
pub fn edges_of_drawing()
    ensures count { (d : Plan) → length (edges_of d) ≡ length d.curves }
    ensures edges { (d : Plan) → AreStraights d → AreEdgesOf (edge_of (edges_of d)) d }
    ensures one { (e : Edge) (p q : Point)
        → Before e.low e.high → HasEnds e p q → e ≡ edge_from p q }
{}

/// The whole root of a number is the greatest whole number whose square is not above it.
pub fn root_is_whole()
    ensures least { (n : ℕ) → root n * root n ≤ n }
    ensures most { (n : ℕ) → n < suc (root n) * suc (root n) }
{}

/// What is called the tube of a half arc at a level is one: it covers the half arc by the laws of
/// `plane::arcs`. It has two bays for level 0 and twice as many for each level more, near the half
/// arc's first end; and there is only one.
pub fn tubes_of_half_arcs()
    ensures tube { (h : HalfArc) (level : ℕ) (inner outer : List Point)
        → IsTubeOf h level inner outer → IsTube h (bays inner outer) }
    ensures count { (h : HalfArc) (level : ℕ) (inner outer : List Point)
        → IsTubeOf h level inner outer → length (bays inner outer) ≡ 2 ^ (level + 1) }
    ensures near { (h : HalfArc) (level : ℕ) (inner outer : List Point)
        → IsTubeOf h level inner outer
        → Each (λ b. AreNear (2 ^ 28) h.from b.outer × AreNear (2 ^ 28) h.from b.inner)
        (bays inner outer) }
    ensures one { (h : HalfArc) (level : ℕ) (inner outer inner_too outer_too : List Point)
        → IsTubeOf h level inner outer → IsTubeOf h level inner_too outer_too
        → (inner ≡ inner_too) × (outer ≡ outer_too) }
{}

/// A list of edges at a level is what the laws of `plane::arc_drawings` ask of a drawing's edges:
/// its half arcs have tubes by the number of their curve, and each edge joins the two points of
/// the owned edge of that number. Of a drawing of straights it is the list of its straights.
pub fn edges_of_tubed_drawing()
    ensures tubes { (d : Plan) (level : ℕ → ℕ) (i : ℕ)
        → HasTube (arc (curve d i)) (level i) → IsTube (arc (curve d i)) (drawn_bays d level i) }
    ensures count { (d : Plan) (level : ℕ → ℕ) (list : EdgeList) → IsTubedList d level list
        → length list.edges.items ≡ length (edge_list (drawn_bays d level) 0 d.curves) }
    ensures edges { (d : Plan) (level : ℕ → ℕ) (list : EdgeList) → IsTubedList d level list
        → (e : ℕ) → e < length list.edges.items → Connects (edge_of list.edges.items e)
        (owned d (drawn_bays d level) e).from (owned d (drawn_bays d level) e).to }
    ensures straights { (d : Plan) (level : ℕ → ℕ) (list : EdgeList)
        → IsTubedList d level list → AreStraights d → list.edges.items ≡ edges_of d }
{}

/// The lists of edges and of their owners at a level are those of the owned edges by number.
pub fn tubed_lists()
    ensures edges { (d : Plan) (level : ℕ → ℕ) (list : EdgeList)
        → IsTubedList d level list → list.edges.items ≡ edges_at d level }
    ensures sizes { (d : Plan) (level : ℕ → ℕ) (list : EdgeList)
        → IsTubedList d level list → length list.owners.items ≡ length list.edges.items }
    ensures owners { (d : Plan) (level : ℕ → ℕ) (list : EdgeList) (z : Owner) (e : ℕ)
        → IsTubedList d level list → e < length list.edges.items
        → get_or list.owners.items e z ≡ owner_as (owned_at d level e) }
{}

/// A level settles a drawing exactly where a complete run over its edges there is settled. Where at
/// no event of the edges' timetable a corner of a tube is another curve's, all corners are their
/// own, and a complete run is one with tubes, each of which has two bays at least; where there is
/// such an event the level does not settle.
pub fn settled_levels()
    ensures run { (d : Plan) (level : ℕ → ℕ) (list : EdgeList) (steps : List Step)
        → IsTubedList d level list → IsSettledAt d level
        → Run (length list.edges.items) (edge_of list.edges.items) steps
        → IsSettledDrawing d (drawn_bays d level) (length list.edges.items)
        (edge_of list.edges.items) steps }
    ensures level { (d : Plan) (level : ℕ → ℕ) (steps : List Step)
        → HaveTubes d level
        → IsSettledDrawing d (drawn_bays d level) (length (edges_at d level)) (edge_at d level)
        steps → IsSettledAt d level }
    ensures corners { (d : Plan) (level : ℕ → ℕ) (table : List Timed) (p : Point)
        → IsTimetable (length (edges_at d level)) (edge_at d level) table
        → IsFirstForeign d level table None → IsOwnCorner d level p }
    ensures own { (d : Plan) (level : ℕ → ℕ) (list : EdgeList) (steps : List Step)
        → IsTubedList d level list → ((p : Point) → IsOwnCorner d level p)
        → Run (length list.edges.items) (edge_of list.edges.items) steps
        → IsTubedRun d (drawn_bays d level) (length list.edges.items) (edge_of list.edges.items)
        steps }
    ensures wide { (d : Plan) (level : ℕ → ℕ) → HaveTubes d level → AreWide d (drawn_bays d level) }
    ensures foreign { (d : Plan) (level : ℕ → ℕ) (k : ℕ) (table : List Timed)
        → IsFirstForeign d level table (Some k) → IsSettledAt d level → ⊥ }
{}

/// The first edge of a half arc is of the inner chain of its tube, and as many edges later stands
/// the first one of the outer chain as the tube has bays. Each edge has its curve: that of a tube a
/// half arc, any other a straight.
pub fn chains_have_edges()
    ensures inner { (d : Plan) (level : ℕ → ℕ) (i : ℕ)
        → HaveTubes d level → IsHalfArc d i
        → (first_edge (drawn_bays d level) 0 d.curves i < length (edges_at d level))
        × ((owned_at d level (first_edge (drawn_bays d level) 0 d.curves i)).curve ≡ i)
        × ((owned_at d level (first_edge (drawn_bays d level) 0 d.curves i)).part ≡ inner) }
    ensures outer { (d : Plan) (level : ℕ → ℕ) (i : ℕ)
        → IsHalfArc d i
        → ((first_edge (drawn_bays d level) 0 d.curves i + length (drawn_bays d level i))
        < length (edges_at d level))
        × ((owned_at d level (first_edge (drawn_bays d level) 0 d.curves i
        + length (drawn_bays d level i))).curve ≡ i)
        × ((owned_at d level (first_edge (drawn_bays d level) 0 d.curves i
        + length (drawn_bays d level i))).part ≡ outer) }
    ensures owner { (d : Plan) (level : ℕ → ℕ) (e : ℕ)
        → e < length (edges_at d level) → (owned_at d level e).curve < length d.curves }
    ensures half_arc { (d : Plan) (level : ℕ → ℕ) (e : ℕ)
        → e < length (edges_at d level)
        → IsOfTube (owned_at d level e).part ↔ IsHalfArc d (owned_at d level e).curve }
    ensures straight { (d : Plan) (level : ℕ → ℕ) (e : ℕ)
        → e < length (edges_at d level)
        → ((owned_at d level e).part ≡ whole) ↔ IsStraight d (owned_at d level e).curve }
{}

/// Up to level 5 a curve has at most 129 edges: so 16,000,000 curves have fewer than 2^31.
pub fn few_edges()
    ensures { (d : Plan) (level : ℕ → ℕ)
        → ((i : ℕ) → level i ≤ 5) → HaveTubes d level → length (edges_at d level) ≤ (129 * length d.curves) }
{}

/// A drawing of at most 16,000,000 curves has fewer than 2^31 edges up to level 5.
pub fn few_curves_have_few_edges()
    ensures { (d : Plan) → length d.curves ≤ 16000000 → HasFewEdges d }
{}
