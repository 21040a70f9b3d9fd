//! Laws of drawings whose half arcs have tubes at levels of their own, in the words of `tubes`.
#![tactic(auto)]

ghost use Rattle.std.specs.Prelude.{◌≡◌, ◌↔◌, ◌⊎◌, ℕ, ◌<◌, List, Bool, true, ℤ, length};
ghost use Rattle.plane.specs.CurveRuns.Levels.{IsSettledDrawing};
ghost use Rattle.plane.specs.CurveRuns.FacePlaces.{PointHasFace};
ghost use Rattle.plane.specs.Faces.Classes.{IsFaces};
ghost use Rattle.plane.specs.Faces.Halves.{Half};
ghost use Rattle.plane.specs.Faces.Replays.{replay};
ghost use Rattle.plane.specs.Forms.Boxes.{Box};
ghost use Rattle.plane.specs.Rule.Doubled.{IsDoubled, halved};
ghost use Rattle.plane.specs.Rule.LeftOut.{IsRestOf};
ghost use Rattle.plane.specs.Rule.Places.{point};
ghost use Rattle.plane.specs.Rule.Plans.{Plan, curve};
ghost use Rattle.plane.specs.Runs.Steps.{Run, Step};
ghost use Rattle.plane.specs.declared.kinds.Curve.{Curve};
ghost use Rattle.plane.specs.declared.kinds.Edge.{Edge};
ghost use Rattle.plane.specs.declared.kinds.Point.{Point};
ghost use Rattle.tubes.specs.Settled.{Breaks, IsSettledAt};
ghost use Rattle.left_out_arcs.specs.DoubledTubes.{all_twice};
ghost use Rattle.left_out_arcs.specs.Holds.{AreHeld, Hold, IsStandIn, KeepsFrom, box};
ghost use Rattle.left_out_arcs.specs.OwnTubes.{AreAllClear, AreAllFit, AreClear, AreEdgesOf, IsFit};
ghost use Rattle.left_out_arcs.specs.TubedRests.{IsTubedRest};
ghost use Rattle.own_levels.specs.Levels.{BreakBy, HasGroupBy, bays_by};
ghost use Rattle.own_levels.specs.OwnRests.{IsUnbrokenRest, MeetsRoom, rest_bays};

/// A curve with edges at its own level, and with two different ends, is fit.
pub fn curves_with_edges_are_fit()
    ensures { (g : Plan) (levels : ℕ → ℕ) (i : ℕ)
        → HasGroupBy g levels i → ((curve g i).from ≡ (curve g i).to → ⊥)
        → IsFit (curve g i) (bays_by g levels i) }
{}

/// Two such curves keep clear of each other where they do not break, and do not break where they
/// keep clear.
pub fn unbroken_curves_are_clear()
    ensures clear { (g : Plan) (levels : ℕ → ℕ) (i j : ℕ)
        → HasGroupBy g levels i → HasGroupBy g levels j → (i ≡ j → ⊥)
        → ((curve g i).from ≡ (curve g i).to → ⊥) → ((curve g j).from ≡ (curve g j).to → ⊥)
        → (BreakBy g levels i j → ⊥) → (BreakBy g levels j i → ⊥)
        → AreClear (curve g i) (bays_by g levels i) (curve g j) (bays_by g levels j) }
    ensures unbroken { (g : Plan) (levels : ℕ → ℕ) (i j : ℕ)
        → AreClear (curve g i) (bays_by g levels i) (curve g j) (bays_by g levels j)
        → AreClear (curve g j) (bays_by g levels j) (curve g i) (bays_by g levels i)
        → BreakBy g levels i j → ⊥ }
{}

/// So where all curves have edges at their levels and no two break, all are fit and keep clear:
/// `left_out_arcs::own_tubes` then gives a settled run.
pub fn unbroken_levels_settle()
    ensures fit { (g : Plan) (levels : ℕ → ℕ)
        → ((i : ℕ) → i < length g.curves → HasGroupBy g levels i)
        → ((i : ℕ) → i < length g.curves → (curve g i).from ≡ (curve g i).to → ⊥)
        → AreAllFit g (bays_by g levels) }
    ensures clear { (g : Plan) (levels : ℕ → ℕ)
        → ((i : ℕ) → i < length g.curves → HasGroupBy g levels i)
        → ((i : ℕ) → i < length g.curves → (curve g i).from ≡ (curve g i).to → ⊥)
        → ((i j : ℕ) → BreakBy g levels i j → ⊥) → AreAllClear g (bays_by g levels) }
{}

/// Of two curves at one level the pairs that break are those that break the level.
pub fn one_level_breaks()
    ensures { (g : Plan) (level i j : ℕ)
        → i < j → BreakBy g (λ k. level) i j ↔ Breaks g (λ k. level) i j }
{}

/// Where one level settles a drawing, each curve has edges at it, and no two curves break with it.
pub fn settled_levels_are_unbroken()
    ensures groups { (g : Plan) (level i : ℕ)
        → IsSettledAt g (λ k. level) → i < length g.curves → HasGroupBy g (λ k. level) i }
    ensures unbroken { (g : Plan) (level i j : ℕ)
        → IsSettledAt g (λ k. level) → BreakBy g (λ k. level) i j → ⊥ }
{
    level_breaks::laws::settled_is_unbroken();
}

/// A box that does not meet the room of a curve at its level is kept from that room.
pub fn boxes_keep_from_rooms()
    ensures { (g : Plan) (levels : ℕ → ℕ) (i : ℕ) (c : Curve) (b : Box)
        → (MeetsRoom b g levels i → ⊥) → KeepsFrom c (box b) (curve g i) (bays_by g levels i) }
{}

/// The curves of a rest that does not break are fit and keep clear of each other, and what is left
/// out is held; and in half units the rest is settled, with a complete run. So the laws of
/// `left_out_arcs` hold of it: those of closed faces, and those of the numbers of the faces.
pub fn unbroken_rests_are_held()
    ensures fit { (g r : Plan) (out : ℕ → Bool) (rest : IsRestOf g r out) (levels : ℕ → ℕ)
        (hold : ℕ → Hold)
        → IsUnbrokenRest g r out rest levels hold → AreAllFit r (rest_bays g levels rest.number) }
    ensures clear { (g r : Plan) (out : ℕ → Bool) (rest : IsRestOf g r out) (levels : ℕ → ℕ)
        (hold : ℕ → Hold)
        → IsUnbrokenRest g r out rest levels hold → AreAllClear r (rest_bays g levels rest.number) }
    ensures held { (g r : Plan) (out : ℕ → Bool) (rest : IsRestOf g r out) (levels : ℕ → ℕ)
        (hold : ℕ → Hold)
        → IsUnbrokenRest g r out rest levels hold
        → AreHeld g r out (rest_bays g levels rest.number) hold }
    ensures settled { (g r : Plan) (out : ℕ → Bool) (rest : IsRestOf g r out) (levels : ℕ → ℕ)
        (hold : ℕ → Hold) (e : Plan) (m : ℕ) (E : ℕ → Edge) (steps : List Step)
        → IsUnbrokenRest g r out rest levels hold → IsDoubled r e
        → AreEdgesOf e (all_twice (rest_bays g levels rest.number)) m E → Run m E steps
        → IsSettledDrawing e (all_twice (rest_bays g levels rest.number)) m E steps }
    ensures run { (g r : Plan) (out : ℕ → Bool) (rest : IsRestOf g r out) (levels : ℕ → ℕ)
        (hold : ℕ → Hold) (e : Plan) (m : ℕ) (E : ℕ → Edge)
        → IsUnbrokenRest g r out rest levels hold → IsDoubled r e
        → AreEdgesOf e (all_twice (rest_bays g levels rest.number)) m E
        → (steps : List Step) × Run m E steps }
    ensures tubed { (w : ℤ) (g r : Plan) (out : ℕ → Bool) (rest : IsRestOf g r out)
        (levels : ℕ → ℕ) (hold : ℕ → Hold) (e : Plan) (m : ℕ) (E : ℕ → Edge) (steps : List Step)
        (face : Half → ℕ) (spot : ℕ → Point) (number : ℕ → ℕ)
        → IsUnbrokenRest g r out rest levels hold → IsDoubled r e
        → AreEdgesOf e (all_twice (rest_bays g levels rest.number)) m E → Run m E steps
        → IsFaces (replay w m E steps) face
        → ((i : ℕ) → i < length g.curves → out i ≡ true
        → IsStandIn (curve g i) (hold i) (halved (point (spot i)))
        × PointHasFace e (all_twice (rest_bays g levels rest.number)) (replay w m E steps) face
        (spot i) (number i))
        → IsTubedRest w g r e out (rest_bays g levels rest.number) hold m E steps face spot number }
{}
