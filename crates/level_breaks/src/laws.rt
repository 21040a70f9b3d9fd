// Laws of levels and of the pairs that break them.
ghost use Rattle.std.specs.Prelude.{◌≡◌, ◌⊎◌, ℕ, ◌<◌, length};
ghost use Rattle.plane.specs.Rule.BadPairs.{IsBadPair};
ghost use Rattle.plane.specs.Rule.Plans.{IsHalfArc, Plan, curve};
ghost use Rattle.tubes.specs.DrawnEdges.{AreStraights};
ghost use Rattle.tubes.specs.Settled.{Breaks, IsSettledAt};
ghost use Rattle.level_breaks.specs.LevelLists.{HasNoBadStraights};

/// No two curves break a level that settles the drawing.
pub fn settled_is_unbroken()
    ensures { (d : Plan) (level : ℕ → ℕ) (i j : ℕ) → IsSettledAt d level → Breaks d level i j → ⊥ }
{
    plane::sweeps::meetings_are_decided();
}

/// Whether two curves break a level does not depend on their numbers, nor on what else is drawn.
pub fn breaks_are_of_curves()
    ensures { (d e : Plan) (level i j a b : ℕ) → a < length e.curves → b < length e.curves
        → curve d i ≡ curve e a → curve d j ≡ curve e b → (i ≡ j → ⊥) → (a ≡ b → ⊥)
        → Breaks d (λ n. level) i j → Breaks e (λ n. level) a b }
{}

/// Where no two straights are bad, one of two that break a level is a half arc.
pub fn breaks_have_half_arcs()
    ensures { (d : Plan) (level : ℕ → ℕ) (i j : ℕ) → HasNoBadStraights d
        → Breaks d level i j → IsHalfArc d i ⊎ IsHalfArc d j }
{
    plane::rule::edges_of_straights();
}

/// Where no two curves are bad, one of two that break a level is a half arc.
pub fn undecided_has_half_arc()
    ensures { (d : Plan) (level : ℕ → ℕ) (i j : ℕ) → ((k l : ℕ) → IsBadPair d k l → ⊥)
        → Breaks d level i j → IsHalfArc d i ⊎ IsHalfArc d j }
{
    plane::rule::edges_of_straights();
}

/// A drawing of straights of which no two are bad is settled at level 0.
pub fn straights_are_settled()
    ensures { (d : Plan) → AreStraights d → ((k l : ℕ) → IsBadPair d k l → ⊥)
        → IsSettledAt d (λ k. 0) }
{
    plane::rule::edges_of_straights();
    plane::sweeps::meetings_are_decided();
    plane::settled::own_edges_of_tubes();
    tubes::laws::edges_of_tubed_drawing();
}
