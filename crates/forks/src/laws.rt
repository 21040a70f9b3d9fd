// Laws of forks and of bent drawings.
ghost use Rattle.std.specs.Prelude.{◌≡◌, ◌↔◌, ℕ, ◌*◌, ◌<◌, ◌≤◌, ℤ, Bool, pos, ◌<ℤ◌, ◌≤ℤ◌, List};
ghost use Rattle.std.specs.Prelude.{get_or, length, sum_by};
ghost use Rattle.plane.specs.declared.kinds.Curve.{Curve};
ghost use Rattle.plane.specs.declared.kinds.Point.{Point};
ghost use Rattle.plane.specs.Forms.Bends.{square};
ghost use Rattle.plane.specs.Rule.HalfArcs.{HalfArc, HasCircle, power};
ghost use Rattle.plane.specs.Rule.Places.{point};
ghost use Rattle.plane.specs.declared.kinds.CurveKind.TheVariants.{HalfArc as OfArc, Straight};
ghost use Rattle.plane.specs.Forms.Bends.{IsClose};
ghost use Rattle.plane.specs.Rule.Curves.{IsOn};
ghost use Rattle.plane.specs.Rule.Places.{Place, Vector};
ghost use Rattle.plane.specs.Rule.Plans.{Plan, curve, object};
ghost use Rattle.plane.specs.Rule.Windows.{IsDrawn};
ghost use Rattle.forks.specs.Bent.{IsBentOf, weight};
ghost use Rattle.forks.specs.Grounds.{IsGround};
ghost use Rattle.forks.specs.Zones.{IsZone, LeadsOut};

/// A straight forks from a half arc at one of its ends at most, and has one bend there.
pub fn one_zone()
    ensures { (d : ℤ) (c s : Curve) (x y : Bool) (b e : Point)
        → IsZone d c s x b → IsZone d c s y e → (x ≡ y) × (b ≡ e) }
{}

/// A way leads out of a circle exactly where it ends strictly outside.
pub fn ways_lead_out()
    ensures { (h : HalfArc) (q : Point) → HasCircle h → pos 0 <ℤ square h.from q
        → LeadsOut h q ↔ (pos 0 <ℤ power h (point q)) }
{
    plane::bends::circles_from_either_end();
}

/// A drawing becomes one thing when its forks are bent.
pub fn one_bent()
    ensures drawing { (t : ℤ) (d g h : Plan) (os ps : List ℕ)
        → IsBentOf t d g os → IsBentOf t d h ps → g ≡ h }
    ensures origin { (t : ℤ) (d g h : Plan) (os ps : List ℕ)
        → IsBentOf t d g os → IsBentOf t d h ps → os ≡ ps }
{}

/// A drawing has one ground that is bent, and one that is not.
pub fn one_ground()
    ensures plan { (t : ℤ) (d g h : Plan) (is_bent : Bool) (os ps : List ℕ)
        → IsGround t d is_bent g os → IsGround t d is_bent h ps → g ≡ h }
    ensures origin { (t : ℤ) (d g h : Plan) (is_bent : Bool) (os ps : List ℕ)
        → IsGround t d is_bent g os → IsGround t d is_bent h ps → os ≡ ps }
{}

/// Where nothing is bent, which the number of curves shows, the drawing stays what it was.
pub fn nothing_bent()
    ensures { (t : ℤ) (d g : Plan) (os : List ℕ)
        → IsBentOf t d g os → length g.curves ≡ length d.curves → g ≡ d }
{}

/// In a drawing of straights nothing is bent.
pub fn straights_stay()
    ensures { (t : ℤ) (d g : Plan) (os : List ℕ) → IsBentOf t d g os
        → ((i : ℕ) → i < length d.curves → (curve d i).kind ≡ Straight) → g ≡ d }
{}

/// Where a half arc counts n times a straight, and n is at least 3, the curves of a bent drawing
/// count at most n for each curve of the drawing: as edges do of which a half arc has at most n.
pub fn bent_curves_are_few()
    ensures { (n : ℕ) (t : ℤ) (d g : Plan) (os : List ℕ) → 3 ≤ n → IsBentOf t d g os
        → sum_by (weight n) g.curves ≤ (n * length d.curves) }
{}

/// The curves of a bent drawing: at most three times as many as before, in the order of their
/// origins. Each stands for its origin, is of its kind and line, and is drawn in the window; every
/// place on it is at most the overlap from its origin, if that is a straight; and an object's point
/// that lies on it lies on its origin too.
pub fn bent_curves()
    ensures sizes { (t : ℤ) (d g : Plan) (os : List ℕ)
        → IsBentOf t d g os → length os ≡ length g.curves }
    ensures few { (t : ℤ) (d g : Plan) (os : List ℕ)
        → IsBentOf t d g os → length g.curves ≤ (3 * length d.curves) }
    ensures there { (t : ℤ) (d g : Plan) (os : List ℕ) → IsBentOf t d g os
        → (k : ℕ) → k < length g.curves → get_or os k 0 < length d.curves }
    ensures rising { (t : ℤ) (d g : Plan) (os : List ℕ) → IsBentOf t d g os
        → (k l : ℕ) → k ≤ l → l < length os → get_or os k 0 ≤ get_or os l 0 }
    ensures kind { (t : ℤ) (d g : Plan) (os : List ℕ) → IsBentOf t d g os
        → (k : ℕ) → k < length g.curves → (curve g k).kind ≡ (curve d (get_or os k 0)).kind }
    ensures line { (t : ℤ) (d g : Plan) (os : List ℕ) → IsBentOf t d g os
        → (k : ℕ) → k < length g.curves → (curve g k).line ≡ (curve d (get_or os k 0)).line }
    ensures drawn { (t : ℤ) (d g : Plan) (os : List ℕ) → IsBentOf t d g os
        → (k : ℕ) → k < length g.curves
        → IsDrawn d.window.low d.window.high (curve d (get_or os k 0))
        → IsDrawn d.window.low d.window.high (curve g k) }
    ensures close { (t : ℤ) (d g : Plan) (os : List ℕ) → IsBentOf t d g os
        → (k : ℕ) → k < length g.curves → (curve d (get_or os k 0)).kind ≡ Straight
        → pos 0 ≤ℤ t → ((curve d (get_or os k 0)).from ≡ (curve d (get_or os k 0)).to → ⊥)
        → (z : Vector) → Place z → IsOn (curve g k) z
        → IsClose t (curve d (get_or os k 0)).from (curve d (get_or os k 0)).to z }
    ensures points { (t : ℤ) (d g : Plan) (os : List ℕ) → IsBentOf t d g os
        → (k : ℕ) → k < length g.curves → (j : ℕ) → j < length d.points
        → IsOn (curve g k) (point (object d j))
        → IsOn (curve d (get_or os k 0)) (point (object d j)) }
{}

/// A half arc of a bent drawing is its origin.
pub fn half_arcs_stay()
    ensures { (t : ℤ) (d g : Plan) (os : List ℕ) → IsBentOf t d g os
        → (k : ℕ) → k < length g.curves → (curve g k).kind ≡ OfArc
        → curve g k ≡ curve d (get_or os k 0) }
{}
