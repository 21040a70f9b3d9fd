// A bad pair of a drawing.
ghost use Rattle.std.specs.Prelude.{◌≡◌, ℕ, None, IfOk, IfSome};
ghost use Rattle.plane.specs.Rule.BadPairs.{IsBadPair};
ghost use Rattle.plane.specs.Rule.Plans.{plan, curve};
ghost use Rattle.plane.specs.Rule.Triangles.{Apart};
ghost use Rattle.meetings.specs.CurvePairs.{AreBothStraight};

use super::arcs::arc_meeting;
use super::pairs::BadPair;
use super::straight_runs::{StraightRun, sweep_straights};
use plane::Drawing;
use ports::Memory;
use std::alloc::Global;

/// Some bad pair of a drawing, or None exactly where it has none: two straights where there are
/// such, else the least pair with a half arc. The only error is out of memory. It takes the time
/// of a sweep of the straights, O((m + events) log m) for m of them and what its live list moves,
/// and that of `arc_meeting`.
pub fn bad_meeting(alloc: Global, drawing: &Drawing) -> Result<Option<BadPair>, Memory>
    ensures bad { IfOk result (λ r. IfSome r (λ p.
        IsBadPair (plan drawing.now) p.first p.second)) }
    ensures not_apart { IfOk result (λ r. IfSome r (λ p. Apart (curve
        (plan drawing.now) p.first) (curve (plan drawing.now) p.second) → ⊥)) }
    ensures none { IfOk result (λ r. r ≡ None → (i j : ℕ)
        → IsBadPair (plan drawing.now) i j → ⊥) }
{
    plane::rule::bad_curves_are_not_apart();
    match straight_meeting(alloc, drawing)? {
        Some(pair) => Ok(Some(pair)),
        None => arc_meeting(alloc, drawing),
    }
}

// Two straights that are bad, or None exactly where there are none.
fn straight_meeting(alloc: Global, drawing: &Drawing) -> Result<Option<BadPair>, Memory>
    ensures bad { IfOk result (λ r. IfSome r (λ p.
        IsBadPair (plan drawing.now) p.first p.second)) }
    ensures none { IfOk result (λ r. r ≡ None → (i j : ℕ) → AreBothStraight
        (curve (plan drawing.now) i) (curve (plan drawing.now) j)
        → IsBadPair (plan drawing.now) i j → ⊥) }
{
    match sweep_straights(alloc, drawing)? {
        StraightRun::Bad(pair) => Ok(Some(pair)),
        StraightRun::Clear { .. } => Ok(None),
    }
}
