// What two bad edges of a level show.
ghost use Rattle.std.specs.Prelude.{◌≡◌, ◌⊎◌, ℕ, ◌<◌, Some, IfSome, length};
ghost use Rattle.plane.specs.Rule.Plans.{plan};
ghost use Rattle.tubes.specs.Settled.{IsSettledAt};
ghost use Rattle.area_search.specs.Settled.CaseRoots.{owner_at};
ghost use Rattle.area_search.specs.Level.LevelAnswers.{AreOfCurves, AreOfDrawing, IsShown};

use super::by_sweep::Shown;
use meetings::is_bad;
use plane::Drawing;
use tubes::Owner;

/// Two curves by their numbers, the lesser first.
#[derive(Clone, Copy, Debug, PartialEq, Eq)]
pub(crate) struct CurvePair {
    pub first: u32,
    pub second: u32,
}

/// What two edges show of a level that does not settle the drawing: that their curves are bad, or
/// no more than which two curves they stand for.
pub(crate) fn shown_by_edges(drawing: &Drawing, owners: &[Owner], first: u32, second: u32) -> Shown
    requires first { first < length owners.now }
    requires second { second < length owners.now }
    requires curves { AreOfCurves (plan drawing.now) owners.now }
    ensures { (level : ℕ) → (IsSettledAt (plan drawing.now) (λ n. level) → ⊥)
        → IsShown (plan drawing.now) level result }
{
    match in_order(curve_at(owners, first), curve_at(owners, second)) {
        Some(pair) => shown_by_curves(drawing, pair),
        None => Shown::Unsettled(None),
    }
}

fn curve_at(owners: &[Owner], edge: u32) -> u32
    requires { edge < length owners.now }
    ensures { result ≡ (owner_at owners.now edge).curve }
{
    owners[edge as usize].curve
}

// What the two curves show, whose edges are bad.
fn shown_by_curves(drawing: &Drawing, pair: CurvePair) -> Shown
    requires { AreOfDrawing (plan drawing.now) (Some pair) }
    ensures { (level : ℕ) → (IsSettledAt (plan drawing.now) (λ n. level) → ⊥)
        → IsShown (plan drawing.now) level result }
{
    if is_bad(drawing, pair.first, pair.second) {
        Shown::AtFault(pair)
    } else {
        Shown::Unsettled(Some(pair))
    }
}

// Two curves in order, where they are two.
fn in_order(one: u32, other: u32) -> Option<CurvePair>
    ensures order { IfSome result (λ p. p.first < p.second) }
    ensures second { IfSome result (λ p. (p.second ≡ one) ⊎ (p.second ≡ other)) }
{
    if one < other {
        Some(CurvePair {
            first: one,
            second: other,
        })
    } else if other < one {
        Some(CurvePair {
            first: other,
            second: one,
        })
    } else {
        None
    }
}
