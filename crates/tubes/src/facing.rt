// Which side of each edge faces its tube.
ghost use Rattle.std.specs.Prelude.{◌≡◌, ◌≤◌, ℕ, IfOk};
ghost use Rattle.plane.specs.CurveRuns.TubedRuns.{runs_on, third_is_left};
ghost use Rattle.plane.specs.Rule.Curves.{arc};
ghost use Rattle.plane.specs.Rule.HalfArcs.{HasCircle};
ghost use Rattle.plane.specs.Rule.Plans.{plan};
ghost use Rattle.tubes.specs.Facings.{HasSmallTube, IsSmall, is_under, side_of};
ghost use Rattle.tubes.specs.Settled.{AreFacings};
ghost use Rattle.tubes.specs.TubedEdges.{IsTubedList};
ghost use Rattle.tubes.specs.declared.kinds.Part.TheVariants as part;

use super::kinds::{EdgeList, Facing, Part};
use super::numbers::{difference, dot};
use plane::{Curve, Drawing, Edge};
use ports::Memory;
use std::alloc::Global;
use straight_predicates::{Turn, turn};

/// Which side of each edge faces the tube of its curve from within, in one pass; of the list of the
/// drawing's edges at some level. One byte for each edge. The only error is out of memory.
pub fn facings(alloc: Global, drawing: &Drawing, list: &EdgeList) -> Result<Vec<Facing>, Memory>
    requires { (level : ℕ → ℕ) × ((i : ℕ) → level i ≤ 5) × IsTubedList (plan drawing.now) level list.now }
    ensures { IfOk result (λ facings. (level : ℕ → ℕ) → IsTubedList (plan drawing.now) level list.now
        → AreFacings (plan drawing.now) level facings.items) }
{
    let mut facings = Vec::with_capacity(alloc, list.edges.len())?;
    for (e, edge) in list.edges.iter().enumerate() {
        let owner = list.owners[e];
        let curve = &drawing.curves[owner.curve as usize];
        facings.push(facing(owner.part, curve, edge))?;
    }
    Ok(facings)
}

fn facing(part: Part, curve: &Curve, edge: &Edge) -> Facing
    requires { HasSmallTube part curve.now edge.now }
    ensures { result ≡ side_of part curve.now edge.now }
{
    match part {
        Part::Straight => Facing::Neither,
        Part::Inner => inner_facing(curve, edge),
        Part::Outer => outer_facing(curve, edge),
    }
}

fn inner_facing(curve: &Curve, edge: &Edge) -> Facing
    requires { IsSmall curve.now edge.now }
    ensures { result ≡ side_of part.Inner curve.now edge.now }
{
    if is_under(curve, edge) {
        Facing::Below
    } else {
        Facing::Above
    }
}

fn outer_facing(curve: &Curve, edge: &Edge) -> Facing
    requires { IsSmall curve.now edge.now }
    ensures { result ≡ side_of part.Outer curve.now edge.now }
{
    if is_under(curve, edge) {
        Facing::Above
    } else {
        Facing::Below
    }
}

// Whether the tube lies below an edge of its inner chain.
fn is_under(curve: &Curve, edge: &Edge) -> bool
    requires { IsSmall curve.now edge.now }
    ensures { result ≡ is_under curve.now edge.now }
{
    if third_is_left(curve) {
        runs_on(curve, edge)
    } else {
        !runs_on(curve, edge)
    }
}

// Whether the third point is on the left of the way from the half arc's first end to the other.
fn third_is_left(curve: &Curve) -> bool
    requires { HasCircle (arc curve.now) }
    ensures { result ≡ third_is_left curve.now }
{
    matches!(turn(curve.from, curve.to, curve.third), Turn::Left)
}

// Whether the edge goes the way of the chord, from its low end to its high one. With the chord
// below 2^26 and the edge below 2^29 the sum is below 2^56.
fn runs_on(curve: &Curve, edge: &Edge) -> bool
    requires { IsSmall curve.now edge.now }
    ensures { result ≡ runs_on curve.now edge.now }
{
    let wide = difference(curve.to.x, curve.from.x);
    let tall = difference(curve.to.y, curve.from.y);
    let right = difference(edge.high.x, edge.low.x);
    let above = difference(edge.high.y, edge.low.y);
    dot(wide, tall, right, above) > 0
}
