// The edges of the straights of a drawing.
ghost use Rattle.std.specs.Prelude.{◌≡◌, ◌↔◌, IfOk, IsTrue, length};
ghost use Rattle.plane.specs.declared.kinds.CurveKind.TheVariants as kind;
ghost use Rattle.meetings.specs.StraightEdges.{AreStraightsTo};

use plane::{Curve, CurveKind, Drawing, Edge};
use ports::Memory;
use std::alloc::Global;
use straight_predicates::edge_between;

/// Edges, each with the number of its curve.
#[derive(Drop)]
pub struct Straights {
    pub edges: Vec<Edge>,
    pub numbers: Vec<u32>,
}

/// The edge between the two ends of each straight, in the order of the curves.
pub fn straight_edges(alloc: Global, drawing: &Drawing) -> Result<Straights, Memory>
    ensures { IfOk result (λ s. AreStraightsTo drawing.now.curves.items
        (length drawing.now.curves.items) s.edges.items s.numbers.items) }
{
    let mut edges = Vec::with_capacity(alloc, drawing.curves.len())?;
    let mut numbers = Vec::with_capacity(alloc, drawing.curves.len())?;
    for (number, curve) in drawing.curves.iter().enumerate() {
        if is_straight(curve) {
            edges.push(edge_between(curve.from, curve.to))?;
            numbers.push(number as u32)?;
        }
    }
    Ok(Straights { edges, numbers })
}

fn is_straight(curve: &Curve) -> bool
    ensures { IsTrue result ↔ (curve.now.kind ≡ kind.Straight) }
{
    curve.kind == CurveKind::Straight
}
