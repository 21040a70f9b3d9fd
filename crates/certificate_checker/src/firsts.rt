// The first edges of curves.
ghost use Rattle.std.specs.Prelude.{◌≡◌, ◌<◌, ◌≤◌, ◌^◌, IfOk, length};
ghost use Rattle.plane.specs.CurveRuns.TubedRuns.{edges_of};
ghost use Rattle.plane.specs.Rule.Curves.{arc};
ghost use Rattle.plane.specs.Rule.Plans.{plan};
ghost use Rattle.plane.specs.declared.kinds.CurveKind.TheVariants as kind;
ghost use Rattle.tubes.specs.Settled.{HaveTubes, edges_at};
ghost use Rattle.tubes.specs.TubedEdges.{HasTube, bays_at};
ghost use Rattle.certificate_checker.specs.Cases.{AreFirsts};

use super::chains::bay_count;
use plane::{Curve, CurveKind, Drawing};
use ports::Memory;
use std::alloc::Global;

/// For each curve the number of its first edge.
pub fn first_edges(alloc: Global, drawing: &Drawing, level: u8) -> Result<Vec<u32>, Memory>
    requires level { level ≤ 5 }
    requires tubes { HaveTubes (plan drawing.now) (λ n. level) }
    requires few { length (edges_at (plan drawing.now) (λ n. level)) < 2 ^ 31 }
    ensures { IfOk result (λ firsts. AreFirsts (plan drawing.now) level firsts.items) }
{
    let mut firsts = Vec::with_capacity(alloc, drawing.curves.len())?;
    let mut next = 0;
    for i in 0..drawing.curves.len() {
        firsts.push(next)?;
        next += edge_count(&drawing.curves[i], level);
    }
    Ok(firsts)
}

/// How many edges the drawing has at the level where all its half arcs have tubes. None is made.
pub fn edge_total(drawing: &Drawing, level: u8) -> usize
    requires level { level ≤ 5 }
    ensures total { HaveTubes (plan drawing.now) (λ n. level)
        → result ≡ length (edges_at (plan drawing.now) (λ n. level)) }
    ensures few { result < 2 ^ 38 }
{
    let mut total = 0;
    for i in 0..drawing.curves.len() {
        total += edge_count(&drawing.curves[i], level) as usize;
    }
    total
}

// How many edges stand for the curve where it has a tube, if it is a half arc.
fn edge_count(curve: &Curve, level: u8) -> u32
    requires level { level ≤ 5 }
    ensures count { (curve.now.kind ≡ kind.HalfArc → HasTube (arc curve.now) level)
        → result ≡ length (edges_of 0 curve.now.kind curve.now (bays_at (arc curve.now) level)) }
    ensures few { result ≤ 129 }
{
    match curve.kind {
        CurveKind::Straight => 1,
        CurveKind::HalfArc => 2 * bay_count(level) + 1,
    }
}
