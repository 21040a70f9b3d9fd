// The sweep of a drawing's straights.
ghost use Rattle.std.specs.Prelude.{◌≡◌, ℕ, ◌<◌, IfOk, length, slice_index};
ghost use Rattle.plane.specs.Rule.Plans.{plan};
ghost use Rattle.line_sweep.specs.Kinds.{AreBad};
ghost use Rattle.meetings.specs.StraightEdges.{IsRising};
ghost use Rattle.meetings.specs.StraightRuns.{IsStraightRun};

use super::edges::{Straights, straight_edges};
use super::pairs::BadPair;
use line_sweep::{SweepRefusal, Swept, sweep};
use plane::Drawing;
use ports::Memory;
use std::alloc::Global;

/// The edges of a drawing's straights with their complete run, or two straights that are bad.
#[derive(Drop)]
pub enum StraightRun {
    Clear { straights: Straights, swept: Swept },
    Bad(BadPair),
}

/// The run of the straights' edges, or two straights that are bad exactly where there are such. The
/// only error is out of memory. It takes the time and the memory of a sweep of the straights.
pub fn sweep_straights(alloc: Global, drawing: &Drawing) -> Result<StraightRun, Memory>
    ensures { IfOk result (IsStraightRun (plan drawing.now)) }
{
    let straights = straight_edges(alloc, drawing)?;
    match sweep(alloc, &straights.edges) {
        Ok(swept) => Ok(StraightRun::Clear { straights, swept }),
        Err(SweepRefusal::Bad { first, second }) => {
            Ok(StraightRun::Bad(in_order(&straights, first, second)))
        }
        Err(SweepRefusal::Memory) => Err(Memory),
    }
}

// The numbers of two edges' curves, the lesser first.
fn in_order(straights: &Straights, first: u32, second: u32) -> BadPair
    requires bad { AreBad straights.now.edges.items first second }
    requires size { length straights.now.numbers.items ≡ length straights.now.edges.items }
    requires rising { IsRising straights.now.numbers.items }
    ensures bad { (a b : ℕ) × AreBad straights.now.edges.items a b
        × (result.first ≡ slice_index straights.now.numbers.items a)
        × (result.second ≡ slice_index straights.now.numbers.items b) }
    ensures order { result.first < result.second }
{
    let a = straights.numbers[first as usize];
    let b = straights.numbers[second as usize];
    if a < b {
        BadPair {
            first: a,
            second: b,
        }
    } else {
        BadPair {
            first: b,
            second: a,
        }
    }
}
