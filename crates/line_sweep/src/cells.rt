// The edges that become neighbours at an event, and whether two of them are bad.
ghost use Rattle.std.specs.Prelude.{◌≡◌, ℕ, ◌<◌, IfErr, OnOk, Some, length};
ghost use Rattle.plane.specs.Forms.Meets.{Bad, Fine};
ghost use Rattle.straight_predicates.specs.EdgeLists.{edge_of, AreSorted, AreAllClose};
ghost use Rattle.line_sweep.specs.OpenGaps.{AreFine, AreNeighbours};

use plane::Edge;
use straight_predicates::{Meet, meet};

/// Tests each two neighbours from the lower edge over the starting ones to the upper edge. It takes
/// no memory, and a meeting for each two.
pub fn test_neighbours(
    edges: &[Edge],
    lower: Option<u32>,
    starting: &[u32],
    upper: Option<u32>,
) -> Result<(), (u32, u32)>
    requires sorted { AreSorted edges.now }
    requires close { AreAllClose edges.now }
    requires known { (d e : ℕ) → AreNeighbours lower starting.now upper d e
        → (d < length edges.now) × (e < length edges.now) }
    ensures fine { OnOk result (AreFine edges.now lower starting.now upper) }
    ensures neighbours { IfErr result
        (λ pair. AreNeighbours lower starting.now upper pair.0 pair.1) }
    ensures bad { IfErr result (λ pair. Bad (edge_of edges.now pair.0) (edge_of edges.now pair.1)) }
{
    let mut below = lower;
    for edge in starting {
        match test_pair(edges, below, Some(*edge)) {
            Ok(()) => {}
            Err(pair) => return Err(pair),
        }
        below = Some(*edge);
    }
    test_pair(edges, below, upper)
}

// Tests the two edges, where there are two.
fn test_pair(edges: &[Edge], lower: Option<u32>, upper: Option<u32>) -> Result<(), (u32, u32)>
    requires sorted { AreSorted edges.now }
    requires close { AreAllClose edges.now }
    requires known { (d e : ℕ) → lower ≡ Some d → upper ≡ Some e
        → (d < length edges.now) × (e < length edges.now) }
    ensures fine { OnOk result ((d e : ℕ) → lower ≡ Some d → upper ≡ Some e
        → Fine (edge_of edges.now d) (edge_of edges.now e)) }
    ensures lower { IfErr result (λ pair. lower ≡ Some pair.0) }
    ensures upper { IfErr result (λ pair. upper ≡ Some pair.1) }
    ensures bad { IfErr result (λ pair. Bad (edge_of edges.now pair.0) (edge_of edges.now pair.1)) }
{
    let (Some(below), Some(above)) = (lower, upper) else {
        return Ok(());
    };
    if meet(&edges[below as usize], &edges[above as usize]) == Meet::Bad {
        return Err((below, above));
    }
    Ok(())
}
