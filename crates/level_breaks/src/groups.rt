// The edges of a curve at a level.
ghost use Rattle.std.specs.Prelude.{◌≡◌, ◌<◌, ◌≤◌, ◌++◌, ◌∷◌, [], Some, length};
ghost use Rattle.straight_predicates.specs.EdgeLists.{edge_of};
ghost use Rattle.tubes.specs.TubedEdges.{AreDistinct, chain_edges};
ghost use Rattle.level_breaks.specs.Groups.{IsEdged, bays_of, edges_with, nth};

use near_pairs::Reach;
use plane::{Curve, Edge, Point};
use straight_predicates::edge_between;
use tubes::Tube;

/// A straight, or a half arc with its tube; and a box that holds the ends of its edges.
#[derive(Clone, Copy)]
pub struct Group<'a> {
    pub curve: &'a Curve,
    pub tube: &'a Option<Tube>,
    pub reach: Reach,
}

/// How many outer points the curve has; a straight has none.
pub fn bay_count(group: &Group) -> usize
    ensures { result ≡ bays_of group.now.tube.now }
{
    match group.tube {
        Some(tube) => tube.outer.len(),
        None => 0,
    }
}

/// The edge of a number, of a straight its one edge; of a half arc first come those of the inner
/// chain.
pub fn edge_at(group: &Group, number: usize) -> Edge
    requires edged { IsEdged group.now.curve.now group.now.tube.now }
    requires there { number < length (edges_with group.now.curve.now group.now.tube.now) }
    ensures { result
        ≡ edge_of (edges_with group.now.curve.now group.now.tube.now) number }
{
    match group.tube {
        Some(tube) => tube_edge(group.curve, tube, number),
        None => edge_between(group.curve.from, group.curve.to),
    }
}

fn tube_edge(curve: &Curve, tube: &Tube, number: usize) -> Edge
    requires edged { IsEdged curve.now (Some tube.now) }
    requires there { number < length (edges_with curve.now (Some tube.now)) }
    ensures { result ≡ edge_of (edges_with curve.now (Some tube.now)) number }
{
    let bays = tube.outer.len();
    if number < bays {
        edge_between(tube.inner[number], tube.inner[number + 1])
    } else {
        outer_edge(curve, &tube.outer, number - bays)
    }
}

// The edge of a number of the outer chain.
fn outer_edge(curve: &Curve, outer: &[Point], number: usize) -> Edge
    requires there { number ≤ length outer.now }
    requires distinct { AreDistinct curve.now.from (outer.now ++ curve.now.to ∷ []) }
    ensures { result
        ≡ edge_of (chain_edges curve.now.from (outer.now ++ curve.now.to ∷ [])) number }
{
    edge_between(start(curve, outer, number), end(curve, outer, number))
}

pub fn start(curve: &Curve, outer: &[Point], number: usize) -> Point
    requires { number ≤ length outer.now }
    ensures { result ≡ nth (curve.now.from ∷ outer.now) number }
{
    if number == 0 {
        curve.from
    } else {
        outer[number - 1]
    }
}

pub fn end(curve: &Curve, outer: &[Point], number: usize) -> Point
    requires { number ≤ length outer.now }
    ensures { result ≡ nth (outer.now ++ curve.now.to ∷ []) number }
{
    if number < outer.len() {
        outer[number]
    } else {
        curve.to
    }
}
