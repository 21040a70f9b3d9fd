// The edges that start at one point, by slope.
ghost use Rattle.std.specs.Prelude.{◌≡◌, ◌<◌, length};
ghost use Rattle.std.specs.List.Sorted.{IsPermutation, IsSortedBy};
ghost use Rattle.straight_predicates.specs.EdgeLists.{AreAllClose, AreSorted};
ghost use Rattle.straight_predicates.specs.Slopes.{IsRayOf, ray_cmp, ray_lt};

use super::directions::Direction;
use super::slopes::slope;
use super::turning::difference;
use plane::Edge;
use std::cmp::Ordering;

/// An edge with its direction.
#[derive(Clone, Copy)]
pub struct Ray {
    pub direction: Direction,
    pub edge: u32,
}

/// The ray of the edge of that number.
pub fn ray_of(edges: &[Edge], edge: u32) -> Ray
    requires known { edge < length edges.now }
    requires sorted { AreSorted edges.now }
    requires close { AreAllClose edges.now }
    ensures edge { result.edge ≡ edge }
    ensures direction { IsRayOf edges.now result }
{
    let Edge { low, high } = edges[edge as usize];
    let x = difference(high.x, low.x);
    let y = difference(high.y, low.y);
    Ray {
        direction: Direction { x, y },
        edge,
    }
}

fn by_slope(a: &Ray, b: &Ray) -> Ordering
    ensures { result ≡ ray_cmp a.now b.now }
{
    slope(&a.direction, &b.direction).then(a.edge.cmp(&b.edge))
}

/// Sorts rays by slope, and those of one slope by number.
pub fn sort_rays(rays: &mut Vec<Ray>)
    ensures permutation { IsPermutation rays.old.items rays.new.items }
    ensures sorted { IsSortedBy ray_lt rays.new.items }
{
    rays.sort_unstable_by(by_slope);
}
