// Ranks of half-edges: how many steps lead to a root.
ghost use Rattle.std.specs.Prelude.{◌≡◌, ◌↔◌, ℕ, ◌+◌, ◌<◌, ◌≤◌, [], IfOk, length};
ghost use Rattle.std.specs.Prelude.{slice_index, vec_len};
ghost use Rattle.std.specs.Prelude.{replicate, vec_capacity};
ghost use Rattle.plane.specs.Lists.{Has};
ghost use Rattle.half_edges.specs.HalfEdges.{size};
ghost use Rattle.faces.specs.Joins.{cells_of};
ghost use Rattle.faces.specs.Searching.{IsGraph, IsKept, unset};
ghost use Rattle.faces.specs.Ranking.{AreLater, AreRanks, AreRooted, HasRanked};
ghost use Rattle.faces.specs.Ranking.{IsRankReached};

use super::graph::{Graph, halves_of};
use half_edges::HalfEdgeId;
use ports::Memory;
use std::alloc::Global;

// The entry of a half-edge that has no rank yet.
const UNSET: u32 = u32::MAX;

/// The rank of each half-edge so far, and those that have one, in the order in which they got it.
/// Of the first `passed` of these all neighbours have one too.
#[derive(Drop)]
pub struct Ranks {
    pub ranks: Vec<u32>,
    pub queue: Vec<HalfEdgeId>,
    pub passed: usize,
}

impl Ranks {
    /// No half-edge has a rank.
    pub fn new(alloc: Global, halves: usize) -> Result<Ranks, Memory>
        ensures ranks { IfOk result (λ s. s.ranks.items ≡ replicate halves unset) }
        ensures queue { IfOk result (λ s. s.queue.items ≡ []) }
        ensures passed { IfOk result (λ s. s.passed ≡ 0) }
        ensures room { IfOk result (λ s. halves ≤ vec_capacity s.queue) }
    {
        let ranks = vec![in alloc; UNSET; halves]?;
        let queue = Vec::with_capacity(alloc, halves)?;
        Ok(Ranks {
            ranks,
            queue,
            passed: 0,
        })
    }

    fn rank_of(&self, h: HalfEdgeId) -> u32
        requires { h < length self.now.ranks.items }
        ensures { result ≡ slice_index self.now.ranks.items h }
    {
        self.ranks[h.0 as usize]
    }

    // Gives the half-edge the rank, where it has none, and puts it into the queue.
    fn reach(&mut self, h: HalfEdgeId, rank: u32)
        requires within { h < length self.old.ranks.items }
        requires room { slice_index self.old.ranks.items h ≡ unset
            → vec_len self.old.queue < vec_capacity self.old.queue }
        ensures reached { IsRankReached h rank self.old self.new }
        ensures passed { self.new.passed ≡ self.old.passed }
        ensures room { vec_capacity self.new.queue ≡ vec_capacity self.old.queue }
    {
        if self.ranks[h.0 as usize] == UNSET {
            self.ranks[h.0 as usize] = rank;
            self.queue.push_reserved(h);
        }
    }
}

// The rank of each half-edge. It takes time linear in the half-edges and the cells.
fn ranks_from(alloc: Global, graph: &Graph, roots: &[HalfEdgeId]) -> Result<Vec<u32>, Memory>
    requires graph { IsGraph graph.now }
    requires within { (h : ℕ) → Has h roots.now → h < size graph.now.mesh.now }
    requires rooted { AreRooted graph.now.mesh.now (cells_of graph.now.joins.now) roots.now }
    ensures { IfOk result (λ ranks. AreRanks graph.now.mesh.now (cells_of graph.now.joins.now)
        roots.now ranks.items) }
{
    let mut search = Ranks::new(alloc, halves_of(graph.mesh))?;
    reach_roots(graph, roots, &mut search);
    while search.passed < search.queue.len() {
        pass(graph, &mut search);
    }
    Ok(search.ranks)
}

fn key(half: &HalfEdgeId) -> u32 {
    half.0
}

// The half-edges by number.
fn sorted(alloc: Global, halves: &[HalfEdgeId]) -> Result<Vec<HalfEdgeId>, Memory>
    ensures { IfOk result (λ sorted. (h : ℕ) → Has h sorted.items ↔ Has h halves.now) }
{
    let mut sorted = Vec::from_slice(alloc, halves)?;
    sorted.sort_unstable_by_key(key);
    Ok(sorted)
}

/// The rank of each half-edge. The search begins from the roots by number and goes through memory
/// much as they stand there, since half-edges of one face mostly have numbers near each other.
pub fn ranks_by_number(
    alloc: Global,
    graph: &Graph,
    roots: &[HalfEdgeId],
) -> Result<Vec<u32>, Memory>
    requires graph { IsGraph graph.now }
    requires within { (h : ℕ) → Has h roots.now → h < size graph.now.mesh.now }
    requires rooted { AreRooted graph.now.mesh.now (cells_of graph.now.joins.now) roots.now }
    ensures { IfOk result (λ ranks. AreRanks graph.now.mesh.now (cells_of graph.now.joins.now)
        roots.now ranks.items) }
{
    let sorted = sorted(alloc, roots)?;
    ranks_from(alloc, graph, &sorted)
}

// Gives the roots rank 0.
fn reach_roots(graph: &Graph, roots: &[HalfEdgeId], search: &mut Ranks)
    requires within { (h : ℕ) → Has h roots.now → h < size graph.now.mesh.now }
    requires ranks { search.old.ranks.items ≡ replicate (size graph.now.mesh.now) unset }
    requires queue { search.old.queue.items ≡ [] }
    requires passed { search.old.passed ≡ 0 }
    requires room { size graph.now.mesh.now ≤ vec_capacity search.old.queue }
    ensures ranked { HasRanked graph.now.mesh.now (cells_of graph.now.joins.now) search.new }
    ensures root { (h : ℕ) → Has h roots.now → slice_index search.new.ranks.items h ≡ 0 }
    ensures zero { (h : ℕ) → h < size graph.now.mesh.now
        → slice_index search.new.ranks.items h ≡ 0 → Has h roots.now }
{
    for root in roots {
        search.reach(*root, 0);
    }
}

// Passes the next half-edge of the queue: all that one step leads to get a rank one more.
fn pass(graph: &Graph, search: &mut Ranks)
    requires graph { IsGraph graph.now }
    requires ranked { HasRanked graph.now.mesh.now (cells_of graph.now.joins.now) search.old }
    requires more { search.old.passed < length search.old.queue.items }
    ensures ranked { HasRanked graph.now.mesh.now (cells_of graph.now.joins.now) search.new }
    ensures passed { search.new.passed ≡ search.old.passed + 1 }
    ensures kept { IsKept search.old.ranks.items search.new.ranks.items }
    ensures later { AreLater search.old.ranks.items search.new.ranks.items }
{
    let h = search.queue[search.passed];
    let rank = search.rank_of(h) + 1;
    search.reach(graph.mesh.next(h), rank);
    search.reach(graph.mesh.prev(h), rank);
    for g in graph.joins.partners.row(h) {
        search.reach(*g, rank);
    }
    search.passed += 1;
}
