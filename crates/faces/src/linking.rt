// Links: how each half-edge leads to a root.
ghost use Rattle.std.specs.Prelude.{◌≡◌, ◌⊎◌, ◌↔◌, ℕ, ◌+◌, ◌-◌, ◌^◌, ◌<◌, ◌≤◌, List, IfOk, IsTrue};
ghost use Rattle.std.specs.Prelude.{length, slice_index};
ghost use Rattle.plane.specs.Lists.{Has};
ghost use Rattle.plane.specs.Runs.Gaps.{Gap};
ghost use Rattle.half_edges.specs.HalfEdges.{size};
ghost use Rattle.line_sweep.specs.Kinds.{gaps_of};
ghost use Rattle.faces.specs.Joined.{AreKnown};
ghost use Rattle.faces.specs.Joins.{AreJoins, cells_of};
ghost use Rattle.faces.specs.Ranking.{AreNotes, AreRanks, AreRooted, HasRank, IsLink};
ghost use Rattle.faces.specs.Ranking.{IsNote};
ghost use Rattle.faces.specs.Searching.{IsGraph};

use super::graph::{Graph, halves_of};
use super::joins::Joins;
use super::labelled::Labelled;
use super::ranks::ranks_by_number;
use certificate::{HalfNote, Link};
use half_edges::HalfEdgeId;
use line_sweep::Cell;
use ports::Memory;
use std::alloc::Global;

/// A note for each half-edge: its face as the label, how few steps lead from it to a root as the
/// rank, and the first step of such a way as the link. A step goes to the next or the previous
/// half-edge or across a cell between two edges; where several begin such a way, the next one
/// counts before the previous one, and that before those across cells, by number. The only error is
/// out of memory. It takes time linear in the half-edges and the cells, and p log p for p roots,
/// and for a while 12 bytes a half-edge, 8 a cell, 4 a half-edge at the border and 4 a root; the
/// notes take 16 bytes a half-edge.
pub fn links(
    alloc: Global,
    labelled: &Labelled,
    cells: &[Cell],
    roots: &[HalfEdgeId],
) -> Result<Vec<HalfNote>, Memory>
    requires known { AreKnown (size labelled.now.mesh) (gaps_of cells.now) }
    requires within { (h : ℕ) → Has h roots.now → h < size labelled.now.mesh }
    requires rooted { AreRooted labelled.now.mesh (gaps_of cells.now) roots.now }
    ensures { IfOk result (λ notes. AreNotes labelled.now.mesh (gaps_of cells.now)
        roots.now notes.items) }
{
    let joins = Joins::new(alloc, halves_of(&labelled.mesh), cells)?;
    links_by_joins(alloc, labelled, &joins, roots)
}

/// The notes as `links` gives them, by the joins of the cells, which `label_with_joins` answers.
/// The only error is out of memory. It takes the time of `links` less that of the joins, and for a
/// while 8 bytes a half-edge and 4 a root; the notes take 16 bytes a half-edge.
pub fn links_by_joins(
    alloc: Global,
    labelled: &Labelled,
    joins: &Joins,
    roots: &[HalfEdgeId],
) -> Result<Vec<HalfNote>, Memory>
    requires joins { (cells : List Gap) × AreJoins (size labelled.now.mesh) cells joins.now
        × AreRooted labelled.now.mesh cells roots.now }
    requires within { (h : ℕ) → Has h roots.now → h < size labelled.now.mesh }
    ensures { IfOk result (λ notes. (cells : List Gap)
        → AreJoins (size labelled.now.mesh) cells joins.now
        → AreNotes labelled.now.mesh cells roots.now notes.items) }
{
    let graph = Graph::new(&labelled.mesh, joins);
    let ranks = ranks_by_number(alloc, &graph, roots)?;
    notes_of(alloc, &graph, &ranks)
}

// The notes of ranks from some roots.
fn notes_of(alloc: Global, graph: &Graph, ranks: &[u32]) -> Result<Vec<HalfNote>, Memory>
    requires graph { IsGraph graph.now }
    requires ranks { (roots : List ℕ) × AreRanks graph.now.mesh.now (cells_of graph.now.joins.now)
        roots ranks.now }
    ensures { IfOk result (λ notes. (roots : List ℕ) → AreRanks graph.now.mesh.now
        (cells_of graph.now.joins.now) roots ranks.now → AreNotes graph.now.mesh.now
        (cells_of graph.now.joins.now) roots notes.items) }
{
    let mut notes = Vec::with_capacity(alloc, ranks.len())?;
    for h in 0..ranks.len() {
        notes.push(note_of(graph, ranks, HalfEdgeId(h as u32)))?;
    }
    Ok(notes)
}

fn note_of(graph: &Graph, ranks: &[u32], h: HalfEdgeId) -> HalfNote
    requires graph { IsGraph graph.now }
    requires ranks { (roots : List ℕ) × AreRanks graph.now.mesh.now (cells_of graph.now.joins.now)
        roots ranks.now }
    requires within { h < size graph.now.mesh.now }
    ensures { IsNote graph.now.mesh.now (cells_of graph.now.joins.now) ranks.now h result }
{
    HalfNote {
        label: graph.mesh.face(h).0,
        link: link_of(graph, ranks, h),
        rank: rank_of(ranks, h),
    }
}

// The link to the first half-edge whose rank is one less, or none where the rank is 0.
fn link_of(graph: &Graph, ranks: &[u32], h: HalfEdgeId) -> Link
    requires graph { IsGraph graph.now }
    requires ranks { (roots : List ℕ) × AreRanks graph.now.mesh.now (cells_of graph.now.joins.now)
        roots ranks.now }
    requires within { h < size graph.now.mesh.now }
    ensures { IsLink graph.now.mesh.now (cells_of graph.now.joins.now) ranks.now h result }
{
    let rank = rank_of(ranks, h);
    if rank == 0 {
        return Link::Root;
    }
    let wanted = rank - 1;
    if rank_of(ranks, graph.mesh.next(h)) == wanted {
        return Link::Next;
    }
    if rank_of(ranks, graph.mesh.prev(h)) == wanted {
        return Link::Prev;
    }
    Link::Across(least_of_rank(ranks, graph.joins.partners.row(h), wanted))
}

fn rank_of(ranks: &[u32], h: HalfEdgeId) -> u32
    requires { h < length ranks.now }
    ensures { result ≡ slice_index ranks.now h }
{
    ranks[h.0 as usize]
}

// The least number of the half-edges that have this rank, or the greatest number of all where none
// has it.
fn least_of_rank(ranks: &[u32], row: &[HalfEdgeId], rank: u32) -> u32
    requires { (i : ℕ) → i < length row.now → slice_index row.now i < length ranks.now }
    ensures least { (i : ℕ) → i < length row.now
        → slice_index ranks.now (slice_index row.now i) ≡ rank → result ≤ slice_index row.now i }
    ensures is { (result ≡ 2 ^ 32 - 1) ⊎ HasRank ranks.now row.now rank result }
{
    let mut least = u32::MAX;
    for g in row {
        if rank_of(ranks, *g) == rank {
            least = least.min(g.0);
        }
    }
    least
}
