// One face spreads over all half-edges that are joined.
ghost use Rattle.std.specs.Prelude.{◌≡◌, ◌+◌, ◌<◌, length};
ghost use Rattle.faces.specs.Joins.{cells_of};
ghost use Rattle.faces.specs.Searching.{HasSearched, IsGiven, IsGraph, IsKept};
ghost use Rattle.faces.specs.Searching.{IsWaiting, unset};

use super::graph::Graph;
use super::searching::Search;
use half_edges::FaceId;

/// Gives the face to all half-edges that are joined with those in the queue that are not passed.
pub fn spread(graph: &Graph, search: &mut Search, face: FaceId)
    requires graph { IsGraph graph.now }
    requires face { face < unset }
    requires searched { HasSearched graph.now.mesh.now (cells_of graph.now.joins.now) search.old }
    requires waiting { IsWaiting search.old face }
    ensures searched { HasSearched graph.now.mesh.now (cells_of graph.now.joins.now) search.new }
    ensures done { search.new.passed ≡ length search.new.queue.items }
    ensures kept { IsKept search.old.faces.items search.new.faces.items }
    ensures given { IsGiven face search.old.faces.items search.new.faces.items }
{
    while search.passed < search.queue.len() {
        pass(graph, search, face);
    }
}

// Passes the next half-edge of the queue: all that one step leads to get its face.
fn pass(graph: &Graph, search: &mut Search, face: FaceId)
    requires graph { IsGraph graph.now }
    requires face { face < unset }
    requires searched { HasSearched graph.now.mesh.now (cells_of graph.now.joins.now) search.old }
    requires waiting { IsWaiting search.old face }
    requires more { search.old.passed < length search.old.queue.items }
    ensures searched { HasSearched graph.now.mesh.now (cells_of graph.now.joins.now) search.new }
    ensures waiting { IsWaiting search.new face }
    ensures passed { search.new.passed ≡ search.old.passed + 1 }
    ensures kept { IsKept search.old.faces.items search.new.faces.items }
    ensures given { IsGiven face search.old.faces.items search.new.faces.items }
{
    let h = search.queue[search.passed];
    search.reach(graph.mesh.next(h), face);
    search.reach(graph.mesh.prev(h), face);
    for g in graph.joins.partners.row(h) {
        search.reach(*g, face);
    }
    search.passed += 1;
}
