// Laws of ranks.
ghost use Rattle.std.specs.Prelude.{◌≡◌, ℕ, ◌<◌, ◌≤◌, List, slice_index};
ghost use Rattle.plane.specs.Lists.{Has};
ghost use Rattle.plane.specs.Runs.Gaps.{Gap};
ghost use Rattle.half_edges.specs.HalfEdges.{HalfEdges, size};
ghost use Rattle.half_edges.specs.Meshes.{IsMesh};
ghost use Rattle.faces.specs.Joined.{AreKnown};
ghost use Rattle.faces.specs.Ranking.{AreRanks, LeadsIn};

/// The rank of a half-edge is the least number of steps that lead from it to a root: no fewer steps
/// lead to any, and so many lead to one.
pub fn ranks_are_least()
    ensures least { (mesh : HalfEdges) (cells : List Gap) (roots ranks : List ℕ) → IsMesh mesh
        → AreKnown (size mesh) cells → AreRanks mesh cells roots ranks → (n h r : ℕ)
        → h < size mesh → Has r roots → LeadsIn mesh cells n h r → slice_index ranks h ≤ n }
    ensures reached { (mesh : HalfEdges) (cells : List Gap) (roots ranks : List ℕ) → IsMesh mesh
        → AreKnown (size mesh) cells → AreRanks mesh cells roots ranks → (n h : ℕ)
        → h < size mesh → slice_index ranks h ≡ n
        → (r : ℕ) × Has r roots × LeadsIn mesh cells n h r }
{}
