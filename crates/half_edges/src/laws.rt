// Laws of meshes and of linking, over plain lists. The layers above cite their clauses.
ghost use Rattle.std.specs.Prelude.{◌≡◌, ◌≢◌, ℕ, ◌<◌, ◌*◌, ◌+◌, List, slice_index};
ghost use Rattle.half_edges.specs.HalfEdges.{HalfEdges, size, next_of, origin_of, twin_of};
ghost use Rattle.half_edges.specs.Meshes.{IsMesh, AgreesAlong, without_edges, with_edge};
ghost use Rattle.half_edges.specs.Stars.{center, IsStar, IsLoose, IsUnlinked, IsLinked};
ghost use Rattle.half_edges.specs.Stars.{TurnsThrough, turned};
ghost use Rattle.half_edges.specs.Cycles.{Leads, Parts};

/// The two halves of an edge are each other's twins.
pub fn twins()
    ensures even { (e : ℕ) → twin_of (2 * e) ≡ 2 * e + 1 }
    ensures odd { (e : ℕ) → twin_of (2 * e + 1) ≡ 2 * e }
    ensures back { (h : ℕ) → twin_of (twin_of h) ≡ h }
    ensures within { (m : HalfEdges) (h : ℕ) → IsMesh m → h < size m → twin_of h < size m }
{}

/// `next` of `twin` turns about a vertex: it stays among the half-edges that begin there.
pub fn turning()
    ensures within { (m : HalfEdges) (h : ℕ) → IsMesh m → h < size m → turned m h < size m }
    ensures stays { (m : HalfEdges) (h : ℕ) → IsMesh m → h < size m
        → origin_of m (turned m h) ≡ origin_of m h }
{}

/// The cycles of `next` part the half-edges, and so do those of `next` of `twin`.
pub fn cycles()
    ensures of_next { (m : HalfEdges) → IsMesh m → Parts (next_of m) (size m) }
    ensures of_turning { (m : HalfEdges) → IsMesh m → Parts (turned m) (size m) }
{}

/// Once a vertex is linked, the half-edges that begin there form one cycle of `next` of `twin`:
/// the list, backwards.
pub fn one_cycle()
    ensures given { (old new : HalfEdges) (around : List ℕ) → IsLinked old new around
        → TurnsThrough new around }
    ensures star { (old new : HalfEdges) (around : List ℕ) → IsStar old around
        → IsLinked old new around → IsStar new around }
    ensures one { (m : HalfEdges) (around : List ℕ) (g h : ℕ) → IsStar m around
        → TurnsThrough m around → g < size m → h < size m → origin_of m g ≡ center m around
        → origin_of m h ≡ center m around → Leads (turned m) g h }
{}

/// What linking one vertex leaves at the others: their stars, loose or linked.
pub fn elsewhere()
    ensures star { (old new : HalfEdges) (around other : List ℕ) → IsLinked old new around
        → IsStar old other → IsStar new other }
    ensures turned { (old new : HalfEdges) (around : List ℕ) (h : ℕ) → IsStar old around
        → IsLinked old new around → origin_of old h ≢ center old around
        → turned new h ≡ turned old h }
    ensures loose { (old new : HalfEdges) (around other : List ℕ) → IsStar old around
        → IsLinked old new around → IsStar old other → center old other ≢ center old around
        → IsLoose old other → IsLoose new other }
    ensures linked { (old new : HalfEdges) (around other : List ℕ) → IsStar old around
        → IsLinked old new around → IsStar old other → center old other ≢ center old around
        → TurnsThrough old other → TurnsThrough new other }
{}

/// While edges are only added, each star is loose.
pub fn unlinked()
    ensures none { (n : ℕ) → IsUnlinked (without_edges n) }
    ensures more { (m : HalfEdges) (low high : ℕ) → IsMesh m → IsUnlinked m
        → IsUnlinked (with_edge m low high) }
    ensures loose { (m : HalfEdges) (around : List ℕ) → IsUnlinked m → IsStar m around
        → IsLoose m around }
{}

/// A number that each half-edge shares with its `next` is the same along each cycle of `next`.
pub fn along()
    ensures { (m : HalfEdges) (numbers : List ℕ) (g h : ℕ) → IsMesh m → AgreesAlong m.next numbers
        → g < size m → Leads (next_of m) g h → slice_index numbers g ≡ slice_index numbers h }
{}
