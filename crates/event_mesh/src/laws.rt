// Laws of meshes of events. A program that replays a run keeps `IsTurned` by them, and reads `next`
// at its end.
ghost use Rattle.std.specs.Prelude.{◌≡◌, ◌↔◌, ℕ, ℤ, suc, ◌<◌, ◌^◌, ◌≤◌, List, [], length, map};
ghost use Rattle.std.specs.Prelude.{get_or, slice_index, take};
ghost use Rattle.plane.specs.declared.kinds.Edge.{Edge};
ghost use Rattle.plane.specs.Runs.Moves.{AreGood, Move, live_from, no_move, steps_from};
ghost use Rattle.plane.specs.Runs.Steps.{Step, Run};
ghost use Rattle.plane.specs.Runs.Sweeps.{IsEventList};
ghost use Rattle.plane.specs.Runs.Timetables.{Timed, moves_at, no_event};
ghost use Rattle.plane.specs.Faces.Classes.{Next};
ghost use Rattle.plane.specs.Faces.Halves.{Half, edge_of, number};
ghost use Rattle.plane.specs.Faces.Replays.{replay};
ghost use Rattle.half_edges.specs.HalfEdges.{HalfEdges, next_of};
ghost use Rattle.half_edges.specs.Stars.{IsLinked};
ghost use Rattle.event_mesh.specs.Built.{IsMeshOf};
ghost use Rattle.event_mesh.specs.Fans.{CanTurn, fan_of};
ghost use Rattle.event_mesh.specs.Turned.{IsEvent, IsEventAt, IsTurned, ending_at, points_of};

/// A new mesh is one of which no event is turned; the next event can be turned, and then one more
/// is.
pub fn turned_events()
    ensures begin { (E : ℕ → Edge) (steps : List Step) (events : ℕ) (low high : List ℕ)
        (mesh : HalfEdges)
        → IsMeshOf events low high (length low) mesh
        → ((e : ℕ) → e < length low → IsEventAt steps (slice_index low e) (E e).low)
        → ((e : ℕ) → e < length low → IsEventAt steps (slice_index high e) (E e).high)
        → IsTurned (length low) E steps mesh 0 }
    ensures can { (m : ℕ) (E : ℕ → Edge) (steps : List Step) (mesh : HalfEdges) (k : ℕ)
        (starting ending : List ℕ)
        → m ≤ 2 ^ 31 → IsEventList m E (points_of steps) → IsTurned m E steps mesh k
        → IsEvent m E steps k starting ending → CanTurn mesh starting ending }
    ensures more { (m : ℕ) (E : ℕ → Edge) (steps : List Step) (old new : HalfEdges) (k : ℕ)
        (starting ending : List ℕ)
        → IsEventList m E (points_of steps) → IsTurned m E steps old k
        → IsEvent m E steps k starting ending → IsLinked old new (fan_of starting ending)
        → IsTurned m E steps new (suc k) }
{}

/// The steps of a timetable's moves lie at its events; and a good move is an event at which its
/// edges start, and end as they stand in the live list.
pub fn events_of_moves()
    ensures points { (now : List ℕ) (table : List Timed) (ps : List ℕ)
        → length ps ≡ length table
        → points_of (steps_from now (moves_at table ps)) ≡ map (λ (t : Timed). t.at) table }
    ensures at { (now : List ℕ) (table : List Timed) (ps : List ℕ) (k : ℕ)
        → length ps ≡ length table → k < length table
        → IsEventAt (steps_from now (moves_at table ps)) k (get_or table k no_event).at }
    ensures event { (m : ℕ) (E : ℕ → Edge) (vs : List Move) (k : ℕ)
        → k < length vs → AreGood m E [] (take (suc k) vs)
        → IsEvent m E (steps_from [] vs) k (get_or vs k no_move).starting
        (ending_at (live_from [] (take k vs)) (get_or vs k no_move)) }
{}

/// When all events of a complete run are turned, `next` of the mesh leads from each half-edge to
/// exactly its next one.
pub fn next_of_turned_mesh()
    ensures { (w : ℤ) (m : ℕ) (E : ℕ → Edge) (steps : List Step) (mesh : HalfEdges) (h g : Half)
        → Run m E steps → IsTurned m E steps mesh (length steps) → edge_of h < m
        → (next_of mesh (number h) ≡ number g) ↔ Next (replay w m E steps) h g }
{}
