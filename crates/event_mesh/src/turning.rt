// One event is turned: the half-edges that begin there are linked.
ghost use Rattle.std.specs.Prelude.{◌≡◌, ℕ, suc, ◌+◌, ◌<◌, ◌≤◌, List, length, slice_index};
ghost use Rattle.plane.specs.declared.kinds.Edge.{Edge};
ghost use Rattle.plane.specs.Runs.Steps.{Step};
ghost use Rattle.plane.specs.Runs.Sweeps.{IsEventList};
ghost use Rattle.half_edges.specs.Stars.{IsLinked};
ghost use Rattle.event_mesh.specs.Fans.{fan_of, AreFew, CanTurn, IsOver, IsUnder};
ghost use Rattle.event_mesh.specs.Turned.{IsEvent, IsTurned, points_of};

use half_edges::{HalfEdgeId, Mesh};

/// Links the half-edges that begin at an event: over its starting edges in their order, then under
/// its ending edges in reverse order. `fan` is room for them. It takes time linear in these edges.
pub fn turn_event(mesh: &mut Mesh, starting: &[u32], ending: &[u32], fan: &mut [HalfEdgeId])
    requires can { CanTurn mesh.old starting.now ending.now }
    requires room { length starting.now + length ending.now ≤ length fan.old }
    ensures linked { IsLinked mesh.old mesh.new (fan_of starting.now ending.now) }
    ensures turned { (m : ℕ) (E : ℕ → Edge) (steps : List Step) (k : ℕ)
        → IsEventList m E (points_of steps) → IsTurned m E steps mesh.old k
        → IsEvent m E steps k starting.now ending.now → IsTurned m E steps mesh.new (suc k) }
{
    let size = starting.len() + ending.len();
    write_over(&mut fan[..size], starting);
    write_under(&mut fan[..size], ending);
    mesh.link(&fan[..size]);
}

// Writes the half-edges over the edges to the list, from its first place on.
fn write_over(fan: &mut [HalfEdgeId], starting: &[u32])
    requires room { length starting.now ≤ length fan.old }
    requires few { AreFew starting.now }
    ensures { IsOver starting.now fan.new (length starting.now) }
{
    for (i, e) in starting.iter().enumerate() {
        fan[i] = HalfEdgeId::over(*e);
    }
}

// Writes the half-edges under the edges to the list, from its last place on downwards.
fn write_under(fan: &mut [HalfEdgeId], ending: &[u32])
    requires room { length ending.now ≤ length fan.old }
    requires few { AreFew ending.now }
    ensures written { IsUnder ending.now fan.new (length ending.now) }
    ensures before { (i : ℕ) → i + length ending.now < length fan.old
        → slice_index fan.new i ≡ slice_index fan.old i }
{
    let size = fan.len();
    for (j, e) in ending.iter().enumerate() {
        fan[size - 1 - j] = HalfEdgeId::under(*e);
    }
}
