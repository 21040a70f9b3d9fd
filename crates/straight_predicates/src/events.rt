// The events of edges: their ends are sorted, and those of one point make an event.
ghost use Rattle.std.specs.Prelude.{◌≡◌, ◌+◌, ◌^◌, ◌<◌, ◌≤◌, ◌∷◌, ◌++◌, ℕ, [], All, IfOk, IfSome};
ghost use Rattle.std.specs.Prelude.{OnOk, drop, length, map, slice_index_or, take, vec_len};
ghost use Rattle.plane.specs.Runs.Timetables.{IsTimetable};
ghost use Rattle.straight_predicates.specs.EdgeLists.{edge_of, AreSorted, AreAllClose};
ghost use Rattle.straight_predicates.specs.Meetings.{AreClose};
ghost use Rattle.straight_predicates.specs.PackedEnds.{ends_in};
ghost use Rattle.straight_predicates.specs.Slopes.{IsRayOf, ray_edges};
ghost use Rattle.straight_predicates.specs.Slots.{AreSlots, end_of_stops, slots_of, timed_at};
ghost use Rattle.straight_predicates.specs.Tables.{AddsEvent, AddsStarting, AreEndsOf, IsGroup};
ghost use Rattle.straight_predicates.specs.Tables.{IsGroupOf, ending_of, ends_of, low_end};
ghost use Rattle.straight_predicates.specs.Tables.{starting_of};

use super::end_list::EndList;
use super::rays::{Ray, ray_of, sort_rays};
use super::slots::End;
use super::stops::Stop;
use plane::{Edge, Point};
use ports::Memory;
use std::alloc::Global;

/// All ends of the edges, in order.
pub fn sorted_ends(alloc: Global, edges: &[Edge]) -> Result<EndList, Memory>
    requires few { length edges.now < 2 ^ 31 }
    requires sorted { AreSorted edges.now }
    requires close { AreAllClose edges.now }
    ensures { IfOk result (λ ends. AreEndsOf edges.now (ends_in ends)) }
{
    let mut ends = EndList::new(alloc, first_end(edges), 2 * edges.len())?;
    for (i, edge) in edges.iter().enumerate() {
        let number = i as u32;
        add_ends(&mut ends, *edge, number)?;
    }
    ends.sort(alloc)?;
    Ok(ends)
}

// An end of the first edge, to which all ends are close; any point where there is no edge.
fn first_end(edges: &[Edge]) -> Point
    requires { AreAllClose edges.now }
    ensures { (e : ℕ) → e < length edges.now → AreClose result (edge_of edges.now e).low
        × AreClose result (edge_of edges.now e).high }
{
    if edges.is_empty() {
        return Point { x: 0, y: 0 };
    }
    edges[0].low
}

fn add_ends(ends: &mut EndList, edge: Edge, number: u32) -> Result<(), Memory>
    requires few { number < 2 ^ 31 }
    requires low { AreClose ends.old.origin edge.low }
    requires high { AreClose ends.old.origin edge.high }
    ensures origin { ends.new.origin ≡ ends.old.origin }
    ensures ends { OnOk result (ends_in ends.new ≡ ends_in ends.old ++ ends_of number edge) }
{
    let low = End {
        at: edge.low,
        edge: number,
        starts: true,
    };
    let high = End {
        at: edge.high,
        edge: number,
        starts: false,
    };
    ends.push(low)?;
    ends.push(high)?;
    Ok(())
}

/// Writes the events of all ends. `group` and `rays` are room for the ends at one point and to sort
/// in.
pub fn fill(
    stops: &mut Vec<Stop>,
    numbers: &mut Vec<u32>,
    group: &mut Vec<End>,
    rays: &mut Vec<Ray>,
    edges: &[Edge],
    ends: &EndList,
) -> Result<(), Memory>
    requires few { length edges.now < 2 ^ 31 }
    requires sorted { AreSorted edges.now }
    requires close { AreAllClose edges.now }
    requires ends { AreEndsOf edges.now (ends_in ends.now) }
    requires stops { stops.old.items ≡ [] }
    requires numbers { numbers.old.items ≡ [] }
    ensures table { OnOk result (IsTimetable (length edges.now) (edge_of edges.now) (map
        (timed_at numbers.new.items) (slots_of stops.new.items))) }
    ensures within { OnOk result (AreSlots (length numbers.new.items) (slots_of stops.new.items)) }
    ensures few { OnOk result (vec_len stops.new < 2 ^ 32) }
{
    let mut i = 0;
    while i < ends.len() {
        copy_group(group, ends, i)?;
        add_event(stops, numbers, rays, edges, group)?;
        i += group.len();
    }
    Ok(())
}

// Makes the group those of the ends from a place on that lie at one point.
fn copy_group(group: &mut Vec<End>, ends: &EndList, from: usize) -> Result<(), Memory>
    requires { from < length (ends_in ends.now) }
    ensures one { OnOk result (IsGroup (drop from (ends_in ends.now)) (length group.new.items)) }
    ensures ends { OnOk result (group.new.items
        ≡ take (length group.new.items) (drop from (ends_in ends.now))) }
{
    group.clear();
    let at = ends.get(from).at;
    for n in 0..ends.len() - from {
        let end = ends.get(from + n);
        if end.at != at {
            return Ok(());
        }
        group.push(end)?;
    }
    Ok(())
}

// Writes the event of a group of ends.
fn add_event(
    stops: &mut Vec<Stop>,
    numbers: &mut Vec<u32>,
    rays: &mut Vec<Ray>,
    edges: &[Edge],
    group: &[End],
) -> Result<(), Memory>
    requires sorted { AreSorted edges.now }
    requires close { AreAllClose edges.now }
    requires group { IsGroupOf edges.now (slice_index_or group.now 0 (low_end [] 0)).at group.now }
    requires few { length numbers.old.items + length group.now < 2 ^ 32 }
    requires last { end_of_stops stops.old.items ≡ length numbers.old.items }
    ensures event { OnOk result (AddsEvent
        (edge_of edges.now) group.now (slots_of stops.old.items) numbers.old.items
        (slots_of stops.new.items) numbers.new.items) }
    ensures last { OnOk result (end_of_stops stops.new.items ≡ length numbers.new.items) }
{
    let at = group[0].at;
    add_ending(numbers, group)?;
    let middle = numbers.len() as u32;
    add_starting(numbers, rays, edges, group)?;
    let upto = numbers.len() as u32;
    stops.push(Stop { at, middle, upto })?;
    Ok(())
}

// Writes the edges that end at a group's point to the numbers.
fn add_ending(numbers: &mut Vec<u32>, group: &[End]) -> Result<(), Memory>
    ensures { OnOk result (numbers.new.items ≡ numbers.old.items ++ ending_of group.now) }
{
    for end in group {
        if !end.starts {
            numbers.push(end.edge)?;
        }
    }
    Ok(())
}

// Writes the edges that start at a group's point to the numbers, by slope. One alone is in order.
fn add_starting(
    numbers: &mut Vec<u32>,
    rays: &mut Vec<Ray>,
    edges: &[Edge],
    group: &[End],
) -> Result<(), Memory>
    requires sorted { AreSorted edges.now }
    requires close { AreAllClose edges.now }
    requires group { IsGroupOf edges.now (slice_index_or group.now 0 (low_end [] 0)).at group.now }
    ensures { OnOk result (AddsStarting edges.now group.now numbers.old.items
        numbers.new.items) }
{
    if let Some(edge) = only_starting(group) {
        numbers.push(edge)?;
        return Ok(());
    }
    make_rays(rays, edges, group)?;
    sort_rays(rays);
    add_numbers(numbers, rays)?;
    Ok(())
}

// The edge that starts at a group's point, where there is one alone.
fn only_starting(group: &[End]) -> Option<u32>
    ensures { IfSome result (λ edge. starting_of group.now ≡ edge ∷ []) }
{
    let mut found = None;
    for end in group {
        if end.starts {
            if found.is_some() {
                return None;
            }
            found = Some(end.edge);
        }
    }
    found
}

// Makes rays of the edges that start at a group's point.
fn make_rays(rays: &mut Vec<Ray>, edges: &[Edge], group: &[End]) -> Result<(), Memory>
    requires sorted { AreSorted edges.now }
    requires close { AreAllClose edges.now }
    requires known { (k : ℕ) (d : End) → k < length group.now
        → (slice_index_or group.now k d).edge < length edges.now }
    ensures edges { OnOk result (ray_edges rays.new.items ≡ starting_of group.now) }
    ensures directions { OnOk result (All (IsRayOf edges.now) rays.new.items) }
{
    rays.clear();
    for end in group {
        if end.starts {
            rays.push(ray_of(edges, end.edge))?;
        }
    }
    Ok(())
}

fn add_numbers(numbers: &mut Vec<u32>, rays: &[Ray]) -> Result<(), Memory>
    ensures { OnOk result (numbers.new.items ≡ numbers.old.items ++ ray_edges rays.now) }
{
    for ray in rays {
        numbers.push(ray.edge)?;
    }
    Ok(())
}
