// What a certificate says of a settled drawing: the labels of half-edges, and the places of points.
ghost use Rattle.std.specs.Prelude.{◌≡◌, ℕ, ◌+◌, ◌*◌, ◌^◌, ◌<◌, ◌≤◌, IfOk, length, map};
ghost use Rattle.std.specs.Prelude.{slice_index_or};
ghost use Rattle.faces.specs.Ranking.{no_note};
ghost use Rattle.plane.specs.Faces.Halves.{over, under};
ghost use Rattle.area_search.specs.Settled.CaseNotes.{AreNamed, IsCurveNumber, named_by, note_of};
ghost use Rattle.area_search.specs.Settled.CaseNotes.{spot_place, tag, tag_of};
ghost use Rattle.area_search.specs.Settled.CaseRoots.{owner_at};

use super::case::Spot;
use certificate::{HalfNote, PointPlace};
use ports::Memory;
use std::alloc::Global;
use tubes::{Facing, Owner};

/// The notes with labels in the place of the numbers of faces: after those of the points the
/// tube's where a half-edge faces one from within, else the owner of the face. It takes time linear
/// in the edges, and no memory.
pub(crate) fn named_notes(
    notes: Vec<HalfNote>,
    points: u32,
    facings: &[Facing],
    edge_owners: &[Owner],
    owners: &[u32],
) -> Vec<HalfNote>
    requires points { points < 2 ^ 31 }
    requires count { length edge_owners.now ≡ length facings.now }
    requires size { length notes.items ≡ 2 * length facings.now }
    requires curves { (e : ℕ) → e < length edge_owners.now
        → (owner_at edge_owners.now e).curve < 2 ^ 30 }
    requires known { (h : ℕ) → h < length notes.items
        → (slice_index_or notes.items h no_note).label < length owners.now }
    ensures { AreNamed points (length facings.now) facings.now edge_owners.now owners.now
        notes.items result.items }
{
    let mut notes = notes;
    name_all(&mut notes, points, facings, edge_owners, owners);
    notes
}

fn name_all(
    notes: &mut [HalfNote],
    points: u32,
    facings: &[Facing],
    edge_owners: &[Owner],
    owners: &[u32],
)
    requires points { points < 2 ^ 31 }
    requires count { length edge_owners.now ≡ length facings.now }
    requires size { length notes.old ≡ 2 * length facings.now }
    requires curves { (e : ℕ) → e < length edge_owners.now
        → (owner_at edge_owners.now e).curve < 2 ^ 30 }
    requires known { (h : ℕ) → h < length notes.old
        → (slice_index_or notes.old h no_note).label < length owners.now }
    ensures { AreNamed points (length facings.now) facings.now edge_owners.now owners.now
        notes.old notes.new }
{
    for edge in 0..facings.len() {
        name_edge(
            notes,
            edge,
            points,
            facings[edge],
            edge_owners[edge].curve,
            owners,
        );
    }
}

// Names the two half-edges of an edge.
fn name_edge(
    notes: &mut [HalfNote],
    edge: usize,
    points: u32,
    facing: Facing,
    curve: u32,
    owners: &[u32],
)
    requires points { points < 2 ^ 31 }
    requires curve { curve < 2 ^ 30 }
    requires there { 2 * edge + 1 < length notes.old }
    requires low { (note_of notes.old (under edge)).label < length owners.now }
    requires high { (note_of notes.old (over edge)).label < length owners.now }
    ensures size { length notes.new ≡ length notes.old }
    ensures low { note_of notes.new (under edge)
        ≡ named_by points (tag facing curve (under edge)) owners.now
        (note_of notes.old (under edge)) }
    ensures high { note_of notes.new (over edge)
        ≡ named_by points (tag facing curve (over edge)) owners.now
        (note_of notes.old (over edge)) }
    ensures rest { (h : ℕ) → (h ≡ 2 * edge → ⊥) → (h ≡ 2 * edge + 1 → ⊥)
        → slice_index_or notes.new h no_note ≡ slice_index_or notes.old h no_note }
{
    let (low, high) = match facing {
        Facing::Neither => (None, None),
        Facing::Below => (Some(curve), None),
        Facing::Above => (None, Some(curve)),
    };
    name(notes, 2 * edge, points, low, owners);
    name(notes, 2 * edge + 1, points, high, owners);
}

// Names a half-edge that faces the tube of this curve, or none.
fn name(notes: &mut [HalfNote], half: usize, points: u32, tube: Option<u32>, owners: &[u32])
    requires points { points < 2 ^ 31 }
    requires curve { IsCurveNumber tube }
    requires there { half < length notes.old }
    requires known { (slice_index_or notes.old half no_note).label < length owners.now }
    ensures size { length notes.new ≡ length notes.old }
    ensures named { slice_index_or notes.new half no_note
        ≡ named_by points (tag_of tube) owners.now (slice_index_or notes.old half no_note) }
    ensures rest { (h : ℕ) → (h ≡ half → ⊥)
        → slice_index_or notes.new h no_note ≡ slice_index_or notes.old h no_note }
{
    let label = notes[half].label;
    notes[half].label = match tube {
        Some(curve) => points + 1 + curve,
        None => owners[label as usize],
    };
}

/// The place of each point.
pub(crate) fn spot_places(alloc: Global, spots: &[Spot]) -> Result<Vec<PointPlace>, Memory>
    ensures { IfOk result (λ ps. ps.items ≡ map spot_place spots.now) }
{
    let mut places = Vec::with_capacity(alloc, spots.len())?;
    for spot in spots {
        places.push(spot_place(spot))?;
    }
    Ok(places)
}

fn spot_place(spot: &Spot) -> PointPlace
    ensures { result ≡ spot_place spot.now }
{
    match spot {
        Spot::Cell { position, .. } => PointPlace::Cell(*position),
        Spot::InTube { curve, inside } => PointPlace::Tube {
            curve: *curve,
            inside: *inside,
        },
        Spot::On(_) => PointPlace::Cell(0),
    }
}
