// Labels of new neighbours.
ghost use Rattle.std.specs.Prelude.{◌≡◌, ◌↔◌, ◌+◌, ◌<◌, ◌≤◌, ◌^◌, IsTrue, length};
ghost use Rattle.plane.specs.Faces.Labels.{Match};
ghost use Rattle.plane.specs.Runs.Gaps.{edge_at, edge_before, over_label, under_label};
ghost use Rattle.certificate_checker.specs.Marked.{AreNotes, HasNote};
ghost use Rattle.certificate_checker.specs.Subjects.{labels_in};

use super::live_list::LiveList;
use certificate::HalfNote;

/// Whether the label over each of the new neighbours is that under the next one: from the edge
/// before the block over the starting edges to the one after it, with 0 at the border.
pub fn labels_match(
    notes: &[HalfNote],
    live: &LiveList,
    position: usize,
    ending: usize,
    starting: &[u32],
) -> bool
    requires few { length notes.now < 2 ^ 32 }
    requires live { AreNotes notes.now live.now.edges }
    requires starting { AreNotes notes.now starting.now }
    requires block { position + ending ≤ length live.now.edges }
    ensures { IsTrue result ↔ Match (labels_in notes.now)
        (over_label (labels_in notes.now) (edge_before live.now.edges position)) starting.now
        (under_label (labels_in notes.now) (edge_at live.now.edges (position + ending))) }
{
    // The place after the block is no greater than the length, which fits its type.
    let _length = live.len();
    let lower = live.edge_before(position);
    let upper = live.edge_at(position + ending);
    let mut label = label_over(notes, lower);
    for e in starting {
        let next = label_under(notes, Some(*e));
        if next != label {
            return false;
        }
        label = label_over(notes, Some(*e));
    }
    let last = label_under(notes, upper);
    last == label
}

/// The label over an edge, and 0 over the border.
pub fn label_over(notes: &[HalfNote], edge: Option<u32>) -> u32
    requires few { length notes.now < 2 ^ 32 }
    requires edge { HasNote notes.now edge }
    ensures { result ≡ over_label (labels_in notes.now) edge }
{
    match edge {
        None => 0,
        Some(e) => notes[2 * e as usize + 1].label,
    }
}

/// The label under an edge, and 0 under the border.
pub fn label_under(notes: &[HalfNote], edge: Option<u32>) -> u32
    requires few { length notes.now < 2 ^ 32 }
    requires edge { HasNote notes.now edge }
    ensures { result ≡ under_label (labels_in notes.now) edge }
{
    match edge {
        None => 0,
        Some(e) => notes[2 * e as usize].label,
    }
}
