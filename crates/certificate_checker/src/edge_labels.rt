// The rule of the labels of edges, which is judged when all events are replayed.
ghost use Rattle.std.specs.Prelude.{◌≡◌, ◌↔◌, ℕ, ◌<◌, ◌≤◌, IfErr, IsTrue, OnOk, length};
ghost use Rattle.plane.specs.CurveRuns.TubedRuns.{tube_label};
ghost use Rattle.plane.specs.Faces.Halves.{half_of, mark};
ghost use Rattle.plane.specs.Rule.Plans.{IsHalfArc};
ghost use Rattle.tubes.specs.TubedEdges.{owner_as};
ghost use Rattle.certificate_checker.specs.Cases.{IsFit, judged};
ghost use Rattle.certificate_checker.specs.Rules.{HasLabels, HasLowLabels, HasTubeLabels};
ghost use Rattle.certificate_checker.specs.Rules.{PassesEvent};
ghost use Rattle.certificate_checker.specs.Subjects.{labels, owned_of, side_label, side_part};
ghost use Rattle.certificate_checker.specs.Verdicts.{FirstBroken};

use super::case::Case;
use super::chains::{outside, owner_of, side_label, within};
use super::notes::label_at;
use super::state::Broken;
use tubes::{Owner, Part};

/// The curve of the first edge that has not the labels it needs.
pub fn judge_labels(case: &Case) -> Result<(), Broken>
    requires fit { IsFit case.now }
    requires passed { (k : ℕ) → k < length (judged case.now).table
        → PassesEvent (judged case.now) k }
    ensures labels { OnOk result ((e : ℕ) → e < length (judged case.now).edges
        → HasLabels (judged case.now) e) }
    ensures broken { IfErr result (λ b. FirstBroken (judged case.now) b.rule b.place) }
{
    let count = case.edges.len() as u32;
    for e in 0..count {
        let owner = owner_of(case, e);
        if !has_labels(case, e, owner) {
            let place = owner.curve;
            return Err(Broken { rule: 8, place });
        }
    }
    Ok(())
}

fn has_labels(case: &Case, edge: u32, owner: Owner) -> bool
    requires fit { IsFit case.now }
    requires edge { edge < length (judged case.now).edges }
    requires owner { owner ≡ owner_as (owned_of (judged case.now) edge) }
    ensures { IsTrue result ↔ HasLabels (judged case.now) edge }
{
    match owner.part {
        Part::Straight => has_low_labels(case, edge),
        Part::Inner => has_tube_labels(case, edge, owner.curve, true),
        Part::Outer => has_tube_labels(case, edge, owner.curve, false),
    }
}

fn has_low_labels(case: &Case, edge: u32) -> bool
    requires fit { IsFit case.now }
    requires edge { edge < length (judged case.now).edges }
    ensures { IsTrue result ↔ HasLowLabels (judged case.now) edge }
{
    if !is_label_low(case, 2 * edge) {
        return false;
    }
    is_label_low(case, 2 * edge + 1)
}

fn has_tube_labels(case: &Case, edge: u32, curve: u32, inside: bool) -> bool
    requires fit { IsFit case.now }
    requires edge { edge < length (judged case.now).edges }
    requires curve { curve ≡ (owned_of (judged case.now) edge).curve }
    requires part { (owned_of (judged case.now) edge).part ≡ side_part inside }
    ensures { IsTrue result ↔ HasTubeLabels (judged case.now) inside edge }
{
    if !is_tube_label(case, within(case, edge), curve) {
        return false;
    }
    let outside = outside(case, edge);
    if !is_label_low(case, outside) {
        return false;
    }
    is_side_label(case, outside, inside, curve)
}

// Whether the half-edge has the label outside the first edge of that chain of the curve's tube.
fn is_side_label(case: &Case, h: u32, inside: bool, curve: u32) -> bool
    requires fit { IsFit case.now }
    requires half { h < length (judged case.now).claims.notes }
    requires half_arc { IsHalfArc (judged case.now).drawing curve }
    ensures { IsTrue result ↔ (mark (labels (judged case.now)) (half_of h)
        ≡ side_label (judged case.now) inside curve) }
{
    label_at(case, h) == side_label(case, inside, curve)
}

// Whether the half-edge has the label of the curve's tube.
fn is_tube_label(case: &Case, h: u32, curve: u32) -> bool
    requires fit { IsFit case.now }
    requires half { h < length (judged case.now).claims.notes }
    ensures { IsTrue result ↔ (mark (labels (judged case.now)) (half_of h)
        ≡ tube_label (judged case.now).drawing curve) }
{
    label_at(case, h) as usize == case.points.len() + curve as usize + 1
}

fn is_label_low(case: &Case, h: u32) -> bool
    requires { h < length (judged case.now).claims.notes }
    ensures { IsTrue result ↔ (mark (labels (judged case.now)) (half_of h)
        ≤ length (judged case.now).points) }
{
    label_at(case, h) as usize <= case.points.len()
}
