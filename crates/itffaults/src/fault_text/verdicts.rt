// What is to be said of an area in one word, and how many faults of each kind are told.
ghost use Rattle.std.specs.Prelude.{◌≡◌};
ghost use Rattle.itffaults.specs.FaultText.Report.{all_verdict, has_faulty, has_unsettled};
ghost use Rattle.itffaults.specs.FaultText.Text.{tellings};
ghost use Rattle.itffaults.specs.FaultText.Verdicts.{answer_verdict, bare_verdict, counts_of};
ghost use Rattle.itffaults.specs.FaultText.Verdicts.{first_counts};
ghost use Rattle.itffaults.specs.FaultText.Verdicts.{has_some, is_faulty, is_unsettled};
ghost use Rattle.itffaults.specs.FaultText.Verdicts.{outer_verdict};
ghost use Rattle.itffaults.specs.FaultText.Verdicts.{told_counts, verdict_of};

use super::kinds::AreaTelling;
use area_faults::AreaFaults;
use area_search::AreaAnswer;
use fault_lists::Faults;

/// What is to be said of an area, or of all of a transfer.
#[derive(Clone, Copy)]
pub enum Verdict {
    /// Nothing is at fault.
    Clean,
    /// Something is at fault.
    Faulty,
    /// No fault is known, and it is not decided whether there is one.
    Unsettled,
}

impl Verdict {
    fn is_faulty(self) -> bool
        ensures { result ≡ is_faulty self }
    {
        matches!(self, Verdict::Faulty)
    }

    fn is_unsettled(self) -> bool
        ensures { result ≡ is_unsettled self }
    {
        matches!(self, Verdict::Unsettled)
    }
}

/// How many faults of each kind are told of an area, in the order of the text.
#[derive(Clone, Copy)]
pub struct Counts {
    pub meetings: u64,
    pub on: u64,
    pub outside: u64,
    pub two: u64,
    pub empty: u64,
    pub cuts: u64,
    pub open_faces: u64,
    pub unjudged: u64,
}

// How many faults of each kind are told of an area whose faces are judged.
fn told_counts(faults: &Faults) -> Counts
    ensures { result ≡ told_counts faults.now }
{
    Counts {
        meetings: faults.meetings.len() as u64,
        on: faults.on.len() as u64,
        outside: faults.faces.outside.len() as u64,
        two: faults.faces.shared.len() as u64,
        empty: faults.faces.empty.len() as u64,
        cuts: faults.faces.cuts.len() as u64,
        open_faces: faults.faces.open.len() as u64,
        unjudged: faults.faces.unjudged.len() as u64,
    }
}

// So many pairs of curves that meet badly and points on curves, and no other fault.
fn first_counts(meetings: usize, on: usize) -> Counts
    ensures { result ≡ first_counts meetings on }
{
    Counts {
        meetings: meetings as u64,
        on: on as u64,
        outside: 0,
        two: 0,
        empty: 0,
        cuts: 0,
        open_faces: 0,
        unjudged: 0,
    }
}

/// How many faults of each kind are told of an area.
pub fn counts_of(told: &AreaFaults) -> Counts
    ensures { result ≡ counts_of told.now }
{
    match told {
        AreaFaults::Told(faults) | AreaFaults::Bent(faults, _) => told_counts(faults),
        AreaFaults::Unsettled(faults, _) => first_counts(faults.meetings.len(), faults.on.len()),
        AreaFaults::Many(meetings) => first_counts(meetings.len(), 0),
    }
}

// Some fault is told, or some bounded face is open.
fn has_some(counts: Counts) -> bool
    ensures { result ≡ has_some counts }
{
    0 < counts.meetings
        || 0 < counts.on
        || 0 < counts.outside
        || 0 < counts.two
        || 0 < counts.empty
        || 0 < counts.cuts
        || 0 < counts.open_faces
        || 0 < counts.unjudged
}

// What the answer of a search says.
fn answer_verdict(answer: &AreaAnswer) -> Verdict
    ensures { result ≡ answer_verdict answer.now }
{
    match answer {
        AreaAnswer::Proved(_) => Verdict::Clean,
        AreaAnswer::Fault(_) => Verdict::Faulty,
        AreaAnswer::Undecided { .. } => Verdict::Unsettled,
    }
}

// What is to be said of the outer face.
fn outer_verdict(is_open: bool) -> Verdict
    ensures { result ≡ outer_verdict is_open }
{
    if is_open {
        Verdict::Faulty
    } else {
        Verdict::Clean
    }
}

// What is to be said of an area none of whose counts is above 0. Of one with too many points on
// curves no fault is told; no level settles it.
fn bare_verdict(told: &AreaFaults) -> Verdict
    ensures { result ≡ bare_verdict told.now }
{
    match told {
        AreaFaults::Told(faults) | AreaFaults::Bent(faults, _) => {
            outer_verdict(faults.faces.outer_open)
        }
        AreaFaults::Unsettled(_, answer) => answer_verdict(answer),
        AreaFaults::Many(_) => Verdict::Unsettled,
    }
}

/// What is to be said of an area by what is told of it.
pub fn verdict_of(told: &AreaFaults) -> Verdict
    ensures { result ≡ verdict_of told.now }
{
    if has_some(counts_of(told)) {
        return Verdict::Faulty;
    }
    bare_verdict(told)
}

// Some area is at fault.
fn has_faulty(areas: &[AreaTelling<'_>]) -> bool
    ensures { result ≡ has_faulty (tellings areas.now) }
{
    for area in areas {
        if verdict_of(&area.faults).is_faulty() {
            return true;
        }
    }
    false
}

// Some area is unsettled.
fn has_unsettled(areas: &[AreaTelling<'_>]) -> bool
    ensures { result ≡ has_unsettled (tellings areas.now) }
{
    for area in areas {
        if verdict_of(&area.faults).is_unsettled() {
            return true;
        }
    }
    false
}

/// What is to be said of areas and of SURFACEs, of which one may be at fault.
pub fn all_verdict(areas: &[AreaTelling<'_>], at_fault: bool) -> Verdict
    ensures { result ≡ all_verdict (tellings areas.now) at_fault }
{
    if at_fault || has_faulty(areas) {
        return Verdict::Faulty;
    }
    if has_unsettled(areas) {
        return Verdict::Unsettled;
    }
    Verdict::Clean
}
