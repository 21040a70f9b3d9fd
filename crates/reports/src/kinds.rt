// What a line says of a delivery.
ghost use Rattle.std.specs.Prelude.{◌≡◌};
ghost use Rattle.reports.specs.Kinds.{answer_kind, kind_of, is_fault, is_undecided, has_fault};
ghost use Rattle.reports.specs.Kinds.{has_undecided, surface_kind, are_fine, is_fine};
ghost use Rattle.reports.specs.LineViews.{line_of, lines_of};

use crate::lines::{AreaAnswer, Line, SurfaceAnswer};

/// What a line says of a delivery. One fault rejects it, else one undecided line leaves it
/// undecided, else it is accepted.
#[derive(Clone, Copy)]
pub enum Kind {
    /// Something is at fault.
    Fault,
    /// Something is not decided.
    Undecided,
    Fine,
}

impl Kind {
    fn is_fault(self) -> bool
        ensures { result ≡ is_fault self }
    {
        matches!(self, Kind::Fault)
    }

    fn is_undecided(self) -> bool
        ensures { result ≡ is_undecided self }
    {
        matches!(self, Kind::Undecided)
    }

    fn is_fine(self) -> bool
        ensures { result ≡ is_fine self }
    {
        matches!(self, Kind::Fine)
    }
}

fn answer_kind(answer: AreaAnswer) -> Kind
    ensures { result ≡ answer_kind answer }
{
    match answer {
        AreaAnswer::Undecided { .. } => Kind::Undecided,
        AreaAnswer::Proved { .. } => Kind::Fine,
        AreaAnswer::Meeting { .. }
        | AreaAnswer::On { .. }
        | AreaAnswer::Outside { .. }
        | AreaAnswer::Two { .. }
        | AreaAnswer::Empty { .. }
        | AreaAnswer::Cut { .. } => Kind::Fault,
    }
}

fn surface_kind(answer: SurfaceAnswer) -> Kind
    ensures { result ≡ surface_kind answer }
{
    match answer {
        SurfaceAnswer::Proved { .. } => Kind::Fine,
        SurfaceAnswer::Meeting { .. } | SurfaceAnswer::Odd { .. } | SurfaceAnswer::Parts { .. } => {
            Kind::Fault
        }
    }
}

fn kind_of(line: &Line) -> Kind
    ensures { result ≡ kind_of (line_of line.now) }
{
    match line {
        Line::Area(area) => answer_kind(area.answer),
        Line::Surface(surface) => surface_kind(surface.answer),
        Line::CanonRefused | Line::LinkLine(_) | Line::Link { .. } => Kind::Fault,
        _ => Kind::Fine,
    }
}

/// No answer names a fault, and none what is undecided.
pub fn are_fine(answers: &[AreaAnswer]) -> bool
    ensures { result ≡ are_fine answers.now }
{
    for answer in answers {
        if !answer_kind(*answer).is_fine() {
            return false;
        }
    }
    true
}

/// Some line names a fault.
pub fn has_fault(lines: &[Line]) -> bool
    ensures { result ≡ has_fault (lines_of lines.now) }
{
    for line in lines {
        if kind_of(line).is_fault() {
            return true;
        }
    }
    false
}

/// Some line names what is undecided.
pub fn has_undecided(lines: &[Line]) -> bool
    ensures { result ≡ has_undecided (lines_of lines.now) }
{
    for line in lines {
        if kind_of(line).is_undecided() {
            return true;
        }
    }
    false
}
