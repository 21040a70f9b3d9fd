// Marks of half-edges: what each was beside while the events were replayed.
ghost use Rattle.std.specs.Prelude.{◌≡◌, ◌↔◌, ◌⊎◌, ℕ, ◌+◌, ◌*◌, ◌<◌, ◌^◌, Bool, Some, [], ◌∷◌};
ghost use Rattle.std.specs.Prelude.{IsTrue, length};
ghost use Rattle.plane.specs.Faces.Halves.{Half, half_of};
ghost use Rattle.plane.specs.Runs.Gaps.{Gap, gaps_between};
ghost use Rattle.certificate_checker.specs.Marked.{AreMarked, AreNotes, HasNote, IsAtBorder};
ghost use Rattle.certificate_checker.specs.Marked.{IsMarked, IsNamed, NamesAcross};
ghost use Rattle.certificate.specs.declared.notes.Link.TheVariants.{Across};

use certificate::{HalfNote, Link};

/// Marks the half-edges beside the new neighbours, from the lower edge over the starting ones to
/// the upper edge: those at a border, and those across from the one that their note names.
pub fn mark_neighbours(
    border: &mut [bool],
    across: &mut [bool],
    notes: &[HalfNote],
    lower: Option<u32>,
    starting: &[u32],
    upper: Option<u32>,
)
    requires few { length notes.now < 2 ^ 32 }
    requires borders { length border.old ≡ length notes.now }
    requires acrosses { length across.old ≡ length notes.now }
    requires lower { HasNote notes.now lower }
    requires starting { AreNotes notes.now starting.now }
    requires upper { HasNote notes.now upper }
    ensures border { AreMarked IsAtBorder (gaps_between 0 lower starting.now upper) border.old
        border.new }
    ensures across { AreMarked (NamesAcross notes.now) (gaps_between 0 lower starting.now upper)
        across.old across.new }
{
    let mut below = lower;
    for e in starting {
        mark_border(border, below, Some(*e));
        mark_across(across, notes, below, Some(*e));
        below = Some(*e);
    }
    mark_border(border, below, upper);
    mark_across(across, notes, below, upper);
}

fn mark_border(border: &mut [bool], lower: Option<u32>, upper: Option<u32>)
    requires few { length border.old < 2 ^ 32 }
    requires lower { (d : ℕ) → lower ≡ Some d → 2 * d + 1 < length border.old }
    requires upper { (e : ℕ) → upper ≡ Some e → 2 * e + 1 < length border.old }
    ensures { AreMarked IsAtBorder (record { lower = lower; upper = upper; event = 0 } ∷ [])
        border.old border.new }
{
    match (lower, upper) {
        (None, Some(e)) => mark(border, 2 * e),
        (Some(d), None) => mark(border, 2 * d + 1),
        _ => {}
    }
}

fn mark_across(across: &mut [bool], notes: &[HalfNote], lower: Option<u32>, upper: Option<u32>)
    requires few { length notes.now < 2 ^ 32 }
    requires size { length across.old ≡ length notes.now }
    requires lower { HasNote notes.now lower }
    requires upper { HasNote notes.now upper }
    ensures { AreMarked (NamesAcross notes.now)
        (record { lower = lower; upper = upper; event = 0 } ∷ []) across.old across.new }
{
    let (Some(d), Some(e)) = (lower, upper) else {
        return;
    };
    mark_named(across, notes, 2 * d + 1, 2 * e);
    mark_named(across, notes, 2 * e, 2 * d + 1);
}

// Marks the half-edge where its note names the other one across a cell.
fn mark_named(across: &mut [bool], notes: &[HalfNote], half: u32, other: u32)
    requires size { length across.old ≡ length notes.now }
    requires half { half < length notes.now }
    ensures { (h : Half) → IsMarked across.new h
        ↔ (IsMarked across.old h ⊎ ((h ≡ half_of half) × IsNamed notes.now half other)) }
{
    if is_across(notes[half as usize].link, other) {
        mark(across, half);
    }
}

fn is_across(link: Link, other: u32) -> bool
    ensures { IsTrue result ↔ (link ≡ Across other) }
{
    match link {
        Link::Across(half) => half == other,
        _ => false,
    }
}

/// Marks the half-edge of that number.
pub fn mark(marks: &mut [bool], half: u32)
    requires { half < length marks.old }
    ensures { (h : Half) → IsMarked marks.new h ↔ (IsMarked marks.old h ⊎ (h ≡ half_of half)) }
{
    marks[half as usize] = true;
}
