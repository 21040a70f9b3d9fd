// The text of the faults of areas, area by area.
ghost use Rattle.std.specs.Prelude.{◌≡◌, ◌≤◌, ◌++◌, IfOk, OnOk, codes};
ghost use Rattle.std.specs.List.{flat_map};
ghost use Rattle.plane.specs.Rule.Plans.{plan};
ghost use Rattle.itffaults.specs.FaultText.Text.{answer_words, area_text, counts_text, faces_text};
ghost use Rattle.itffaults.specs.FaultText.Text.{fault_text, fault_words, first_text, head_text};
ghost use Rattle.itffaults.specs.FaultText.Text.{names_text};
ghost use Rattle.itffaults.specs.FaultText.Text.{open_text, outer_text, telling_of, tellings};
ghost use Rattle.itffaults.specs.FaultText.Text.{told_text};
ghost use Rattle.itffaults.specs.FaultText.Verdicts.{counts_of};

use super::curves::{add_cuts, add_meetings};
use super::kinds::AreaTelling;
use super::naming::{curve_at, placed_at};
use super::points::{add_all_on, add_all_two, add_objects};
use super::rings::add_regions;
use super::verdicts::{Counts, counts_of};
use super::words::{add_next, add_next_number, add_number, add_numbered, add_pair, add_side};
use area_faults::AreaFaults;
use area_search::{AreaAnswer, AreaFinding};
use fault_lists::Faults;
use file_pages::HeldText;
use plane::Drawing;
use ports::Memory;
use std::alloc::Global;

// AREA topic table attribute
fn add_title(text: &mut HeldText, area: &AreaTelling<'_>) -> Result<(), Memory>
    ensures { OnOk result (text.new ≡ text.old
        ++ (names_text (telling_of area.now) ++ codes "\n")) }
{
    text.add(b"AREA")?;
    add_next(text, area.topic.bytes())?;
    add_next(text, area.table.bytes())?;
    add_next(text, area.attribute.bytes())?;
    text.add(b"\n")
}

// Pairs of curves that meet badly, and points on curves.
fn add_first(
    text: &mut HeldText,
    drawing: &Drawing,
    scale: u8,
    faults: &Faults,
) -> Result<(), Memory>
    requires { scale ≤ 9 }
    ensures { OnOk result (text.new ≡ text.old ++ first_text scale (plan drawing.now) faults.now) }
{
    add_meetings(text, drawing, scale, &faults.meetings)?;
    add_all_on(text, drawing, scale, &faults.on)
}

// Whether the outer face is open.
fn add_outer(text: &mut HeldText, is_open: bool) -> Result<(), Memory>
    ensures { OnOk result (text.new ≡ text.old ++ outer_text is_open) }
{
    if is_open {
        return text.add(b"OUTER\n");
    }
    Ok(())
}

// Open faces, and points in them.
fn add_open(
    text: &mut HeldText,
    drawing: &Drawing,
    scale: u8,
    faults: &Faults,
) -> Result<(), Memory>
    requires { scale ≤ 9 }
    ensures { OnOk result (text.new ≡ text.old ++ open_text scale (plan drawing.now) faults.now) }
{
    add_outer(text, faults.faces.outer_open)?;
    add_regions(text, drawing, scale, b"OPEN ", &faults.open)?;
    add_objects(text, drawing, scale, b"UNJUDGED ", &faults.faces.unjudged)
}

// What is at fault in faces, and which are open.
fn add_faces(
    text: &mut HeldText,
    drawing: &Drawing,
    scale: u8,
    faults: &Faults,
) -> Result<(), Memory>
    requires { scale ≤ 9 }
    ensures { OnOk result (text.new ≡ text.old ++ faces_text scale (plan drawing.now) faults.now) }
{
    add_objects(text, drawing, scale, b"OUTSIDE ", &faults.faces.outside)?;
    add_all_two(text, drawing, scale, &faults.faces.shared)?;
    add_regions(text, drawing, scale, b"EMPTY ", &faults.empty)?;
    add_cuts(text, drawing, scale, &faults.faces.cuts)?;
    add_open(text, drawing, scale, faults)
}

// A fault that a search names, by lines of the transfer.
fn add_fault(text: &mut HeldText, drawing: &Drawing, fault: AreaFinding) -> Result<(), Memory>
    ensures { OnOk result (text.new ≡ text.old ++ fault_words (plan drawing.now) fault) }
{
    match fault {
        AreaFinding::Meeting { first, second } => {
            let first = curve_at(drawing, first).line;
            let second = curve_at(drawing, second).line;
            add_pair(text, b"MEETING ", first, second)
        }
        AreaFinding::On { point, curve } => {
            let object = placed_at(drawing, point).line;
            add_pair(text, b"ON ", object, curve_at(drawing, curve).line)
        }
        AreaFinding::Outside { point } => {
            add_numbered(text, b"OUTSIDE ", placed_at(drawing, point).line)
        }
        AreaFinding::Two { first, second } => {
            let first = placed_at(drawing, first).line;
            let second = placed_at(drawing, second).line;
            add_pair(text, b"TWO ", first, second)
        }
        AreaFinding::Empty { curve, left } => {
            add_numbered(text, b"EMPTY ", curve_at(drawing, curve).line)?;
            add_side(text, left)
        }
        AreaFinding::Cut { curve } => add_numbered(text, b"CUT ", curve_at(drawing, curve).line),
    }
}

// The answer of a search: the level at which the area is proved, two curves that show that it is
// not decided, or its first fault.
fn add_answer(text: &mut HeldText, drawing: &Drawing, answer: &AreaAnswer) -> Result<(), Memory>
    ensures { OnOk result (text.new ≡ text.old ++ answer_words (plan drawing.now) answer.now) }
{
    match answer {
        AreaAnswer::Proved(certificate) => {
            add_numbered(text, b"PROVED ", u32::from(certificate.level))
        }
        AreaAnswer::Undecided { first, second } => {
            let first = curve_at(drawing, *first).line;
            let second = curve_at(drawing, *second).line;
            add_pair(text, b"UNDECIDED ", first, second)
        }
        AreaAnswer::Fault(fault) => {
            text.add(b"FIRST ")?;
            add_fault(text, drawing, *fault)
        }
    }
}

// What is told of an area.
fn add_told(
    text: &mut HeldText,
    drawing: &Drawing,
    scale: u8,
    told: &AreaFaults,
) -> Result<(), Memory>
    requires { scale ≤ 9 }
    ensures { OnOk result (text.new ≡ text.old ++ told_text scale (plan drawing.now) told.now) }
{
    match told {
        AreaFaults::Told(faults) => {
            add_first(text, drawing, scale, faults)?;
            add_faces(text, drawing, scale, faults)
        }
        AreaFaults::Bent(faults, bent) => {
            add_first(text, drawing, scale, faults)?;
            text.add(b"BENT\n")?;
            add_faces(text, &bent.drawing, scale, faults)
        }
        AreaFaults::Unsettled(faults, answer) => {
            add_first(text, drawing, scale, faults)?;
            text.add(b"UNSETTLED\n")?;
            add_answer(text, drawing, answer)?;
            text.add(b"\n")
        }
        AreaFaults::Many(meetings) => {
            add_meetings(text, drawing, scale, meetings)?;
            text.add(b"MANY\n")
        }
    }
}

// Eight counts, a blank before each.
fn add_counts(text: &mut HeldText, counts: Counts) -> Result<(), Memory>
    ensures { OnOk result (text.new ≡ text.old ++ counts_text counts) }
{
    add_next_number(text, counts.meetings)?;
    add_next_number(text, counts.on)?;
    add_next_number(text, counts.outside)?;
    add_next_number(text, counts.two)?;
    add_next_number(text, counts.empty)?;
    add_next_number(text, counts.cuts)?;
    add_next_number(text, counts.open_faces)?;
    add_next_number(text, counts.unjudged)
}

// COUNTS meetings on outside two empty cuts open unjudged
fn add_counts_line(text: &mut HeldText, told: &AreaFaults) -> Result<(), Memory>
    ensures { OnOk result (text.new ≡ text.old
        ++ (codes "COUNTS" ++ (counts_text (counts_of told.now) ++ codes "\n"))) }
{
    text.add(b"COUNTS")?;
    add_counts(text, counts_of(told))?;
    text.add(b"\n")
}

// The lines of an area.
fn add_area(text: &mut HeldText, area: &AreaTelling<'_>) -> Result<(), Memory>
    ensures { OnOk result (text.new ≡ text.old ++ area_text (telling_of area.now)) }
{
    add_title(text, area)?;
    add_told(text, area.drawing, area.scale, &area.faults)?;
    add_counts_line(text, &area.faults)
}

// The lines of areas.
fn add_areas(text: &mut HeldText, areas: &[AreaTelling<'_>]) -> Result<(), Memory>
    ensures { OnOk result (text.new ≡ text.old ++ flat_map area_text (tellings areas.now)) }
{
    for area in areas {
        add_area(text, area)?;
    }
    Ok(())
}

// The first lines, with the number of areas.
fn add_head(text: &mut HeldText, areas: usize) -> Result<(), Memory>
    ensures { OnOk result (text.new ≡ text.old ++ head_text areas) }
{
    text.add(b"ITFFAULTS 1\nAREAS ")?;
    add_number(text, areas as u64)?;
    text.add(b"\n")
}

/// The text of all faults of areas, with these lines of SURFACEs.
pub fn fault_text(
    alloc: Global,
    areas: &[AreaTelling<'_>],
    surfaces: &[u8],
) -> Result<HeldText, Memory>
    ensures { IfOk result (λ text. text ≡ fault_text (tellings areas.now) surfaces.now) }
{
    let mut text = HeldText::new(alloc, b"")?;
    add_head(&mut text, areas.len())?;
    add_areas(&mut text, areas)?;
    text.add(surfaces)?;
    text.add(b"END\n")?;
    Ok(text)
}
