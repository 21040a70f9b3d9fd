// The lines of the report on areas.
ghost use Rattle.std.specs.Prelude.{◌≡◌, ◌++◌, IfOk, OnOk};
ghost use Rattle.std.specs.List.{flat_map};
ghost use Rattle.itffaults.specs.FaultText.Report.{answer_word, area_line, fault_report, told_word};
ghost use Rattle.itffaults.specs.FaultText.Report.{verdict_text};
ghost use Rattle.itffaults.specs.FaultText.Text.{counts_text, names_text, telling_of, tellings};

use super::kinds::AreaTelling;
use super::verdicts::{Counts, Verdict, counts_of};
use area_faults::AreaFaults;
use area_search::AreaAnswer;
use commands::Text;
use ports::Memory;
use std::alloc::Global;

// AREA topic table attribute
fn add_names(text: &mut Text, area: &AreaTelling<'_>) -> Result<(), Memory>
    ensures { OnOk result (text.new ≡ text.old ++ names_text (telling_of area.now)) }
{
    text.add(b"AREA")?;
    text.add_next(area.topic.bytes())?;
    text.add_next(area.table.bytes())?;
    text.add_next(area.attribute.bytes())
}

// Eight counts, a blank before each.
fn add_counts(text: &mut Text, counts: Counts) -> Result<(), Memory>
    ensures { OnOk result (text.new ≡ text.old ++ counts_text counts) }
{
    text.add_next_count(u128::from(counts.meetings))?;
    text.add_next_count(u128::from(counts.on))?;
    text.add_next_count(u128::from(counts.outside))?;
    text.add_next_count(u128::from(counts.two))?;
    text.add_next_count(u128::from(counts.empty))?;
    text.add_next_count(u128::from(counts.cuts))?;
    text.add_next_count(u128::from(counts.open_faces))?;
    text.add_next_count(u128::from(counts.unjudged))
}

// What the answer of a search is called.
fn answer_word(answer: &AreaAnswer) -> &'static [u8]
    ensures { result.now ≡ answer_word answer.now }
{
    match answer {
        AreaAnswer::Proved(_) => b" PROVED",
        AreaAnswer::Undecided { .. } => b" UNDECIDED",
        AreaAnswer::Fault(_) => b" FIRST",
    }
}

// What is said where the lists are of the bent drawing, or not of all faults, with a blank before
// it.
fn told_word(told: &AreaFaults) -> &'static [u8]
    ensures { result.now ≡ told_word told.now }
{
    match told {
        AreaFaults::Told(_) => b"",
        AreaFaults::Bent(_, _) => b" BENT",
        AreaFaults::Unsettled(_, answer) => answer_word(answer),
        AreaFaults::Many(_) => b" MANY",
    }
}

// The line of an area: its names, eight counts in the order of the text, and a word where no level
// settles it or the pairs that are told are not all.
fn add_area_line(text: &mut Text, area: &AreaTelling<'_>) -> Result<(), Memory>
    ensures { OnOk result (text.new ≡ text.old ++ area_line (telling_of area.now)) }
{
    add_names(text, area)?;
    add_counts(text, counts_of(&area.faults))?;
    text.add(told_word(&area.faults))?;
    text.add(b"\n")
}

// The lines of areas.
fn add_area_lines(text: &mut Text, areas: &[AreaTelling<'_>]) -> Result<(), Memory>
    ensures { OnOk result (text.new ≡ text.old ++ flat_map area_line (tellings areas.now)) }
{
    for area in areas {
        add_area_line(text, area)?;
    }
    Ok(())
}

// CLEAN and a number of objects.
fn add_clean(text: &mut Text, objects: u128) -> Result<(), Memory>
    ensures { OnOk result (text.new ≡ text.old ++ verdict_text objects Verdict.Clean) }
{
    text.add(b"VERDICT CLEAN ")?;
    text.add_count(objects)?;
    text.add(b"\n")
}

// The last line, on so many objects.
fn add_verdict(text: &mut Text, objects: u128, verdict: Verdict) -> Result<(), Memory>
    ensures { OnOk result (text.new ≡ text.old ++ verdict_text objects verdict) }
{
    match verdict {
        Verdict::Clean => add_clean(text, objects),
        Verdict::Faulty => text.add(b"VERDICT FAULTY\n"),
        Verdict::Unsettled => text.add(b"VERDICT UNSETTLED\n"),
    }
}

/// The report on areas and so many objects, with these lines of SURFACEs and that verdict.
pub fn fault_report(
    alloc: Global,
    areas: &[AreaTelling<'_>],
    surfaces: &[u8],
    objects: u128,
    verdict: Verdict,
) -> Result<Vec<u8>, Memory>
    ensures { IfOk result (λ report. report.items
        ≡ fault_report (tellings areas.now) surfaces.now objects verdict) }
{
    let mut text = Text::new(alloc);
    add_area_lines(&mut text, areas)?;
    text.add(surfaces)?;
    add_verdict(&mut text, objects, verdict)?;
    Ok(text.into_bytes())
}
