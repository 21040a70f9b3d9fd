// What is written once the outcome is fixed. No memory is taken here.
ghost use Rattle.std.specs.Prelude.{◌≡◌, ◌≢◌, ◌≤◌, ◌⊎◌, ◌++◌, OnOk, OnErr, IsOk, length};
ghost use Rattle.ports.specs.Faults.{Rose, NoReadFell, CountsStay};
ghost use Rattle.ports.specs.Files.{Gained, Puts, bytes_of};
ghost use Rattle.ports.specs.Output.{Adds, AddsPrefix};
ghost use Rattle.ports.specs.Rooms.{HasRoom};
ghost use Rattle.delivery.specs.Effects.{IsBegun, IsFiled};
ghost use Rattle.reports.specs.OutcomeViews.{filing_of, outcome_of, text_of};
ghost use Rattle.delivery.specs.Served.{HasFilingSpace};
ghost use Rattle.std.specs.Prelude.{Some};

use certificate::write;
use polygons::write_polygons;
use ports::{Failed, Shelf, Sink};
use reports::Status;
use reports::outcome::{Content, Filing, Outcome};

// Appends the text of what is written to the file of that name.
fn put_content<S: Shelf>(content: &Content, shelf: &mut S, name: &str) -> Result<(), Failed>
    ensures done { OnOk result (Puts (S.held shelf.old) name.now
        (λ file. bytes_of file ++ text_of content.now) (S.held shelf.new)) }
    ensures failed { OnErr result (Gained (S.held shelf.old) name.now (text_of content.now)
        (S.held shelf.new)) }
    ensures reads { NoReadFell (S.read_faults shelf.old) (S.read_faults shelf.new) }
    ensures writes { S.write_faults shelf.old ≤ S.write_faults shelf.new }
    ensures cause { OnErr result (Rose (S.write_faults shelf.old) (S.write_faults shelf.new)) }
    ensures answers { HasRoom (length (text_of content.now)) (S.space shelf.old name.now)
        → IsOk result }
    ensures uncounted { OnOk result (CountsStay (S.read_faults shelf.old) (S.write_faults shelf.old)
        (S.read_faults shelf.new) (S.write_faults shelf.new)) }
{
    match content {
        Content::Certificates(certificates) => write(certificates, shelf, name),
        Content::Polygons(areas) => write_polygons(areas, shelf, name),
        Content::Text(text) => text.put(shelf, name),
    }
}

// Writes a text to its file.
fn write_filing<S: Shelf>(filing: &Filing<'_>, shelf: &mut S) -> Result<(), Failed>
    ensures filed { OnOk result (IsFiled (Some (filing_of filing.now)) (S.held shelf.old)
        (S.held shelf.new)) }
    ensures begun { IsBegun (Some (filing_of filing.now)) (S.held shelf.old) (S.held shelf.new) }
    ensures reads { NoReadFell (S.read_faults shelf.old) (S.read_faults shelf.new) }
    ensures writes { S.write_faults shelf.old ≤ S.write_faults shelf.new }
    ensures cause { OnErr result (Rose (S.write_faults shelf.old) (S.write_faults shelf.new)) }
    ensures answers { HasFilingSpace (S.space shelf.old) (Some (filing_of filing.now))
        → IsOk result }
    ensures uncounted { OnOk result (CountsStay (S.read_faults shelf.old) (S.write_faults shelf.old)
        (S.read_faults shelf.new) (S.write_faults shelf.new)) }
{
    shelf.start(filing.name)?;
    put_content(&filing.content, shelf, filing.name)
}

// Writes the file of an outcome, where it has one.
fn write_files<S: Shelf>(outcome: &Outcome<'_>, shelf: &mut S) -> Result<(), Failed>
    ensures filed { OnOk result (IsFiled (outcome_of outcome.now).filing (S.held shelf.old)
        (S.held shelf.new)) }
    ensures begun { IsBegun (outcome_of outcome.now).filing (S.held shelf.old) (S.held shelf.new) }
    ensures reads { NoReadFell (S.read_faults shelf.old) (S.read_faults shelf.new) }
    ensures writes { S.write_faults shelf.old ≤ S.write_faults shelf.new }
    ensures cause { OnErr result (Rose (S.write_faults shelf.old) (S.write_faults shelf.new)) }
    ensures answers { HasFilingSpace (S.space shelf.old) (outcome_of outcome.now).filing
        → IsOk result }
    ensures uncounted { OnOk result (CountsStay (S.read_faults shelf.old) (S.write_faults shelf.old)
        (S.read_faults shelf.new) (S.write_faults shelf.new)) }
{
    match &outcome.filing {
        Some(filing) => write_filing(filing, shelf),
        None => Ok(()),
    }
}

/// Writes what an outcome asks for: its file first, and then the report.
pub fn publish<S: Shelf, K: Sink>(
    outcome: &Outcome<'_>,
    text: &[u8],
    shelf: &mut S,
    out: &mut K,
) -> Status
    ensures status { result ≢ Status.WriteFault → result ≡ outcome.now.status }
    ensures text { result ≢ Status.WriteFault
        → Adds (K.written out.old) text.now (K.written out.new) }
    ensures prefix { AddsPrefix (K.written out.old) text.now (K.written out.new) }
    ensures begun { IsBegun (outcome_of outcome.now).filing (S.held shelf.old) (S.held shelf.new) }
    ensures filed { result ≢ Status.WriteFault
        → IsFiled (outcome_of outcome.now).filing (S.held shelf.old) (S.held shelf.new) }
    ensures whole { (Rose (S.write_faults shelf.old) (S.write_faults shelf.new) → ⊥)
        ⊎ (K.written out.new ≢ K.written out.old)
        → IsFiled (outcome_of outcome.now).filing (S.held shelf.old) (S.held shelf.new) }
    ensures reads { NoReadFell (S.read_faults shelf.old) (S.read_faults shelf.new) }
    ensures writes { S.write_faults shelf.old ≤ S.write_faults shelf.new }
    ensures faults { K.faults out.old ≤ K.faults out.new }
    ensures cause { result ≡ Status.WriteFault
        → outcome.now.status ≢ Status.WriteFault
        → Rose (S.write_faults shelf.old) (S.write_faults shelf.new)
        ⊎ Rose (K.faults out.old) (K.faults out.new) }
    ensures stay { HasFilingSpace (S.space shelf.old) (outcome_of outcome.now).filing
        → HasRoom (length text.now) (K.space out.old)
        → CountsStay (S.read_faults shelf.old) (S.write_faults shelf.old)
        (S.read_faults shelf.new) (S.write_faults shelf.new)
        × (K.faults out.new ≡ K.faults out.old) }
{
    if write_files(outcome, shelf).is_err() {
        return Status::WriteFault;
    }
    match out.put(text) {
        Ok(()) => outcome.status,
        Err(_) => Status::WriteFault,
    }
}
