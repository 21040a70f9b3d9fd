// The top call.
ghost use Rattle.std.specs.Prelude.{◌≡◌, ◌≢◌, ◌≤◌, ◌⊎◌, List, ℕ, OnErr, OnOk};
ghost use Rattle.commands.specs.Commands.{FileNames as AnyNames};
ghost use Rattle.delivery.specs.Drawn.{IsCleanDelivery, IsEarly};
ghost use Rattle.delivery.specs.Effects.{HoldsFront};
ghost use Rattle.ports.specs.Faults.{NoReadFell, ReadRose, Rose};
ghost use Rattle.ports.specs.Files.{Puts};
ghost use Rattle.reports.specs.Lines.{Line};
ghost use Rattle.reports.specs.Outcomes.{report_of};
ghost use Rattle.reports.specs.OutcomeViews.{outcome_of};
ghost use Rattle.itffaults.specs.Faults.{HasCause, IsWritten, LeavesRejection, Reports, TellsAll};
ghost use Rattle.itffaults.specs.Faults.{names_by, rejection};

use crate::naming::file_names;
use crate::rejecting::tell_rejection;
use crate::telling::{Telling, tell};
use commands::Word;
use delivery::{CleanDelivery, Delivered, deliver};
use file_pages::HeldText;
use ports::{Failed, Memory, Shelf, Sink};
use reports::outcome::Outcome;
use reports::{Status, report};
use std::alloc::Global;

// Puts a report, and answers with its status.
fn put_report<K: Sink>(report: &[u8], status: Status, out: &mut K) -> Status
    ensures reports { Reports report.now status result (K.written out.old) (K.written out.new) }
    ensures faults { K.faults out.old ≤ K.faults out.new }
    ensures cause { result ≡ Status.WriteFault → status ≢ Status.WriteFault
        → Rose (K.faults out.old) (K.faults out.new) }
    ensures memory { result ≡ Status.Memory → status ≡ Status.Memory }
{
    match out.put(report) {
        Ok(()) => status,
        Err(_) => Status::WriteFault,
    }
}

// Begins the file anew and writes the text.
fn write_text<S: Shelf>(text: &HeldText, name: &str, shelf: &mut S) -> Result<(), Failed>
    ensures filed { OnOk result (Puts (S.held shelf.old) name.now (λ file. text.now)
        (S.held shelf.new)) }
    ensures begun { HoldsFront (S.held shelf.old) name.now text.now (S.held shelf.new) }
    ensures reads { NoReadFell (S.read_faults shelf.old) (S.read_faults shelf.new) }
    ensures writes { S.write_faults shelf.old ≤ S.write_faults shelf.new }
    ensures cause { OnErr result (Rose (S.write_faults shelf.old) (S.write_faults shelf.new)) }
{
    shelf.start(name)?;
    text.put(shelf, name)
}

// Writes the text to its file, and then the report.
fn publish<S: Shelf, K: Sink>(telling: &Telling, name: &str, shelf: &mut S, out: &mut K) -> Status
    requires sound { telling.now.status ≢ Status.WriteFault }
    ensures reports { Reports telling.now.report.items telling.now.status result
        (K.written out.old) (K.written out.new) }
    ensures filed { IsWritten (S.held shelf.old) name.now telling.now.text
        (Rose (S.write_faults shelf.old) (S.write_faults shelf.new)) result
        (S.held shelf.new) (K.written out.old) (K.written out.new) }
    ensures begun { HoldsFront (S.held shelf.old) name.now telling.now.text (S.held shelf.new) }
    ensures reads { NoReadFell (S.read_faults shelf.old) (S.read_faults shelf.new) }
    ensures writes { S.write_faults shelf.old ≤ S.write_faults shelf.new }
    ensures faults { K.faults out.old ≤ K.faults out.new }
    ensures cause { result ≡ Status.WriteFault
        → Rose (S.write_faults shelf.old) (S.write_faults shelf.new)
        ⊎ Rose (K.faults out.old) (K.faults out.new) }
    ensures memory { result ≡ Status.Memory → telling.now.status ≡ Status.Memory }
{
    if write_text(&telling.text, name, shelf).is_err() {
        return Status::WriteFault;
    }
    put_report(&telling.report, telling.status, out)
}

// Tells all faults of a transfer without a finding.
fn tell_clean<S: Shelf, K: Sink>(
    alloc: Global,
    clean: &CleanDelivery,
    name: &str,
    shelf: &mut S,
    out: &mut K,
) -> Status
    requires clean { (model : List ℕ) × (transfer : List ℕ)
        × IsCleanDelivery (S.held shelf.old) model transfer clean.now }
    ensures told { result ≢ Status.Memory → (model transfer : List ℕ)
        → IsCleanDelivery (S.held shelf.old) model transfer clean.now
        → TellsAll (S.held shelf.old)
        (Rose (S.write_faults shelf.old) (S.write_faults shelf.new))
        (names_by model transfer name.now) result (S.held shelf.new) (K.written out.old)
        (K.written out.new) }
    ensures reads { NoReadFell (S.read_faults shelf.old) (S.read_faults shelf.new) }
    ensures writes { S.write_faults shelf.old ≤ S.write_faults shelf.new }
    ensures faults { K.faults out.old ≤ K.faults out.new }
    ensures cause { result ≡ Status.WriteFault
        → Rose (S.write_faults shelf.old) (S.write_faults shelf.new)
        ⊎ Rose (K.faults out.old) (K.faults out.new) }
    ensures memory { result ≡ Status.Memory → (S.held shelf.new ≡ S.held shelf.old)
        × (K.written out.new ≡ K.written out.old) }
{
    match tell(alloc, clean) {
        Ok(telling) => publish(&telling, name, shelf, out),
        Err(Memory) => Status::Memory,
    }
}

// Tells of a transfer that a check rejects before any area is searched.
fn tell_rejected<S: Shelf, K: Sink>(
    alloc: Global,
    outcome: &Outcome<'_>,
    name: &str,
    shelf: &mut S,
    out: &mut K,
) -> Status
    requires rejected { (ls : List Line) × (outcome_of outcome.now ≡ rejection ls) }
    ensures told { result ≢ Status.Memory → (ls : List Line)
        → outcome_of outcome.now ≡ rejection ls → LeavesRejection ls (S.held shelf.old) name.now
        (Rose (S.write_faults shelf.old) (S.write_faults shelf.new))
        result (S.held shelf.new) (K.written out.old) (K.written out.new) }
    ensures reads { NoReadFell (S.read_faults shelf.old) (S.read_faults shelf.new) }
    ensures writes { S.write_faults shelf.old ≤ S.write_faults shelf.new }
    ensures faults { K.faults out.old ≤ K.faults out.new }
    ensures cause { result ≡ Status.WriteFault
        → Rose (S.write_faults shelf.old) (S.write_faults shelf.new)
        ⊎ Rose (K.faults out.old) (K.faults out.new) }
    ensures memory { result ≡ Status.Memory → (S.held shelf.new ≡ S.held shelf.old)
        × (K.written out.new ≡ K.written out.old) }
{
    match tell_rejection(alloc, outcome) {
        Ok(telling) => publish(&telling, name, shelf, out),
        Err(Memory) => Status::Memory,
    }
}

// Reports the outcome of a check that ended before any area was searched.
fn report_ended<K: Sink>(alloc: Global, outcome: &Outcome<'_>, out: &mut K) -> Status
    requires early { IsEarly (outcome_of outcome.now) }
    ensures reports { result ≢ Status.Memory → Reports (report_of (outcome_of outcome.now))
        outcome.now.status result (K.written out.old) (K.written out.new) }
    ensures faults { K.faults out.old ≤ K.faults out.new }
    ensures cause { result ≡ Status.WriteFault → Rose (K.faults out.old) (K.faults out.new) }
    ensures memory { result ≡ Status.Memory → K.written out.new ≡ K.written out.old }
{
    match report(alloc, outcome) {
        Ok(text) => put_report(&text, outcome.status, out),
        Err(Memory) => Status::Memory,
    }
}

// Ends as a check that ended before any area was searched; of a transfer that it rejects, the lines
// of the report go to the file too.
fn end_check<S: Shelf, K: Sink>(
    alloc: Global,
    outcome: &Outcome<'_>,
    name: &str,
    shelf: &mut S,
    out: &mut K,
) -> Status
    requires early { IsEarly (outcome_of outcome.now) }
    requires rejected { outcome.now.status ≡ Status.Rejected
        → (ls : List Line) × (outcome_of outcome.now ≡ rejection ls) }
    ensures same { outcome.now.status ≢ Status.Rejected → S.held shelf.new ≡ S.held shelf.old }
    ensures reports { outcome.now.status ≢ Status.Rejected → result ≢ Status.Memory
        → Reports (report_of (outcome_of outcome.now)) outcome.now.status result
        (K.written out.old) (K.written out.new) }
    ensures told { result ≢ Status.Memory → (ls : List Line)
        → outcome_of outcome.now ≡ rejection ls → LeavesRejection ls (S.held shelf.old) name.now
        (Rose (S.write_faults shelf.old) (S.write_faults shelf.new))
        result (S.held shelf.new) (K.written out.old) (K.written out.new) }
    ensures reads { NoReadFell (S.read_faults shelf.old) (S.read_faults shelf.new) }
    ensures writes { S.write_faults shelf.old ≤ S.write_faults shelf.new }
    ensures faults { K.faults out.old ≤ K.faults out.new }
    ensures cause { result ≡ Status.WriteFault
        → Rose (S.write_faults shelf.old) (S.write_faults shelf.new)
        ⊎ Rose (K.faults out.old) (K.faults out.new) }
    ensures memory { result ≡ Status.Memory → (S.held shelf.new ≡ S.held shelf.old)
        × (K.written out.new ≡ K.written out.old) }
{
    match outcome.status {
        Status::Rejected => tell_rejected(alloc, outcome, name, shelf, out),
        _ => report_ended(alloc, outcome, out),
    }
}

/// Tells all faults of the areas of a transfer, over files by name and an output, and answers with
/// a status whose number is the exit status of the program.
///
/// `words` are those after the program's name: a model, a transfer, and the file that the text of
/// the faults goes to. The files are read as by a check. Of a transfer that a check rejects before
/// it searches any area, the lines of its report go to that file. The verdict is fixed before
/// anything is written. Out of memory is the one answer without a cause. It never comes after the
/// first write.
pub fn run<S: Shelf, K: Sink>(alloc: Global, words: &[Word], shelf: &mut S, out: &mut K) -> Status
    // The cause of the answer, the report and the files.
    ensures cause { result ≢ Status.Memory → HasCause (S.held shelf.old)
        (ReadRose (S.read_faults shelf.old) (S.read_faults shelf.new))
        (Rose (S.write_faults shelf.old) (S.write_faults shelf.new))
        words.now result (S.held shelf.new) (K.written out.old) (K.written out.new) }

    // A write fails only where a fault of it was counted.
    ensures write { result ≡ Status.WriteFault
        → Rose (S.write_faults shelf.old) (S.write_faults shelf.new)
        ⊎ Rose (K.faults out.old) (K.faults out.new) }

    // Out of memory, nothing was written.
    ensures memory { result ≡ Status.Memory
        → (S.held shelf.new ≡ S.held shelf.old) × (K.written out.new ≡ K.written out.old) }

    // No count falls.
    ensures reads { NoReadFell (S.read_faults shelf.old) (S.read_faults shelf.new) }
    ensures writes { S.write_faults shelf.old ≤ S.write_faults shelf.new }
    ensures faults { K.faults out.old ≤ K.faults out.new }
{
    let Some(names) = file_names(words) else {
        return put_report(b"FAULT USAGE\nusage: itffaults M T F\n", Status::Usage, out);
    };
    match deliver(alloc, names.model, names.transfer, shelf) {
        Ok(Delivered::Clean(clean)) => tell_clean(alloc, &clean, names.third, shelf, out),
        Ok(Delivered::Ended(outcome)) => end_check(alloc, &outcome, names.third, shelf, out),
        Err(Memory) => Status::Memory,
    }
}
