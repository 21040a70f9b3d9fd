// The outcome of the words and the files.
ghost use Rattle.std.specs.Prelude.{◌≡◌, ◌≤◌, ◌∷◌, ℕ, List, [], length, IfOk};
ghost use Rattle.ports.specs.Faults.{ReadRose};
ghost use Rattle.ports.specs.Reading.{OnlyReads};
ghost use Rattle.table_layout.specs.Valid.{IsValid};
ghost use Rattle.table_layout.specs.Values.{layout_view};
ghost use Rattle.commands.specs.Commands.{further_files, IsWithin, from_file, judges, verifies};
ghost use Rattle.commands.specs.Commands.{rewrites, tests_points};
ghost use Rattle.commands.specs.Commands.{Command as AnyCommand, IsCommand, made, model_of};
ghost use Rattle.commands.specs.Commands.{Source, task_of};
ghost use Rattle.commands.specs.CommandViews.{command_of as command_view, target_of, task_view};
ghost use Rattle.commands.specs.CommandViews.{transfer_of, IsSmallSource, IsSmallTask};
ghost use Rattle.delivery.specs.Deciding.{CallOutcome};
ghost use Rattle.delivery.specs.Ending.{LayoutOutcome, OutcomeAfter, ModelOutcome, CommandOutcome};
ghost use Rattle.reports.specs.OutcomeViews.{outcome_of};
ghost use Rattle.delivery.specs.Judging.{IsMalformed};
ghost use Rattle.delivery.specs.LinkRows.{HasLinked};
ghost use Rattle.delivery.specs.Pieces.{AreKept, IsJudged, IsJudgedFor, IsSourceJudgedFor};
ghost use Rattle.itf_reader.specs.Refusals.{fault_of};
ghost use Rattle.table_layout.specs.Layouts.{Layout as GivenLayout};
ghost use Rattle.delivery.specs.declared.judging.closing.Wanted.TheVariants.{AreasAlone};
ghost use Rattle.delivery.specs.Served.{IsReadable, AreReadable, HasReadableFiles};
ghost use Rattle.commands.specs.TrialFiles.{model_text as the_model};
ghost use Rattle.commands.specs.TrialFiles.{transfer_text as the_transfer};

use crate::filed::read_certificates;
use crate::judging::{Judged, LinksKept, Wanted};
use crate::rows::{checked, linked_by, rewritten, verified_by};
use crate::transfers::{RowsReading, TransferReading, judge_text, read_for, read_transfer};
use commands::trial::{files_are_short, model_text, transfer_text};
use commands::{
    Command, File, ModelReading, Target, Task, TransferSource, Word, command_of, read_file,
    read_model,
};
use itf_reader::Structure;
use itf_writer::CanonFeed;
use ports::{Memory, Shelf};
use reports::outcome::{Outcome, compiled, malformed, not_read, refused, usage};
use std::alloc::Global;
use table_layout::Layout;

// Judges the transfer of a trial. Its text is held no longer.
fn judge_grid(alloc: Global, layout: &Layout, size: u32) -> Result<Judged, Memory>
    requires valid { IsValid (layout_view layout.now) }
    requires size { size ≤ 500 }
    ensures { IfOk result (IsJudged (layout_view layout.now) (the_transfer size)) }
{
    files_are_short();
    let text = transfer_text(alloc, size)?;
    judge_text(alloc, layout, &text)
}

// Reads and judges a transfer, or makes and judges it.
fn judge_source<S: Shelf>(
    alloc: Global,
    source: TransferSource<'_>,
    layout: &Layout,
    wanted: Wanted,
    shelf: &mut S,
) -> Result<TransferReading, Memory>
    requires valid { IsValid (layout_view layout.now) }
    requires small { IsSmallSource source }
    ensures judged { IfOk result (IsSourceJudgedFor wanted (S.held shelf.old)
        (ReadRose (S.read_faults shelf.old) (S.read_faults shelf.new))
        (layout_view layout.now) (transfer_of source.entry)) }
    ensures reads { OnlyReads (IsReadable (S.readable shelf.old) (transfer_of source.entry))
        (S.held shelf.old) (S.read_faults shelf.old)
        (S.write_faults shelf.old) (S.readable shelf.old) (S.space shelf.old)
        (S.held shelf.new) (S.read_faults shelf.new) (S.write_faults shelf.new)
        (S.readable shelf.new) (S.space shelf.new) }
{
    match source {
        TransferSource::File(name) => read_transfer(alloc, shelf, name, layout, wanted),
        TransferSource::Grid(size) => {
            Ok(TransferReading::Judged(judge_grid(alloc, layout, size)?))
        }
    }
}

// The outcome of a transfer whose areas are searched.
fn decide_checked<'a, S: Shelf>(
    alloc: Global,
    source: TransferSource<'a>,
    target: &Target<'a>,
    layout: &Layout,
    shelf: &mut S,
) -> Result<Outcome<'a>, Memory>
    requires valid { IsValid (layout_view layout.now) }
    requires small { IsSmallSource source }
    ensures outcome { IfOk result (λ o. LayoutOutcome (S.held shelf.old)
        (ReadRose (S.read_faults shelf.old) (S.read_faults shelf.new))
        (judges (transfer_of source.entry) (target_of target.now)) (layout_view layout.now)
        (outcome_of o)) }
    ensures reads { OnlyReads (IsReadable (S.readable shelf.old) (transfer_of source.entry))
        (S.held shelf.old) (S.read_faults shelf.old)
        (S.write_faults shelf.old) (S.readable shelf.old) (S.space shelf.old)
        (S.held shelf.new) (S.read_faults shelf.new) (S.write_faults shelf.new)
        (S.readable shelf.new) (S.space shelf.new) }
{
    match judge_source(alloc, source, layout, Wanted::Everything, shelf)? {
        TransferReading::Judged(judged) => checked(alloc, target, layout, judged),
        TransferReading::Unread(refusal) => not_read(alloc, File::Transfer, refusal),
    }
}

// The outcome of a transfer that was judged and of the certificates of the file of that name.
fn decide_filed<'a, S: Shelf>(
    alloc: Global,
    name: &str,
    layout: &Layout,
    judged: Judged,
    shelf: &mut S,
) -> Result<Outcome<'a>, Memory>
    requires text { (text : List ℕ) × IsJudgedFor AreasAlone (layout_view layout.now) text judged }
    ensures outcome { (text : List ℕ) (source : Source)
        → IsJudgedFor AreasAlone (layout_view layout.now) text judged
        → IfOk result (λ o. OutcomeAfter (S.held shelf.old)
        (ReadRose (S.read_faults shelf.old) (S.read_faults shelf.new))
        (verifies source (from_file File.Certificate name.now)) (layout_view layout.now)
        (text ∷ []) (from_file File.Certificate name.now ∷ []) (outcome_of o)) }
    ensures reads { OnlyReads (S.readable shelf.old name.now)
        (S.held shelf.old) (S.read_faults shelf.old)
        (S.write_faults shelf.old) (S.readable shelf.old) (S.space shelf.old)
        (S.held shelf.new) (S.read_faults shelf.new) (S.write_faults shelf.new)
        (S.readable shelf.new) (S.space shelf.new) }
{
    match read_certificates(alloc, shelf, name) {
        Ok(filed) => verified_by(alloc, layout, judged, filed),
        Err(refusal) => not_read(alloc, File::Certificate, refusal),
    }
}

// The outcome of a transfer and of filed certificates. Both files are read before any verdict.
fn decide_verified<'a, S: Shelf>(
    alloc: Global,
    source: TransferSource<'a>,
    certificates: &str,
    layout: &Layout,
    shelf: &mut S,
) -> Result<Outcome<'a>, Memory>
    requires valid { IsValid (layout_view layout.now) }
    requires small { IsSmallSource source }
    ensures outcome { IfOk result (λ o. LayoutOutcome (S.held shelf.old)
        (ReadRose (S.read_faults shelf.old) (S.read_faults shelf.new))
        (verifies (transfer_of source.entry) (from_file File.Certificate certificates.now))
        (layout_view layout.now) (outcome_of o)) }
    ensures reads { OnlyReads (AreReadable (S.readable shelf.old)
        (transfer_of source.entry ∷ from_file File.Certificate certificates.now ∷ []))
        (S.held shelf.old) (S.read_faults shelf.old)
        (S.write_faults shelf.old) (S.readable shelf.old) (S.space shelf.old)
        (S.held shelf.new) (S.read_faults shelf.new) (S.write_faults shelf.new)
        (S.readable shelf.new) (S.space shelf.new) }
{
    match judge_source(alloc, source, layout, Wanted::AreasAlone, shelf)? {
        TransferReading::Judged(judged) => {
            decide_filed(alloc, certificates, layout, judged, shelf)
        }
        TransferReading::Unread(refusal) => not_read(alloc, File::Transfer, refusal),
    }
}

// The outcome of a transfer that is written in its canonical text.
fn decide_rewritten<'a, S: Shelf>(
    alloc: Global,
    transfer: &str,
    file: &'a str,
    layout: &Layout,
    shelf: &mut S,
) -> Result<Outcome<'a>, Memory>
    requires valid { IsValid (layout_view layout.now) }
    ensures outcome { IfOk result (λ o. LayoutOutcome (S.held shelf.old)
        (ReadRose (S.read_faults shelf.old) (S.read_faults shelf.new))
        (rewrites (from_file File.Transfer transfer.now) file.now) (layout_view layout.now)
        (outcome_of o)) }
    ensures reads { OnlyReads (S.readable shelf.old transfer.now)
        (S.held shelf.old) (S.read_faults shelf.old)
        (S.write_faults shelf.old) (S.readable shelf.old) (S.space shelf.old)
        (S.held shelf.new) (S.read_faults shelf.new) (S.write_faults shelf.new)
        (S.readable shelf.new) (S.space shelf.new) }
{
    let kept = CanonFeed::new(alloc, layout)?;
    match read_for(alloc, shelf, transfer, layout, kept)? {
        RowsReading::Rows(kept) => rewritten(alloc, layout, file, kept),
        RowsReading::Malformed(line, code) => malformed(alloc, line, code),
        RowsReading::Unread(refusal) => not_read(alloc, File::Transfer, refusal),
    }
}

// The outcome of a transfer with a line at fault, whose links are of the file of that name.
fn decide_unlinked<'a, S: Shelf>(
    alloc: Global,
    name: &str,
    line: u32,
    code: Structure,
    shelf: &mut S,
) -> Result<Outcome<'a>, Memory>
    ensures outcome { (l : GivenLayout) (text : List ℕ) (source : Source)
        → IsMalformed l text line (fault_of code)
        → IfOk result (λ o. OutcomeAfter (S.held shelf.old)
        (ReadRose (S.read_faults shelf.old) (S.read_faults shelf.new))
        (tests_points source (from_file File.Links name.now)) l
        (text ∷ []) (from_file File.Links name.now ∷ []) (outcome_of o)) }
    ensures reads { OnlyReads (S.readable shelf.old name.now)
        (S.held shelf.old) (S.read_faults shelf.old)
        (S.write_faults shelf.old) (S.readable shelf.old) (S.space shelf.old)
        (S.held shelf.new) (S.read_faults shelf.new) (S.write_faults shelf.new)
        (S.readable shelf.new) (S.space shelf.new) }
{
    match read_file(alloc, shelf, File::Links, name) {
        Ok(_links) => malformed(alloc, line, code),
        Err(refusal) => not_read(alloc, File::Links, refusal),
    }
}

// The outcome of the rows of a transfer and of the links of the file of that name.
fn decide_linked<'a, S: Shelf>(
    alloc: Global,
    name: &str,
    layout: &Layout,
    kept: LinksKept,
    shelf: &mut S,
) -> Result<Outcome<'a>, Memory>
    requires valid { IsValid (layout_view layout.now) }
    requires text { (text : List ℕ) × AreKept HasLinked (layout_view layout.now) text kept }
    ensures outcome { (text : List ℕ) (source : Source)
        → AreKept HasLinked (layout_view layout.now) text kept.entry
        → IfOk result (λ o. OutcomeAfter (S.held shelf.old)
        (ReadRose (S.read_faults shelf.old) (S.read_faults shelf.new))
        (tests_points source (from_file File.Links name.now)) (layout_view layout.now)
        (text ∷ []) (from_file File.Links name.now ∷ []) (outcome_of o)) }
    ensures reads { OnlyReads (S.readable shelf.old name.now)
        (S.held shelf.old) (S.read_faults shelf.old)
        (S.write_faults shelf.old) (S.readable shelf.old) (S.space shelf.old)
        (S.held shelf.new) (S.read_faults shelf.new) (S.write_faults shelf.new)
        (S.readable shelf.new) (S.space shelf.new) }
{
    match read_file(alloc, shelf, File::Links, name) {
        Ok(links) => linked_by(alloc, layout, kept, &links),
        Err(refusal) => not_read(alloc, File::Links, refusal),
    }
}

// The outcome of a transfer and of links. Both files are read before any verdict.
fn decide_tested<'a, S: Shelf>(
    alloc: Global,
    transfer: &str,
    links: &str,
    layout: &Layout,
    shelf: &mut S,
) -> Result<Outcome<'a>, Memory>
    requires valid { IsValid (layout_view layout.now) }
    ensures outcome { IfOk result (λ o. LayoutOutcome (S.held shelf.old)
        (ReadRose (S.read_faults shelf.old) (S.read_faults shelf.new))
        (tests_points (from_file File.Transfer transfer.now) (from_file File.Links links.now))
        (layout_view layout.now) (outcome_of o)) }
    ensures reads { OnlyReads (AreReadable (S.readable shelf.old)
        (from_file File.Transfer transfer.now ∷ from_file File.Links links.now ∷ []))
        (S.held shelf.old) (S.read_faults shelf.old)
        (S.write_faults shelf.old) (S.readable shelf.old) (S.space shelf.old)
        (S.held shelf.new) (S.read_faults shelf.new) (S.write_faults shelf.new)
        (S.readable shelf.new) (S.space shelf.new) }
{
    let kept = LinksKept::new(alloc, layout)?;
    match read_for(alloc, shelf, transfer, layout, kept)? {
        RowsReading::Rows(kept) => decide_linked(alloc, links, layout, kept, shelf),
        RowsReading::Malformed(line, code) => decide_unlinked(alloc, links, line, code, shelf),
        RowsReading::Unread(refusal) => not_read(alloc, File::Transfer, refusal),
    }
}

// The outcome of a task once its model is compiled.
fn by_task<'a, S: Shelf>(
    alloc: Global,
    task: &Task<'a>,
    layout: &Layout,
    shelf: &mut S,
) -> Result<Outcome<'a>, Memory>
    requires valid { IsValid (layout_view layout.now) }
    requires small { IsSmallTask task.now }
    ensures outcome { IfOk result (λ o. LayoutOutcome (S.held shelf.old)
        (ReadRose (S.read_faults shelf.old) (S.read_faults shelf.new)) (task_view task.now)
        (layout_view layout.now) (outcome_of o)) }
    ensures reads { OnlyReads
        (AreReadable (S.readable shelf.old) (further_files (task_view task.now)))
        (S.held shelf.old) (S.read_faults shelf.old)
        (S.write_faults shelf.old) (S.readable shelf.old) (S.space shelf.old)
        (S.held shelf.new) (S.read_faults shelf.new) (S.write_faults shelf.new)
        (S.readable shelf.new) (S.space shelf.new) }
{
    match task {
        Task::Lists => compiled(alloc, layout),
        Task::Judges { transfer, target } => {
            decide_checked(alloc, *transfer, target, layout, shelf)
        }
        Task::Verifies {
            transfer,
            certificates,
        } => decide_verified(alloc, *transfer, certificates, layout, shelf),
        Task::Rewrites { transfer, file } => {
            decide_rewritten(alloc, transfer, file, layout, shelf)
        }
        Task::TestsPoints { transfer, links } => {
            decide_tested(alloc, transfer, links, layout, shelf)
        }
    }
}

// The outcome of a task whose model has that text.
fn from_model_text<'a, S: Shelf>(
    alloc: Global,
    task: &Task<'a>,
    text: &[u8],
    shelf: &mut S,
) -> Result<Outcome<'a>, Memory>
    requires short { length text.now ≤ 4194304 }
    requires small { IsSmallTask task.now }
    ensures outcome { IfOk result (λ o. ModelOutcome (S.held shelf.old)
        (ReadRose (S.read_faults shelf.old) (S.read_faults shelf.new)) (task_view task.now)
        text.now (outcome_of o)) }
    ensures reads { OnlyReads
        (AreReadable (S.readable shelf.old) (further_files (task_view task.now)))
        (S.held shelf.old) (S.read_faults shelf.old)
        (S.write_faults shelf.old) (S.readable shelf.old) (S.space shelf.old)
        (S.held shelf.new) (S.read_faults shelf.new) (S.write_faults shelf.new)
        (S.readable shelf.new) (S.space shelf.new) }
{
    match read_model(alloc, text)? {
        ModelReading::Laid(layout) => by_task(alloc, task, &layout, shelf),
        ModelReading::Refused(refusal) => refused(alloc, refusal),
    }
}

// The outcome of a command whose model is the file of that name.
fn from_model_file<'a, S: Shelf>(
    alloc: Global,
    command: &Command<'a>,
    name: &str,
    shelf: &mut S,
) -> Result<Outcome<'a>, Memory>
    requires size { IsWithin (command_view command.now) }
    requires model { model_of (command_view command.now) ≡ from_file File.Model name.now }
    ensures outcome { IfOk result (λ o. CommandOutcome (S.held shelf.old)
        (ReadRose (S.read_faults shelf.old) (S.read_faults shelf.new)) (command_view command.now)
        (outcome_of o)) }
    ensures reads { OnlyReads (HasReadableFiles (S.readable shelf.old) (command_view command.now))
        (S.held shelf.old) (S.read_faults shelf.old)
        (S.write_faults shelf.old) (S.readable shelf.old) (S.space shelf.old)
        (S.held shelf.new) (S.read_faults shelf.new) (S.write_faults shelf.new)
        (S.readable shelf.new) (S.space shelf.new) }
{
    let task = command.task();
    match read_file(alloc, shelf, File::Model, name) {
        Ok(text) => from_model_text(alloc, &task, &text, shelf),
        Err(refusal) => not_read(alloc, File::Model, refusal),
    }
}

// The outcome of a trial, whose files are made.
fn from_made_model<'a, S: Shelf>(
    alloc: Global,
    command: &Command<'a>,
    shelf: &mut S,
) -> Result<Outcome<'a>, Memory>
    requires size { IsWithin (command_view command.now) }
    requires model { model_of (command_view command.now) ≡ made the_model }
    ensures outcome { IfOk result (λ o. CommandOutcome (S.held shelf.old)
        (ReadRose (S.read_faults shelf.old) (S.read_faults shelf.new)) (command_view command.now)
        (outcome_of o)) }
    ensures reads { OnlyReads (HasReadableFiles (S.readable shelf.old) (command_view command.now))
        (S.held shelf.old) (S.read_faults shelf.old)
        (S.write_faults shelf.old) (S.readable shelf.old) (S.space shelf.old)
        (S.held shelf.new) (S.read_faults shelf.new) (S.write_faults shelf.new)
        (S.readable shelf.new) (S.space shelf.new) }
{
    files_are_short();
    let task = command.task();
    let text = model_text(alloc)?;
    from_model_text(alloc, &task, &text, shelf)
}

// The outcome of a command's files.
fn decide_command<'a, S: Shelf>(
    alloc: Global,
    command: &Command<'a>,
    shelf: &mut S,
) -> Result<Outcome<'a>, Memory>
    requires size { IsWithin (command_view command.now) }
    ensures outcome { IfOk result (λ o. CommandOutcome (S.held shelf.old)
        (ReadRose (S.read_faults shelf.old) (S.read_faults shelf.new)) (command_view command.now)
        (outcome_of o)) }
    ensures reads { OnlyReads (HasReadableFiles (S.readable shelf.old) (command_view command.now))
        (S.held shelf.old) (S.read_faults shelf.old)
        (S.write_faults shelf.old) (S.readable shelf.old) (S.space shelf.old)
        (S.held shelf.new) (S.read_faults shelf.new) (S.write_faults shelf.new)
        (S.readable shelf.new) (S.space shelf.new) }
{
    match command {
        Command::Compile(model) => from_model_file(alloc, command, model, shelf),
        Command::OnFiles(_, names) => from_model_file(alloc, command, names.model, shelf),
        Command::Trial(_) => from_made_model(alloc, command, shelf),
    }
}

/// The outcome of the words and the files that they name. Nothing is written.
pub fn decide<'a, S: Shelf>(
    alloc: Global,
    words: &'a [Word],
    shelf: &mut S,
) -> Result<Outcome<'a>, Memory>
    ensures outcome { IfOk result (λ o. CallOutcome (S.held shelf.old)
        (ReadRose (S.read_faults shelf.old) (S.read_faults shelf.new)) words.now (outcome_of o)) }
    ensures reads { OnlyReads ((c : AnyCommand) → IsCommand words.now c
        → HasReadableFiles (S.readable shelf.old) c)
        (S.held shelf.old) (S.read_faults shelf.old)
        (S.write_faults shelf.old) (S.readable shelf.old) (S.space shelf.old)
        (S.held shelf.new) (S.read_faults shelf.new) (S.write_faults shelf.new)
        (S.readable shelf.new) (S.space shelf.new) }
{
    match command_of(words) {
        Some(command) => decide_command(alloc, &command, shelf),
        None => usage(alloc),
    }
}
