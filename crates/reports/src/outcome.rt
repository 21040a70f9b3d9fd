// Outcomes of a call, fixed before anything is written.
ghost use Rattle.std.specs.Prelude.{◌≡◌, ◌≤◌, ◌++◌, length, map, IfOk, OnOk, Some, None};
ghost use Rattle.std.specs.Option.{option_map};
ghost use Rattle.certificate.specs.Spelling.{view, views};
ghost use Rattle.itf_reader.specs.Findings.{findings_of};
ghost use Rattle.itf_reader.specs.Refusals.{fault_of};
ghost use Rattle.table_layout.specs.Values.{area_view, areas_view, layout_view, table_view};
ghost use Rattle.table_layout.specs.Values.{tables_view};
ghost use Rattle.reports.specs.Outcomes.{reported, usage, area_too_large};
ghost use Rattle.reports.specs.Outcomes.{canonical, canon_refused};
ghost use Rattle.reports.specs.Outcomes.{refused, compiled, malformed, rejected, areas_outcome};
ghost use Rattle.reports.specs.Outcomes.{judged_lines, by_kinds, lines_outcome, unfiled_outcome};
ghost use Rattle.reports.specs.Outcomes.{bad_link, linked};
ghost use Rattle.reports.specs.Outcomes.{accepted_with, area_line, area_lines, table_line};
ghost use Rattle.reports.specs.Outcomes.{with_verdict, trial_line, size_lines, trial_lines};
ghost use Rattle.reports.specs.Outcomes.{filed_text};
ghost use Rattle.polygons.specs.Text.{views as polygons_in};
ghost use Rattle.reports.specs.Outcomes.{proof_answers, verified};
ghost use Rattle.reports.specs.AreaKinds.{plans};
ghost use Rattle.reports.specs.LineViews.{line_of, lines_of};
ghost use Rattle.reports.specs.OutcomeViews.{filing_of, misplaced_view, outcome_of, text_of};
ghost use Rattle.commands.specs.CommandViews.{target_of};
ghost use Rattle.reports.specs.FileRefusals.{IsNotRead};
ghost use Rattle.commands.specs.RefusalViews.{refusal_of};
ghost use Rattle.reports.specs.VerificationViews.{verification_of};

use crate::area_answers::{Answers, proof_answer};
use crate::area_names::{names_of, topic_text};
use crate::kinds::{has_fault, has_undecided};
use crate::lines::{AreaAnswer, AreaLine, Line, SurfaceAnswer, TableLine, Verdict};
use crate::links::{Misplaced, add_link_lines};
use crate::status::Status;
use crate::surfaces::{add_surface_lines, surfaces_of};
use crate::verification::Verification;
use certificate::Certificate;
use commands::{File, FileRefusal, Filed, Refusal, Target};
use file_pages::HeldText;
use itf_reader::{Finding, Structure};
use plane::Drawing;
use polygons::AreaPolygons;
use ports::{Memory, Name};
use std::alloc::Global;
use table_layout::{AreaOf, Layout, Table};

/// What is written to a file.
#[derive(Drop)]
pub enum Content {
    /// Certificates, in their text.
    Certificates(Vec<Certificate>),
    /// The polygons of areas, in their text.
    Polygons(Vec<AreaPolygons>),
    /// A text as it stands.
    Text(HeldText),
}

/// What is written, and the name of its file.
#[derive(Drop)]
pub struct Filing<'a> {
    pub name: &'a str,
    pub content: Content,
}

/// What a call answers, reports and writes. The lines for the findings come first; they are kept
/// as findings, since there may be millions.
#[derive(Drop)]
pub struct Outcome<'a> {
    pub status: Status,
    pub findings: Vec<Finding>,
    pub lines: Vec<Line>,
    pub filing: Option<Filing<'a>>,
}

// An outcome without findings that writes no file.
fn reported<'a>(alloc: Global, status: Status, lines: Vec<Line>) -> Outcome<'a>
    ensures { outcome_of result ≡ reported status (lines_of lines.items) }
{
    Outcome {
        status,
        findings: Vec::new(alloc),
        lines,
        filing: None,
    }
}

/// The words are no command.
pub fn usage<'a>(alloc: Global) -> Result<Outcome<'a>, Memory>
    ensures { IfOk result (λ o. outcome_of o ≡ usage) }
{
    let lines = vec![in alloc; Line::UsageFault, Line::UsageWords]?;
    Ok(reported(alloc, Status::Usage, lines))
}

/// A file was not read.
pub fn not_read<'a>(alloc: Global, file: File, refusal: FileRefusal) -> Result<Outcome<'a>, Memory>
    ensures { IfOk result (λ o. IsNotRead file refusal (outcome_of o)) }
{
    match refusal {
        FileRefusal::Failed => {
            let lines = vec![in alloc; Line::Unread(file)]?;
            Ok(reported(alloc, Status::ReadFault, lines))
        }
        FileRefusal::TooLong => {
            let lines = vec![in alloc; Line::TooLong(file)]?;
            Ok(reported(alloc, Status::OverLimit, lines))
        }
        FileRefusal::Memory => Err(Memory),
    }
}

/// An area has more vertices or objects than its limit.
pub fn area_too_large<'a>(alloc: Global) -> Result<Outcome<'a>, Memory>
    ensures { IfOk result (λ o. outcome_of o ≡ area_too_large) }
{
    let lines = vec![in alloc; Line::AreaLimit]?;
    Ok(reported(alloc, Status::OverLimit, lines))
}

/// The model is refused.
pub fn refused<'a>(alloc: Global, refusal: Refusal) -> Result<Outcome<'a>, Memory>
    ensures { IfOk result (λ o. outcome_of o ≡ refused (refusal_of refusal)) }
{
    let lines = vec![in alloc; Line::ModelFault(refusal)]?;
    Ok(reported(alloc, Status::ModelRefused, lines))
}

// The line for a table.
fn table_line(alloc: Global, topics: &[Name], table: &Table) -> Result<Line, Memory>
    ensures { IfOk result (λ line. line_of line ≡ table_line topics.now (table_view table.now)) }
{
    Ok(Line::Table(TableLine {
        topic: Name::new(alloc, topic_text(topics, table.topic))?,
        name: Name::new(alloc, table.name.bytes())?,
        role: table.role,
        columns: table.columns.len() as u64,
        lines: table.lines.len() as u64,
    }))
}

// Adds the lines for tables.
fn add_tables(
    alloc: Global,
    lines: &mut Vec<Line>,
    topics: &[Name],
    tables: &[Table],
) -> Result<(), Memory>
    ensures { OnOk result (lines_of lines.new.items ≡ lines_of lines.old.items ++ map
        (table_line topics.now) (tables_view tables.now)) }
{
    for table in tables {
        lines.push(table_line(alloc, topics, table)?)?;
    }
    Ok(())
}

/// The model is compiled to that layout.
pub fn compiled<'a>(alloc: Global, layout: &Layout) -> Result<Outcome<'a>, Memory>
    ensures { IfOk result (λ o. outcome_of o ≡ compiled (layout_view layout.now)) }
{
    let name = Name::new(alloc, layout.model.bytes())?;
    let mut lines = vec![in alloc; Line::Model(name)]?;
    add_tables(alloc, &mut lines, &layout.topics, &layout.tables)?;
    lines.push(Line::Verdict(Verdict::Compiled(layout.tables.len() as u128)))?;
    Ok(reported(alloc, Status::Accepted, lines))
}

/// The transfer is at fault at a line.
pub fn malformed<'a>(alloc: Global, line: u32, code: Structure) -> Result<Outcome<'a>, Memory>
    ensures { IfOk result (λ o. outcome_of o ≡ malformed line (fault_of code)) }
{
    let lines = vec![in alloc;
        Line::Structure { line, code },
        Line::Verdict(Verdict::Rejected),
    ]?;
    Ok(reported(alloc, Status::Rejected, lines))
}

/// The transfer has no canonical text.
pub fn canon_refused<'a>(alloc: Global) -> Result<Outcome<'a>, Memory>
    ensures { IfOk result (λ o. outcome_of o ≡ canon_refused) }
{
    let lines = vec![in alloc; Line::CanonRefused, Line::Verdict(Verdict::Rejected)]?;
    Ok(reported(alloc, Status::Rejected, lines))
}

/// The canonical text of a number of objects, which goes to the file of that name.
pub fn canonical(
    alloc: Global,
    name: &str,
    objects: u128,
    text: HeldText,
) -> Result<Outcome<'_>, Memory>
    ensures { IfOk result (λ o. outcome_of o ≡ canonical name.now objects text) }
{
    let filing = Filing {
        name,
        content: Content::Text(text),
    };
    accepted(alloc, Vec::new(alloc), objects, Some(filing))
}

/// The first line of the links that states no rule.
pub fn bad_link<'a>(alloc: Global, line: u32) -> Result<Outcome<'a>, Memory>
    ensures { IfOk result (λ o. outcome_of o ≡ bad_link line) }
{
    let lines = vec![in alloc; Line::LinkLine(line), Line::Verdict(Verdict::Rejected)]?;
    Ok(reported(alloc, Status::Rejected, lines))
}

/// The transfer has findings.
pub fn rejected<'a>(alloc: Global, findings: Vec<Finding>) -> Result<Outcome<'a>, Memory>
    ensures { IfOk result (λ o. outcome_of o ≡ rejected (findings_of findings.items)) }
{
    let lines = vec![in alloc; Line::Verdict(Verdict::Rejected)]?;
    Ok(Outcome {
        status: Status::Rejected,
        findings,
        lines,
        filing: None,
    })
}

// The line for an area, and the answer to it.
fn area_line(
    alloc: Global,
    layout: &Layout,
    area: &AreaOf,
    answer: AreaAnswer,
) -> Result<Line, Memory>
    ensures { IfOk result (λ line. line_of line ≡ area_line (layout_view layout.now)
        (area_view area.now) answer) }
{
    let names = names_of(alloc, layout, area)?;
    Ok(Line::Area(AreaLine { names, answer }))
}

// The lines for areas, one for each answer.
fn area_lines(alloc: Global, layout: &Layout, answers: &[AreaAnswer]) -> Result<Vec<Line>, Memory>
    ensures { IfOk result (λ lines. lines_of lines.items ≡ area_lines (layout_view layout.now)
        (areas_view layout.now.areas.items) answers.now) }
{
    let mut lines = Vec::new(alloc);
    for (area, answer) in layout.areas.iter().zip(answers) {
        lines.push(area_line(alloc, layout, area, *answer)?)?;
    }
    Ok(lines)
}

// Adds what a trial of that size reports of an area that is proved.
fn add_trial_line(
    size: u32,
    answer: AreaAnswer,
    certificate: &Certificate,
    lines: &mut Vec<Line>,
) -> Result<(), Memory>
    ensures { OnOk result (lines_of lines.new.items ≡ lines_of lines.old.items
        ++ trial_line size answer (view certificate.now)) }
{
    if let AreaAnswer::Proved { curves, points, .. } = answer {
        lines.push(Line::Trial {
            size,
            curves,
            events: certificate.positions.len() as u64,
            points,
        })?;
    }
    Ok(())
}

// What a trial of that size reports of its areas.
fn size_lines(
    alloc: Global,
    size: u32,
    answers: &[AreaAnswer],
    certificates: &[Certificate],
) -> Result<Vec<Line>, Memory>
    ensures { IfOk result (λ lines. lines_of lines.items ≡ size_lines size answers.now
        (views certificates.now)) }
{
    let mut lines = Vec::new(alloc);
    for (answer, certificate) in answers.iter().zip(certificates) {
        add_trial_line(size, *answer, certificate, &mut lines)?;
    }
    Ok(lines)
}

// What the report of a trial says of its areas; nothing where it is none.
fn trial_lines(alloc: Global, filed: Filed, answers: &Answers) -> Result<Vec<Line>, Memory>
    ensures { IfOk result (λ lines. lines_of lines.items ≡ trial_lines filed
        answers.now.areas.items (views answers.now.certificates.items)) }
{
    match filed {
        Filed::Trial(size) => size_lines(alloc, size, &answers.areas, &answers.certificates),
        Filed::Certificates | Filed::Polygons => Ok(Vec::new(alloc)),
    }
}

// What is filed of the areas.
fn content_of(filed: Filed, certificates: Vec<Certificate>, polygons: Vec<AreaPolygons>) -> Content
    ensures { text_of result ≡ filed_text filed (views certificates.items)
        (polygons_in polygons.items) }
{
    match filed {
        Filed::Certificates | Filed::Trial(_) => Content::Certificates(certificates),
        Filed::Polygons => Content::Polygons(polygons),
    }
}

// Accepted, with the number of objects and what is written, if something is.
fn accepted(
    alloc: Global,
    lines: Vec<Line>,
    objects: u128,
    filing: Option<Filing<'_>>,
) -> Result<Outcome<'_>, Memory>
    ensures { IfOk result (λ o. outcome_of o ≡ accepted_with (lines_of lines.items) objects
        (option_map filing_of filing.entry)) }
{
    let mut lines = lines;
    lines.push(Line::Verdict(Verdict::Accepted(objects)))?;
    Ok(Outcome {
        status: Status::Accepted,
        findings: Vec::new(alloc),
        lines,
        filing,
    })
}

// Lines and a verdict, without a file.
fn ended<'a>(
    alloc: Global,
    status: Status,
    lines: Vec<Line>,
    verdict: Verdict,
) -> Result<Outcome<'a>, Memory>
    ensures { IfOk result (λ o. outcome_of o ≡ reported status
        (with_verdict (lines_of lines.items) verdict)) }
{
    let mut lines = lines;
    lines.push(Line::Verdict(verdict))?;
    Ok(reported(alloc, status, lines))
}

// The outcome of the lines on what was judged, by their kinds: one fault rejects the transfer,
// else one that is undecided leaves it so, else it is accepted, with these lines more, a number of
// objects and what is written, if something is.
fn by_kinds(
    alloc: Global,
    lines: Vec<Line>,
    more: Vec<Line>,
    objects: u128,
    filing: Option<Filing<'_>>,
) -> Result<Outcome<'_>, Memory>
    ensures { IfOk result (λ o. outcome_of o ≡ by_kinds (lines_of lines.items)
        (accepted_with (lines_of lines.items ++ lines_of more.items) objects
        (option_map filing_of filing.entry))) }
{
    if has_fault(&lines) {
        return ended(alloc, Status::Rejected, lines, Verdict::Rejected);
    }
    if has_undecided(&lines) {
        return ended(alloc, Status::Undecided, lines, Verdict::Undecided);
    }
    let mut lines = lines;
    let mut more = more;
    lines.append(&mut more)?;
    accepted(alloc, lines, objects, filing)
}

/// The outcome of the lines on what was judged, by their kinds: one fault rejects the transfer,
/// else one that is undecided leaves it so, else it is accepted, with these lines more, a number of
/// objects and what is written.
pub fn lines_outcome(
    alloc: Global,
    lines: Vec<Line>,
    more: Vec<Line>,
    objects: u128,
    filing: Filing<'_>,
) -> Result<Outcome<'_>, Memory>
    ensures { IfOk result (λ o. outcome_of o ≡ lines_outcome (lines_of lines.items)
        (lines_of more.items) objects (filing_of filing.entry)) }
{
    by_kinds(alloc, lines, more, objects, Some(filing))
}

// The outcome of lines by their kinds, where nothing is written.
fn unfiled_outcome<'a>(
    alloc: Global,
    lines: Vec<Line>,
    objects: u128,
) -> Result<Outcome<'a>, Memory>
    ensures { IfOk result (λ o. outcome_of o ≡ unfiled_outcome (lines_of lines.items) objects) }
{
    by_kinds(alloc, lines, Vec::new(alloc), objects, None)
}

// The lines for areas, and behind them those for SURFACEs.
fn judged_lines(
    alloc: Global,
    layout: &Layout,
    surfaces: &[SurfaceAnswer],
    answers: &[AreaAnswer],
) -> Result<Vec<Line>, Memory>
    requires { length layout.now.tables.items ≤ 4194304 }
    ensures { IfOk result (λ lines. lines_of lines.items ≡ judged_lines (layout_view layout.now)
        surfaces.now answers.now) }
{
    let mut lines = area_lines(alloc, layout, answers)?;
    let all = surfaces_of(alloc, layout)?;
    add_surface_lines(alloc, layout, &all, surfaces, &mut lines)?;
    Ok(lines)
}

/// The outcome of a number of objects without a finding and of the answers to the SURFACEs and the
/// areas of the layout. Where all areas are proved and no SURFACE is at fault, the certificates or
/// the polygons of the areas go to the target.
pub fn areas_outcome<'a>(
    alloc: Global,
    layout: &Layout,
    objects: u128,
    target: &Target<'a>,
    surfaces: &[SurfaceAnswer],
    answers: Answers,
    polygons: Vec<AreaPolygons>,
) -> Result<Outcome<'a>, Memory>
    requires { length layout.now.tables.items ≤ 4194304 }
    ensures { IfOk result (λ o. outcome_of o ≡ areas_outcome (layout_view layout.now) objects
        (target_of target.now) surfaces.now answers.areas.items
        (views answers.certificates.items) (polygons_in polygons.items)) }
{
    let lines = judged_lines(alloc, layout, surfaces, &answers.areas)?;
    let more = trial_lines(alloc, target.filed, &answers)?;
    let filing = Filing {
        name: target.name,
        content: content_of(target.filed, answers.certificates, polygons),
    };
    lines_outcome(alloc, lines, more, objects, filing)
}

/// The outcome of a number of objects without a finding, of the answers to the SURFACEs and the
/// areas of the layout, and, where none of these is a fault and none undecided, of the links: one
/// misplaced point rejects the transfer, and else it is accepted. Nothing is written.
pub fn linked<'a>(
    alloc: Global,
    layout: &Layout,
    objects: u128,
    surfaces: &[SurfaceAnswer],
    answers: &[AreaAnswer],
    misplaced: &[Misplaced],
    rules: u64,
    pairs: u128,
) -> Result<Outcome<'a>, Memory>
    requires { length layout.now.tables.items ≤ 4194304 }
    ensures { IfOk result (λ o. outcome_of o ≡ linked (layout_view layout.now) objects
        surfaces.now answers.now (misplaced_view misplaced.now) rules pairs) }
{
    let mut lines = judged_lines(alloc, layout, surfaces, answers)?;
    if has_fault(&lines) || has_undecided(&lines) {
        return unfiled_outcome(alloc, lines, objects);
    }
    add_link_lines(misplaced, rules, pairs, &mut lines)?;
    unfiled_outcome(alloc, lines, objects)
}

// The answers to drawings that are proved at these levels.
fn proof_answers(
    alloc: Global,
    drawings: &[Drawing],
    levels: &[u8],
) -> Result<Vec<AreaAnswer>, Memory>
    ensures { IfOk result (λ xs. xs.items ≡ proof_answers (plans drawings.now) levels.now) }
{
    let mut answers = Vec::new(alloc);
    for (drawing, level) in drawings.iter().zip(levels) {
        answers.push(proof_answer(drawing, *level))?;
    }
    Ok(answers)
}

/// The outcome of a number of objects without a finding and of what filed certificates prove of
/// the drawings.
pub fn verified<'a>(
    alloc: Global,
    layout: &Layout,
    objects: u128,
    drawings: &[Drawing],
    verification: &Verification,
) -> Result<Outcome<'a>, Memory>
    ensures { IfOk result (λ o. outcome_of o ≡ verified (layout_view layout.now) objects
        (plans drawings.now) (verification_of verification.now)) }
{
    match verification {
        Verification::Proved(levels) => {
            let answers = proof_answers(alloc, drawings, levels)?;
            let lines = area_lines(alloc, layout, &answers)?;
            ended(alloc, Status::Accepted, lines, Verdict::Accepted(objects))
        }
        Verification::NotProved { area, rule, place } => {
            let line = Line::NotProved {
                area: *area,
                rule: *rule,
                place: *place,
            };
            let lines = vec![in alloc; line]?;
            ended(alloc, Status::NotProved, lines, Verdict::NotProved)
        }
    }
}
