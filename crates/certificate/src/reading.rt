// A certificate's text, read line by line.
ghost use Rattle.std.specs.Prelude.{◌≡◌, ◌<◌, ◌≤◌, ◌^◌, ◌+◌, [], length, IfOk, IfErr, Ok, List};
ghost use Rattle.std.specs.List.{AllByRecursion};
ghost use Rattle.certificate.specs.Spelling.{Plain, AreSpelt, ArePaired, view, views, Spells};
ghost use Rattle.certificate.specs.Reading.{Gives, plain, list_of};
ghost use Rattle.certificate.specs.Views.{text_view, title_view};
ghost use Rattle.certificate.specs.FirstBad.{IsFault};
ghost use Rattle.certificate.specs.Feeding.{LeadsTo, FailsOn, IsLeft, open_on, sizes_on};
ghost use Rattle.certificate.specs.Feeding.{names_view, listed_on, stage_on, is_complete};
ghost use Rattle.certificate.specs.Feeding.{ArePairedIn, IsPairedOpen, IsPairedStage};

use crate::fault::CertFault;
use crate::forms::{Sizes, Title, Version, areas_at, sizes_at, title_at, version_at};
use crate::notes::Certificate;
use crate::sections::{add_lines, line_of};
use crate::stages::{Body, Listed, Names, Open, Stage};
use crate::text::Text;
use ports::{Memory, Name};
use std::alloc::Global;
use std::mem::replace;

// Copies of the three names.
fn names_of(alloc: Global, title: Title<'_>) -> Result<Names, Memory>
    ensures { IfOk result (λ names. names_view names ≡ title_view title.entry) }
{
    let topic = Name::new(alloc, title.topic)?;
    let table = Name::new(alloc, title.table)?;
    let attribute = Name::new(alloc, title.attribute)?;
    Ok(Names {
        topic,
        table,
        attribute,
    })
}

// The certificate of these names and sizes, before its first line.
fn begun(alloc: Global, names: Names, sizes: Sizes) -> Body
    ensures certificate { view result.certificate ≡ plain (names_view names) sizes [] [] [] }
    ensures left { result.left ≡ sizes.counts }
    ensures notes { result.certificate.notes.items ≡ [] }
{
    let certificate = Certificate {
        topic: names.topic,
        table: names.table,
        attribute: names.attribute,
        level: sizes.level,
        bent: sizes.bent,
        positions: Vec::new(alloc),
        notes: Vec::new(alloc),
        places: Vec::new(alloc),
    };
    Body {
        certificate,
        left: sizes.counts,
    }
}

// Reads the line of the names.
fn read_title<'a>(alloc: Global, list: &mut Listed, text: Text<'a>) -> Result<Text<'a>, CertFault>
    requires some { 0 < length text.rest.now }
    requires nothing { list.old.current ≡ Open.Nothing }
    ensures on { IfOk result (λ after. LeadsTo (listed_on list.old) (listed_on list.new)
        (text_view text.entry) (text_view after)) }
    ensures fails { IfErr result (λ e. FailsOn e (listed_on list.old) (text_view text.entry)) }
    ensures left { IfOk result (λ after. IsLeft (text_view text.entry) (text_view after)) }
    ensures shorter { IfOk result (λ after. length after.rest.now < length text.entry.rest.now) }
    ensures done { IfOk result (λ _. list.new.done.items ≡ list.old.done.items) }
    ensures current { IfOk result (λ _. IsPairedOpen list.new.current) }
{
    if list.left == 0 {
        return Err(CertFault::Line(text.line));
    }
    let (title, text) = line_of(text, title_at(text.rest))?;
    list.left -= 1;
    list.current = Open::Titled(names_of(alloc, title)?);
    Ok(text)
}

// Reads the line of the sizes.
fn read_sizes<'a>(
    alloc: Global,
    list: &mut Listed,
    names: Names,
    text: Text<'a>,
) -> Result<Text<'a>, CertFault>
    requires some { 0 < length text.rest.now }
    ensures on { IfOk result (λ after. LeadsTo
        (open_on list.old.version list.old.left (views list.old.done.items) (Open.Titled names))
        (listed_on list.new) (text_view text.entry) (text_view after)) }
    ensures fails { IfErr result (λ e. FailsOn e
        (open_on list.old.version list.old.left (views list.old.done.items) (Open.Titled names))
        (text_view text.entry)) }
    ensures left { IfOk result (λ after. IsLeft (text_view text.entry) (text_view after)) }
    ensures shorter { IfOk result (λ after. length after.rest.now < length text.entry.rest.now) }
    ensures done { IfOk result (λ _. list.new.done.items ≡ list.old.done.items) }
    ensures current { IfOk result (λ _. IsPairedOpen list.new.current) }
{
    let (sizes, text) = line_of(text, sizes_at(text.rest, list.version))?;
    list.current = Open::Sized(begun(alloc, names, sizes));
    Ok(text)
}

// Reads lines of a certificate, which joins the list with its last one.
fn read_body<'a>(list: &mut Listed, body: Body, text: Text<'a>) -> Result<Text<'a>, CertFault>
    requires some { 0 < length text.rest.now }
    requires nothing { list.old.current ≡ Open.Nothing }
    requires paired { ArePaired body.certificate.notes.items }
    requires done { ArePairedIn list.old.done.items }
    ensures on { IfOk result (λ after. LeadsTo
        (open_on list.old.version list.old.left (views list.old.done.items) (Open.Sized body))
        (listed_on list.new) (text_view text.entry) (text_view after)) }
    ensures fails { IfErr result (λ e. FailsOn e
        (open_on list.old.version list.old.left (views list.old.done.items) (Open.Sized body))
        (text_view text.entry)) }
    ensures left { IfOk result (λ after. IsLeft (text_view text.entry) (text_view after)) }
    ensures shorter { IfOk result (λ after. length after.rest.now < length text.entry.rest.now) }
    ensures done { IfOk result (λ _. ArePairedIn list.new.done.items) }
    ensures current { IfOk result (λ _. IsPairedOpen list.new.current) }
{
    let mut body = body;
    let (closed, text) = add_lines(&mut body, text)?;
    if closed {
        list.done.push(body.certificate)?;
    } else {
        list.current = Open::Sized(body);
    }
    Ok(text)
}

// Reads lines of the open certificate, or begins the next one.
fn read_listed<'a>(alloc: Global, list: &mut Listed, text: Text<'a>) -> Result<Text<'a>, CertFault>
    requires some { 0 < length text.rest.now }
    requires done { ArePairedIn list.old.done.items }
    requires current { IsPairedOpen list.old.current }
    ensures on { IfOk result (λ after. LeadsTo (listed_on list.old) (listed_on list.new)
        (text_view text.entry) (text_view after)) }
    ensures fails { IfErr result (λ e. FailsOn e (listed_on list.old) (text_view text.entry)) }
    ensures left { IfOk result (λ after. IsLeft (text_view text.entry) (text_view after)) }
    ensures shorter { IfOk result (λ after. length after.rest.now < length text.entry.rest.now) }
    ensures done { IfOk result (λ _. ArePairedIn list.new.done.items) }
    ensures current { IfOk result (λ _. IsPairedOpen list.new.current) }
{
    match replace(&mut list.current, Open::Nothing) {
        Open::Nothing => read_title(alloc, list, text),
        Open::Titled(names) => read_sizes(alloc, list, names, text),
        Open::Sized(body) => read_body(list, body, text),
    }
}

// Reads what comes next of a text.
fn read_next<'a>(
    alloc: Global,
    stage: Stage,
    text: Text<'a>,
) -> Result<(Stage, Text<'a>), CertFault>
    requires some { 0 < length text.rest.now }
    requires paired { IsPairedStage stage }
    ensures on { IfOk result (λ x. LeadsTo (stage_on stage) (stage_on x.0)
        (text_view text.entry) (text_view x.1)) }
    ensures fails { IfErr result (λ e. FailsOn e (stage_on stage) (text_view text.entry)) }
    ensures left { IfOk result (λ x. IsLeft (text_view text.entry) (text_view x.1)) }
    ensures shorter { IfOk result (λ x. length x.1.rest.now < length text.entry.rest.now) }
    ensures paired { IfOk result (λ x. IsPairedStage x.0) }
{
    match stage {
        Stage::Start => {
            let (version, text) = line_of(text, version_at(text.rest))?;
            Ok((Stage::Versioned(version), text))
        }
        Stage::Versioned(version) => {
            let (left, text) = line_of(text, areas_at(text.rest))?;
            let list = Listed {
                version,
                left,
                done: Vec::new(alloc),
                current: Open::Nothing,
            };
            Ok((Stage::Listing(list), text))
        }
        Stage::Listing(list) => {
            let mut list = list;
            let text = read_listed(alloc, &mut list, text)?;
            Ok((Stage::Listing(list), text))
        }
        Stage::Failed(fault) => Err(fault),
    }
}

/// Reads a text to its end, and answers the number of the line that comes next.
pub fn read_lines(alloc: Global, stage: Stage, text: Text<'_>) -> Result<(Stage, u32), CertFault>
    requires paired { IsPairedStage stage }
    ensures on { IfOk result (λ x. LeadsTo (stage_on stage) (stage_on x.0)
        (text_view text.entry) (record { rest = []; line = x.1 })) }
    ensures fails { IfErr result (λ e. FailsOn e (stage_on stage) (text_view text.entry)) }
    ensures lines { IfOk result (λ x. x.1 ≤ text.entry.line + length text.entry.rest.now) }
    ensures paired { IfOk result (λ x. IsPairedStage x.0) }
{
    let mut stage = stage;
    let mut left = text;
    while !left.rest.is_empty() {
        let (next, after) = read_next(alloc, stage, left)?;
        stage = next;
        left = after;
    }
    Ok((stage, left.line))
}

// No line of the list is to come.
fn is_complete(list: &Listed) -> bool
    ensures { result ≡ is_complete list.now }
{
    match list.current {
        Open::Nothing => list.left == 0,
        Open::Titled(_) => false,
        Open::Sized(_) => false,
    }
}

// The list of a text that ends before a line.
fn list_before(list: Listed, line: u32) -> Result<Vec<Certificate>, CertFault>
    requires paired { ArePairedIn list.done.items }
    ensures value { Gives (λ list. views list.items) result
        (listed_on list (record { rest = []; line = line })) }
    ensures paired { IfOk result (λ list. ArePairedIn list.items) }
{
    if !is_complete(&list) {
        return Err(CertFault::Short(line));
    }
    Ok(list.done)
}

/// The list of a text that ends, after what was read of it.
pub fn read_end(alloc: Global, stage: Stage, text: Text<'_>) -> Result<Vec<Certificate>, CertFault>
    requires paired { IsPairedStage stage }
    ensures value { Gives (λ it. views it.items) result (stage_on stage (text_view text.entry)) }
    ensures paired { IfOk result (λ list. ArePairedIn list.items) }
{
    let (stage, line) = read_lines(alloc, stage, text)?;
    match stage {
        Stage::Listing(list) => list_before(list, line),
        Stage::Start => Err(CertFault::Short(line)),
        Stage::Versioned(_) => Err(CertFault::Short(line)),
        Stage::Failed(fault) => Err(fault),
    }
}

/// The list of certificates that the bytes spell in version 1 or 2, or the first bad line.
pub fn read(alloc: Global, bytes: &[u8]) -> Result<Vec<Certificate>, CertFault>
    requires { length bytes.now ≤ 2 ^ 30 }
    // What is read is spelt so.
    ensures found { IfOk result (λ list. AreSpelt (views list.items) ×
        Spells bytes.now (views list.items)) }
    // What is spelt so is read, unless memory runs out.
    ensures only { (list : List Plain) → AreSpelt list
        → Spells bytes.now list → Gives (λ list. views list.items) result (Ok list) }
    // The line of a fault is the first bad one: the lines before it begin a text of some list, and
    // those up to it begin none.
    ensures first_bad { IfErr result (IsFault bytes.now) }
    // Which fault it is, by the form of each line.
    ensures exact { Gives (λ list. views list.items) result (list_of bytes.now) }
    // Each note has a partner.
    ensures paired { IfOk result (λ list.
        AllByRecursion (λ c. ArePaired c.notes.items) list.items) }
{
    let text = Text {
        rest: bytes,
        line: 1,
    };
    read_end(alloc, Stage::Start, text)
}
