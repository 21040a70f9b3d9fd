// Whole transfers: their rows, in pieces too, and the findings of their values and keys.
ghost use Rattle.std.specs.Prelude.{◌≤◌, ◌<◌, IfOk, length};
ghost use Rattle.table_layout.specs.Valid.{IsValid};
ghost use Rattle.table_layout.specs.Values.{layout_view};

use super::layouts::layout_of;
use domain_rules::{check_values, field_ok};
use field_values::leaves_are_spelled;
use ident_refs::check_keys;
use ili_grammar::Codes;
use itf_lines::{Field, LineEnd, Lines, logical_lines};
use itf_reader::{Code, Finding, ReadRefusal, Row, Stroke, Transfer, TransferFeed, read_transfer};
use ports::Memory;
use resolver::Form;
use std::alloc::Global;
use std::fmt::Write;
use std::test::Fail;
use table_layout::Layout;

const CODES: Codes = Codes {
    blank: b'_',
    undefined: b'@',
    continued: b'\\',
};

// Topic T with the tables A and L, of no and of two lines, and topic U with a table A of one.
const MODEL: &str = "TRANSFER Small; DOMAIN K = COORD2 0.000 0.000 1000.000 1000.000;
MODEL M
TOPIC T =
TABLE A = NO IDENT END A;
TABLE L = P: OPTIONAL POLYLINE WITH (STRAIGHTS, ARCS) VERTEX K;
Q: OPTIONAL POLYLINE WITH (STRAIGHTS, ARCS) VERTEX K; NO IDENT END L;
END T.
TOPIC U =
TABLE A = P: OPTIONAL POLYLINE WITH (STRAIGHTS, ARCS) VERTEX K; NO IDENT END A;
END U.
END M.
FORMAT FREE;
CODE BLANK = DEFAULT, UNDEFINED = DEFAULT, CONTINUE = DEFAULT; TID = ANY; END.
";

const HEAD: &str = "SCNT\n////\nMTID x\nMODL M\n";

const CONTINUED: &str =
    "TOPI U\nTABL A\nOBJE 9 \\\nCONT x\nETAB\nETOP\nTOPI T\nTABL L\nOBJE 1\nSTPT 0 0\n\
        ARCP 2 2\nLIPT 3 3\nELIN\nOBJE 2\nELIN\nELIN\nETAB\nTABL A\nETAB\nETOP\nEMOD\nENDE\n";

const DRAWN: &str =
    "TOPI T\nTABL L\nOBJE 1\nSTPT 100.000 100.000\nLIPT 200.000 100.000\nLIPT 200.000 200.000\n\
        LIPT 100.000 200.000\nLIPT 100.000 100.000\nELIN\nETAB\nTABL A\n\
        OBJE 1 77 150.000 150.000\nETAB\nETOP\nEMOD\nENDE\n";

const OTHER_ORDER: &str = "TOPI U\nTABL A\nOBJE 9\nETAB\nETOP\n\
        TOPI T\nTABL L\nOBJE 1 a \\\nCONT b\nSTPT 0 0\nLIPT 1 1\nARCP 2 2\nLIPT 3 3\nELIN x\n\
        OBJE 2\nELIN\nSTPT 5 5\nELIN\nETAB\nETOP\nEMOD\nENDE\n";

// Texts after the head, and what `answer` says of them.
const READ: [(&str, &str); 6] = [
    (
        OTHER_ORDER,
        "table; table; \
            12 1 a b | 14 Start 0 0 15 Straight 1 1 16 OnArc 2 2 17 Straight 3 3 |; \
            19 2 | | 21 Start 5 5; table; 7 9 |; ",
    ),
    ("EMOD\nENDE", "table; table; table; "),
    (
        "TOPI T\nTABL A\nOBJE\nETAB\nETOP\nTOPI U\nTABL A\nETAB\nETOP\nEMOD\n\nENDE 1\n\n",
        "table; 7; table; table; ",
    ),
    (
        CONTINUED,
        "table; table; 13 1 | 14 Start 0 0 15 OnArc 2 2 16 Straight 3 3 |; 18 2 | |; \
            table; 7 9 x |; ",
    ),
    (
        "TOPI T\nETOP\nTOPI T\nETOP\n",
        "At { line: 7, code: Twice }",
    ),
    ("EMOD\n", "At { line: 6, code: End }"),
];

fn add_fields(text: &mut String, fields: &[Field]) -> Result<(), Memory> {
    for field in fields {
        let field = std::str::from_utf8(field.bytes()).unwrap_or("?");
        write!(text, " {field}")?;
    }
    Ok(())
}

fn add_stroke(text: &mut String, stroke: &Stroke) -> Result<(), Memory> {
    text.push_str(" |")?;
    let mut rest = stroke.vertices.as_slice();
    for _ in 0..rest.len() {
        let Some((vertex, others)) = rest.split_first() else {
            break;
        };
        write!(text, " {} {:?}", vertex.line, vertex.kind)?;
        add_fields(text, vertex.fields)?;
        rest = others;
    }
    Ok(())
}

// The number and the fields of a row's line, then its strokes.
fn add_row(text: &mut String, row: &Row) -> Result<(), Memory> {
    write!(text, "{}", row.line)?;
    add_fields(text, &row.fields)?;
    for stroke in &row.strokes.given {
        add_stroke(text, stroke)?;
    }
    for _ in 0..row.strokes.left_out {
        text.push_str(" |")?;
    }
    text.push_str("; ")?;
    Ok(())
}

// The tables with their rows.
fn add_tables(text: &mut String, transfer: &Transfer) -> Result<(), Memory> {
    for table in &transfer.tables {
        text.push_str("table; ")?;
        for row in &table.rows {
            add_row(text, row)?;
        }
    }
    Ok(())
}

// What was read, or where it was refused.
fn answer(alloc: Global, read: &Result<Transfer, ReadRefusal>) -> Result<String, Memory> {
    let mut text = String::new(alloc);
    match read {
        Ok(transfer) => add_tables(&mut text, transfer)?,
        Err(refusal) => write!(text, "{refusal:?}")?,
    }
    Ok(text)
}

// No lines of a text that is longer than any that is read.
fn lines_of(alloc: Global, text: &str) -> Result<Lines, Memory>
    ensures { IfOk result (λ lines. lines.total ≤ 268435456) }
{
    let whole = format!(in alloc; "{HEAD}{text}")?;
    if whole.len() > 268_435_456 {
        return Err(Memory);
    }
    logical_lines(alloc, whole.as_bytes(), &CODES)
}

// Whether that is the answer to all lines at once.
fn is_answer(alloc: Global, layout: &Layout, text: &str, want: &str) -> Result<bool, Memory>
    requires { IsValid (layout_view layout.now) }
{
    let lines = lines_of(alloc, text)?;
    let read = answer(alloc, &read_transfer(alloc, layout, &lines))?;
    Ok(read.as_str() == want)
}

// What comes of lines that are taken in two pieces, of which the first has at most so many, and
// one without a line between them.
fn in_two(
    alloc: Global,
    layout: &Layout,
    lines: &Lines,
    most: usize,
) -> Result<Transfer, ReadRefusal>
    requires valid { IsValid (layout_view layout.now) }
    requires few { lines.now.total ≤ 268435456 }
{
    let cut = most.min(lines.lines.len());
    let mut feed = TransferFeed::new(alloc, layout)?;
    feed.take_all(layout, &lines.lines[..cut])?;
    feed.take(layout, Vec::new(alloc))?;
    feed.take_all(layout, &lines.lines[cut..])?;
    feed.finish(
        layout,
        LineEnd {
            fault: lines.fault,
            total: lines.total,
        },
    )
}

// Whether each cut of a text's lines into two pieces gives that answer.
fn are_same(alloc: Global, layout: &Layout, text: &str, want: &str) -> Result<bool, Memory>
    requires { IsValid (layout_view layout.now) }
{
    let lines = lines_of(alloc, text)?;
    for most in 0..lines.lines.len() + 1 {
        let cut = answer(alloc, &in_two(alloc, layout, &lines, most))?;
        if cut.as_str() != want {
            return Ok(false);
        }
    }
    Ok(true)
}

// The first text with another answer, whole or in pieces.
fn first_other(alloc: Global, layout: &Layout) -> Result<Option<&'static str>, Memory>
    requires { IsValid (layout_view layout.now) }
{
    for (text, want) in &READ {
        if !is_answer(alloc, layout, text, want)? || !are_same(alloc, layout, text, want)? {
            return Ok(Some(*text));
        }
    }
    Ok(None)
}

#[test]
fn texts_are_read_whole_and_in_pieces(rt: HostRuntime) -> Result<(), Fail> {
    let layout = layout_of(rt.alloc(), MODEL).expect(&rt, "a layout");
    let other = first_other(rt.alloc(), &layout)?;
    assert!(rt; other.is_none(), "{}", other.unwrap_or(""));
    Ok(())
}

// A text after the head whose second row has a field too many and the identification of the first
// one, and with a vertex that is no number.
const FOUND: &str = "TOPI T\nTABL A\nOBJE 1\nOBJE 1 x\nETAB\nTABL L\nOBJE 1\nSTPT 1 1\nLIPT x 1\n\
    ELIN\nETAB\nETOP\nEMOD\nENDE\n";

fn add_findings(text: &mut String, findings: &[Finding]) -> Result<(), Memory> {
    for finding in findings {
        write!(
            text,
            "{} {} {:?}; ",
            finding.line,
            finding.column,
            finding.code()
        )?;
    }
    Ok(())
}

// The findings of values, then those of keys.
fn found(alloc: Global, layout: &Layout, transfer: &Transfer) -> Result<String, Memory>
    requires { IsValid (layout_view layout.now) }
{
    let mut text = String::new(alloc);
    add_findings(&mut text, &check_values(alloc, layout, transfer)?)?;
    add_findings(&mut text, &check_keys(alloc, layout, transfer)?)?;
    Ok(text)
}

// The findings of a text, nothing of one that is refused.
fn found_in(alloc: Global, layout: &Layout, text: &str) -> Result<Option<String>, Memory>
    requires { IsValid (layout_view layout.now) }
{
    let lines = lines_of(alloc, text)?;
    match read_transfer(alloc, layout, &lines) {
        Ok(transfer) => Ok(Some(found(alloc, layout, &transfer)?)),
        Err(_) => Ok(None),
    }
}

#[test]
fn values_and_keys_have_their_findings(rt: HostRuntime) -> Result<(), Fail> {
    let layout = layout_of(rt.alloc(), MODEL).expect(&rt, "a layout");
    let found = found_in(rt.alloc(), &layout, FOUND)?;
    assert_eq!(rt; found.as_deref(), Some("8 0 Count; 13 1 Number; 8 0 Tid; "));
    Ok(())
}

#[test]
fn a_leaf_of_thousands_of_digits_is_none(rt: HostRuntime) -> Result<(), Fail> {
    leaves_are_spelled();
    let digits = [b'1'; 20_000];
    for (length, want) in [(1, None), (20_000, Some(Code::Enum))] {
        let words = [Field::new(rt.alloc(), &digits[..length])?];
        let code = field_ok(&Form::Enumeration(4_294_967_295), &CODES, &words);
        assert_eq!(rt; code, want);
    }
    Ok(())
}
