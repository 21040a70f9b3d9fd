// Logical lines: words, fields, continuation and faults.
ghost use Rattle.std.specs.Prelude.{◌≤◌, length};

use ili_grammar::Codes;
use itf_lines::{Field, Line, LineFault, LineFeed, Lines, logical_lines};
use ports::Memory;
use std::alloc::Global;
use std::fmt::Write;
use std::test::Fail;

// The code of continuation, a text, and what `shown` says of its lines.
type Row = (u8, &'static [u8], &'static str);

const ROWS: [Row; 47] = [
    // The head, as it is.
    (b'\\', b"", "None 0"),
    (b'\\', b"\n", "1 Other; None 1"),
    (b'\\', b"\n\n", "1 Other; 2 Other; None 2"),
    (b'\\', b"SCNT", "1 Scnt; None 1"),
    (b'\\', b"////\nSCNT\n", "1 Slashes; 2 Scnt; None 2"),
    (
        b'\\',
        b"SCNT\n//// \t\nENDE",
        "1 Scnt; 2 Slashes; 3 Ende; None 3",
    ),
    (
        b'\\',
        b"SCNT\n ////\n//// x\n/////\n",
        "1 Scnt; 2 Other; 3 Other x; 4 Other; None 4",
    ),
    (b'\\', b"SCNT\n////\r", "1 Scnt; 2 Other; None 2"),
    (b'\\', b"SCNT\r\n////\r\n", "1 Scnt; 2 Slashes; None 2"),
    (
        b'\\',
        b"\nSCNT \\\nCONT 1\n\nMOTR\nENDE\n////\n////\nMOTR 2\n",
        "1 Other; 2 Scnt \\; 3 Other 1; 4 Other; 5 Motr; 6 Ende; 7 Slashes; 8 Other; 9 Motr \
            2; None 9",
    ),
    (b'\\', b"SCNT\nCONT \\\n", "1 Scnt; 2 Other \\; None 2"),
    (b'\\', b" \t SCNT  a\t\tb \n", "1 Scnt a b; None 1"),
    // Lines that go on.
    (
        b'\\',
        b"SCNT\n////\nOBJE 1 \\ \t\nCONT 2\n",
        "1 Scnt; 2 Slashes; 3 Obje 1 2; None 4",
    ),
    (
        b'\\',
        b"SCNT\n////\nOBJE 1 \\ \r \nCONT 2\n",
        "1 Scnt; 2 Slashes; 3 Obje 1 \\ \r; Some(StrayCont(4)) 4",
    ),
    (
        b'\\',
        b"SCNT\n////\nOBJE 1 \\\r\nCONT 2\r\n",
        "1 Scnt; 2 Slashes; 3 Obje 1 2; None 4",
    ),
    (
        b'\\',
        b"SCNT\n////\nOBJE x\\\\\nCONT y\n",
        "1 Scnt; 2 Slashes; 3 Obje x\\ y; None 4",
    ),
    (
        b'\\',
        b"SCNT\n////\nOBJE x\\y\nETAB\n",
        "1 Scnt; 2 Slashes; 3 Obje x\\y; 4 Etab; None 4",
    ),
    (
        b'\\',
        b"SCNT\n////\nOBJE x \\ \\\nCONT\n",
        "1 Scnt; 2 Slashes; 3 Obje x \\; None 4",
    ),
    (
        b'\\',
        b"SCNT\n////\n\\\nCONT OBJE 1\n",
        "1 Scnt; 2 Slashes; 3 Obje 1; None 4",
    ),
    (
        b'\\',
        b"SCNT\n////\n\\\nCONT\n",
        "1 Scnt; 2 Slashes; None 4",
    ),
    (
        b'\\',
        b"SCNT\n////\n\\\nCONT CONT 1\n",
        "1 Scnt; 2 Slashes; 3 Other 1; None 4",
    ),
    (
        b'\\',
        b"SCNT\n////\n\\\nCONT \\\nCONT OBJE 1",
        "1 Scnt; 2 Slashes; 3 Obje 1; None 5",
    ),
    (
        b'\\',
        b"SCNT\n////\nMTID\nOBJE 1 \\\nCONT 2 3 \\\nCONT\\\nCONT 4\nELIN\n",
        "1 Scnt; 2 Slashes; 3 Mtid; 4 Obje 1 2 3 4; 8 Elin; None 8",
    ),
    (
        b'\\',
        b"SCNT\n////\nOB\\\nCONT JE\n",
        "1 Scnt; 2 Slashes; 3 Other JE; None 4",
    ),
    // The first fault of continuation ends the lines.
    (
        b'\\',
        b"SCNT\n////\nCONT 5\nETAB\nENDE\n",
        "1 Scnt; 2 Slashes; Some(StrayCont(3)) 5",
    ),
    (
        b'\\',
        b"SCNT\n////\nCONT",
        "1 Scnt; 2 Slashes; Some(StrayCont(3)) 3",
    ),
    (
        b'\\',
        b"SCNT\n////\nCONT \\\nCONT 1\n",
        "1 Scnt; 2 Slashes; Some(StrayCont(3)) 4",
    ),
    (
        b'\\',
        b"SCNT\n////\nMTID x\nCONT 5\n",
        "1 Scnt; 2 Slashes; 3 Mtid x; Some(StrayCont(4)) 4",
    ),
    (
        b'\\',
        b"SCNT\n////\nOBJE 1 \\\nCONT 2\nCONT 3\n",
        "1 Scnt; 2 Slashes; 3 Obje 1 2; Some(StrayCont(5)) 5",
    ),
    (
        b'\\',
        b"SCNT\n////\nOBJE 1 5 @ \\\n",
        "1 Scnt; 2 Slashes; Some(OpenContinue(3)) 3",
    ),
    (
        b'\\',
        b"SCNT\n////\nFOO \\",
        "1 Scnt; 2 Slashes; Some(OpenContinue(3)) 3",
    ),
    (
        b'\\',
        b"SCNT\n////\nOBJE 1 \\\n\nCONT 2\n",
        "1 Scnt; 2 Slashes; Some(OpenContinue(3)) 5",
    ),
    (
        b'\\',
        b"SCNT\n////\nOBJE 1 \\\nETAB\nCONT\n",
        "1 Scnt; 2 Slashes; Some(OpenContinue(3)) 5",
    ),
    (
        b'\\',
        b"SCNT\n////\nMTID\nMODL a\nTOPI b\nTABL c\nOBJE 1 \\\nCONT 2 \\\nETAB\n",
        "1 Scnt; 2 Slashes; 3 Mtid; 4 Modl a; 5 Topi b; 6 Tabl c; Some(OpenContinue(8)) 9",
    ),
    (
        b'\\',
        b"SCNT\n////\nOBJE 1 \\\nFOO \\\nCONT 1\n",
        "1 Scnt; 2 Slashes; Some(OpenContinue(3)) 5",
    ),
    (
        b'\\',
        b"SCNT\n////\nENDE\n\n  \nMOTR\nCONT\n",
        "1 Scnt; 2 Slashes; 3 Ende; 6 Motr; Some(StrayCont(7)) 7",
    ),
    // Other codes.
    (
        b'B',
        b"SCNT\n////\nETAB\nCONT x\n",
        "1 Scnt; 2 Slashes; 3 Other x; None 4",
    ),
    (
        b'T',
        b"SCNT\n////\nOBJE 1 T\nCONT\nCONT\n",
        "1 Scnt; 2 Slashes; Some(OpenContinue(3)) 5",
    ),
    (
        b'T',
        b"SCNT\n////\nCONTT\n",
        "1 Scnt; 2 Slashes; Some(StrayCont(3)) 3",
    ),
    (
        b'T',
        b"SCNT\n////\nOBJE 1 T\nCONTT\nCONT 2 T",
        "1 Scnt; 2 Slashes; Some(OpenContinue(5)) 5",
    ),
    (
        b'/',
        b"SCNT\n////\nOBJE /\nCONT 1\n",
        "1 Scnt; 2 Slashes; 3 Obje 1; None 4",
    ),
    // Lines without fields are left out and counted.
    (
        b'\\',
        b"SCNT\n////\n\n \t\nENDE",
        "1 Scnt; 2 Slashes; 5 Ende; None 5",
    ),
    (b'\\', b"SCNT\n////\n\n\n", "1 Scnt; 2 Slashes; None 4"),
    (
        b'\\',
        b"SCNT\n////\nENDE\r\n\r\n",
        "1 Scnt; 2 Slashes; 3 Ende; None 4",
    ),
    (
        b'\\',
        b"SCNT\n////\nENDE\r",
        "1 Scnt; 2 Slashes; 3 Other; None 3",
    ),
    (
        b'\\',
        b"SCNT\n////\nENDE\r\r\n",
        "1 Scnt; 2 Slashes; 3 Other; None 3",
    ),
    // Each word.
    (
        b'\\',
        b"SCNT\n////\nSCNT\nMTID\nMODL\nMOTR\nTOPI\nTABL\nOBJE\nSTPT\nLIPT\nARCP\nELIN\nETAB\n\
            ETOP\nEMOD\nENDE\n////\nobje\nOBJEC\nOBJ\n",
        "1 Scnt; 2 Slashes; 3 Scnt; 4 Mtid; 5 Modl; 6 Motr; 7 Topi; 8 Tabl; 9 Obje; 10 Stpt; \
            11 Lipt; 12 Arcp; 13 Elin; 14 Etab; 15 Etop; 16 Emod; 17 Ende; 18 Other; 19 Other; \
            20 Other; 21 Other; None 21",
    ),
];

// Adds the number, the word and the fields of a line.
fn add_line(text: &mut String, line: &Line) -> Result<(), Memory> {
    write!(text, "{} {:?}", line.number, line.word)?;
    for field in &line.fields {
        let field = std::str::from_utf8(field.bytes()).unwrap_or("?");
        write!(text, " {field}")?;
    }
    text.push_str("; ")?;
    Ok(())
}

// Each line, and then the fault and the total.
fn shown(alloc: Global, lines: &Lines) -> Result<String, Memory> {
    let mut text = String::new(alloc);
    for line in &lines.lines {
        add_line(&mut text, line)?;
    }
    write!(text, "{:?} {}", lines.fault, lines.total)?;
    Ok(text)
}

fn codes(continued: u8) -> Codes {
    Codes {
        blank: b'_',
        undefined: b'@',
        continued,
    }
}

// No lines of a text that is longer than any that is read.
fn lines_of(alloc: Global, code: u8, text: &[u8]) -> Result<Lines, Memory> {
    if text.len() > 268_435_456 {
        return Err(Memory);
    }
    logical_lines(alloc, text, &codes(code))
}

#[test]
fn lines_are_as_worked_by_hand(rt: HostRuntime) -> Result<(), Fail> {
    for (code, text, want) in &ROWS {
        let lines = shown(rt.alloc(), &lines_of(rt.alloc(), *code, text)?)?;
        assert_eq!(rt; lines.as_str(), *want);
    }
    Ok(())
}

const DRAWN: &[u8] = b"SCNT\n////\nMTID Rows\nMODL Land\nTOPI Cover\nTABL Parcel_Form\nOBJE 1\n\
    STPT 100.000 100.000\nLIPT 200.000 100.000\nLIPT 200.000 200.000\n\
    LIPT 100.000 200.000\nLIPT 100.000 100.000\nELIN\nETAB\nTABL Parcel\n\
    OBJE 1 77 150.000 150.000\nETAB\nETOP\nEMOD\nENDE\n";

const CONTINUED: &[u8] = b"SCNT\r\nfree\r\n//// \r\n\r\nMTID a \\\r\n\
    CONT b\\ \r\nCONT\r\n\\\r\nCONT ETAB\r\n\r\r\nOBJE 1 \\\r\nENDE\r";

// The lines of a text that comes as two pieces.
fn in_two(alloc: Global, front: &[u8], rest: &[u8]) -> Result<Lines, Memory>
    requires front { length front.now ≤ 268435456 }
    requires rest { length rest.now ≤ 268435456 }
{
    let mut lines = Vec::new(alloc);
    let mut feed = LineFeed::new(alloc, &codes(b'\\'));
    feed.feed(front, &mut lines)?;
    feed.feed(rest, &mut lines)?;
    let end = feed.finish(&mut lines)?;
    Ok(Lines {
        lines,
        fault: end.fault,
        total: end.total,
    })
}

// What comes of the text cut there, nothing of a text that is too long or shorter.
fn cut_at(alloc: Global, text: &[u8], cut: usize) -> Result<Option<String>, Memory> {
    if cut > text.len() || text.len() > 268_435_456 {
        return Ok(None);
    }
    let lines = in_two(alloc, &text[..cut], &text[cut..])?;
    Ok(Some(shown(alloc, &lines)?))
}

#[test]
fn the_cut_into_pieces_does_not_matter(rt: HostRuntime) -> Result<(), Fail> {
    for text in [DRAWN, CONTINUED] {
        let whole = shown(rt.alloc(), &lines_of(rt.alloc(), b'\\', text)?)?;
        for cut in 0..text.len() + 1 {
            let pieces = cut_at(rt.alloc(), text, cut)?;
            assert!(rt; pieces.as_deref() == Some(whole.as_str()), "cut at {cut}");
        }
    }
    Ok(())
}

#[test]
fn a_field_keeps_its_bytes(rt: HostRuntime) -> Result<(), Fail> {
    let bytes = [b'x'; 1000];
    for length in [0, 1, 13, 14, 15, 16, 1000] {
        let field = Field::new(rt.alloc(), &bytes[..length])?;
        assert!(rt; field.bytes() == &bytes[..length], "length {length}");
    }
    Ok(())
}

// How many lines there are, physical lines, the fault, and the fields of the last line.
type Counts = (usize, u32, Option<LineFault>, usize);

// A front, a piece that comes 100,000 times after it, an end, and the counts then.
const MANY: [(&[u8], &[u8], &[u8], Counts); 6] = [
    (
        b"SCNT\n////\n",
        b"OBJE 1 2600020.000 1200000.000\n",
        b"",
        (100_002, 100_002, None, 3),
    ),
    (b"SCNT\n////\n", b"\n", b"", (2, 100_002, None, 0)),
    (
        b"SCNT\n////\n",
        b"OBJE a_field_that_is_longer_than_its_room\n",
        b"",
        (100_002, 100_002, None, 1),
    ),
    (
        b"SCNT\n////\n",
        b"OBJE 1 \\\nCONT 2\n",
        b"",
        (100_002, 200_002, None, 2),
    ),
    (
        b"SCNT\n////\nOBJE \\\n",
        b"CONT x \\\n",
        b"",
        (2, 100_003, Some(LineFault::OpenContinue(100_003)), 0),
    ),
    (
        b"SCNT\n////\nOBJE \\\n",
        b"CONT x \\\n",
        b"CONT y",
        (3, 100_004, None, 100_001),
    ),
];

fn counts(lines: &Lines) -> Counts {
    let fields = match lines.lines.last() {
        Some(line) => line.fields.len(),
        None => 0,
    };
    (lines.lines.len(), lines.total, lines.fault, fields)
}

fn repeated(alloc: Global, front: &[u8], piece: &[u8], end: &[u8]) -> Result<Vec<u8>, Memory> {
    let mut text = Vec::from_slice(alloc, front)?;
    for _ in 0..100_000 {
        text.extend_from_slice(piece)?;
    }
    text.extend_from_slice(end)?;
    Ok(text)
}

#[test]
fn many_lines_are_read(rt: HostRuntime) -> Result<(), Fail> {
    for (front, piece, end, want) in &MANY {
        let text = repeated(rt.alloc(), front, piece, end)?;
        let lines = lines_of(rt.alloc(), b'\\', &text)?;
        assert_eq!(rt; counts(&lines), *want);
    }
    Ok(())
}
