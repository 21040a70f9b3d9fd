//! Calls that a test may run with a refused growth: the answer is the defined one, or out of memory
//! with nothing done.

use super::calls::{CHECK, POINTS, VERIFY, certificate, words_of};
use delivery::{Status, run};
use ports::{MemoryShelf, MemorySink};
use std::alloc::Global;
use std::process::Abort;
use std::test::Fail;

pub const MODEL: &str =
    "TRANSFER One;\nMODEL M\nTOPIC T =\nTABLE A = N: [0 .. 10]; NO IDENT END A;\nEND T.\n\
        END M.\nFORMAT FREE;\n\
        CODE BLANK = DEFAULT, UNDEFINED = DEFAULT, CONTINUE = DEFAULT; TID = ANY; END.\n";

pub const SEVEN: &str =
    "SCNT\n////\nMTID x\nMODL M\nTOPI T\nTABL A\nOBJE 1 7\nETAB\nETOP\nEMOD\nENDE\n";

const NUMBERS: [(Status, u8); 10] = [
    (Status::Accepted, 0),
    (Status::Rejected, 1),
    (Status::Undecided, 2),
    (Status::ModelRefused, 3),
    (Status::Usage, 4),
    (Status::ReadFault, 5),
    (Status::WriteFault, 6),
    (Status::OverLimit, 7),
    (Status::Memory, 8),
    (Status::NotProved, 9),
];

pub const PARCELS: &str =
    "TRANSFER Rows;\nDOMAIN\n  Koord = COORD2 0.000 0.000 1000.000 1000.000;\nMODEL Land\n  \
        TOPIC Cover =\n    TABLE Parcel =\n      Nr: TEXT*12;\n      \
        Form: AREA WITH (STRAIGHTS, ARCS) VERTEX Koord WITHOUT OVERLAPS > 0.050;\n    \
        IDENT Nr;\n    END Parcel;\n  END Cover.\n\
        END Land.\nFORMAT FREE;\n\
        CODE BLANK = DEFAULT, UNDEFINED = DEFAULT, CONTINUE = DEFAULT; TID = ANY; END.\n";

const SQUARE: &str = "SCNT\n////\nMTID Rows\nMODL Land\nTOPI Cover\nTABL Parcel_Form\nOBJE 1\n\
        STPT 100.000 100.000\nLIPT 200.000 100.000\nLIPT 200.000 200.000\nLIPT 100.000 200.000\n\
        LIPT 100.000 100.000\nELIN\nETAB\nTABL Parcel\nOBJE 1 77 150.000 150.000\nETAB\nETOP\n\
        EMOD\nENDE\n";

const FILED: &str =
    "ITFCERT 2\nAREAS 1\nAREA Cover Parcel Form\nSIZES 0 0 4 4 1\nV 0\nV 1\nV 0\nV 0\n\
    E 0 R 0 1 R 0\nE 0 R 0 1 N 1\nE 1 R 0 0 R 0\nE 1 N 1 0 R 0\nP 1\nEND\n";

const PROVED: &str = "AREA Cover Parcel Form PROVED 0 4 1\nVERDICT ACCEPTED 2\n";

const TWO_AREAS: &str =
    "TRANSFER Rows;\nDOMAIN\n  Koord = COORD2 0.000 0.000 1000.000 1000.000;\nMODEL Land\n\
          TOPIC Cover =\n    TABLE Parcel =\n\
              Form: AREA WITH (STRAIGHTS) VERTEX Koord WITHOUT OVERLAPS > 0.050;\n\
              Zone: OPTIONAL AREA WITH (STRAIGHTS) VERTEX Koord WITHOUT OVERLAPS > 0.050;\n\
            NO IDENT\n    END Parcel;\n  END Cover.\nEND Land.\nFORMAT FREE;\n\
        CODE BLANK = DEFAULT, UNDEFINED = DEFAULT, CONTINUE = DEFAULT; TID = ANY; END.\n";

const TWO_DRAWINGS: &str =
    "SCNT\n////\nMTID Rows\nMODL Land\nTOPI Cover\nTABL Parcel_Form\nOBJE 1\nSTPT 100 100\n\
        LIPT 200 200\nELIN\nETAB\nTABL Parcel_Zone\nOBJE 1\nSTPT 100 100\nLIPT 200 200\nELIN\n\
        OBJE 2\nSTPT 100 200\nLIPT 200 100\nELIN\nETAB\nTABL Parcel\nOBJE 1 150 150 @ @\nETAB\n\
        ETOP\nEMOD\nENDE\n";

const TWO_ANSWERS: &str =
    "AREA Cover Parcel Form ON 23 9\nAREA Cover Parcel Zone MEETING 15 19\nVERDICT REJECTED\n";

const NUMBERED: &str =
    "TRANSFER Rows;\nDOMAIN\n  Koord = COORD2 0.000 0.000 1000.000 1000.000;\nMODEL Land\n\
          TOPIC Cover =\n    TABLE Parcel =\n\
              Form: AREA WITH (STRAIGHTS) VERTEX Koord;\n\
            NO IDENT\n    END Parcel;\n    TABLE Number = Of: -> Parcel; Place: Koord;\n\
            NO IDENT\n    END Number;\n  END Cover.\nEND Land.\nFORMAT FREE;\n\
        CODE BLANK = DEFAULT, UNDEFINED = DEFAULT, CONTINUE = DEFAULT; TID = ANY; END.\n";

const TWO_NUMBERS: &str =
    "SCNT\n////\nMTID Rows\nMODL Land\nTOPI Cover\nTABL Parcel_Form\nOBJE 1\nSTPT 100 100\n\
        LIPT 200 100\nLIPT 200 200\nLIPT 100 100\nELIN\nETAB\nTABL Parcel\nOBJE 1 180 120\nETAB\n\
        TABL Number\nOBJE 1 1 190 120\nOBJE 2 1 110 190\nETAB\nETOP\nEMOD\nENDE\n";

const LINKED: &str = "LINK Cover Number Place Of Form\n";

const MISPLACED: &str =
    "AREA Cover Parcel Form PROVED 0 3 1\nLINK 1 19\nLINKS 1 2\nVERDICT REJECTED\n";

// A call over the files M and T, and C where it is there before it; what it answers and puts, and
// what C holds after it.
struct Call {
    words: &'static [&'static str],
    model: &'static str,
    transfer: &'static str,
    before: Option<&'static str>,
    status: Status,
    report: &'static str,
    after: Option<&'static str>,
}

const CALLS: [Call; 5] = [
    Call {
        words: CHECK,
        model: MODEL,
        transfer: SEVEN,
        before: None,
        status: Status::Accepted,
        report: "VERDICT ACCEPTED 1\n",
        after: Some("ITFCERT 2\nAREAS 0\n"),
    },
    Call {
        words: CHECK,
        model: PARCELS,
        transfer: SQUARE,
        before: None,
        status: Status::Accepted,
        report: PROVED,
        after: Some(FILED),
    },
    Call {
        words: VERIFY,
        model: PARCELS,
        transfer: SQUARE,
        before: Some(FILED),
        status: Status::Accepted,
        report: PROVED,
        after: Some(FILED),
    },
    // One area at fault rejects the transfer, and the other is answered too.
    Call {
        words: CHECK,
        model: TWO_AREAS,
        transfer: TWO_DRAWINGS,
        before: None,
        status: Status::Rejected,
        report: TWO_ANSWERS,
        after: None,
    },
    // Of two points one is misplaced.
    Call {
        words: POINTS,
        model: NUMBERED,
        transfer: TWO_NUMBERS,
        before: Some(LINKED),
        status: Status::Rejected,
        report: MISPLACED,
        after: Some(LINKED),
    },
];

#[test]
fn each_answer_has_its_exit_status(rt: HostRuntime) {
    for (status, number) in &NUMBERS {
        assert_eq!(rt; status.number(), *number);
    }
}

// The files before a call, with room for what it writes.
fn files_of(alloc: Global, call: &Call) -> Result<MemoryShelf, Fail> {
    let mut shelf = MemoryShelf::new(alloc);
    shelf.with_file("M", call.model.as_bytes())?;
    shelf.with_file("T", call.transfer.as_bytes())?;
    if let Some(text) = call.before {
        shelf.with_file("C", text.as_bytes())?;
    }
    shelf.make_room("C", 256)?;
    Ok(shelf)
}

// The call is answered as it is to be, or memory ran out and nothing was done.
fn is_answered(rt: &impl Abort, alloc: Global, call: &Call) -> Result<(), Fail> {
    let mut shelf = files_of(alloc, call)?;
    let mut out = MemorySink::new(alloc);
    out.make_room(256)?;
    let status = run(alloc, &words_of(alloc, call.words)?, &mut shelf, &mut out);
    let filed = certificate(alloc, &mut shelf)?;
    if status == Status::Memory {
        assert_eq!(rt; out.bytes(), b"".as_slice());
        assert_eq!(rt; filed.as_deref(), call.before);
        return Ok(());
    }
    assert_eq!(rt; status, call.status);
    assert_eq!(rt; out.bytes(), call.report.as_bytes());
    assert_eq!(rt; filed.as_deref(), call.after);
    Ok(())
}

#[test]
fn a_refused_growth_leaves_all_as_it_was(rt: HostRuntime) -> Result<(), Fail> {
    for call in &CALLS {
        is_answered(&rt, rt.alloc(), call)?;
    }
    Ok(())
}
