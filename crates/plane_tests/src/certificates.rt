// Certificates that are written and read, and texts that are none. What is filed for whole areas
// are rows of `worked_rows`.
use certificate::{CertFault, Certificate, read, write};
use ports::{Memory, MemoryShelf, Name, Shelf};
use std::alloc::Global;
use std::test::Fail;

const SQUARE: &[u8] =
    b"ITFCERT 2\nAREAS 1\nAREA Cover Parcel Form\nSIZES 0 0 4 4 1\nV 0\nV 1\nV 0\nV 0\n\
    E 0 R 0 1 R 0\nE 0 R 0 1 N 1\nE 1 R 0 0 R 0\nE 1 N 1 0 R 0\nP 1\nEND\n";

// A line of the square's text, what stands there in its place, with an LF or not, and the fault.
type Change = (usize, &'static [u8], Option<CertFault>);

const CHANGES: [Change; 50] = [
    (10, b"E 0 R 0 1 C4 1\n", None),
    (10, b"E 0 R 0 1 P 4294967295\n", None),
    (3, b"AREA Cover Parcel Shape\n", None),
    (4, b"SIZES 255 0 4 4 1\n", None),
    (4, b"SIZES 0 1 4 4 1\n", None),
    (13, b"P T 0 I\n", None),
    (13, b"P T 7 O\n", None),
    (2, b"AREAS 0\n", Some(CertFault::Line(3))),
    (4, b"SIZES 0 0 4294967295 4 1\n", Some(CertFault::Line(13))),
    (13, b"P 01\n", Some(CertFault::Number(13))),
    (14, b"", Some(CertFault::Short(14))),
    (5, b"V 00\n", Some(CertFault::Number(5))),
    (14, b"END", Some(CertFault::Line(14))),
    (14, b"END\nV 0\n", Some(CertFault::Line(15))),
    (14, b"END\n\n", Some(CertFault::Line(15))),
    (4, b"SIZES 256 0 4 4 1\n", Some(CertFault::Line(4))),
    (4, b"SIZES 256 0 4 4 01\n", Some(CertFault::Number(4))),
    (4, b"SIZES 4294967296 0 4 4 1\n", Some(CertFault::Number(4))),
    (4, b"SIZES 0 0 4 5 1\n", Some(CertFault::Line(9))),
    (4, b"SIZES 0 4 4 1\n", Some(CertFault::Line(4))),
    (4, b"SIZES 0 2 4 4 1\n", Some(CertFault::Line(4))),
    (4, b"SIZES 0 4294967295 4 4 1\n", Some(CertFault::Line(4))),
    (4, b"SIZES 0 4294967296 4 4 1\n", Some(CertFault::Number(4))),
    (4, b"SIZES 0 01 4 4 1\n", Some(CertFault::Number(4))),
    (4, b"SIZES 0 2 4 4 01\n", Some(CertFault::Number(4))),
    (3, b"AREA  Parcel Form\n", Some(CertFault::Line(3))),
    (3, b"AREA Cover Parcel \n", Some(CertFault::Line(3))),
    (8, b"V 4294967296\n", Some(CertFault::Number(8))),
    (8, b"V 18446744073709551617\n", Some(CertFault::Number(8))),
    (8, b"V -1\n", Some(CertFault::Line(8))),
    (8, b"V  1\n", Some(CertFault::Line(8))),
    (8, b"V 1 \n", Some(CertFault::Line(8))),
    (8, b"V 1\r\n", Some(CertFault::Line(8))),
    (8, b"V\n", Some(CertFault::Line(8))),
    (8, b"\n", Some(CertFault::Line(8))),
    (8, b"v 1\n", Some(CertFault::Line(8))),
    (9, b"E 0 R 0 1 C\n", Some(CertFault::Line(9))),
    (9, b"E 0 R 0 1 C 4 1\n", Some(CertFault::Line(9))),
    (9, b"E 0 R 0 1 C04 1\n", Some(CertFault::Number(9))),
    (9, b"E 0 R 00 1 X 1\n", Some(CertFault::Line(9))),
    (9, b"E 0 R 0 1 R\n", Some(CertFault::Line(9))),
    (13, b"P T 01 I\n", Some(CertFault::Number(13))),
    (13, b"P T 01 X\n", Some(CertFault::Line(13))),
    (1, b"ITFCERT 01\n", Some(CertFault::Number(1))),
    (1, b"ITFCERT 1\n", Some(CertFault::Line(4))),
    (1, b"ITFCERT 3\n", Some(CertFault::Line(1))),
    (1, b"ITFCERT 0\n", Some(CertFault::Line(1))),
    (1, b"\xef\xbb\xbfITFCERT 2\n", Some(CertFault::Line(1))),
    (2, b"AREAS 2\n", Some(CertFault::Short(15))),
    (2, b"AREAS 4294967296\n", Some(CertFault::Number(2))),
];

fn changed(alloc: Global, line: usize, text: &[u8]) -> Result<Vec<u8>, Memory> {
    let mut bytes = Vec::new(alloc);
    let mut at: usize = 1;
    for byte in SQUARE {
        if at != line {
            bytes.push(*byte)?;
        }
        if *byte == b'\n' {
            if at == line {
                bytes.extend_from_slice(text)?;
            }
            at = at.saturating_add(1);
        }
    }
    Ok(bytes)
}

fn fault_of(alloc: Global, bytes: &[u8]) -> Option<CertFault> {
    if bytes.len() > 1 << 30 {
        return None;
    }
    read(alloc, bytes).err()
}

#[test]
fn the_first_bad_line_is_named(rt: HostRuntime) -> Result<(), Fail> {
    for (line, text, want) in &CHANGES {
        let fault = fault_of(rt.alloc(), &changed(rt.alloc(), *line, text)?);
        assert!(rt; fault == *want, "line {line} at row {}", text.len());
    }
    assert!(rt;
        fault_of(rt.alloc(), b"") == Some(CertFault::Short(1)),
        "the empty text"
    );
    Ok(())
}

// The square's text in version 1, which has no word for the bent drawing.
const OLD_SQUARE: &[u8] =
    b"ITFCERT 1\nAREAS 1\nAREA Cover Parcel Form\nSIZES 0 4 4 1\nV 0\nV 1\nV 0\nV 0\n\
    E 0 R 0 1 R 0\nE 0 R 0 1 N 1\nE 1 R 0 0 R 0\nE 1 N 1 0 R 0\nP 1\nEND\n";

// What a text is written as again, none where it spells no list.
fn rewritten(alloc: Global, bytes: &[u8]) -> Result<Option<Vec<u8>>, Memory> {
    if bytes.len() > 1 << 30 {
        return Ok(None);
    }
    let Ok(list) = read(alloc, bytes) else {
        return Ok(None);
    };
    let mut shelf = MemoryShelf::new(alloc);
    match write(&list, &mut shelf, "c") {
        Ok(()) => Ok(Some(file(alloc, &mut shelf)?)),
        Err(_) => Ok(None),
    }
}

#[test]
fn version_1_is_read_and_version_2_is_written(rt: HostRuntime) -> Result<(), Fail> {
    let bent = changed(rt.alloc(), 4, b"SIZES 0 1 4 4 1\n")?;
    for (text, again) in &[
        (OLD_SQUARE, SQUARE),
        (SQUARE, SQUARE),
        (bent.as_slice(), bent.as_slice()),
    ] {
        let found = rewritten(rt.alloc(), text)?;
        assert!(rt;
            found.is_some_and(|bytes| bytes.as_slice() == *again),
            "a text of {} bytes",
            text.len()
        );
    }
    Ok(())
}

// A certificate whose text takes several pages.
fn long(alloc: Global) -> Result<Certificate, Memory> {
    let topic = Name::new(alloc, b"Cover")?;
    let table = Name::new(alloc, b"Parcel")?;
    let attribute = Name::new(alloc, b"Form")?;
    let positions: Vec<u32> = (0..12_000u32).collect(alloc)?;
    Ok(Certificate {
        topic,
        table,
        attribute,
        level: 0,
        bent: false,
        positions,
        notes: Vec::new(alloc),
        places: Vec::new(alloc),
    })
}

// The bytes of the file, none where there is none.
fn file(alloc: Global, shelf: &mut MemoryShelf) -> Result<Vec<u8>, Memory> {
    let mut bytes = [0u8; 90_000];
    let length = shelf.read("c", 0, &mut bytes).unwrap_or(0);
    Ok(Vec::from_slice(alloc, &bytes[..length.min(90_000)])?)
}

// The file after a writing of which that call fails, and whether the writing did.
fn failed_at(alloc: Global, all: &[Certificate], call: u64) -> Result<(bool, Vec<u8>), Memory> {
    let mut shelf = MemoryShelf::new(alloc);
    shelf.fail_call(call)?;
    let failed = write(all, &mut shelf, "c").is_err();
    Ok((failed, file(alloc, &mut shelf)?))
}

// Whether the file is a front of the whole text, of so many pages but for their last bytes.
fn is_front(whole: &[u8], front: &[u8], pages: usize) -> bool {
    let most = pages.saturating_mul(32_768);
    let least = most.saturating_sub(pages.saturating_mul(20));
    least <= front.len() && front.len() <= most && whole.starts_with(front)
}

#[test]
fn a_failed_write_leaves_a_front(rt: HostRuntime) -> Result<(), Fail> {
    let all = [long(rt.alloc())?];
    let (failed, whole) = failed_at(rt.alloc(), &all, 0)?;
    assert!(rt; !failed, "no call fails");
    for pages in 0..3u8 {
        let (failed, front) = failed_at(rt.alloc(), &all, u64::from(pages) + 1)?;
        assert!(rt;
            failed && is_front(&whole, &front, usize::from(pages)),
            "after {pages} pages"
        );
    }
    Ok(())
}
