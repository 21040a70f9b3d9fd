//! A transfer that a shelf gives in two pieces, at each place.

use super::calls::{CHECK, words_of};
use super::growths::PARCELS;
use delivery::run;
use ports::{Failed, MemoryShelf, MemorySink, Shelf};
use std::alloc::Global;
use std::process::Abort;
use std::test::Fail;

// Files in memory, of which no call gives bytes before and after `cut` together.
#[derive(Drop)]
struct Pieces {
    files: MemoryShelf,
    cut: u64,
    faults: u64,
}

impl Pieces {
    // The most bytes that a call from that place of a file gives.
    fn most(&self, from: u64) -> usize {
        if from < self.cut {
            (self.cut - from) as usize
        } else {
            usize::MAX
        }
    }
}

impl Shelf for Pieces {
    ghost use Rattle.std.specs.Prelude.{None};

    ghost held = { λ s. None };

    ghost read_faults = { λ s q. s.faults };

    ghost write_faults = { λ s. s.faults };

    ghost readable = { λ s q. ⊥ };

    ghost space = { λ s q. None };

    fn read(&mut self, name: &str, from: u64, into: &mut [u8]) -> Result<usize, Failed> {
        let most = self.most(from).max(1).min(into.len());
        match self.files.read(name, from, &mut into[..most]) {
            Ok(length) => Ok(length.min(most)),
            Err(failed) => {
                self.faults = self.faults.saturating_add(1);
                Err(failed)
            }
        }
    }

    fn start(&mut self, _name: &str) -> Result<(), Failed> {
        Ok(())
    }

    fn append(&mut self, _name: &str, _bytes: &[u8]) -> Result<(), Failed> {
        Ok(())
    }
}

const ACCEPTED: &str = "AREA Cover Parcel Form PROVED 0 4 1\nVERDICT ACCEPTED 2\n";

const VALUES: &str =
    "TRANSFER Vals;\nMODEL Small\n  TOPIC T =\n    TABLE A =\n      N: [0.0 .. 99.5];\n      \
        K: OPTIONAL (a, b (c, d), e);\n      S: OPTIONAL TEXT*3;\n    IDENT S;\n    END A;\n    \
        TABLE B =\n      Zu: -> A;\n    NO IDENT\n    END B;\n  END T.\n\
        END Small.\nFORMAT FREE;\n\
        CODE BLANK = DEFAULT, UNDEFINED = DEFAULT, CONTINUE = DEFAULT; TID = ANY; END.\n";

const CR_LF: &str =
    "SCNT\r\n////\r\nMTID Rows\r\nMODL Land\r\nTOPI Cover\r\nTABL Parcel_Form\r\nOBJE 1\r\n\
        STPT 100.000 100.000\r\nLIPT 200.000 100.000\r\nLIPT 200.000 200.000\r\n\
        LIPT 100.000 200.000\r\nLIPT 100.000 100.000\r\nELIN\r\nETAB\r\nTABL Parcel\r\n\
        OBJE 1 77 150.000 150.000\r\nETAB\r\nETOP\r\nEMOD\r\nENDE\r\n";

const CONTINUED: &str =
    "SCNT\n////\nMTID x\nMODL Small\nTOPI T\nTABL A\nOBJE 1 5 \\\nCONT @ @\nETAB\nETOP\nEMOD\n\
        ENDE\n";

// The report where files come in such pieces.
fn report(alloc: Global, model: &str, transfer: &str, cut: u64) -> Result<Vec<u8>, Fail> {
    let words = words_of(alloc, CHECK)?;
    let mut files = MemoryShelf::new(alloc);
    files.with_file("M", model.as_bytes())?;
    files.with_file("T", transfer.as_bytes())?;
    let mut shelf = Pieces {
        files,
        cut,
        faults: 0,
    };
    let mut out = MemorySink::new(alloc);
    let _status = run(alloc, &words, &mut shelf, &mut out);
    Ok(out.bytes().to_vec(alloc)?)
}

// A transfer that is cut into two pieces, at each place.
#[test]
fn the_cut_does_not_matter(rt: HostRuntime) -> Result<(), Fail> {
    for cut in 0..CR_LF.len() {
        let got = report(rt.alloc(), PARCELS, CR_LF, cut as u64)?;
        assert_eq!(rt; got.as_slice(), ACCEPTED.as_bytes(), "at {cut}");
    }
    for cut in 0..CONTINUED.len() {
        let got = report(rt.alloc(), VALUES, CONTINUED, cut as u64)?;
        assert_eq!(rt;
            got.as_slice(),
            b"VERDICT ACCEPTED 1\n".as_slice(),
            "at {cut}"
        );
    }
    Ok(())
}
