//! Links of the greatest length that is read, and of a byte more.

use super::calls::{POINTS, words_of};
use super::growths::{MODEL, SEVEN};
use delivery::{Status, run};
use ports::{MemoryShelf, MemorySink};
use std::alloc::Global;
use std::process::Abort;
use std::test::Fail;

// What `points` answers over links of so many spaces.
fn is_answered(
    rt: &impl Abort,
    alloc: Global,
    length: usize,
    wanted: Status,
    report: &str,
) -> Result<(), Fail> {
    let links = vec![in alloc; b' '; length]?;
    let mut shelf = MemoryShelf::new(alloc);
    shelf.with_file("M", MODEL.as_bytes())?;
    shelf.with_file("T", SEVEN.as_bytes())?;
    shelf.with_file("C", &links)?;
    let mut out = MemorySink::new(alloc);
    let status = run(alloc, &words_of(alloc, POINTS)?, &mut shelf, &mut out);
    assert_eq!(rt; status, wanted);
    assert_eq!(rt; out.bytes(), report.as_bytes());
    Ok(())
}

#[test]
fn links_are_read_up_to_their_limit(rt: HostRuntime) -> Result<(), Fail> {
    let report = "LINKS 0 0\nVERDICT ACCEPTED 1\n";
    is_answered(&rt, rt.alloc(), 65_536, Status::Accepted, report)
}

#[test]
fn links_of_a_byte_too_many_are_over_the_limit(rt: HostRuntime) -> Result<(), Fail> {
    is_answered(
        &rt,
        rt.alloc(),
        65_537,
        Status::OverLimit,
        "FAULT LIMIT links\n",
    )
}
