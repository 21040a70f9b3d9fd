//! Calls of `run` over files in memory.

use delivery::Word;
use ports::{MemoryShelf, Shelf};
use std::alloc::Global;
use std::test::Fail;

pub const CHECK: &[&str] = &["check", "M", "T", "C"];

pub const VERIFY: &[&str] = &["verify", "M", "T", "C"];

pub const POINTS: &[&str] = &["points", "M", "T", "C"];

pub fn words_of(alloc: Global, texts: &[&str]) -> Result<Vec<Word>, Fail> {
    let mut words = Vec::new(alloc);
    for text in texts {
        words.push(Word::new(alloc, text)?)?;
    }
    Ok(words)
}

// The file of the certificates, where it is there.
pub fn certificate(alloc: Global, shelf: &mut MemoryShelf) -> Result<Option<String>, Fail> {
    let mut buffer = [0u8; 2048];
    match shelf.read("C", 0, &mut buffer) {
        Ok(length) => {
            let text = std::str::from_utf8(&buffer[..length]).unwrap_or("not a text");
            Ok(Some(String::from_str(alloc, text)?))
        }
        Err(_) => Ok(None),
    }
}
