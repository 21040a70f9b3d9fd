// The words of the command line of the process.
use crate::word::Word;
use ports::Memory;
use std::alloc::Global;
use std::env::{Env, FillError};

// The system gives no word that is longer.
const LONGEST_WORD: usize = 131_072;

// The word at a place of the command line; none after the last.
fn word_at(
    rt: &HostRuntime,
    alloc: Global,
    place: usize,
    buffer: &mut [u8],
) -> Result<Option<Word>, Memory> {
    let length = match rt.arg(place, buffer) {
        Ok(length) => length,
        Err(FillError::NotPresent) => return Ok(None),
        Err(FillError::TooLong) => 0,
    };
    let text = std::str::from_utf8(&buffer[..length]).unwrap_or("");
    Ok(Some(Word::new(alloc, text)?))
}

/// The words after the program's name. One that is not UTF-8 is given as the empty word, which
/// names no file and no command. The only error is out of memory.
pub fn program_words(rt: &HostRuntime, alloc: Global) -> Result<Vec<Word>, Memory> {
    let mut buffer = vec![in alloc; 0u8; LONGEST_WORD]?;
    let mut words = Vec::new(alloc);
    for place in 1..usize::MAX {
        match word_at(rt, alloc, place, &mut buffer)? {
            Some(word) => words.push(word)?,
            None => break,
        }
    }
    Ok(words)
}
