// The logical lines of a text.
use super::field::Field;
use super::word::LineWord;
use std::alloc::Global;

/// A logical line.
#[derive(Drop)]
pub struct Line {
    /// The number of its first physical line, counted from 1.
    pub number: u32,
    /// The word of its first field.
    pub word: LineWord,
    /// The fields after the first one. Those of a line that was continued are in the order of
    /// its pieces, each CONT left out. The lines of the head are kept by the same rule: the first
    /// line, the free lines, the line `////` (which has no further fields), and a line without
    /// fields, whose word is `Other`. The first field of a line with the word `Other` is not kept.
    pub fields: Vec<Field>,
}

impl Line {
    /// A line without fields, to be filled.
    pub fn empty(alloc: Global) -> Line {
        Line {
            number: 0,
            word: LineWord::Other,
            fields: Vec::new(alloc),
        }
    }
}

/// A fault of continuation, with the number of its physical line.
#[derive(Clone, Copy, Debug, PartialEq, Eq)]
pub enum LineFault {
    /// The line goes on, and the next physical line is no CONT line, or there is none.
    OpenContinue(u32),
    /// The line is a CONT line, and the physical line before it does not go on.
    StrayCont(u32),
}

/// The logical lines of a text.
#[derive(Drop)]
pub struct Lines {
    /// The logical lines in order, up to the first fault of continuation.
    pub lines: Vec<Line>,
    /// The first fault of continuation.
    pub fault: Option<LineFault>,
    /// The number of physical lines, those after a fault too.
    pub total: u32,
}

/// What is known at the end of a text.
#[derive(Clone, Copy, Debug, PartialEq, Eq)]
pub struct LineEnd {
    /// The first fault of continuation.
    pub fault: Option<LineFault>,
    /// The number of physical lines, those after a fault too.
    pub total: u32,
}
