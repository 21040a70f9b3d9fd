// The lines of a text that comes in pieces.
ghost use Rattle.std.specs.Prelude.{◌≡◌, ◌+◌, ◌<◌, ◌≤◌, ◌∷◌, ◌++◌, [], length, drop, true, false};
ghost use Rattle.std.specs.Prelude.{IfOk, OnOk, OnErr, IfSome, IfNone};
ghost use Rattle.itf_lines.specs.Views.{line_view, lines_view};
ghost use Rattle.itf_lines.specs.FeedStates.{has_no_lf, opening};
ghost use Rattle.itf_lines.specs.Feeds.{line_if, IsEnded, TakesLine, Reads};
ghost use Rattle.itf_lines.specs.Feeds.{Adds, AddsFront, Ends, AddsEnd};

use super::cut::content;
use super::logical::{Line, LineEnd};
use super::pass::Pass;
use bstr::ByteSlice;
use ili_grammar::Codes;
use ports::Memory;
use std::alloc::Global;
use std::marker::Model;
use std::mem::replace;

/// The lines of a text that is read in pieces: of what was read so far, that which the lines of
/// the rest depend on.
#[derive(Drop)]
pub struct LineFeed {
    alloc: Global,
    pass: Pass,
    ended: u32,
    begun: Vec<u8>,
    failed: bool,
}

impl Model for LineFeed {
    ghost use Rattle.std.specs.Prelude.{◌≡◌, ◌<◌, true};
    ghost use Rattle.itf_lines.specs.Pass.{state_view};
    ghost use Rattle.itf_lines.specs.FeedStates.{FeedState, has_no_lf};

    ghost Value = { FeedState };

    ghost view = { λ feed. record {
      failed = feed.failed;
      code = feed.pass.code;
      ended = feed.ended;
      begun = feed.begun.items;
      state = state_view feed.pass;
    } };

    ghost invariant = { λ feed. (feed.ended < 4294967295) × (has_no_lf feed.begun.items ≡ true) };
}

// Moves the line to the end of `into`, with its fields in a vector without further room, since a
// transfer has millions of lines.
fn add_line(alloc: Global, line: &mut Line, into: &mut Vec<Line>) -> Result<(), Memory>
    ensures added { OnOk result
        (lines_view into.new.items ≡ lines_view into.old.items ++ line_view line.old ∷ []) }
    ensures kept { OnErr result (lines_view into.new.items ≡ lines_view into.old.items) }
{
    let mut fields = Vec::with_capacity(alloc, line.fields.len())?;
    fields.append(&mut line.fields)?;
    into.push(Line {
        number: line.number,
        word: line.word,
        fields,
    })?;
    Ok(())
}

impl LineFeed {
    /// Before the first byte of a text, for the continue code of its model.
    pub fn new(alloc: Global, codes: &Codes) -> LineFeed
        ensures { result ≡ opening codes.now.continued }
    {
        LineFeed {
            alloc,
            pass: Pass::new(alloc, codes.continued),
            ended: 0,
            begun: Vec::new(alloc),
            failed: false,
        }
    }

    // Takes a whole physical line without its end.
    fn take_line(&mut self, text: &[u8], line: &mut Line) -> Result<bool, Memory>
        requires few { self.old.ended + 1 < 4294967295 }
        ensures lines { IfOk result
            (λ whole. TakesLine self.old text.now whole (line_view line.new) self.new) }
        ensures ended { self.new.ended ≡ self.old.ended + 1 }
        ensures begun { self.new.begun ≡ self.old.begun }
        ensures failed { self.new.failed ≡ self.old.failed }
    {
        self.ended += 1;
        self.pass.take(self.ended, text, line)
    }

    // Takes the last bytes of a physical line, with the LF that ends it.
    fn take_ended(&mut self, bytes: &[u8], line: &mut Line) -> Result<bool, Memory>
        requires ended { IsEnded bytes.now }
        requires few { self.old.ended + 1 < 4294967295 }
        ensures reads { IfOk result (λ whole.
            Reads self.old bytes.now (line_if whole (line_view line.new)) self.new []) }
        ensures ended { OnOk result (self.new.ended ≡ self.old.ended + 1) }
        ensures failed { self.new.failed ≡ self.old.failed }
    {
        if self.begun.is_empty() {
            return self.take_line(content(bytes), line);
        }
        // Moved out while the line is taken; its room is put back.
        let mut begun = replace(&mut self.begun, Vec::new(self.alloc));
        begun.extend_from_slice(bytes)?;
        let whole = self.take_line(content(&begun), line)?;
        begun.clear();
        self.begun = begun;
        Ok(whole)
    }

    // Keeps bytes that begin a physical line or go on in it.
    fn keep(&mut self, bytes: &[u8]) -> Result<(), Memory>
        requires { has_no_lf bytes.now ≡ true }
        ensures reads { OnOk result (Reads self.old bytes.now [] self.new []) }
        ensures ended { self.new.ended ≡ self.old.ended }
        ensures failed { self.new.failed ≡ self.old.failed }
    {
        self.begun.extend_from_slice(bytes)?;
        Ok(())
    }

    // The next logical line of a piece, by a feed that did not fail.
    fn next_line(&mut self, piece: &[u8], line: &mut Line) -> Result<Option<usize>, Memory>
        requires few { self.old.ended + length piece.now < 4294967295 }
        ensures line { IfOk result (λ taken. IfSome taken (λ n.
            Reads self.old piece.now (line_view line.new ∷ []) self.new (drop n piece.now))) }
        ensures within { IfOk result (λ taken. IfSome taken (λ n.
            (0 < n) × (n ≤ length piece.now) × (self.new.ended ≤ self.old.ended + n))) }
        ensures none { IfOk result (λ taken.
            IfNone taken (Reads self.old piece.now [] self.new [])) }
        ensures few { IfOk result (λ taken.
            IfNone taken (self.new.ended ≤ self.old.ended + length piece.now)) }
        ensures failed { self.new.failed ≡ self.old.failed }
    {
        let mut at = 0;
        while let Some(end) = (&piece[at..]).find_byte(b'\n') {
            let next = at + end + 1;
            let whole = self.take_ended(&piece[at..next], line)?;
            at = next;
            if whole {
                return Ok(Some(at));
            }
        }
        self.keep(&piece[at..])?;
        Ok(None)
    }

    /// Takes bytes of a piece up to the next logical line, and fills `line` with it: `Some` of how
    /// many bytes were taken. `None`: all bytes were taken, and they complete no logical line.
    ///
    /// Cost: time in proportion to the bytes that are taken. `line` keeps the room of its fields,
    /// so that only a longer line and a field of more than 14 bytes take memory. Bytes are copied
    /// where a physical line lies in more than one piece.
    pub fn next(&mut self, piece: &[u8], line: &mut Line) -> Result<Option<usize>, Memory>
        requires few { self.old.failed ≡ false → self.old.ended + length piece.now < 4294967295 }
        // Whatever follows the piece: the lines are this one and those of the rest from here on.
        ensures line { IfOk result (λ taken. IfSome taken (λ n.
            Reads self.old piece.now (line_view line.new ∷ []) self.new (drop n piece.now))) }
        ensures within { IfOk result (λ taken. IfSome taken (λ n.
            (0 < n) × (n ≤ length piece.now) × (self.new.ended ≤ self.old.ended + n))) }
        ensures none { IfOk result (λ taken.
            IfNone taken (Reads self.old piece.now [] self.new [])) }
        ensures few { IfOk result (λ taken.
            IfNone taken (self.new.ended ≤ self.old.ended + length piece.now)) }
        // The only error is out of memory, after which each call has it.
        ensures sound { OnOk result ((self.old.failed ≡ false) × (self.new.failed ≡ false)) }
        ensures failed { OnErr result (self.new.failed ≡ true) }
    {
        if self.failed {
            return Err(Memory);
        }
        let taken = self.next_line(piece, line);
        self.failed = taken.is_err();
        taken
    }

    // Adds the logical lines of a piece, by a feed that did not fail.
    fn feed_lines(&mut self, piece: &[u8], into: &mut Vec<Line>) -> Result<(), Memory>
        requires few { self.old.ended + length piece.now < 4294967295 }
        ensures lines { OnOk result
            (Adds (lines_view into.old.items) self.old piece.now (lines_view into.new.items)
            self.new []) }
        ensures few { OnOk result (self.new.ended ≤ self.old.ended + length piece.now) }
        ensures sound { OnOk result (self.new.failed ≡ false) }
        ensures front { OnErr result
            (AddsFront (lines_view into.old.items) self.old piece.now
            (lines_view into.new.items)) }
    {
        let mut line = Line::empty(self.alloc);
        let mut at = 0;
        while let Some(n) = self.next(&piece[at..], &mut line)? {
            at += n;
            add_line(self.alloc, &mut line, into)?;
        }
        Ok(())
    }

    /// Takes a piece of the text, and adds its logical lines to `into`.
    ///
    /// Cost: time in proportion to the bytes; memory for the lines that are added, and a physical
    /// line that ends in a later piece is kept.
    pub fn feed(&mut self, piece: &[u8], into: &mut Vec<Line>) -> Result<(), Memory>
        requires few { self.old.failed ≡ false → self.old.ended + length piece.now < 4294967295 }
        // Whatever follows the piece: the lines are those that were added and those from here on.
        ensures lines { OnOk result
            (Adds (lines_view into.old.items) self.old piece.now (lines_view into.new.items)
            self.new []) }
        ensures few { OnOk result (self.new.ended ≤ self.old.ended + length piece.now) }
        ensures sound { OnOk result ((self.old.failed ≡ false) × (self.new.failed ≡ false)) }
        // The only error is out of memory, after which each call has it. The lines that were added
        // are then the first of those that would have been.
        ensures failed { OnErr result (self.new.failed ≡ true) }
        ensures front { OnErr result
            (AddsFront (lines_view into.old.items) self.old piece.now
            (lines_view into.new.items)) }
        ensures nothing { self.old.failed ≡ true → into.new ≡ into.old }
    {
        if self.failed {
            return Err(Memory);
        }
        let added = self.feed_lines(piece, into);
        self.failed = added.is_err();
        added
    }

    /// The text ends here: fills `line` with the logical line that its last bytes complete, where
    /// there is one, and answers whether there is, and the fault and the number of lines.
    pub fn finish_line(self, line: &mut Line) -> Result<(bool, LineEnd), Memory>
        ensures ends { IfOk result (λ answer.
            Ends self (line_if answer.0 (line_view line.new)) answer.1) }
        ensures sound { OnOk result (self.failed ≡ false) }
    {
        if self.failed {
            return Err(Memory);
        }
        let mut pass = self.pass;
        if self.begun.is_empty() {
            let end = LineEnd {
                fault: pass.fault(),
                total: self.ended,
            };
            return Ok((false, end));
        }
        let total = self.ended + 1;
        let whole = pass.take(total, &self.begun, line)?;
        let end = LineEnd {
            fault: pass.fault(),
            total,
        };
        Ok((whole, end))
    }

    /// The text ends here: adds its last logical line, where there is one, and answers the first
    /// fault of continuation and the number of physical lines. The only error is out of memory; a
    /// feed that failed before has it, and nothing is added then.
    pub fn finish(self, into: &mut Vec<Line>) -> Result<LineEnd, Memory>
        ensures lines { IfOk result (λ end.
            AddsEnd (lines_view into.old.items) self (lines_view into.new.items) end) }
        ensures sound { OnOk result (self.failed ≡ false) }
        ensures nothing { OnErr result (lines_view into.new.items ≡ lines_view into.old.items) }
    {
        let alloc = self.alloc;
        let mut line = Line::empty(alloc);
        let (whole, end) = self.finish_line(&mut line)?;
        if whole {
            add_line(alloc, &mut line, into)?;
        }
        Ok(end)
    }
}
