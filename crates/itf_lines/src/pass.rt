// The machine that takes one physical line after another.
ghost use Rattle.std.specs.Prelude.{◌≡◌, IfOk};
ghost use Rattle.itf_lines.specs.LogicalLines.{is_slashes};
ghost use Rattle.itf_lines.specs.Pass.{open_line_view, state_view, fault_at};
ghost use Rattle.itf_lines.specs.Pass.{step, head_step, start_step, continue_step, end_step};
ghost use Rattle.itf_lines.specs.PassStates.{in_the_head};
ghost use Rattle.itf_lines.specs.Views.{line_view};
ghost use Rattle.itf_lines.specs.Feeds.{Takes};

use super::cut::{Piece, after_cont, is_slashes, piece_of, split_field};
use super::logical::{Line, LineFault};
use super::partial::PartialLine;
use super::word::{LineWord, word_of};
use ports::Memory;
use std::alloc::Global;

/// The state between two physical lines.
#[derive(Clone, Copy)]
pub enum State {
    /// Up to the line of four slashes.
    Head,
    /// No line goes on.
    Between,
    /// The partial line goes on, and the number is that of its last physical line.
    Waiting(u32),
    /// After a fault of continuation.
    Broken(LineFault),
}

/// The machine: the continue code, its state and the partial line.
#[derive(Drop)]
pub struct Pass {
    alloc: Global,
    code: u8,
    state: State,
    partial: PartialLine,
}

impl Pass {
    /// Before the first line.
    pub fn new(alloc: Global, code: u8) -> Pass
        ensures state { state_view result ≡ in_the_head }
        ensures code { result.code ≡ code }
    {
        Pass {
            alloc,
            code,
            state: State::Head,
            partial: PartialLine::new(alloc),
        }
    }

    /// The fault of a text that ends here.
    pub fn fault(&self) -> Option<LineFault>
        ensures { result ≡ fault_at (state_view self.now) }
    {
        match self.state {
            State::Head | State::Between => None,
            State::Waiting(last) => Some(LineFault::OpenContinue(last)),
            State::Broken(fault) => Some(fault),
        }
    }

    // Takes a line of the head, whatever it holds.
    #[tactic(auto, using(crate::proofs::Gathering::gathered_any))]
    fn take_head(&mut self, number: u32, text: &[u8], line: &mut Line) -> Result<bool, Memory>
        ensures next { IfOk result (λ whole. Takes
            (head_step number text.now)
            whole (line_view line.new) (state_view self.new)) }
        ensures code { self.new.code ≡ self.old.code }
    {
        self.partial.restart(number);
        self.partial.add_all(self.alloc, text)?;
        self.partial.move_any_into(line);
        if is_slashes(text) {
            line.word = LineWord::Slashes;
            self.state = State::Between;
        } else {
            self.state = State::Head;
        }
        Ok(true)
    }

    // The physical line of that number was added to the partial line, which goes on or is complete.
    fn finish_or_wait(&mut self, goes_on: bool, number: u32, line: &mut Line) -> bool
        ensures next { Takes (end_step goes_on number (open_line_view self.old.partial))
            result (line_view line.new) (state_view self.new) }
        ensures code { self.new.code ≡ self.old.code }
    {
        if goes_on {
            self.state = State::Waiting(number);
            return false;
        }
        self.state = State::Between;
        self.partial.move_into(line)
    }

    // Takes a physical line that continues nothing.
    #[tactic(auto, using(crate::proofs::Gathering::begun))]
    fn start_line(&mut self, number: u32, piece: Piece<'_>, line: &mut Line) -> Result<bool, Memory>
        ensures next { IfOk result (λ whole. Takes
            (start_step number piece.entry.text.now piece.entry.goes_on)
            whole (line_view line.new) (state_view self.new)) }
        ensures code { self.new.code ≡ self.old.code }
    {
        let Some((field, others)) = split_field(piece.text) else {
            self.partial.restart(number);
            return Ok(self.finish_or_wait(piece.goes_on, number, line));
        };
        if field == b"CONT".as_slice() {
            self.state = State::Broken(LineFault::StrayCont(number));
            return Ok(false);
        }
        self.partial.begin(number, word_of(field));
        self.partial.add_others(self.alloc, others)?;
        Ok(self.finish_or_wait(piece.goes_on, number, line))
    }

    // Takes the physical line after one that goes on, whose number is `last`.
    fn continue_line(
        &mut self,
        number: u32,
        last: u32,
        piece: Piece<'_>,
        line: &mut Line,
    ) -> Result<bool, Memory>
        ensures next { IfOk result (λ whole. Takes
            (continue_step number (open_line_view self.old.partial) last piece.entry.text.now
            piece.entry.goes_on)
            whole (line_view line.new) (state_view self.new)) }
        ensures code { self.new.code ≡ self.old.code }
    {
        let Some(rest) = after_cont(piece.text) else {
            self.state = State::Broken(LineFault::OpenContinue(last));
            return Ok(false);
        };
        self.partial.add_all(self.alloc, rest)?;
        Ok(self.finish_or_wait(piece.goes_on, number, line))
    }

    /// Takes the physical line of that number. True: it completes a logical line, which was moved
    /// into `line`.
    pub fn take(&mut self, number: u32, text: &[u8], line: &mut Line) -> Result<bool, Memory>
        ensures next { IfOk result (λ whole. Takes
            (step self.old.code number text.now (state_view self.old))
            whole (line_view line.new) (state_view self.new)) }
        ensures code { self.new.code ≡ self.old.code }
    {
        match self.state {
            State::Head => self.take_head(number, text, line),
            State::Between => self.start_line(number, piece_of(self.code, text), line),
            State::Waiting(last) => {
                self.continue_line(number, last, piece_of(self.code, text), line)
            }
            State::Broken(_) => Ok(false),
        }
    }
}
