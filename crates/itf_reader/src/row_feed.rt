// The rows of a transfer whose lines come one after another.
ghost use Rattle.std.specs.Prelude.{◌≡◌, ◌<◌, true, false, IfOk, OnOk, OnErr, Err};
ghost use Rattle.table_layout.specs.Values.{id_view};
ghost use Rattle.itf_lines.specs.Views.{line_view};
ghost use Rattle.itf_reader.specs.declared.refusal.ReadRefusal.TheVariants.{Memory as OutOfMemory};
ghost use Rattle.itf_reader.specs.Machine.{start};
ghost use Rattle.itf_reader.specs.Names.{form_in};
ghost use Rattle.itf_reader.specs.Reads.{fault_at, fault_after, FindsFault};
ghost use Rattle.itf_reader.specs.RowFeeds.{standing, next, shows, shown_row};
ghost use Rattle.itf_reader.specs.Views.{row_of};

use super::machine::{Machine, Names, State, no_row};
use super::refusal::ReadRefusal;
use super::transfer::{Row, Structure};
use itf_lines::{Line, LineEnd, LineFault};
use ports::Memory;
use std::alloc::Global;
use std::marker::Model;
use std::mem::replace;
use table_layout::TableId;

/// The rows of a transfer that is read line by line, of which none is kept but the one that was
/// closed last.
#[derive(Drop)]
pub struct RowFeed {
    machine: Machine,
    failed: bool,
}

impl Model for RowFeed {
    ghost use Rattle.itf_reader.specs.RowFeeds.{RowState};
    ghost use Rattle.itf_reader.specs.Views.{row_of};
    ghost use Rattle.itf_reader.specs.MachineViews.{at_of};

    ghost Value = { RowState };

    ghost view = { λ feed. record {
      failed = feed.failed;
      at = at_of feed.machine;
      closed = row_of feed.machine.closed;
    } };
}

// The answer at the end of a text whose lines were all taken, by whether ENDE was read.
fn end_after(end: LineEnd, ended: bool) -> Result<(), ReadRefusal>
    requires { end.total < 4294967295 }
    ensures { FindsFault (fault_after end.fault ended end.total) result }
{
    match end.fault {
        Some(LineFault::OpenContinue(line)) => Err(ReadRefusal::At {
            line,
            code: Structure::Continue,
        }),
        Some(LineFault::StrayCont(line)) => Err(ReadRefusal::At {
            line,
            code: Structure::Cont,
        }),
        None if ended => Ok(()),
        None => Err(ReadRefusal::At {
            line: end.total + 1,
            code: Structure::End,
        }),
    }
}

impl RowFeed {
    /// Before a text.
    pub fn new(alloc: Global) -> RowFeed
        ensures at { result.at ≡ standing start }
        ensures sound { result.failed ≡ false }
    {
        RowFeed {
            machine: Machine::new(alloc),
            failed: false,
        }
    }

    /// Takes a line by the names of a layout: the table whose row it closes, where it closes one.
    /// The row is then `closed`, up to the next line. After the first line at fault nothing is
    /// taken, and no row is closed. The fields of the line are moved; nothing is said of what it
    /// holds then.
    ///
    /// Cost: time and memory in proportion to the line.
    pub fn take(&mut self, names: &Names, line: &mut Line) -> Result<Option<TableId>, Memory>
        ensures at { OnOk result
            (self.new.at ≡ next (form_in names.now) self.old.at (line_view line.old)) }
        ensures closed { IfOk result (λ table.
            shown_row (id_view table) self.new.closed ≡ shows self.old.at line.old.word) }
        // The only error is out of memory, after which each call has it.
        ensures sound { OnOk result ((self.old.failed ≡ false) × (self.new.failed ≡ false)) }
        ensures failed { OnErr result (self.new.failed ≡ true) }
    {
        if self.failed {
            return Err(Memory);
        }
        let closed = self.machine.closing(line.word);
        let taken = self.machine.step(names, line);
        self.failed = taken.is_err();
        match taken {
            Ok(()) => Ok(closed),
            Err(memory) => Err(memory),
        }
    }

    /// The row that was closed last.
    pub fn closed(&self) -> &Row
        ensures { row_of result.now ≡ self.now.closed }
    {
        &self.machine.closed
    }

    /// The row that was closed last, which is moved out.
    pub fn take_closed(&mut self) -> Row
        ensures row { row_of result ≡ self.old.closed }
        ensures at { self.new.at ≡ self.old.at }
        ensures failed { self.new.failed ≡ self.old.failed }
    {
        replace(&mut self.machine.closed, no_row(self.machine.alloc))
    }

    /// The text ends here. `Ok`: its lines are those of a transfer. Else the first line at fault,
    /// which is the one of the fault of continuation where no line before it is at fault, and the
    /// one after the last where the text ends before ENDE. A feed that failed has `Memory`.
    pub fn finish(self, end: LineEnd) -> Result<(), ReadRefusal>
        requires { self.failed ≡ false → end.total < 4294967295 }
        ensures sound { self.failed ≡ false → FindsFault (fault_at self.at end) result }
        ensures failed { self.failed ≡ true → result ≡ Err OutOfMemory }
    {
        self.answer_at(end)
    }

    // What `finish` answers.
    fn answer_at(&self, end: LineEnd) -> Result<(), ReadRefusal>
        requires { self.now.failed ≡ false → end.total < 4294967295 }
        ensures sound { self.now.failed ≡ false → FindsFault (fault_at self.now.at end) result }
        ensures failed { self.now.failed ≡ true → result ≡ Err OutOfMemory }
    {
        if self.failed {
            return Err(ReadRefusal::Memory);
        }
        match self.machine.frame.state {
            State::Stopped(line, code) => Err(ReadRefusal::At { line, code }),
            State::Done => end_after(end, true),
            _ => end_after(end, false),
        }
    }
}
