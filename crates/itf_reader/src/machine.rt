// The machine that takes the lines of a transfer one after another. It keeps the numbers of the
// topics and tables so far, the open object and the one that was closed last, and no other row.
ghost use Rattle.std.specs.Prelude.{◌≡◌, OnOk};
ghost use Rattle.table_layout.specs.Values.{id_view};
ghost use Rattle.itf_lines.specs.Views.{line_view};
ghost use Rattle.itf_reader.specs.Names.{form_in};
ghost use Rattle.itf_reader.specs.Views.{row_of};
ghost use Rattle.itf_reader.specs.Readings.{OfLine};
ghost use Rattle.itf_reader.specs.RowFeeds.{standing, stopped, next, shows, Shows, number_shown};
ghost use Rattle.itf_reader.specs.Machine.{start, refusal};
ghost use Rattle.itf_reader.specs.MachineViews.{at_of};
ghost use Rattle.itf_reader.specs.Refusals.{fault_of};

mod frame;
mod head;
mod names;
mod number_set;
mod objects;
mod polylines;
mod rows;
mod state;
mod topics;

use super::transfer::{Row, Structure};
use super::vertices::Vertices;
use frame::Frame;
use itf_lines::{Line, LineWord};
pub use names::Names;
use number_set::NumberSet;
use ports::Memory;
pub use rows::no_row;
pub use state::State;
use std::alloc::Global;
use table_layout::TableId;

/// What is open between two lines, and the object that was closed last.
#[derive(Drop)]
pub struct Machine {
    pub alloc: Global,
    pub frame: Frame,
    /// The open object, without its open polyline.
    pub open: Row,
    /// The vertices of the open polyline.
    pub polyline: Vertices,
    pub closed: Row,
}

// The code of a word that may not come next, before ENDE.
fn refusal(word: LineWord) -> Structure
    ensures { fault_of result ≡ OfLine (refusal word) }
{
    match word {
        LineWord::Motr => Structure::Motr,
        _ => Structure::Word,
    }
}

impl Machine {
    /// Before a text.
    pub fn new(alloc: Global) -> Machine
        ensures { at_of result ≡ standing start }
    {
        Machine {
            alloc,
            frame: Frame {
                state: State::BeforeScnt,
                topics: NumberSet::new(alloc),
                topic: 0,
                tables: NumberSet::new(alloc),
                table: 0,
                lines: 0,
            },
            open: no_row(alloc),
            polyline: Vertices::new(alloc),
            closed: no_row(alloc),
        }
    }

    // Stops at a line with that code.
    fn stop(&mut self, line: &Line, code: Structure)
        ensures { at_of self.new ≡ stopped line.now.number (fault_of code) }
    {
        self.frame.state = State::Stopped(line.number, code);
    }

    // Stops at a line whose word may not come next.
    fn refuse(&mut self, line: &Line)
        ensures { at_of self.new ≡ stopped line.now.number (OfLine (refusal line.now.word)) }
    {
        self.stop(line, refusal(line.word));
    }

    /// The table whose open object a line of that word closes.
    pub fn closing(&self, word: LineWord) -> Option<TableId>
        ensures { id_view result ≡ number_shown (shows (at_of self.now) word) }
    {
        match self.frame.state {
            State::InObject => match word {
                LineWord::Obje | LineWord::Etab => Some(TableId(self.frame.table)),
                _ => None,
            },
            _ => None,
        }
    }

    /// Takes a line, whose fields are moved out. Where one was at fault, nothing changes.
    pub fn step(&mut self, names: &Names, line: &mut Line) -> Result<(), Memory>
        ensures at { OnOk result (at_of self.new ≡ next (form_in names.now) (at_of self.old)
            (line_view line.old)) }
        // The object that it closes is shown.
        ensures row { OnOk result (Shows (shows (at_of self.old) line.old.word)
            (row_of self.new.closed)) }
    {
        match self.frame.state {
            State::BeforeScnt => self.before_scnt(line),
            State::InHead => self.in_head(line),
            State::BeforeMtid => self.before_mtid(line),
            State::BeforeModl => self.before_modl(names, line),
            State::InModel => self.in_model(names, line),
            State::InTopic => return self.in_topic(names, line),
            State::InTable => return self.in_table(line),
            State::InObject => return self.in_object(line),
            State::InPolyline => return self.in_polyline(line),
            State::AfterArcPoint => return self.after_arc_point(line),
            State::BeforeEnde => self.before_ende(line),
            State::Done => self.stop(line, Structure::Word),
            State::Stopped(_, _) => {}
        }
        Ok(())
    }
}
