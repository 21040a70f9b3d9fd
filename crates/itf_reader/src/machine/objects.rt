// The lines of a table: its objects and their strokes.
ghost use Rattle.std.specs.Prelude.{◌≡◌, OnOk};
ghost use Rattle.itf_lines.specs.Views.{line_view};
ghost use Rattle.itf_reader.specs.Forms.{Form};
ghost use Rattle.itf_reader.specs.Machine.{objects, strokes, opened_row, has_room};
ghost use Rattle.itf_reader.specs.ClosedRows.{row_closed, closes};
ghost use Rattle.itf_reader.specs.Views.{row_of};
ghost use Rattle.itf_reader.specs.RowFeeds.{after_line, standing, Shows};
ghost use Rattle.itf_reader.specs.MachineViews.{at_of, in_table, in_row};

use super::Machine;
use super::rows::open_row;
use super::state::State;
use itf_lines::{Line, LineWord};
use ports::Memory;
use std::mem::swap;

impl Machine {
    // After TABL, before the first object.
    pub fn in_table(&mut self, line: &mut Line) -> Result<(), Memory>
        ensures { (form : Form) → OnOk result (at_of self.new ≡ after_line form
            (objects (in_table self.old.frame)) (line_view line.old)) }
    {
        match line.word {
            LineWord::Obje => self.start_object(line),
            LineWord::Etab => self.close_table(),
            _ => {
                self.refuse(line);
                Ok(())
            }
        }
    }

    // Opens the object of a line.
    fn start_object(&mut self, line: &mut Line) -> Result<(), Memory>
        ensures at { OnOk result (at_of self.new ≡ standing
            (strokes (opened_row (in_table self.old.frame) line.old.number
            line.old.fields.items))) }
        ensures closed { self.new.closed ≡ self.old.closed }
    {
        // The room of a stroke of the row before the last is used again.
        if let Some(stroke) = self.open.strokes.given.pop() {
            self.polyline = stroke.vertices;
        }
        self.open.strokes.given.clear();
        open_row(&mut self.open, self.frame.lines, line)?;
        self.frame.state = State::InObject;
        Ok(())
    }

    // Closes the open object: the lines of its table for which it has no stroke are left out.
    fn close_row(&mut self)
        ensures row { row_of self.new.closed ≡ row_closed (in_row self.old) }
        ensures frame { self.new.frame ≡ self.old.frame }
    {
        let given = self.open.strokes.given.len();
        self.open.strokes.left_out = self.frame.lines.saturating_sub(given);
        swap(&mut self.open, &mut self.closed);
    }

    // Whether the table of the object has a line for one more stroke.
    fn has_room(&self) -> bool
        ensures { result ≡ has_room (in_row self.now) }
    {
        self.open.strokes.given.len() < self.frame.lines
    }

    // After the line of an object or one of its strokes.
    pub fn in_object(&mut self, line: &mut Line) -> Result<(), Memory>
        ensures at { (form : Form) → OnOk result (at_of self.new ≡ after_line form
            (strokes (in_row self.old)) (line_view line.old)) }
        ensures row { OnOk result (Shows (closes (strokes (in_row self.old)) line.old.word)
            (row_of self.new.closed)) }
    {
        match line.word {
            LineWord::Obje => {
                self.close_row();
                self.start_object(line)
            }
            LineWord::Etab => {
                self.close_row();
                self.close_table()
            }
            LineWord::Stpt if self.has_room() => self.start_polyline(line),
            LineWord::Elin if self.has_room() => self.add_undefined(),
            _ => {
                self.refuse(line);
                Ok(())
            }
        }
    }
}
