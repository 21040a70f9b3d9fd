// The lines of a polyline.
ghost use Rattle.std.specs.Prelude.{◌≡◌, ◌++◌, ◌∷◌, [], OnOk};
ghost use Rattle.itf_lines.specs.Views.{line_view};
ghost use Rattle.itf_reader.specs.Forms.{Form, Start, vertex};
ghost use Rattle.itf_reader.specs.Machine.{strokes, vertices, arc, with_stroke};
ghost use Rattle.itf_reader.specs.RowFeeds.{after_line, standing};
ghost use Rattle.itf_reader.specs.MachineViews.{at_of, in_row};
ghost use Rattle.itf_reader.specs.VertexLists.{kind_of};

use super::Machine;
use super::state::State;
use crate::transfer::{Stroke, VertexKind};
use crate::vertices::Vertices;
use itf_lines::{Line, LineWord};
use ports::Memory;
use std::mem::replace;

impl Machine {
    // Adds the vertex of a line to the open polyline.
    fn add_vertex(&mut self, kind: VertexKind, line: &mut Line) -> Result<(), Memory>
        ensures vertices { OnOk result (self.new.polyline ≡ self.old.polyline ++ vertex
            (kind_of kind) line.old.number line.old.fields.items ∷ []) }
        ensures frame { self.new.frame ≡ self.old.frame }
        ensures row { self.new.open ≡ self.old.open }
    {
        self.polyline.push(kind, line.number, &mut line.fields)
    }

    // Adds an undefined stroke to the open object.
    pub fn add_undefined(&mut self) -> Result<(), Memory>
        ensures { OnOk result (at_of self.new ≡ standing
            (strokes (with_stroke (in_row self.old) []))) }
    {
        self.open.strokes.given.push(Stroke {
            vertices: Vertices::new(self.alloc),
        })?;
        self.frame.state = State::InObject;
        Ok(())
    }

    // Begins a polyline.
    pub fn start_polyline(&mut self, line: &mut Line) -> Result<(), Memory>
        ensures { OnOk result (at_of self.new ≡ standing (vertices (in_row self.old)
            (vertex Start line.old.number line.old.fields.items ∷ []))) }
    {
        self.polyline.restart()?;
        self.add_vertex(VertexKind::Start, line)?;
        self.frame.state = State::InPolyline;
        Ok(())
    }

    // Adds the polyline to the open object.
    fn end_polyline(&mut self) -> Result<(), Memory>
        ensures { OnOk result (at_of self.new ≡ standing (strokes (with_stroke (in_row self.old)
            self.old.polyline))) }
    {
        let vertices = replace(&mut self.polyline, Vertices::new(self.alloc));
        self.open.strokes.given.push(Stroke { vertices })?;
        self.frame.state = State::InObject;
        Ok(())
    }

    // After a vertex that is no ARCP.
    pub fn in_polyline(&mut self, line: &mut Line) -> Result<(), Memory>
        ensures { (form : Form) → OnOk result (at_of self.new ≡ after_line form
            (vertices (in_row self.old) self.old.polyline)
            (line_view line.old)) }
    {
        match line.word {
            LineWord::Lipt => {
                self.add_vertex(VertexKind::Straight, line)?;
                self.frame.state = State::InPolyline;
            }
            LineWord::Arcp => {
                self.add_vertex(VertexKind::OnArc, line)?;
                self.frame.state = State::AfterArcPoint;
            }
            LineWord::Elin => return self.end_polyline(),
            _ => self.refuse(line),
        }
        Ok(())
    }

    // After ARCP.
    pub fn after_arc_point(&mut self, line: &mut Line) -> Result<(), Memory>
        ensures { (form : Form) → OnOk result (at_of self.new ≡ after_line form
            (arc (in_row self.old) self.old.polyline)
            (line_view line.old)) }
    {
        match line.word {
            LineWord::Lipt => {
                self.add_vertex(VertexKind::Straight, line)?;
                self.frame.state = State::InPolyline;
            }
            _ => self.refuse(line),
        }
        Ok(())
    }
}
