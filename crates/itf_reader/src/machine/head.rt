// The lines before the topics and after them.
ghost use Rattle.std.specs.Prelude.{◌≡◌};
ghost use Rattle.itf_lines.specs.Views.{line_view};
ghost use Rattle.itf_reader.specs.Forms.{Form};
ghost use Rattle.itf_reader.specs.Machine.{start, free, title, model, last};
ghost use Rattle.itf_reader.specs.Names.{form_in};
ghost use Rattle.itf_reader.specs.RowFeeds.{after_line};
ghost use Rattle.itf_reader.specs.MachineViews.{at_of, topics_alone};

use super::Machine;
use super::names::Names;
use super::state::State;
use crate::transfer::Structure;
use itf_lines::{Line, LineWord};

impl Machine {
    // The first line.
    pub fn before_scnt(&mut self, line: &Line)
        ensures { (form : Form) → at_of self.new ≡ after_line form start (line_view line.now) }
    {
        match line.word {
            LineWord::Scnt => self.frame.state = State::InHead,
            _ => self.refuse(line),
        }
    }

    // Between the first line and the line of four slashes.
    pub fn in_head(&mut self, line: &Line)
        ensures { (form : Form) → at_of self.new ≡ after_line form free (line_view line.now) }
    {
        match line.word {
            LineWord::Slashes => self.frame.state = State::BeforeMtid,
            _ => self.frame.state = State::InHead,
        }
    }

    // After the line of four slashes.
    pub fn before_mtid(&mut self, line: &Line)
        ensures { (form : Form) → at_of self.new ≡ after_line form title (line_view line.now) }
    {
        match line.word {
            LineWord::Mtid => self.frame.state = State::BeforeModl,
            _ => self.refuse(line),
        }
    }

    // After MTID.
    pub fn before_modl(&mut self, names: &Names, line: &Line)
        ensures { at_of self.new ≡ after_line (form_in names.now) model (line_view line.now) }
    {
        match line.word {
            LineWord::Modl => {
                if names.is_model(&line.fields) {
                    self.frame.topics.clear();
                    self.frame.state = State::InModel;
                } else {
                    self.stop(line, Structure::Name);
                }
            }
            _ => self.refuse(line),
        }
    }

    // After EMOD.
    pub fn before_ende(&mut self, line: &Line)
        ensures { (form : Form) → at_of self.new ≡ after_line form
            (last (topics_alone self.old.frame.topics)) (line_view line.now) }
    {
        match line.word {
            LineWord::Ende => self.frame.state = State::Done,
            _ => self.refuse(line),
        }
    }
}
