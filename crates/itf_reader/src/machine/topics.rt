// The lines of topics, and those that open and close their tables.
ghost use Rattle.std.specs.Prelude.{◌≡◌, OnOk};
ghost use Rattle.itf_lines.specs.Views.{line_view};
ghost use Rattle.itf_reader.specs.Forms.{topic_named, table_named};
ghost use Rattle.itf_reader.specs.Machine.{topics, tables, named_topic, named_table, closed_table};
ghost use Rattle.itf_reader.specs.Machine.{closed_topic};
ghost use Rattle.itf_reader.specs.Names.{form_in};
ghost use Rattle.itf_reader.specs.RowFeeds.{standing, after_line, standing_by, without_tables};
ghost use Rattle.itf_reader.specs.MachineViews.{at_of, topics_alone, in_topic, in_table};

use super::Machine;
use super::names::Names;
use super::state::State;
use crate::transfer::Structure;
use itf_lines::{Line, LineWord};
use ports::Memory;

impl Machine {
    // Opens the topic that a line names.
    fn open_topic(&mut self, names: &Names, line: &Line)
        ensures { at_of self.new ≡ standing_by line.now.number
            (named_topic (topics_alone self.old.frame.topics)
            (topic_named 0 line.now.fields.items (form_in names.now).topics)) }
    {
        match names.find_topic(&line.fields) {
            None => self.stop(line, Structure::Name),
            Some(number) => {
                if self.frame.has_topic(number) {
                    self.stop(line, Structure::Twice);
                } else {
                    self.frame.tables.clear();
                    self.frame.topic = number;
                    self.frame.state = State::InTopic;
                }
            }
        }
    }

    // Between topics.
    pub fn in_model(&mut self, names: &Names, line: &Line)
        ensures { at_of self.new ≡ after_line (form_in names.now)
            (topics (topics_alone self.old.frame.topics)) (line_view line.now) }
    {
        match line.word {
            LineWord::Topi => self.open_topic(names, line),
            LineWord::Emod => self.frame.state = State::BeforeEnde,
            _ => self.refuse(line),
        }
    }

    // Opens the table that a line names.
    fn open_table(&mut self, names: &Names, line: &Line) -> Result<(), Memory>
        ensures { OnOk result (at_of self.new ≡ standing_by line.now.number
            (named_table (in_topic self.old.frame)
            (table_named 0 self.old.frame.topic line.now.fields.items
            (form_in names.now).tables))) }
    {
        match names.find_table(self.alloc, self.frame.topic, &line.fields)? {
            None => self.stop(line, Structure::Name),
            Some((number, lines)) => {
                if self.frame.has_table(number) {
                    self.stop(line, Structure::Twice);
                } else {
                    self.frame.table = number;
                    self.frame.lines = lines;
                    self.frame.state = State::InTable;
                }
            }
        }
        Ok(())
    }

    // Closes the open topic.
    fn close_topic(&mut self) -> Result<(), Memory>
        ensures { OnOk result (at_of self.new ≡ standing
            (topics (closed_topic (without_tables (in_topic self.old.frame))))) }
    {
        self.frame.topics.add(self.frame.topic)?;
        self.frame.state = State::InModel;
        Ok(())
    }

    // Between the tables of a topic.
    pub fn in_topic(&mut self, names: &Names, line: &Line) -> Result<(), Memory>
        ensures { OnOk result (at_of self.new ≡ after_line (form_in names.now)
            (tables (in_topic self.old.frame)) (line_view line.now)) }
    {
        match line.word {
            LineWord::Tabl => self.open_table(names, line),
            LineWord::Etop => self.close_topic(),
            _ => {
                self.refuse(line);
                Ok(())
            }
        }
    }

    // Closes the open table.
    pub fn close_table(&mut self) -> Result<(), Memory>
        ensures at { OnOk result (at_of self.new ≡ standing
            (tables (closed_table (in_table self.old.frame)))) }
        ensures closed { self.new.closed ≡ self.old.closed }
    {
        self.frame.tables.add(self.frame.table as usize)?;
        self.frame.state = State::InTopic;
        Ok(())
    }
}
