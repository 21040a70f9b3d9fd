// What is open around the objects.
ghost use Rattle.std.specs.Prelude.{◌≡◌};
ghost use Rattle.itf_reader.specs.Forms.{has_topic, has_table};
ghost use Rattle.itf_reader.specs.MachineViews.{topics_alone, tables_alone};

use super::number_set::NumberSet;
use super::state::State;

/// The state of the machine, the topics so far, the open topic with its tables so far, and the
/// open table with the number of its lines.
#[derive(Drop)]
pub struct Frame {
    pub state: State,
    pub topics: NumberSet,
    pub topic: usize,
    pub tables: NumberSet,
    pub table: u32,
    pub lines: usize,
}

impl Frame {
    /// The topic of that number was read.
    pub fn has_topic(&self, number: usize) -> bool
        ensures { result ≡ has_topic number (topics_alone self.now.topics) }
    {
        self.topics.has(number)
    }

    /// The table of that number was read in the open topic.
    pub fn has_table(&self, number: u32) -> bool
        ensures { result ≡ has_table number (tables_alone self.now.tables) }
    {
        self.tables.has(number as usize)
    }
}
