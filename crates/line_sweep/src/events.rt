// The events of a sweep: the timetable of the edges, and for each event where its edges end.
ghost use Rattle.std.specs.Prelude.{◌≡◌, ◌<◌, [], length, slice_index_or, List};
ghost use Rattle.plane.specs.Runs.Moves.{no_move, steps_from};
ghost use Rattle.straight_predicates.specs.Tables.{table_of};
ghost use Rattle.line_sweep.specs.Kinds.{AreEvents, IsFirstFrom, ended_at, move_of};
ghost use Rattle.line_sweep.specs.Kinds.{moves_at_blocks};

use plane::Point;
use std::marker::Model;
use straight_predicates::{Timetable, before};

/// The edges that end at an event: how many edges of the live list lie below them, and how many
/// they are.
#[derive(Clone, Copy)]
pub struct EndingBlock {
    pub position: u32,
    pub count: u32,
}

/// A point where edges end or start.
#[derive(Clone, Copy)]
pub struct Event<'a> {
    pub at: Point,
    /// How many edges of the live list lie below those that end here.
    pub position: u32,
    /// How many edges end here.
    pub ending: u32,
    /// The edges that start here, by slope.
    pub starting: &'a [u32],
}

/// The events of a sweep, in order. An event takes 40 bytes, and each edge 12.
#[derive(Drop)]
pub struct Events {
    table: Timetable,
    blocks: Vec<EndingBlock>,
    ended: Vec<u32>,
}

impl Model for Events {
    ghost use Rattle.std.specs.Prelude.{List};
    ghost use Rattle.plane.specs.Runs.Moves.{Move};
    ghost use Rattle.straight_predicates.specs.Tables.{table_of};
    ghost use Rattle.line_sweep.specs.Kinds.{AreEvents, moves_at_blocks};

    ghost Value = { List Move };

    ghost view = { λ e. moves_at_blocks (table_of e.table) e.blocks.items };

    ghost invariant = { λ e. AreEvents (table_of e.table) e.blocks.items e.ended.items };
}

impl Events {
    /// The events of a timetable, each with its block, and the edges that end.
    pub(super) fn new(table: Timetable, blocks: Vec<EndingBlock>, ended: Vec<u32>) -> Events
        requires { AreEvents (table_of table) blocks.items ended.items }
        ensures { result ≡ moves_at_blocks (table_of table) blocks.items }
    {
        Events {
            table,
            blocks,
            ended,
        }
    }

    /// The edges that end, event after event, those of one event from below.
    pub fn ended(&self) -> &[u32]
        ensures { result.now ≡ ended_at (steps_from [] self.now) }
    {
        &self.ended
    }

    /// The number of events.
    pub fn len(&self) -> u32
        ensures { result ≡ length self.now }
    {
        self.table.events()
    }

    /// The point of the event of that number.
    pub fn at(&self, number: u32) -> Point
        requires { number < length self.now }
        ensures { result ≡ (slice_index_or self.now number no_move).at }
    {
        self.table.at(number)
    }

    /// The event of that number.
    pub fn get(&self, number: u32) -> Event<'_>
        requires { number < length self.now }
        ensures { move_of result ≡ slice_index_or self.now number no_move }
    {
        let block = self.blocks[number as usize];
        Event {
            at: self.table.at(number),
            position: block.position,
            ending: block.count,
            starting: self.table.starting(number),
        }
    }

    /// Of events in order, the number of the first that does not come before the point, or that of
    /// all events where each comes before it; by binary search.
    pub fn first_from(&self, at: Point) -> u32
        ensures { IsFirstFrom self.now at result }
    {
        let mut first = 0;
        let mut end = self.len();
        while first < end {
            let middle = first + (end - first) / 2;
            if before(self.at(middle), at) {
                first = middle + 1;
            } else {
                end = middle;
            }
        }
        first
    }
}
