// What was read of a row.
use crate::transfer::VertexKind;
use field_values::{ColumnValue, Place};
use std::alloc::Global;

/// A column: its value, or that it is undefined, as an optional one may be, or at fault.
#[derive(Clone, Copy)]
pub enum Cell {
    Sound(ColumnValue),
    Undefined,
    Faulty,
}

/// A vertex that is sound.
#[derive(Clone, Copy)]
pub struct ReadVertex {
    pub at: Place,
    pub line: u32,
    pub kind: VertexKind,
}

/// The values of a row: a cell for each column, all sound vertices of its lines one after the
/// other, and the heights of those that have one.
#[derive(Drop)]
pub struct RowValues {
    pub cells: Vec<Cell>,
    pub vertices: Vec<ReadVertex>,
    pub heights: Vec<i64>,
}

impl RowValues {
    ghost use Rattle.itf_reader.specs.RowReadings.{AreNone};

    /// No values yet.
    pub fn new(alloc: Global) -> RowValues
        ensures { AreNone result }
    {
        RowValues {
            cells: Vec::new(alloc),
            vertices: Vec::new(alloc),
            heights: Vec::new(alloc),
        }
    }

    /// Forgets all values and keeps their room.
    pub fn clear(&mut self)
        ensures { AreNone self.new }
    {
        self.cells.clear();
        self.vertices.clear();
        self.heights.clear();
    }
}
