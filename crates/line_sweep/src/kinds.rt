// What a sweep answers.
ghost use Rattle.std.specs.Prelude.{◌≡◌};
ghost use Rattle.line_sweep.specs.CellEdges.{IsCellEdge};
ghost use Rattle.line_sweep.specs.declared.kinds.SweepRefusal.TheVariants.{Memory as OutOfMemory};

use super::events::Events;
use ports::Memory;
use std::alloc::{AllocError, AllocFailed};
use std::marker::Model;

/// The edge below or above a cell, or none. It takes four bytes, half of an `Option`.
#[derive(Clone, Copy)]
pub struct CellEdge(u32);

impl Model for CellEdge {
    ghost use Rattle.std.specs.Prelude.{ℕ, Option};
    ghost use Rattle.line_sweep.specs.CellEdges.{code_of, edge_of_code};

    ghost Value = { Option ℕ };

    ghost view = { λ e. edge_of_code e.0 };

    ghost inverse = { λ o. record { 0 = code_of o } };
}

impl CellEdge {
    /// That edge, or none.
    pub fn new(edge: Option<u32>) -> CellEdge
        requires { IsCellEdge edge }
        ensures { result ≡ edge }
    {
        match edge {
            Some(number) => CellEdge(number + 1),
            None => CellEdge(0),
        }
    }

    /// The edge, if there is one.
    pub fn get(self) -> Option<u32>
        ensures { result ≡ self }
    {
        if self.0 == 0 { None } else { Some(self.0 - 1) }
    }
}

/// Two neighbours of the live list, none below all and none above all, with the event after which
/// they became neighbours.
#[derive(Clone, Copy)]
pub struct Cell {
    pub lower: CellEdge,
    pub upper: CellEdge,
    pub event: u32,
}

/// The events in order, and each cell once, in the order in which they close.
#[derive(Drop)]
pub struct Swept {
    pub events: Events,
    pub cells: Vec<Cell>,
}

/// Why a sweep has no answer.
#[derive(Clone, Copy, Debug, PartialEq, Eq)]
pub enum SweepRefusal {
    /// The two edges share a place that is no common end.
    Bad { first: u32, second: u32 },
    /// Out of memory.
    Memory,
}

impl From<Memory> for SweepRefusal {
    ghost from_gives = { λ _ e. e ≡ OutOfMemory };

    fn from(_: Memory) -> Self {
        SweepRefusal::Memory
    }
}

impl From<AllocError> for SweepRefusal {
    ghost from_gives = { λ _ e. e ≡ OutOfMemory };

    fn from(_: AllocError) -> Self {
        SweepRefusal::Memory
    }
}

impl<T: Drop> From<AllocFailed<T>> for SweepRefusal {
    ghost from_gives = { λ _ e. e ≡ OutOfMemory };

    fn from(_: AllocFailed<T>) -> Self {
        SweepRefusal::Memory
    }
}
