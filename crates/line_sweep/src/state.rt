// What a sweep keeps from event to event, and how an event changes it.
ghost use Rattle.std.specs.Prelude.{◌≡◌, ℕ, ◌+◌, ◌^◌, ◌<◌, ◌≤◌, ◌∷◌, ◌++◌, [], OnOk, filter};
ghost use Rattle.std.specs.Prelude.{drop, length, suc, take};
ghost use Rattle.plane.specs.Lists.{Has};
ghost use Rattle.plane.specs.Runs.Gaps.{gaps_between, is_real};
ghost use Rattle.line_sweep.specs.CellEdges.{IsCellEdge};
ghost use Rattle.line_sweep.specs.Held.{IsHeld, gaps_held};
ghost use Rattle.line_sweep.specs.Kinds.{gaps_of};

use super::blocks::{Beside, Block};
use super::events::EndingBlock;
use super::keeping::{close_cells, open_cells};
use super::kinds::Cell;
use ports::Memory;
use slab::Slab;
use straight_predicates::ChunkedList;

/// The live list, from below the keys of the open cells between its edges, these cells, each with
/// the event that opened it, and the answer so far: the blocks of the events that are done, the
/// edges that ended there, and the closed cells. Of an empty live list one cell without edges is
/// open. A cell that closes leaves its slot to the next one that opens, so that the open cells
/// take the room of the most that were open at a time.
#[derive(Drop)]
pub struct State {
    pub live: ChunkedList<u32>,
    pub keys: ChunkedList<usize>,
    pub open_cells: Slab<Cell>,
    pub blocks: Vec<EndingBlock>,
    pub ended: Vec<u32>,
    pub cells: Vec<Cell>,
    /// The edges that end at an event, the keys of the cells that it closes, and those of the
    /// cells that it opens.
    pub ending: Vec<u32>,
    pub closing: Vec<usize>,
    pub opening: Vec<usize>,
}

impl State {
    /// Closes the cells at a block, and opens those between the edges that start at the event and
    /// those beside the block.
    pub fn move_cells(
        &mut self,
        event: u32,
        block: Block,
        beside: Beside,
        starting: &[u32],
    ) -> Result<(), Memory>
        requires few { block.from + block.count < 2 ^ 31 }
        requires place { block.from + block.count + 1 ≤ length self.old.keys }
        requires held { IsHeld self.old.open_cells self.old.keys
            (gaps_held self.old.open_cells self.old.keys) }
        requires lower { IsCellEdge beside.lower }
        requires starting { (e : ℕ) → Has e starting.now → e < 2 ^ 31 }
        requires upper { IsCellEdge beside.upper }
        ensures live { self.new.live ≡ self.old.live }
        ensures held { OnOk result (IsHeld self.new.open_cells self.new.keys (take block.from
            (gaps_held self.old.open_cells self.old.keys)
            ++ (gaps_between event beside.lower starting.now beside.upper
            ++ drop (suc (block.from + block.count))
            (gaps_held self.old.open_cells self.old.keys)))) }
        ensures closed { OnOk result (gaps_of self.new.cells.items ≡ gaps_of self.old.cells.items
            ++ filter is_real (take (suc block.count) (drop block.from
            (gaps_held self.old.open_cells self.old.keys)))) }
        ensures blocks { self.new.blocks ≡ self.old.blocks }
        ensures ended { self.new.ended ≡ self.old.ended }
    {
        let count = block.count + 1;
        self.keys.copy_part(block.from, count, &mut self.closing)?;
        close_cells(&mut self.open_cells, &self.closing, &mut self.cells)?;
        open_cells(
            &mut self.open_cells,
            event,
            beside,
            starting,
            &mut self.opening,
        )?;
        self.keys.replace(block.from, count, &self.opening)?;
        Ok(())
    }

    /// Puts the edges that start at an event in the place of a block, and writes the block and the
    /// edges that end.
    pub fn move_edges(&mut self, block: Block, starting: &[u32]) -> Result<(), Memory>
        requires few { block.from + block.count < 2 ^ 31 }
        requires place { block.from + block.count ≤ length self.old.live }
        ensures live { OnOk result (self.new.live ≡ take block.from self.old.live
            ++ (starting.now ++ drop (block.from + block.count) self.old.live)) }
        ensures blocks { OnOk result (self.new.blocks.items ≡ self.old.blocks.items
            ++ record { position = block.from; count = block.count } ∷ []) }
        ensures ended { OnOk result (self.new.ended.items
            ≡ self.old.ended.items ++ take block.count (drop block.from self.old.live)) }
        ensures keys { self.new.keys ≡ self.old.keys }
        ensures open_cells { self.new.open_cells ≡ self.old.open_cells }
        ensures cells { self.new.cells ≡ self.old.cells }
    {
        self.live
            .copy_part(block.from, block.count, &mut self.ending)?;
        self.ended.extend_from_slice(&self.ending)?;
        self.live.replace(block.from, block.count, starting)?;
        self.blocks.push(EndingBlock {
            position: block.from as u32,
            count: block.count as u32,
        })?;
        Ok(())
    }
}
