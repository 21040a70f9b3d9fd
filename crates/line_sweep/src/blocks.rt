// The edges of the live list that end at an event, and the edges beside them.
ghost use Rattle.std.specs.Prelude.{◌≡◌, ◌+◌, ◌^◌, ◌<◌, ◌≤◌, IfOk, IfErr, length};
ghost use Rattle.std.specs.Prelude.{slice_index_or};
ghost use Rattle.straight_predicates.specs.EdgeLists.{edge_of, AreBelow, IsCloseToAll};
ghost use Rattle.line_sweep.specs.Blocks.{AreBeside, AreEnding, IsBlock, IsThrough};

use plane::{Edge, Point};
use straight_predicates::{ChunkedList, Turn, cut, edge_at, edge_before, turn_over};

/// The places of the live list from `from` on, `count` of them.
#[derive(Clone, Copy)]
pub struct Block {
    pub from: usize,
    pub count: usize,
}

/// The edges just below and just above a block, where there are some.
#[derive(Clone, Copy)]
pub struct Beside {
    pub lower: Option<u32>,
    pub upper: Option<u32>,
}

/// The edges beside the block.
pub fn beside_block(live: &ChunkedList<u32>, block: Block) -> Beside
    requires few { block.from + block.count < 2 ^ 31 }
    requires place { block.from + block.count ≤ length live.now }
    ensures { AreBeside live.now block.from block.count result.lower result.upper }
{
    Beside {
        lower: edge_before(live, block.from),
        upper: edge_at(live, block.from + block.count),
    }
}

/// The block of the edges that end at the event, or a live edge that goes through the event and
/// does not end there. It takes a search and one turn more.
pub fn find_block(live: &ChunkedList<u32>, edges: &[Edge], at: Point) -> Result<Block, u32>
    requires known { AreBelow (length edges.now) live.now }
    requires close { IsCloseToAll edges.now at }
    ensures block { IfOk result (λ b. IsBlock (edge_of edges.now) live.now at b.from b.count) }
    ensures through { IfErr result (λ e. IsThrough (edge_of edges.now) live.now at e) }
{
    let from = cut(live, edges, at);
    let upto = block_end(live, edges, at, from);
    if upto < live.len() && turn_over(edges, live.get(upto), at) == Turn::Straight {
        return Err(live.get(upto));
    }
    Ok(Block {
        from,
        count: upto - from,
    })
}

// The place after the edges from `from` on that end at the event.
fn block_end(live: &ChunkedList<u32>, edges: &[Edge], at: Point, from: usize) -> usize
    requires known { AreBelow (length edges.now) live.now }
    requires place { from ≤ length live.now }
    ensures least { from ≤ result }
    ensures within { result ≤ length live.now }
    ensures ends { AreEnding (edge_of edges.now) live.now at from result }
    ensures next { result < length live.now
        → (edge_of edges.now (slice_index_or live.now result 0)).high ≡ at → ⊥ }
{
    let mut upto = from;
    while upto < live.len() && edges[live.get(upto) as usize].high == at {
        upto += 1;
    }
    upto
}
