// The open cells, in a slab under keys: those that an event closes leave it, and those that the
// event opens take their keys.
ghost use Rattle.std.specs.Prelude.{◌≡◌, ℕ, ◌^◌, ◌<◌, ◌∷◌, ◌++◌, [], OnOk, filter};
ghost use Rattle.plane.specs.Lists.{Has, Once};
ghost use Rattle.plane.specs.Runs.Gaps.{gaps_between, has_side, is_real};
ghost use Rattle.slab.specs.Slab.{ContainsKey};
ghost use Rattle.line_sweep.specs.CellEdges.{IsCellEdge};
ghost use Rattle.line_sweep.specs.Held.{AreClosed, ArePut, IsPut, gaps_held};
ghost use Rattle.line_sweep.specs.Kinds.{gap_of, gaps_of};

use super::blocks::Beside;
use super::kinds::{Cell, CellEdge};
use ports::Memory;
use slab::Slab;

/// Takes the cells under these keys out of the slab, and writes those that have an edge.
pub fn close_cells(
    slab: &mut Slab<Cell>,
    keys: &[usize],
    closed: &mut Vec<Cell>,
) -> Result<(), Memory>
    requires once { Once keys.now }
    requires all { (k : ℕ) → Has k keys.now → ContainsKey slab.old k }
    ensures { OnOk result (AreClosed slab.old slab.new keys.now (gaps_of closed.old.items)
        (gaps_of closed.new.items)) }
{
    for key in keys {
        close_cell(closed, slab.remove(*key))?;
    }
    Ok(())
}

// Writes the cell where it has an edge.
fn close_cell(closed: &mut Vec<Cell>, cell: Cell) -> Result<(), Memory>
    ensures { OnOk result (gaps_of closed.new.items
        ≡ gaps_of closed.old.items ++ filter is_real (gap_of cell ∷ [])) }
{
    if is_real(cell.lower, cell.upper) {
        closed.push(cell)?;
    }
    Ok(())
}

// Whether one of the two is an edge.
fn is_real(lower: CellEdge, upper: CellEdge) -> bool
    ensures { result ≡ has_side lower upper }
{
    lower.get().is_some() || upper.get().is_some()
}

/// Puts the cells from the lower edge over the starting ones to the upper edge into the slab, each
/// with the event that opens it, and writes their keys.
pub fn open_cells(
    slab: &mut Slab<Cell>,
    event: u32,
    beside: Beside,
    starting: &[u32],
    keys: &mut Vec<usize>,
) -> Result<(), Memory>
    requires lower { IsCellEdge beside.lower }
    requires starting { (e : ℕ) → Has e starting.now → e < 2 ^ 31 }
    requires upper { IsCellEdge beside.upper }
    ensures put { OnOk result (ArePut slab.old slab.new keys.new.items) }
    ensures gaps { OnOk result (gaps_held slab.new keys.new.items
        ≡ gaps_between event beside.lower starting.now beside.upper) }
{
    keys.clear();
    let mut lower = CellEdge::new(beside.lower);
    for edge in starting {
        let upper = CellEdge::new(Some(*edge));
        open_cell(
            slab,
            Cell {
                lower,
                upper,
                event,
            },
            keys,
        )?;
        lower = upper;
    }
    let upper = CellEdge::new(beside.upper);
    open_cell(
        slab,
        Cell {
            lower,
            upper,
            event,
        },
        keys,
    )?;
    Ok(())
}

// Puts the cell into the slab, and writes its key.
fn open_cell(slab: &mut Slab<Cell>, cell: Cell, keys: &mut Vec<usize>) -> Result<(), Memory>
    ensures { OnOk result (IsPut slab.old slab.new cell keys.old.items keys.new.items) }
{
    let key = slab.insert(cell)?;
    keys.push(key)?;
    Ok(())
}
