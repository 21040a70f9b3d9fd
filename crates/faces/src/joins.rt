// What joins the half-edges of a mesh: those across cells, and those at the border.
ghost use Rattle.std.specs.Prelude.{All, ◌≡◌, ◌++◌, ◌^◌, ◌<◌, IfOk, OnOk};
ghost use Rattle.std.specs.List.{flat_map};
ghost use Rattle.line_sweep.specs.Kinds.{gap_of, gaps_of};
ghost use Rattle.faces.specs.Joined.{AreKnown};
ghost use Rattle.faces.specs.Joins.{AreJoins, IsSmallCell, border_halves};

use super::partners::Partners;
use half_edges::HalfEdgeId;
use line_sweep::Cell;
use ports::Memory;
use std::alloc::Global;

/// The half-edges across a cell from each, and those at the border. They tell which half-edges the
/// cells join, so that the cells need not be kept.
#[derive(Drop)]
pub struct Joins {
    pub partners: Partners,
    pub border: Vec<HalfEdgeId>,
}

impl Joins {
    /// The joins of so many half-edges by the cells, in three passes over these. The only error is
    /// out of memory.
    pub fn new(alloc: Global, halves: usize, cells: &[Cell]) -> Result<Joins, Memory>
        requires few { halves < 2 ^ 32 }
        requires known { AreKnown halves (gaps_of cells.now) }
        ensures { IfOk result (AreJoins halves (gaps_of cells.now)) }
    {
        let partners = Partners::new(alloc, halves, cells)?;
        let border = border_of(alloc, cells)?;
        Ok(Joins { partners, border })
    }

    /// The joins by cells, which are then freed.
    pub fn freeing(alloc: Global, halves: usize, cells: Vec<Cell>) -> Result<Joins, Memory>
        requires few { halves < 2 ^ 32 }
        requires known { AreKnown halves (gaps_of cells.items) }
        ensures { IfOk result (AreJoins halves (gaps_of cells.items)) }
    {
        Joins::new(alloc, halves, &cells)
    }

    /// The half-edges at the border.
    pub fn border(&self) -> &[HalfEdgeId]
        ensures { result.now ≡ self.now.border.items }
    {
        &self.border
    }
}

// The half-edges at the border, cell by cell.
fn border_of(alloc: Global, cells: &[Cell]) -> Result<Vec<HalfEdgeId>, Memory>
    requires { All IsSmallCell cells.now }
    ensures { IfOk result (λ border. border.items ≡ flat_map border_halves (gaps_of cells.now)) }
{
    let mut border = Vec::new(alloc);
    for cell in cells {
        add_border(&mut border, cell)?;
    }
    Ok(border)
}

// Adds the half-edge of a cell at the border.
fn add_border(border: &mut Vec<HalfEdgeId>, cell: &Cell) -> Result<(), Memory>
    requires { IsSmallCell cell.now }
    ensures { OnOk result (border.new.items
        ≡ border.old.items ++ border_halves (gap_of cell.now)) }
{
    match (cell.lower.get(), cell.upper.get()) {
        (None, Some(edge)) => border.push(HalfEdgeId::under(edge))?,
        (Some(edge), None) => border.push(HalfEdgeId::over(edge))?,
        _ => {}
    }
    Ok(())
}
