// Whether the two sides of each cell face one tube, or none.
ghost use Rattle.std.specs.Prelude.{◌≡◌, ◌↔◌, ℕ, ◌^◌, ◌<◌, IsTrue, length};
ghost use Rattle.line_sweep.specs.Kinds.{gap_of, gaps_of};
ghost use Rattle.area_search.specs.Settled.CaseRoots.{owner_at};
ghost use Rattle.area_search.specs.Level.CellSides.{ArePaired, IsPaired, tag_over, tag_under};

use crate::numbers::mark;
use line_sweep::Cell;
use tubes::{Facing, Owner};

/// Whether both sides of each cell face one tube from within, or none does. It takes time linear in
/// the cells, and no memory.
pub(crate) fn are_paired(cells: &[Cell], facings: &[Facing], owners: &[Owner]) -> bool
    requires count { length owners.now ≡ length facings.now }
    requires curves { (e : ℕ) → e < length owners.now → (owner_at owners.now e).curve < 2 ^ 30 }
    ensures { IsTrue result ↔ ArePaired facings.now owners.now (gaps_of cells.now) }
{
    for cell in cells {
        if !is_paired(cell, facings, owners) {
            return false;
        }
    }
    true
}

/// Marks a curve for each cell of which one side faces a tube that the other side does not: that of
/// the tube, or, where it is firm and the curve on the other side is not, that one. Whether there
/// are such cells. It takes time linear in the cells, and no memory.
pub(crate) fn mark_unpaired(
    near: &mut [bool],
    cells: &[Cell],
    facings: &[Facing],
    owners: &[Owner],
    firm: &[bool],
) -> bool
    requires count { length owners.now ≡ length facings.now }
    requires curves { (e : ℕ) → e < length owners.now → (owner_at owners.now e).curve < 2 ^ 30 }
{
    let mut any = false;
    for cell in cells {
        if let Some(curve) = unpaired_curve(cell, facings, owners, firm) {
            mark(near, curve);
            any = true;
        }
    }
    any
}

fn unpaired_curve(cell: &Cell, facings: &[Facing], owners: &[Owner], firm: &[bool]) -> Option<u32>
    requires count { length owners.now ≡ length facings.now }
    requires curves { (e : ℕ) → e < length owners.now → (owner_at owners.now e).curve < 2 ^ 30 }
{
    let over = tag_over(facings, owners, cell.lower.get());
    let under = tag_under(facings, owners, cell.upper.get());
    if over == under {
        return None;
    }
    let tube = over.max(under).checked_sub(1)?;
    let across = if under < over {
        cell.upper.get()
    } else {
        cell.lower.get()
    };
    match curve_of(owners, across) {
        Some(other) => Some(not_firm(tube, other, firm)),
        None => Some(tube),
    }
}

// The second curve, where the first one is firm and the second is not; else the first one.
fn not_firm(first: u32, second: u32, firm: &[bool]) -> u32 {
    if is_firm(first, firm) && !is_firm(second, firm) {
        second
    } else {
        first
    }
}

fn is_firm(curve: u32, firm: &[bool]) -> bool {
    matches!(firm.get(curve as usize), Some(true))
}

fn curve_of(owners: &[Owner], edge: Option<u32>) -> Option<u32> {
    Some(owners.get(edge? as usize)?.curve)
}

fn is_paired(cell: &Cell, facings: &[Facing], owners: &[Owner]) -> bool
    requires count { length owners.now ≡ length facings.now }
    requires curves { (e : ℕ) → e < length owners.now → (owner_at owners.now e).curve < 2 ^ 30 }
    ensures { IsTrue result ↔ IsPaired facings.now owners.now (gap_of cell.now) }
{
    tag_over(facings, owners, cell.lower.get()) == tag_under(facings, owners, cell.upper.get())
}

// One more than the curve whose tube the side over an edge faces, 0 where it faces none.
fn tag_over(facings: &[Facing], owners: &[Owner], edge: Option<u32>) -> u32
    requires count { length owners.now ≡ length facings.now }
    requires curves { (e : ℕ) → e < length owners.now → (owner_at owners.now e).curve < 2 ^ 30 }
    ensures { result ≡ tag_over facings.now owners.now edge }
{
    let Some(edge) = edge else {
        return 0;
    };
    match facings.get(edge as usize) {
        Some(Facing::Above) => owners[edge as usize].curve + 1,
        _ => 0,
    }
}

// The same of the side under an edge.
fn tag_under(facings: &[Facing], owners: &[Owner], edge: Option<u32>) -> u32
    requires count { length owners.now ≡ length facings.now }
    requires curves { (e : ℕ) → e < length owners.now → (owner_at owners.now e).curve < 2 ^ 30 }
    ensures { result ≡ tag_under facings.now owners.now edge }
{
    let Some(edge) = edge else {
        return 0;
    };
    match facings.get(edge as usize) {
        Some(Facing::Below) => owners[edge as usize].curve + 1,
        _ => 0,
    }
}
