// The half-edges from which the links of a settled drawing begin.
ghost use Rattle.std.specs.Prelude.{All, ◌≡◌, ℕ, ◌+◌, ◌++◌, ◌^◌, ◌<◌, Bool, true, false};
ghost use Rattle.std.specs.Prelude.{List, IfOk, OnOk, length, slice_index_or};
ghost use Rattle.std.specs.List.{flat_map};
ghost use Rattle.faces.specs.Joins.{IsBorder};
ghost use Rattle.plane.specs.Runs.Gaps.{Gap};
ghost use Rattle.area_search.specs.Settled.CaseRoots.{AreCaseRoots, AreChains, AreMarked};
ghost use Rattle.area_search.specs.Settled.CaseRoots.{IsSmallSpot};
ghost use Rattle.area_search.specs.Settled.CaseRoots.{IsSpotIn, is_marked, owner_at, roots_to};
ghost use Rattle.area_search.specs.Settled.CaseRoots.{spot_roots, tube_roots, tube_sides};
ghost use Rattle.area_search.specs.Settled.Cases.{spot_at};
ghost use Rattle.area_search.specs.declared.settled.case.Spot.TheVariants as spot;

use super::case::Spot;
use half_edges::HalfEdgeId;
use ports::Memory;
use std::alloc::Global;
use tubes::{Facing, Owner, Part};

// For each curve, whether a point lies in its tube inside the circle, and whether one lies there
// outside.
#[derive(Drop)]
struct Chains {
    inner: Vec<bool>,
    outer: Vec<bool>,
}

/// The half-edges that face a tube from within, those on the other side of a chain on whose side of
/// the circle a point lies in the tube, those at the border, and those beside the cells of points.
/// It takes time linear in the edges, the curves and the points, 2 bytes a curve and 4 a half-edge
/// that it gives.
pub(crate) fn roots_of_case(
    alloc: Global,
    curves: usize,
    facings: &[Facing],
    owners: &[Owner],
    border: &[HalfEdgeId],
    spots: &[Spot],
) -> Result<Vec<HalfEdgeId>, Memory>
    requires few { length facings.now < 2 ^ 31 }
    requires count { length owners.now ≡ length facings.now }
    requires owners { (e : ℕ) → e < length owners.now → (owner_at owners.now e).curve < curves }
    requires small { All IsSmallSpot spots.now }
    requires tubes { All (IsSpotIn curves) spots.now }
    ensures { IfOk result (λ roots. (cells : List Gap) → IsBorder cells border.now
        → AreCaseRoots facings.now owners.now curves cells spots.now roots.items) }
{
    let chains = chains_of(alloc, curves, spots)?;
    let mut roots = Vec::new(alloc);
    add_tubes(&mut roots, facings, owners, &chains)?;
    roots.extend_from_slice(border)?;
    add_spots(&mut roots, spots)?;
    Ok(roots)
}

// The chains beside which a point lies.
fn chains_of(alloc: Global, curves: usize, spots: &[Spot]) -> Result<Chains, Memory>
    requires tubes { All (IsSpotIn curves) spots.now }
    ensures { IfOk result (AreChains spots.now (length spots.now) curves) }
{
    let mut chains = Chains {
        inner: vec![in alloc; false; curves]?,
        outer: vec![in alloc; false; curves]?,
    };
    for point in 0..spots.len() {
        add_chain(&mut chains, spots, point, curves);
    }
    Ok(chains)
}

// One point more.
fn add_chain(chains: &mut Chains, spots: &[Spot], point: usize, curves: usize)
    requires there { point < length spots.now }
    requires tube { IsSpotIn curves (spot_at spots.now point) }
    requires chains { AreChains spots.now point curves chains.old }
    ensures { AreChains spots.now (point + 1) curves chains.new }
{
    let _ = curves;
    if let Spot::InTube { curve, inside } = spots[point] {
        if inside {
            mark(&mut chains.inner, curve, spots, point, true);
        } else {
            mark(&mut chains.outer, curve, spots, point, false);
        }
    }
}

// Marks the curve of the point.
fn mark(marks: &mut [bool], curve: u32, spots: &[Spot], point: usize, inside: bool)
    requires there { point < length spots.now }
    requires known { curve < length marks.old }
    requires tube { spot_at spots.now point ≡ spot.InTube curve inside }
    requires marks { AreMarked spots.now point inside marks.old }
    ensures size { length marks.new ≡ length marks.old }
    ensures marks { AreMarked spots.now (point + 1) inside marks.new }
{
    let _ = spots;
    let _ = point;
    let _ = inside;
    marks[curve as usize] = true;
}

// The half-edges of all edges of tubes that are roots.
fn add_tubes(
    roots: &mut Vec<HalfEdgeId>,
    facings: &[Facing],
    owners: &[Owner],
    chains: &Chains,
) -> Result<(), Memory>
    requires few { length facings.now < 2 ^ 31 }
    requires count { length owners.now ≡ length facings.now }
    requires inner { (e : ℕ) → e < length owners.now
        → (owner_at owners.now e).curve < length chains.now.inner.items }
    requires outer { (e : ℕ) → e < length owners.now
        → (owner_at owners.now e).curve < length chains.now.outer.items }
    ensures { OnOk result (roots.new.items ≡ roots.old.items
        ++ roots_to (tube_roots facings.now owners.now chains.now) (length facings.now)) }
{
    for edge in 0..facings.len() {
        let marked = is_marked(chains, &owners[edge]);
        add_sides(roots, facings[edge], marked, edge as u32)?;
    }
    Ok(())
}

// Whether a point lies on the side of the edge's chain.
fn is_marked(chains: &Chains, owner: &Owner) -> bool
    requires inner { owner.now.curve < length chains.now.inner.items }
    requires outer { owner.now.curve < length chains.now.outer.items }
    ensures { result ≡ is_marked chains.now owner.now.curve owner.now.part }
{
    match owner.part {
        Part::Straight => false,
        Part::Inner => chains.inner[owner.curve as usize],
        Part::Outer => chains.outer[owner.curve as usize],
    }
}

// The half-edge that faces the tube, and the other one where a point lies beside the chain.
fn add_sides(
    roots: &mut Vec<HalfEdgeId>,
    facing: Facing,
    marked: bool,
    edge: u32,
) -> Result<(), Memory>
    requires { edge < 2 ^ 31 }
    ensures { OnOk result (roots.new.items ≡ roots.old.items ++ tube_sides facing marked edge) }
{
    let (within, beside) = match facing {
        Facing::Neither => return Ok(()),
        Facing::Below => (HalfEdgeId::under(edge), HalfEdgeId::over(edge)),
        Facing::Above => (HalfEdgeId::over(edge), HalfEdgeId::under(edge)),
    };
    roots.push(within)?;
    if marked {
        roots.push(beside)?;
    }
    Ok(())
}

// The half-edges beside the cells of the points.
fn add_spots(roots: &mut Vec<HalfEdgeId>, spots: &[Spot]) -> Result<(), Memory>
    requires { All IsSmallSpot spots.now }
    ensures { OnOk result (roots.new.items
        ≡ roots.old.items ++ flat_map spot_roots spots.now) }
{
    for spot in spots {
        add_spot(roots, spot)?;
    }
    Ok(())
}

fn add_spot(roots: &mut Vec<HalfEdgeId>, spot: &Spot) -> Result<(), Memory>
    requires { IsSmallSpot spot.now }
    ensures { OnOk result (roots.new.items ≡ roots.old.items ++ spot_roots spot.now) }
{
    if let Spot::Cell { lower, upper, .. } = spot {
        if let Some(edge) = lower {
            roots.push(HalfEdgeId::over(*edge))?;
        }
        if let Some(edge) = upper {
            roots.push(HalfEdgeId::under(*edge))?;
        }
    }
    Ok(())
}
