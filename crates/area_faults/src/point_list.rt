// All objects' points on curves, of those that stay and those that are left out.
ghost use Rattle.std.specs.Prelude.{◌≡◌, ℕ, ◌^◌, ◌<◌, None, Bool, IfOk, length};
ghost use Rattle.std.specs.List.{All};
ghost use Rattle.fault_lists.specs.DrawingFaces.{HasFaces};
ghost use Rattle.fault_lists.specs.FaceLists.{HasExactly};
ghost use Rattle.fault_lists.specs.FaultLists.{ArePointsOn};
ghost use Rattle.plane.specs.Rule.Plans.{Plan};
ghost use Rattle.area_faults.specs.PointLists.{AreLeast, ArePairsFor, HasPointBelow, IsChosen};
ghost use Rattle.area_faults.specs.PointLists.{IsNoted, chosen, least_at, lesser};

use fault_lists::{DrawingFaces, OnAt, PointPlace};
use ports::Memory;
use std::alloc::Global;

/// All objects' points that lie on curves, each with the least one, in order: by the faces of the
/// curves that are not left out, and all pairs of a point and one of the others on which it lies.
/// The only error is out of memory. It takes time linear in the points and the pairs, 8 bytes a
/// point, and 8 for each entry.
pub fn all_on(alloc: Global, faces: &DrawingFaces, pairs: &[OnAt]) -> Result<Vec<OnAt>, Memory>
    requires few { length faces.now.points.items < 2 ^ 32 }
    requires below { All (HasPointBelow (length faces.now.points.items)) pairs.now }
    ensures { (d : Plan) (out : ℕ → Bool) → HasFaces d out faces.now
        → ArePairsFor d out pairs.now → IfOk result (λ ons. ArePointsOn d ons.items) }
{
    let least = least_curves(alloc, faces.points.len(), pairs)?;
    let ons = joined(alloc, &faces.points, &least)?;
    Ok(ons)
}

// Of so many points the least curve that these pairs name with each, if there is one.
fn least_curves(alloc: Global, points: usize, pairs: &[OnAt]) -> Result<Vec<Option<u32>>, Memory>
    requires { All (HasPointBelow points) pairs.now }
    ensures size { IfOk result (λ least. length least.items ≡ points) }
    ensures least { IfOk result (λ least. AreLeast pairs.now (length pairs.now) least.items) }
{
    let mut least = vec![in alloc; None; points]?;
    note_all(&mut least, pairs);
    Ok(least)
}

// Notes all pairs, where none is noted.
fn note_all(least: &mut [Option<u32>], pairs: &[OnAt])
    requires below { All (HasPointBelow (length least.old)) pairs.now }
    requires none { (j : ℕ) → least_at least.old j ≡ None }
    ensures size { length least.new ≡ length least.old }
    ensures least { AreLeast pairs.now (length pairs.now) least.new }
{
    for pair in pairs {
        note(least, *pair);
    }
}

// Notes the curve for the point, if it is the least one so far.
fn note(least: &mut [Option<u32>], pair: OnAt)
    requires { pair.point < length least.old }
    ensures size { length least.new ≡ length least.old }
    ensures noted { IsNoted pair least.old least.new }
{
    let curve = lesser(pair.curve, least[pair.point as usize]);
    least[pair.point as usize] = Some(curve);
}

fn lesser(curve: u32, other: Option<u32>) -> u32
    ensures { result ≡ lesser curve other }
{
    match other {
        Some(other) => curve.min(other),
        None => curve,
    }
}

// The points that lie on a curve that stays or on one that is left out, each with the lesser.
fn joined(alloc: Global, places: &[PointPlace], least: &[Option<u32>]) -> Result<Vec<OnAt>, Memory>
    requires size { length least.now ≡ length places.now }
    requires few { length places.now < 2 ^ 32 }
    ensures { IfOk result (λ ons. HasExactly (IsChosen places.now least.now) (λ o. o.point)
        ons.items) }
{
    let mut ons = Vec::new(alloc);
    for number in 0..places.len() {
        if let Some(curve) = chosen(places[number], least[number]) {
            ons.push(OnAt {
                point: number as u32,
                curve,
            })?;
        }
    }
    Ok(ons)
}

fn chosen(place: PointPlace, least: Option<u32>) -> Option<u32>
    ensures { result ≡ chosen place least }
{
    match place {
        PointPlace::OnCurve(curve) => Some(lesser(curve, least)),
        PointPlace::InFace(_) => least,
    }
}
