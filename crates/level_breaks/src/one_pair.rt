// Whether two curves of a drawing break a level.
ghost use Rattle.std.specs.Prelude.{◌≡◌, ◌↔◌, ◌<◌, ◌≤◌, IfOk, IsTrue, length};
ghost use Rattle.plane.specs.Rule.Plans.{plan};
ghost use Rattle.near_pairs.specs.Boxes.{box_of};
ghost use Rattle.tubes.specs.Settled.{Breaks};
ghost use Rattle.level_breaks.specs.Groups.{HoldsAll, corners};

use super::finding::are_breaking;
use super::groups::Group;
use super::listing::{group_box, tube_for};
use plane::{Curve, Drawing};
use ports::Memory;
use std::alloc::Global;
use tubes::Tube;

/// Whether the two curves of these numbers, the lesser first, break the level. It makes the tubes
/// of these two alone. The only error is out of memory.
pub fn breaks_level(
    alloc: Global,
    drawing: &Drawing,
    first: u32,
    second: u32,
    level: u8,
) -> Result<bool, Memory>
    requires level { level ≤ 5 }
    requires order { first < second }
    requires there { second < length drawing.now.curves.items }
    ensures { IfOk result (λ broken. IsTrue broken
        ↔ Breaks (plan drawing.now) (λ k. level) first second) }
{
    plane::settled::own_edges_of_tubes();
    let curve = &drawing.curves[first as usize];
    let tube = tube_for(alloc, curve, level)?;
    let next = &drawing.curves[second as usize];
    let next_tube = tube_for(alloc, next, level)?;
    let one = grouped(curve, &tube);
    let other = grouped(next, &next_tube);
    Ok(are_breaking(&one, &other))
}

// The curve with its tube and a box.
fn grouped<'a>(curve: &'a Curve, tube: &'a Option<Tube>) -> Group<'a>
    ensures curve { result.curve.now ≡ curve.now }
    ensures tube { result.tube.now ≡ tube.now }
    ensures reach { HoldsAll (box_of result.reach) (corners curve.now tube.now) }
{
    Group {
        curve,
        tube,
        reach: group_box(curve, tube),
    }
}
