// The parts of a certificate.
ghost use Rattle.std.specs.Prelude.{◌≡◌, IfOk};
ghost use Rattle.area_search.specs.Settled.Writing.{positions_of};

use line_sweep::Events;
use ports::Memory;
use std::alloc::Global;

/// The position of each event.
pub(crate) fn positions(alloc: Global, events: &Events) -> Result<Vec<u32>, Memory>
    ensures { IfOk result (λ ps. ps.items ≡ positions_of events.now) }
{
    let mut positions = Vec::with_capacity(alloc, events.len() as usize)?;
    for number in 0..events.len() {
        positions.push(events.get(number).position)?;
    }
    Ok(positions)
}
