// Events in 24 bytes each.
ghost use Rattle.std.specs.Prelude.{◌≡◌, ◌<◌, length, slice_index_or};
ghost use Rattle.straight_predicates.specs.Slots.{slots_of};

use super::slots::Slot;
use plane::Point;

/// An event, with the places after its edges among all numbers: those that end there stand before
/// `middle`, from the place after the edges of the event before on, and those that start there from
/// `middle` up to `upto`.
#[derive(Clone, Copy)]
pub struct Stop {
    pub at: Point,
    pub middle: u32,
    pub upto: u32,
}

/// The event of that number, with the places of its edges.
pub fn slot_at(stops: &[Stop], event: usize) -> Slot
    requires { event < length stops.now }
    ensures { (d : Slot) → result ≡ slice_index_or (slots_of stops.now) event d }
{
    let Stop { at, middle, upto } = stops[event];
    let from = if event == 0 { 0 } else { stops[event - 1].upto };
    Slot {
        at,
        from,
        middle,
        upto,
    }
}
