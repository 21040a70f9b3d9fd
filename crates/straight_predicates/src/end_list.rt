// The ends of edges, in 16 bytes each.
ghost use Rattle.std.specs.List.{All};
ghost use Rattle.straight_predicates.specs.Packing.{IsInRange};

use super::packing::{packed, place_of, unpacked};
use super::parting::sort_in_parts;
use super::slots::End;
use plane::Point;
use ports::Memory;
use std::alloc::Global;

/// Ends of edges, all close to the origin, each packed into a number.
#[derive(Drop)]
pub struct EndList {
    origin: Point,
    packed: Vec<u128>,
    ghost range: { All (IsInRange origin) packed.items },
}

impl EndList {
    ghost use Rattle.std.specs.Prelude.{◌≡◌, ◌^◌, ◌<◌, ◌≤◌, ◌∷◌, ◌++◌, [], IfOk, OnOk, length};
    ghost use Rattle.std.specs.Prelude.{slice_index_or};
    ghost use Rattle.std.specs.List.Sorted.{IsPermutation};
    ghost use Rattle.plane.specs.Lists.{Neighbours};
    ghost use Rattle.straight_predicates.specs.Meetings.{AreClose};
    ghost use Rattle.straight_predicates.specs.Packing.{IsNotAfter};
    ghost use Rattle.straight_predicates.specs.PackedEnds.{ends_in};

    /// No ends, and room for so many.
    pub fn new(alloc: Global, origin: Point, room: usize) -> Result<EndList, Memory>
        ensures origin { IfOk result (λ ends. ends.origin ≡ origin) }
        ensures none { IfOk result (λ ends. ends_in ends ≡ []) }
    {
        let packed = Vec::with_capacity(alloc, room)?;
        Ok(EndList { origin, packed })
    }

    /// Puts an end behind the others.
    pub fn push(&mut self, end: End) -> Result<(), Memory>
        requires close { AreClose self.old.origin end.at }
        requires few { end.edge < 2 ^ 31 }
        ensures origin { self.new.origin ≡ self.old.origin }
        ensures ends { OnOk result (ends_in self.new ≡ ends_in self.old ++ end ∷ []) }
    {
        self.packed.push(packed(self.origin, end))?;
        Ok(())
    }

    /// Sorts the ends by x, then y, then the edge.
    pub fn sort(&mut self, alloc: Global) -> Result<(), Memory>
        ensures permutation { IsPermutation (ends_in self.old) (ends_in self.new) }
        ensures sorted { OnOk result (Neighbours IsNotAfter (ends_in self.new)) }
    {
        sort_in_parts(alloc, &mut self.packed)
    }

    pub fn len(&self) -> usize
        ensures { result ≡ length (ends_in self.now) }
    {
        self.packed.len()
    }

    /// The end at a place.
    pub fn get(&self, place: usize) -> End
        requires { place < length (ends_in self.now) }
        ensures { (d : End) → result ≡ slice_index_or (ends_in self.now) place d }
    {
        unpacked(self.origin, self.packed[place])
    }

    /// The number of runs of ends at one point, for the room that their events take.
    pub fn runs(&self) -> usize
        ensures { result ≤ length (ends_in self.now) }
    {
        let mut runs = 0;
        let mut before = u128::MAX;
        for number in &self.packed {
            let place = place_of(*number);
            if place != before {
                runs += 1;
            }
            before = place;
        }
        runs
    }
}
