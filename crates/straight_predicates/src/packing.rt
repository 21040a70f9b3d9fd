// An end of an edge as one number: 42 bits for its x and 42 for its y, as lifted differences from
// an origin, then 31 for the number of the edge and 1 for whether the edge starts there.
ghost use Rattle.std.specs.Prelude.{◌≡◌, ◌*◌, ◌+◌, ◌-ℤ◌, ◌+ℤ◌, ◌/◌, ◌^◌, ◌<◌, cond, pos};
ghost use Rattle.std.specs.Int.{w64};
ghost use Rattle.std.specs.Int.RustNames.{FitsSigned};
ghost use Rattle.plane.specs.Numbers.{IsNear};
ghost use Rattle.straight_predicates.specs.Meetings.{AreClose};
ghost use Rattle.straight_predicates.specs.Packing.{IsInRange, end_of, moved};

use super::slots::End;
use plane::Point;

// Differences from the origin are moved up by so much, so that none is below 0.
const LIFT: i64 = 1 << 41;

// A lifted difference is less.
const WIDTH: u128 = 1 << 42;

// An edge's number with the bit of its end is less.
const TAGS: u128 = 1 << 32;

/// The end as a number. The order of these numbers is that by x, then y, then the edge.
pub fn packed(origin: Point, end: End) -> u128
    requires close { AreClose origin end.at }
    requires few { end.edge < 2 ^ 31 }
    ensures end { end_of origin result ≡ end }
    ensures range { IsInRange origin result }
{
    let x = u128::from(lifted(origin.x, end.at.x));
    let y = u128::from(lifted(origin.y, end.at.y));
    (x * WIDTH + y) * TAGS + u128::from(tag(end.edge, end.starts))
}

// The edge's number and the bit of its end.
fn tag(edge: u32, starts: bool) -> u32
    requires { edge < 2 ^ 31 }
    ensures { result ≡ 2 * edge + cond starts 1 0 }
{
    if starts { 2 * edge + 1 } else { 2 * edge }
}

// How far the coordinate is from the origin, and 2^41 more.
fn lifted(origin: i64, at: i64) -> u64
    requires { IsNear (2 ^ 41) origin at }
    ensures value { pos result ≡ (at -ℤ origin) +ℤ pos (2 ^ 41) }
    ensures bound { result < 2 ^ 42 }
{
    (at - origin + LIFT) as u64
}

/// The end that is packed into the number.
pub fn unpacked(origin: Point, number: u128) -> End
    requires { IsInRange origin number }
    ensures { result ≡ end_of origin number }
{
    let place = place_of(number);
    let tag = (number % TAGS) as u32;
    End {
        at: Point {
            x: moved(origin.x, (place / WIDTH) as u64),
            y: moved(origin.y, (place % WIDTH) as u64),
        },
        edge: tag / 2,
        starts: tag % 2 == 1,
    }
}

// The coordinate whose lifted difference from the origin this is.
fn moved(origin: i64, lifted: u64) -> i64
    requires few { lifted < 2 ^ 54 }
    requires range { FitsSigned w64 (moved origin lifted) }
    ensures { result ≡ moved origin lifted }
{
    origin + (lifted as i64 - LIFT)
}

/// What numbers of ends at one point have in common, for ends of one origin.
pub fn place_of(number: u128) -> u128
    ensures { result ≡ number / 2 ^ 32 }
{
    number / TAGS
}
