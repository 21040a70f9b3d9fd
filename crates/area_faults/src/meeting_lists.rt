// All pairs of curves that meet badly.
ghost use Rattle.std.specs.Prelude.{◌≡◌, IfOk, length};
ghost use Rattle.std.specs.List.{All};
ghost use Rattle.plane.specs.Rule.BadPairs.{IsBadPair};
ghost use Rattle.plane.specs.Rule.Plans.{plan};
ghost use Rattle.near_pairs.specs.PairLists.{AreCodes, IsCode};
ghost use Rattle.area_faults.specs.Meetings.{AreEntries, IsMeeting, IsMeetingList, entry_code};

use super::marks::meeting_marks;
use super::meeting_places::meeting_place;
use fault_lists::MeetingAt;
use meetings::{BadPair, curve_reaches, is_bad};
use near_pairs::{NearPair, PairTest, all};
use plane::Drawing;
use ports::Memory;
use std::alloc::Global;

// The most pairs of which all are told for certain.
const MOST: usize = 1_000_000;

/// Pairs of curves that meet badly, by their first curves, then by their second ones: all of them,
/// or more than 1,000,000.
#[derive(Drop)]
pub enum MeetingList {
    All(Vec<MeetingAt>),
    Many(Vec<MeetingAt>),
}

// The curves of a drawing, of which pairs are tested.
#[derive(Drop)]
struct MeetingTest<'a> {
    drawing: &'a Drawing,
}

impl<'a> PairTest for MeetingTest<'a> {
    ghost use Rattle.std.specs.Prelude.{◌<◌, length};
    ghost use Rattle.plane.specs.Rule.Plans.{plan};
    ghost use Rattle.plane.specs.Rule.BadPairs.{IsBadPair};

    ghost can_test = { λ s i j. (i < j) × (j < length s.drawing.now.curves.items) };

    ghost sought = { λ s i j. IsBadPair (plan s.drawing.now) i j };

    fn is_sought(&self, first: u32, second: u32) -> bool {
        is_bad(self.drawing, first, second)
    }
}

/// All pairs of curves that meet badly, each with a place; or more than 1,000,000 of them. Where
/// two straights are known that meet badly and all curves are straights, a sweep is saved. The only
/// error is out of memory. It takes the sweeps of `meeting_marks`, then the time of the marked
/// curves times those that begin within their boxes along x, or the other way round; 36 bytes for
/// each curve beside a sweep's, 65 bytes after it, and 40 for each pair.
pub fn all_meetings(
    alloc: Global,
    drawing: &Drawing,
    known: Option<BadPair>,
) -> Result<MeetingList, Memory>
    ensures { IfOk result (IsMeetingList (plan drawing.now)) }
{
    plane::arcs::boxes_of_bad_curves_meet();
    let marks = meeting_marks(alloc, drawing, known)?;
    let boxes = curve_reaches(alloc, &drawing.curves)?;
    let test = MeetingTest { drawing };
    let pairs = all(alloc, &boxes, &marks, &test, MOST)?;
    let meetings = meetings_at(alloc, drawing, &pairs.codes)?;
    if pairs.whole {
        Ok(MeetingList::All(meetings))
    } else {
        Ok(MeetingList::Many(meetings))
    }
}

// The pairs of these codes, each with its place.
fn meetings_at(alloc: Global, drawing: &Drawing, codes: &[u64]) -> Result<Vec<MeetingAt>, Memory>
    requires { AreCodes (IsBadPair (plan drawing.now)) (length (plan drawing.now).curves)
        codes.now }
    ensures { IfOk result (λ ms. AreEntries (plan drawing.now) codes.now ms.items) }
{
    let mut meetings = Vec::with_capacity(alloc, codes.len())?;
    for code in codes {
        meetings.push(meeting_of(drawing, *code))?;
    }
    Ok(meetings)
}

fn meeting_of(drawing: &Drawing, code: u64) -> MeetingAt
    requires { IsCode (IsBadPair (plan drawing.now)) (length (plan drawing.now).curves) code }
    ensures code { entry_code result ≡ code }
    ensures meeting { IsMeeting (plan drawing.now) result }
{
    let first = (code / 4_294_967_296) as u32;
    let second = (code % 4_294_967_296) as u32;
    let curves = drawing.curves.as_slice();
    MeetingAt {
        first,
        second,
        at: meeting_place(&curves[first as usize], &curves[second as usize]),
    }
}
