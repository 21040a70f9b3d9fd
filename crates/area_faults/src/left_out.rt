// Marks of curves that are left out.
ghost use Rattle.std.specs.Prelude.{◌≡◌, ◌↔◌, ◌⊎◌, ◌<◌, ℕ, IfOk, false, length, true};
ghost use Rattle.std.specs.List.{All};
ghost use Rattle.fault_lists.specs.FaultLists.{IsMet};
ghost use Rattle.near_pairs.specs.Boxes.{mark_of};
ghost use Rattle.area_faults.specs.Answers.{AreBelow, AreLeftOut};

use fault_lists::MeetingAt;
use ports::Memory;
use std::alloc::Global;

/// Marks of the curves of these pairs, of so many curves.
pub fn left_out_marks(
    alloc: Global,
    count: usize,
    meetings: &[MeetingAt],
) -> Result<Vec<bool>, Memory>
    requires { All (AreBelow count) meetings.now }
    ensures size { IfOk result (λ marks. length marks.items ≡ count) }
    ensures marked { IfOk result (λ marks. AreLeftOut count (λ i. i) meetings.now false
        (mark_of marks.items)) }
{
    let mut marks = vec![in alloc; false; count]?;
    mark_meetings(&mut marks, meetings);
    Ok(marks)
}

// Marks the curves of these pairs, where none is marked.
fn mark_meetings(marks: &mut [bool], meetings: &[MeetingAt])
    requires below { All (AreBelow (length marks.old)) meetings.now }
    requires none { (i : ℕ) → mark_of marks.old i ≡ false }
    ensures size { length marks.new ≡ length marks.old }
    ensures marked { (i : ℕ) → (mark_of marks.new i ≡ true) ↔ IsMet meetings.now i }
{
    for meeting in meetings {
        mark(marks, meeting.first);
        mark(marks, meeting.second);
    }
}

// Marks the curve of that number.
fn mark(marks: &mut [bool], curve: u32)
    requires { curve < length marks.old }
    ensures size { length marks.new ≡ length marks.old }
    ensures marked { (i : ℕ) → (mark_of marks.new i ≡ true)
        ↔ ((mark_of marks.old i ≡ true) ⊎ (curve ≡ i)) }
{
    marks[curve as usize] = true;
}

/// Marks of all curves, of so many.
pub fn all_left_out(alloc: Global, count: usize) -> Result<Vec<bool>, Memory>
    ensures size { IfOk result (λ marks. length marks.items ≡ count) }
    ensures marked { IfOk result (λ marks. (i : ℕ) → i < count
        → mark_of marks.items i ≡ true) }
{
    Ok(vec![in alloc; true; count]?)
}
