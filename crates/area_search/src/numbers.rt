// Numbers by their marks.
ghost use Rattle.std.specs.Prelude.{◌≡◌, ◌↔◌, ◌^◌, ◌<◌, IfOk, IsTrue, length};
ghost use Rattle.near_pairs.specs.Boxes.{mark_of};
ghost use Rattle.area_search.specs.Unsettled.CurvePoints.{AreMarkedTo};

use ports::Memory;
use std::alloc::Global;

/// The numbers with this mark, in their order.
pub fn numbers_with(alloc: Global, marks: &[bool], mark: bool) -> Result<Vec<u32>, Memory>
    requires { length marks.now < 2 ^ 30 }
    ensures { IfOk result (λ numbers. AreMarkedTo marks.now mark (length marks.now)
        numbers.items) }
{
    let mut numbers = Vec::new(alloc);
    for number in 0..marks.len() {
        if is_marked(marks, number, mark) {
            numbers.push(number as u32)?;
        }
    }
    Ok(numbers)
}

fn is_marked(marks: &[bool], number: usize, mark: bool) -> bool
    requires { number < length marks.now }
    ensures { IsTrue result ↔ (mark_of marks.now number ≡ mark) }
{
    marks[number] == mark
}

/// Marks the number, if there is a mark for it.
pub(crate) fn mark(marks: &mut [bool], number: u32)
    ensures { length marks.new ≡ length marks.old }
{
    if let Some(mark) = marks.get_mut(number as usize) {
        *mark = true;
    }
}
