// Which boxes are marked.
ghost use Rattle.std.specs.Prelude.{◌≡◌, ℕ, true, false, IfOk};
ghost use Rattle.near_pairs.specs.Boxes.{AreMarkedFrom, mark_of};

use ports::Memory;
use std::alloc::Global;

/// Marks for the numbers below `count`: those from `first` on are marked. The only error is out of
/// memory.
pub fn marked_from(alloc: Global, first: usize, count: usize) -> Result<Vec<bool>, Memory>
    ensures { IfOk result (λ marks. AreMarkedFrom first count marks.items) }
{
    let mut marks = Vec::with_capacity(alloc, count)?;
    for number in 0..count {
        marks.push(first <= number)?;
    }
    Ok(marks)
}

/// Whether some number is marked.
pub fn has_mark(marked: &[bool]) -> bool
    ensures { result ≡ false → (i : ℕ) → mark_of marked.now i ≡ true → ⊥ }
{
    marked.iter().any(|mark| *mark)
}

/// Whether the number is marked.
pub fn is_marked(marked: &[bool], number: u32) -> bool
    ensures { result ≡ mark_of marked.now number }
{
    match marked.get(number as usize) {
        Some(mark) => *mark,
        None => false,
    }
}
