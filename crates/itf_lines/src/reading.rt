// The logical lines of a text.
ghost use Rattle.std.specs.Prelude.{◌≡◌, ◌≤◌, length, IfOk};
ghost use Rattle.itf_lines.specs.LogicalLines.{logical};
ghost use Rattle.itf_lines.specs.Views.{logical_view};

use super::feed::LineFeed;
use super::logical::Lines;
use ili_grammar::Codes;
use ports::Memory;
use std::alloc::Global;

/// The logical lines of a transfer text of at most 268,435,456 bytes, for the continue code of
/// its model, with the first fault of continuation and the number of physical lines. The only
/// error is out of memory.
pub fn logical_lines(alloc: Global, bytes: &[u8], codes: &Codes) -> Result<Lines, Memory>
    requires { length bytes.now ≤ 268435456 }
    // The answer, as a function of the bytes.
    ensures logical { IfOk result (λ lines. logical_view lines
        ≡ logical codes.now.continued bytes.now) }
    // There are at most as many physical lines as bytes, so that each number of a line fits.
    ensures few { IfOk result (λ lines. lines.total ≤ length bytes.now) }
{
    let mut lines = Vec::new(alloc);
    let mut feed = LineFeed::new(alloc, codes);
    feed.feed(bytes, &mut lines)?;
    let end = feed.finish(&mut lines)?;
    Ok(Lines {
        lines,
        fault: end.fault,
        total: end.total,
    })
}
