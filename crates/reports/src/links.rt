// The lines on links: which points must lie in the area of the object to which their row refers.
ghost use Rattle.std.specs.Prelude.{◌≡◌, ◌++◌, map, OnOk};
ghost use Rattle.reports.specs.LineViews.{line_of, lines_of};
ghost use Rattle.reports.specs.Outcomes.{link_lines, misplaced_line};
ghost use Rattle.reports.specs.OutcomeViews.{misplaced_of, misplaced_view};

use crate::lines::Line;
use ports::Memory;

/// A rule, by its line in the links, and an object, by its line in the transfer, whose point does
/// not lie in the area of the object to which it refers.
#[derive(Clone, Copy)]
pub struct Misplaced {
    pub rule: u32,
    pub line: u32,
}

// The line for a misplaced point.
fn misplaced_line(misplaced: Misplaced) -> Line
    ensures { line_of result ≡ misplaced_line (misplaced_of misplaced) }
{
    Line::Link {
        rule: misplaced.rule,
        line: misplaced.line,
    }
}

// Adds the lines for misplaced points.
fn add_misplaced(misplaced: &[Misplaced], lines: &mut Vec<Line>) -> Result<(), Memory>
    ensures { OnOk result (lines_of lines.new.items ≡ lines_of lines.old.items
        ++ map misplaced_line (misplaced_view misplaced.now)) }
{
    for point in misplaced {
        lines.push(misplaced_line(*point))?;
    }
    Ok(())
}

/// Adds the lines for the links: the misplaced points, and how many rules and pairs there are.
pub fn add_link_lines(
    misplaced: &[Misplaced],
    rules: u64,
    pairs: u128,
    lines: &mut Vec<Line>,
) -> Result<(), Memory>
    ensures { OnOk result (lines_of lines.new.items ≡ lines_of lines.old.items
        ++ link_lines (misplaced_view misplaced.now) rules pairs) }
{
    add_misplaced(misplaced, lines)?;
    lines.push(Line::Links { rules, pairs })?;
    Ok(())
}
