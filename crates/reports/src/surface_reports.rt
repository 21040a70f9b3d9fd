// The report on SURFACEs alone.
ghost use Rattle.std.specs.Prelude.{◌≡◌, ◌≤◌, IfOk, length};
ghost use Rattle.std.specs.List.{flat_map};
ghost use Rattle.table_layout.specs.Values.{layout_view};
ghost use Rattle.reports.specs.Kinds.{has_fault};
ghost use Rattle.reports.specs.Lines.{line_text};
ghost use Rattle.reports.specs.Outcomes.{surface_lines};
ghost use Rattle.reports.specs.Surfaces.{surfaces};

use crate::kinds::has_fault;
use crate::lines::SurfaceAnswer;
use crate::surfaces::{add_surface_lines, surfaces_of};
use crate::text::add_lines;
use commands::Text;
use ports::Memory;
use std::alloc::Global;
use table_layout::Layout;

/// The lines of a report on SURFACEs, and whether one of them names a fault.
#[derive(Drop)]
pub struct SurfaceReport {
    pub lines: Vec<u8>,
    pub at_fault: bool,
}

/// The lines of the report on the SURFACEs of a layout, by their answers.
pub fn surface_report(
    alloc: Global,
    layout: &Layout,
    answers: &[SurfaceAnswer],
) -> Result<SurfaceReport, Memory>
    requires { length layout.now.tables.items ≤ 4194304 }
    ensures lines { IfOk result (λ r. r.lines.items ≡ flat_map line_text (surface_lines
        (layout_view layout.now) (surfaces (layout_view layout.now)) answers.now)) }
    ensures fault { IfOk result (λ r. r.at_fault ≡ has_fault (surface_lines
        (layout_view layout.now) (surfaces (layout_view layout.now)) answers.now)) }
{
    let all = surfaces_of(alloc, layout)?;
    let mut lines = Vec::new(alloc);
    add_surface_lines(alloc, layout, &all, answers, &mut lines)?;
    let mut text = Text::new(alloc);
    add_lines(&mut text, &lines)?;
    let at_fault = has_fault(&lines);
    Ok(SurfaceReport {
        lines: text.into_bytes(),
        at_fault,
    })
}
