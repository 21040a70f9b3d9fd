// The SURFACE attributes of a layout, and the lines on them.
ghost use Rattle.std.specs.Prelude.{◌≡◌, ◌≤◌, ◌++◌, length, slice_get, IfOk, OnOk};
ghost use Rattle.table_layout.specs.Values.{layout_view, lines_view, role_view, tables_view};
ghost use Rattle.reports.specs.AreaNames.{name_at, topic_at};
ghost use Rattle.reports.specs.LineViews.{area_names_of, line_of, lines_of};
ghost use Rattle.reports.specs.Outcomes.{surface_line, surface_lines};
ghost use Rattle.reports.specs.OutcomeViews.{table_there};
ghost use Rattle.reports.specs.Surfaces.{first_name, line_name, surface_at, surface_names};
ghost use Rattle.reports.specs.Surfaces.{surfaces, surfaces_from};
ghost use Rattle.reports.specs.SurfaceViews.{surface_view, surfaces_view};

use crate::area_names::{AreaNames, topic_text};
use crate::lines::{Line, SurfaceAnswer, SurfaceLine};
use ports::{Memory, Name};
use resolver::LineForm;
use std::alloc::Global;
use table_layout::{Layout, Role, Table, TableId};

/// A SURFACE attribute: the table of its lines, and its main table.
#[derive(Clone, Copy)]
pub struct SurfaceOf {
    pub lines: TableId,
    pub main: TableId,
}

// Adds the SURFACE whose lines the table of that number and role holds, if it holds some.
fn add_surface(number: u32, role: Role, surfaces: &mut Vec<SurfaceOf>) -> Result<(), Memory>
    ensures { OnOk result (surfaces_view surfaces.new.items ≡ surfaces_view surfaces.old.items
        ++ surface_at number (role_view role)) }
{
    if let Role::SurfaceLines { main } = role {
        surfaces.push(SurfaceOf {
            lines: TableId(number),
            main,
        })?;
    }
    Ok(())
}

// The SURFACEs of some tables.
fn surfaces_among(alloc: Global, tables: &[Table]) -> Result<Vec<SurfaceOf>, Memory>
    requires { length tables.now ≤ 4194304 }
    ensures { IfOk result (λ ss. surfaces_view ss.items ≡ surfaces_from 0
        (tables_view tables.now)) }
{
    let mut surfaces = Vec::new(alloc);
    for (number, table) in tables.iter().enumerate() {
        add_surface(number as u32, table.role, &mut surfaces)?;
    }
    Ok(surfaces)
}

/// The SURFACE attributes of a layout, in the order of the tables of their lines.
pub fn surfaces_of(alloc: Global, layout: &Layout) -> Result<Vec<SurfaceOf>, Memory>
    requires { length layout.now.tables.items ≤ 4194304 }
    ensures { IfOk result (λ ss. surfaces_view ss.items ≡ surfaces (layout_view layout.now)) }
{
    surfaces_among(alloc, &layout.tables)
}

// The table of that number, if it is there.
fn table_at(layout: &Layout, id: TableId) -> Option<&Table>
    ensures { table_there result ≡ slice_get (tables_view layout.now.tables.items) id.0 }
{
    layout.tables.get(id.0 as usize)
}

// The name of the topic of the table of that number, empty where there is none.
fn topic_at(layout: &Layout, id: TableId) -> &[u8]
    ensures { result.now ≡ topic_at (layout_view layout.now) (slice_get
        (layout_view layout.now).tables id.0) }
{
    match table_at(layout, id) {
        Some(table) => topic_text(&layout.topics, table.topic),
        None => b"",
    }
}

// The name of the table of that number, empty where there is none.
fn name_at(layout: &Layout, id: TableId) -> &[u8]
    ensures { result.now ≡ name_at (slice_get (layout_view layout.now).tables id.0) }
{
    match table_at(layout, id) {
        Some(table) => table.name.bytes(),
        None => b"",
    }
}

// The name of the first of some lines, empty where there is none.
fn first_name(lines: &[LineForm]) -> &[u8]
    ensures { result.now ≡ first_name (lines_view lines.now) }
{
    match lines {
        [line, ..] => line.name.bytes(),
        [] => b"",
    }
}

// The name of the line of the table of that number, empty where there is none.
fn line_name(layout: &Layout, id: TableId) -> &[u8]
    ensures { result.now ≡ line_name (slice_get (layout_view layout.now).tables id.0) }
{
    match table_at(layout, id) {
        Some(table) => first_name(&table.lines),
        None => b"",
    }
}

// The names of a SURFACE of the layout.
fn surface_names(alloc: Global, layout: &Layout, surface: SurfaceOf) -> Result<AreaNames, Memory>
    ensures { IfOk result (λ n. area_names_of n ≡ surface_names (layout_view layout.now)
        (surface_view surface)) }
{
    Ok(AreaNames {
        topic: Name::new(alloc, topic_at(layout, surface.main))?,
        table: Name::new(alloc, name_at(layout, surface.main))?,
        attribute: Name::new(alloc, line_name(layout, surface.lines))?,
    })
}

// The line for a SURFACE, and the answer to it.
fn surface_line(
    alloc: Global,
    layout: &Layout,
    surface: SurfaceOf,
    answer: SurfaceAnswer,
) -> Result<Line, Memory>
    ensures { IfOk result (λ line. line_of line ≡ surface_line (layout_view layout.now)
        (surface_view surface) answer) }
{
    let names = surface_names(alloc, layout, surface)?;
    Ok(Line::Surface(SurfaceLine { names, answer }))
}

/// Adds the lines for SURFACEs of the layout, one for each answer.
pub fn add_surface_lines(
    alloc: Global,
    layout: &Layout,
    surfaces: &[SurfaceOf],
    answers: &[SurfaceAnswer],
    lines: &mut Vec<Line>,
) -> Result<(), Memory>
    ensures { OnOk result (lines_of lines.new.items ≡ lines_of lines.old.items ++ surface_lines
        (layout_view layout.now) (surfaces_view surfaces.now) answers.now) }
{
    for (surface, answer) in surfaces.iter().zip(answers) {
        lines.push(surface_line(alloc, layout, *surface, *answer)?)?;
    }
    Ok(())
}
