// Drawings from what is kept of rows.
ghost use Rattle.std.specs.Prelude.{◌≡◌, ◌+◌, ◌<◌, ◌≤◌, ◌++◌, ◌^◌, length, vec_len};
ghost use Rattle.std.specs.Prelude.{None, map, IfOk, OnOk};
ghost use Rattle.std.specs.List.{All, AllZip};
ghost use Rattle.itf_reader.specs.RowReadings.{vertices_view};
ghost use Rattle.resolver.specs.Sound.{IsNarrow};
ghost use Rattle.resolver.specs.Values.{line_of};
ghost use Rattle.field_values.specs.Places.{place_view};
ghost use Rattle.plane.specs.Rule.Plans.{plan};
ghost use Rattle.table_layout.specs.Values.{area_view, areas_view, layout_view};
ghost use Rattle.area_drawings.specs.Drawable.{IsIn};
ghost use Rattle.area_drawings.specs.Drawings.{curves_after, permitted};
ghost use Rattle.area_drawings.specs.KeptDrawings.{AreIn, ArePointsIn, AreDrawable, AreDrawn};
ghost use Rattle.area_drawings.specs.KeptDrawings.{CanBeDrawn, IsDrawnFrom};
ghost use Rattle.area_drawings.specs.KeptDrawings.{kept_curves, seen_curves, total};
ghost use Rattle.area_drawings.specs.KeptRows.{counts_in, vertices_in};
ghost use Rattle.area_drawings.specs.KeptViews.{HasTolerance, kept_in, kept_of};

use crate::curves::{Pen, draw_to};
use crate::forms::{line_form, plane_window, tolerance};
use crate::table_places::TablePlaces;
use field_values::Place;
use itf_reader::ReadVertex;
use plane::{Drawing, Placed};
use ports::Memory;
use resolver::LineForm;
use std::alloc::Global;
use table_layout::{AreaOf, Layout};

// Adds the curves of the vertices that follow a place.
fn add_after(start: Place, vertices: &[ReadVertex], drawing: &mut Drawing) -> Result<(), Memory>
    requires start_in { IsIn drawing.old.window (place_view start) }
    requires inside { AreIn drawing.old.window (vertices_view vertices.now) }
    requires room { vec_len drawing.old.curves + length vertices.now < 2 ^ 30 }
    ensures curves { OnOk result (drawing.new.curves.items ≡ drawing.old.curves.items ++
        curves_after (place_view start) None (vertices_view vertices.now)) }
    ensures few { OnOk result (vec_len drawing.new.curves ≤ vec_len drawing.old.curves +
        length vertices.now) }
    ensures window { OnOk result (drawing.new.window ≡ drawing.old.window) }
    ensures points { OnOk result (drawing.new.points.items ≡ drawing.old.points.items) }
{
    let mut pen = Pen {
        at: start,
        over: None,
    };
    for vertex in vertices {
        pen = draw_to(pen, *vertex, drawing)?;
    }
    Ok(())
}

/// Adds the curves of a line by its vertices.
pub fn add_stroke(vertices: &[ReadVertex], drawing: &mut Drawing) -> Result<(), Memory>
    requires inside { AreIn drawing.old.window (vertices_view vertices.now) }
    requires room { vec_len drawing.old.curves + length vertices.now < 2 ^ 30 }
    ensures curves { OnOk result (drawing.new.curves.items ≡ drawing.old.curves.items ++
        seen_curves (vertices_view vertices.now)) }
    ensures few { OnOk result (vec_len drawing.new.curves ≤ vec_len drawing.old.curves +
        length vertices.now) }
    ensures window { OnOk result (drawing.new.window ≡ drawing.old.window) }
    ensures points { OnOk result (drawing.new.points.items ≡ drawing.old.points.items) }
{
    match vertices {
        [first, others @ ..] => add_after(first.at, others, drawing),
        [] => Ok(()),
    }
}

// Adds the curves of lines whose vertices stand one line after another, by how many each has.
fn add_strokes(
    counts: &[usize],
    vertices: &[ReadVertex],
    drawing: &mut Drawing,
) -> Result<(), Memory>
    requires counted { total counts.now ≤ length vertices.now }
    requires inside { AreIn drawing.old.window (vertices_view vertices.now) }
    requires room { vec_len drawing.old.curves + length vertices.now < 2 ^ 30 }
    ensures curves { OnOk result (drawing.new.curves.items ≡ drawing.old.curves.items ++
        kept_curves counts.now (vertices_view vertices.now)) }
    ensures window { OnOk result (drawing.new.window ≡ drawing.old.window) }
    ensures points { OnOk result (drawing.new.points.items ≡ drawing.old.points.items) }
{
    let mut rest = vertices;
    for count in counts {
        let (own, after) = rest.split_at(*count);
        add_stroke(own, drawing)?;
        rest = after;
    }
    Ok(())
}

// Adds points of objects.
fn add_placed(points: &[Placed], drawing: &mut Drawing) -> Result<(), Memory>
    requires inside { ArePointsIn drawing.old.window points.now }
    requires room { vec_len drawing.old.points + length points.now < 2 ^ 30 }
    ensures points { OnOk result (drawing.new.points.items ≡ drawing.old.points.items ++
        points.now) }
    ensures window { OnOk result (drawing.new.window ≡ drawing.old.window) }
    ensures curves { OnOk result (drawing.new.curves.items ≡ drawing.old.curves.items) }
{
    for point in points {
        drawing.add_point(point.at, point.line)?;
    }
    Ok(())
}

/// The drawing of lines of that form, from what is kept of their table, and of these points.
pub fn draw(
    alloc: Global,
    form: &LineForm,
    lines: &TablePlaces,
    points: &[Placed],
) -> Result<Drawing, Memory>
    requires narrow { IsNarrow (line_of form.now).window }
    requires drawable { AreDrawable (line_of form.now) (counts_in (kept_of lines.now).lines)
        (vertices_in (kept_of lines.now).lines) points.now }
    ensures drawn { IfOk result (λ d. AreDrawn (line_of form.now)
        (counts_in (kept_of lines.now).lines) (vertices_in (kept_of lines.now).lines)
        points.now (plan d)) }
    ensures tolerance { IfOk result (λ d. d.tolerance ≡ permitted form.now.overlap) }
{
    let mut drawing = Drawing::new(alloc, plane_window(&form.window));
    add_strokes(lines.counts(), lines.vertices(), &mut drawing)?;
    add_placed(points, &mut drawing)?;
    drawing.set_tolerance(tolerance(form));
    Ok(drawing)
}

// The drawing of an area from what is kept of its two tables.
fn drawing_from(
    alloc: Global,
    layout: &Layout,
    tables: &[TablePlaces],
    area: &AreaOf,
) -> Result<Drawing, Memory>
    requires { CanBeDrawn (layout_view layout.now) (kept_in tables.now) (area_view area.now) }
    ensures drawn { IfOk result (λ d. IsDrawnFrom (layout_view layout.now) (kept_in tables.now)
        (area_view area.now) (plan d)) }
    ensures tolerance { IfOk result (HasTolerance (layout_view layout.now)
        (area_view area.now)) }
{
    let form = line_form(layout, area);
    let lines = &tables[area.lines.0 as usize];
    let objects = &tables[area.main.0 as usize];
    draw(alloc, form, lines, objects.points(area.column))
}

/// The drawings of all areas from what is kept of the rows, in order.
pub fn drawings_from(
    alloc: Global,
    layout: &Layout,
    tables: &[TablePlaces],
) -> Result<Vec<Drawing>, Memory>
    requires { All (CanBeDrawn (layout_view layout.now) (kept_in tables.now))
        (areas_view layout.now.areas.items) }
    ensures drawn { IfOk result (λ ds. AllZip
        (IsDrawnFrom (layout_view layout.now) (kept_in tables.now))
        (areas_view layout.now.areas.items) (map plan ds.items)) }
    ensures tolerances { IfOk result (λ ds. AllZip (HasTolerance (layout_view layout.now))
        (areas_view layout.now.areas.items) ds.items) }
{
    let mut drawings = Vec::with_capacity(alloc, layout.areas.len())?;
    for area in &layout.areas {
        drawings.push(drawing_from(alloc, layout, tables, area)?)?;
    }
    Ok(drawings)
}
