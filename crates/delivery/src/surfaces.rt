// The answers to the SURFACEs of a layout.
ghost use Rattle.std.specs.Prelude.{◌≡◌, ◌≤◌, ◌^◌, ◌-ℤ◌, ◌<ℤ◌, pos, ℕ, List, drop, false, length};
ghost use Rattle.std.specs.Prelude.{true, IfOk, OnOk};
ghost use Rattle.ident_refs.specs.KeptViews.{named_view};
ghost use Rattle.itf_reader.specs.Forms.{Row as GivenRow};
ghost use Rattle.itf_reader.specs.RowReadings.{vertices_view};
ghost use Rattle.plane.specs.declared.window.Window2.{Window2};
ghost use Rattle.plane.specs.Lists.{Has};
ghost use Rattle.plane.specs.Rule.Plans.{plan};
ghost use Rattle.resolver.specs.Sound.{IsNarrow};
ghost use Rattle.resolver.specs.Values.{limits_of, line_of, window_of};
ghost use Rattle.straight_predicates.specs.EdgeLists.{AreAllClose, AreSorted};
ghost use Rattle.surface_rings.specs.Surfaces.{IsRingAnswer};
ghost use Rattle.table_layout.specs.Valid.{IsValid};
ghost use Rattle.table_layout.specs.Values.{layout_view};
ghost use Rattle.tubes.specs.DrawnEdges.{AreStraights};
ghost use Rattle.tubes.specs.DrawnEdges.{edges_of as drawn_edges};
ghost use Rattle.area_drawings.specs.KeptDrawings.{cut, total};
ghost use Rattle.area_drawings.specs.AreaLimits.{area_limit};
ghost use Rattle.area_drawings.specs.KeptRows.{counts_in, vertices_in};
ghost use Rattle.area_drawings.specs.KeptViews.{kept_in, kept_of};
ghost use Rattle.area_drawings.specs.Strokes.{CanDraw, strokes_curves, strokes_view};
ghost use Rattle.reports.specs.Surfaces.{surfaces};
ghost use Rattle.reports.specs.SurfaceViews.{surface_view, surfaces_view};
ghost use Rattle.delivery.specs.KeptRows.{transfer_so_far};
ghost use Rattle.delivery.specs.ObjectLines.{CanAllDraw, added_at, drawn, first_place, grouped};
ghost use Rattle.delivery.specs.ObjectLines.{named_rows, no_lines, objects_view};
ghost use Rattle.delivery.specs.ObjectLines.{AreKeptClean, all_skipped, lines_of};
ghost use Rattle.delivery.specs.SurfaceAnswers.{IsBoundaryAnswer, IsRingsAnswer, outline};
ghost use Rattle.delivery.specs.Surfaces.{AreSurfaceAnswers, IsAnswer, IsSurfaceAnswer};
ghost use Rattle.delivery.specs.Surfaces.{are_apart, is_wide};

use crate::area_answers::curve_line;
use crate::polygon_answers::has_half_arc;
use area_drawings::{AREA_LIMIT, TablePlaces, draw_some, draw_strokes, only_form};
use ident_refs::{Keys, NamedRow};
use itf_reader::ReadVertex;
use plane::{Drawing, Edge};
use ports::Memory;
use reports::{SurfaceAnswer, SurfaceOf};
use resolver::{Limits, LineForm, Window};
use std::alloc::Global;
use surface_rings::{RingAnswer, rings};
use table_layout::Layout;
use tubes::edge_list;
use tubes::laws::edges_of_tubed_drawing;

// A window as wide as this, in units, has no drawing.
const WIDE: i64 = 1_099_511_627_776;

/// What is found out about the boundary of an object.
#[derive(Clone, Copy)]
pub enum BoundaryAnswer {
    /// It has no line.
    Unseen,
    /// It is not judged.
    Skipped,
    Held,
    /// It is at fault: the answer to its SURFACE.
    Fault(SurfaceAnswer),
}

// Limits that lie 2^40 units apart or more.
fn are_apart(limits: Limits) -> bool
    ensures apart { result ≡ are_apart (limits_of limits) }
    ensures close { result ≡ false → (limits.high -ℤ limits.low) <ℤ pos (2 ^ 40) }
{
    WIDE <= limits.high - limits.low
}

// The window is 2^40 units wide or more in an axis.
fn is_wide(window: &Window) -> bool
    ensures wide { result ≡ is_wide (window_of window.now) }
    ensures narrow { result ≡ false → IsNarrow (window_of window.now) }
{
    let across = are_apart(window.x);
    let upward = are_apart(window.y);
    across || upward
}

// The edges of a drawing of straights, one for each.
fn edges_of(alloc: Global, drawing: &Drawing) -> Result<Vec<Edge>, Memory>
    requires { AreStraights (plan drawing.now) }
    ensures edges { IfOk result (λ es. es.items ≡ drawn_edges (plan drawing.now)) }
    ensures sorted { IfOk result (λ es. AreSorted es.items) }
    ensures close { IfOk result (λ es. AreAllClose es.items) }
{
    edges_of_tubed_drawing();
    match edge_list(alloc, drawing, 0)? {
        Some(list) => Ok(list.edges),
        None => unreachable!(),
    }
}

// What rings answer to the edges of an object in that line, by lines of the transfer.
fn ring_answer(drawing: &Drawing, line: u32, answer: RingAnswer) -> BoundaryAnswer
    requires { (u : Window2) → IsRingAnswer u (drawn_edges (plan drawing.now)) answer }
    ensures { IsRingsAnswer (outline line drawing.now.curves.items) result }
{
    match answer {
        RingAnswer::Holds => BoundaryAnswer::Held,
        RingAnswer::Meeting { first, second } => {
            BoundaryAnswer::Fault(SurfaceAnswer::Meeting {
                first: curve_line(drawing, first),
                second: curve_line(drawing, second),
            })
        }
        RingAnswer::Odd { edge } => BoundaryAnswer::Fault(SurfaceAnswer::Odd {
            line: curve_line(drawing, edge),
        }),
        RingAnswer::Parts => BoundaryAnswer::Fault(SurfaceAnswer::Parts { line }),
    }
}

// The answer to the drawing of the boundary of an object in that line.
fn drawing_answer(alloc: Global, drawing: &Drawing, line: u32) -> Result<BoundaryAnswer, Memory>
    ensures { IfOk result (IsBoundaryAnswer false (outline line drawing.now.curves.items)) }
{
    if drawing.curves.is_empty() {
        return Ok(BoundaryAnswer::Unseen);
    }
    if has_half_arc(&drawing.curves) {
        return Ok(BoundaryAnswer::Skipped);
    }
    let edges = edges_of(alloc, drawing)?;
    let answer = rings(alloc, &edges)?;
    Ok(ring_answer(drawing, line, answer))
}

// The answer to the boundary of an object where none is judged.
fn skipped_answer(strokes: &[&[ReadVertex]]) -> BoundaryAnswer
    ensures { (line : ℕ) → IsBoundaryAnswer true
        (outline line (strokes_curves (strokes_view strokes.now))) result }
{
    if draw_some(strokes) {
        BoundaryAnswer::Skipped
    } else {
        BoundaryAnswer::Unseen
    }
}

// The answer to the boundary of an object in that line, whose lines have that form; `all`: none is
// judged.
fn boundary_answer(
    alloc: Global,
    form: &LineForm,
    all: bool,
    strokes: &[&[ReadVertex]],
    line: u32,
) -> Result<BoundaryAnswer, Memory>
    requires narrow { all ≡ false → IsNarrow (line_of form.now).window }
    requires drawable { all ≡ false → CanDraw (line_of form.now) (strokes_view strokes.now) }
    ensures { IfOk result (IsBoundaryAnswer all
        (outline line (strokes_curves (strokes_view strokes.now)))) }
{
    if all {
        return Ok(skipped_answer(strokes));
    }
    let drawing = draw_strokes(alloc, form, strokes)?;
    drawing_answer(alloc, &drawing, line)
}

// The answer to boundaries, each of an object in that line.
fn boundaries_answer(
    alloc: Global,
    form: &LineForm,
    all: bool,
    objects: &[Vec<&[ReadVertex]>],
    lines: &[u32],
) -> Result<SurfaceAnswer, Memory>
    requires narrow { all ≡ false → IsNarrow (line_of form.now).window }
    requires drawable { all ≡ false → CanAllDraw (line_of form.now) (objects_view objects.now) }
    requires lines { length lines.now ≡ length objects.now }
    ensures { IfOk result (IsAnswer all (drawn (objects_view objects.now) lines.now)) }
{
    let mut held: u64 = 0;
    let mut skipped: u64 = 0;
    for place in 0..objects.len() {
        match boundary_answer(alloc, form, all, &objects[place], lines[place])? {
            BoundaryAnswer::Unseen => {}
            BoundaryAnswer::Skipped => skipped += 1,
            BoundaryAnswer::Held => held += 1,
            BoundaryAnswer::Fault(answer) => return Ok(answer),
        }
    }
    Ok(SurfaceAnswer::Proved { held, skipped })
}

// So many objects without lines.
fn no_objects<'a>(alloc: Global, count: usize) -> Result<Vec<Vec<&'a [ReadVertex]>>, Memory>
    ensures { IfOk result (λ os. objects_view os.items ≡ no_lines count) }
{
    let mut objects = Vec::with_capacity(alloc, count)?;
    for _ in 0..count {
        objects.push(Vec::new(alloc))?;
    }
    Ok(objects)
}

// Adds a line to the object at that place, if there is one.
fn add_line<'a>(
    objects: &mut [Vec<&'a [ReadVertex]>],
    row: Option<usize>,
    line: &'a [ReadVertex],
) -> Result<(), Memory>
    ensures { OnOk result (objects_view objects.new ≡ added_at row (vertices_view line.now)
        (objects_view objects.old)) }
{
    if let Some(place) = row {
        if place < objects.len() {
            objects[place].push(line)?;
        }
    }
    Ok(())
}

// The row that the reference of that number names, if there is one.
fn row_at(named: &[NamedRow], number: usize) -> Option<usize>
    ensures { result ≡ first_place (drop number (named_rows (named_view named.now))) }
{
    match named.get(number) {
        Some(name) => name.row,
        None => None,
    }
}

// The lines of so many objects, one for each row of a helper table, by how many vertices each has
// and by what the rows name.
fn lines_by_object<'a>(
    alloc: Global,
    objects: usize,
    counts: &[usize],
    vertices: &'a [ReadVertex],
    named: &[NamedRow],
) -> Result<Vec<Vec<&'a [ReadVertex]>>, Memory>
    requires { total counts.now ≤ length vertices.now }
    ensures { IfOk result (λ os. objects_view os.items ≡ grouped
        (named_rows (named_view named.now)) (cut counts.now (vertices_view vertices.now))
        (no_lines objects)) }
{
    let mut lines = no_objects(alloc, objects)?;
    let mut rest = vertices;
    for (number, count) in counts.iter().enumerate() {
        let (own, after) = rest.split_at(*count);
        add_line(&mut lines, row_at(named, number), own)?;
        rest = after;
    }
    Ok(lines)
}

// The answer to the objects in these lines, by what is kept of the rows of their helper table,
// whose lines have that form, and by what these rows name.
fn lines_answer(
    alloc: Global,
    form: &LineForm,
    lines: &TablePlaces,
    named: &[NamedRow],
    objects: &[u32],
) -> Result<SurfaceAnswer, Memory>
    requires counted { total (counts_in (kept_of lines.now).lines)
        ≤ length (vertices_in (kept_of lines.now).lines) }
    requires drawable { length (vertices_in (kept_of lines.now).lines) ≤ area_limit
        → CanAllDraw (line_of form.now) (lines_of (kept_of lines.now) (named_view named.now)
        (length objects.now)) }
    ensures { IfOk result (IsAnswer (all_skipped (line_of form.now) (kept_of lines.now)) (drawn
        (lines_of (kept_of lines.now) (named_view named.now) (length objects.now)) objects.now)) }
{
    let own = lines_by_object(
        alloc,
        objects.len(),
        lines.counts(),
        lines.vertices(),
        named,
    )?;
    let wide = is_wide(&form.window);
    let many = AREA_LIMIT < lines.vertex_count();
    boundaries_answer(alloc, form, wide || many, &own, objects)
}

// The answer to a SURFACE of the layout, from what is kept of the rows.
fn surface_answer(
    alloc: Global,
    layout: &Layout,
    tables: &[TablePlaces],
    keys: &Keys,
    surface: SurfaceOf,
) -> Result<SurfaceAnswer, Memory>
    requires valid { IsValid (layout_view layout.now) }
    requires rows { (rows : List (ℕ × GivenRow))
        × AreKeptClean (layout_view layout.now) rows (kept_in tables.now) keys.now }
    requires surface { Has (surface_view surface) (surfaces (layout_view layout.now)) }
    ensures { (rows : List (ℕ × GivenRow))
        → AreKeptClean (layout_view layout.now) rows (kept_in tables.now) keys.now
        → IfOk result (IsSurfaceAnswer (layout_view layout.now)
        (transfer_so_far (layout_view layout.now) rows) (surface_view surface)) }
{
    let form = only_form(layout, surface.lines);
    let lines = &tables[surface.lines.0 as usize];
    let named = keys.rows_named(surface.lines, 1)?;
    let objects = keys.row_lines(surface.main);
    lines_answer(alloc, form, lines, &named, objects)
}

/// The answers to SURFACEs of the layout from what is kept of the rows, one after the other. The
/// cost of each is that of its objects: a sweep of the lines of each. For a while 24 bytes for an
/// object and 40 for a row of lines are held, and 80 for a line of one object.
pub fn surface_answers(
    alloc: Global,
    layout: &Layout,
    tables: &[TablePlaces],
    keys: &Keys,
    some: &[SurfaceOf],
) -> Result<Vec<SurfaceAnswer>, Memory>
    requires valid { IsValid (layout_view layout.now) }
    requires rows { (rows : List (ℕ × GivenRow))
        × AreKeptClean (layout_view layout.now) rows (kept_in tables.now) keys.now }
    requires surfaces { surfaces_view some.now ≡ surfaces (layout_view layout.now) }
    ensures { (rows : List (ℕ × GivenRow))
        → AreKeptClean (layout_view layout.now) rows (kept_in tables.now) keys.now
        → IfOk result (λ xs. AreSurfaceAnswers (layout_view layout.now)
        (transfer_so_far (layout_view layout.now) rows) (surfaces (layout_view layout.now))
        xs.items) }
{
    let mut answers = Vec::with_capacity(alloc, some.len())?;
    for surface in some {
        answers.push(surface_answer(alloc, layout, tables, keys, *surface)?)?;
    }
    Ok(answers)
}
