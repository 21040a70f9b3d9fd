// The lines of a row.
ghost use Rattle.std.specs.Prelude.{◌≡◌, ◌≤◌, ◌+◌, ◌++◌, drop, length, not, IfOk, OnOk};
ghost use Rattle.std.specs.List.{All};
ghost use Rattle.resolver.specs.Values.{line_of};
ghost use Rattle.table_layout.specs.Values.{role_view, lines_view};
ghost use Rattle.itf_reader.specs.Findings.{AddsFindings};
ghost use Rattle.itf_reader.specs.RowFindings.{line_findings, lines_findings};
ghost use Rattle.itf_reader.specs.LeftOut.{is_left_out, left_out_findings, mandatory_from};
ghost use Rattle.itf_reader.specs.RowReadings.{lines_heights, lines_vertices, sound_heights};
ghost use Rattle.itf_reader.specs.RowReadings.{sound_vertices, vertices_view};
ghost use Rattle.itf_reader.specs.Views.{slice_of, stroke_of, strokes_of};
ghost use Rattle.itf_reader.specs.declared.findings.Code.TheVariants.{Undefined};
ghost use Rattle.itf_reader.specs.StrokeFindings.{arc_findings, code_if, is_sound_stroke};
ghost use Rattle.itf_reader.specs.StrokeFindings.{is_whole, short_finding, stroke_findings};

use super::report::report;
use super::strokes::{is_bad_arc, is_short, is_whole};
use super::values::{ReadVertex, RowValues};
use super::vertices::add_vertices;
use crate::findings::{Code, Finding};
use crate::transfer::{Stroke, Strokes};
use crate::vertices::VertexSlice;
use ports::Memory;
use resolver::LineForm;
use std::alloc::Global;
use table_layout::Role;

/// The numbers of the lines that are mandatory.
pub fn mandatory_lines(alloc: Global, lines: &[LineForm]) -> Result<Vec<u32>, Memory>
    requires { length lines.now ≤ 4294967295 }
    ensures { IfOk result (λ numbers. numbers.items ≡ mandatory_from 0 (lines_view lines.now)) }
{
    let mut numbers = Vec::new(alloc);
    let mut number = 0;
    for line in lines {
        if !line.optional {
            numbers.push(number)?;
        }
        number += 1;
    }
    Ok(numbers)
}

// The row leaves out the line of that number.
fn is_left_out(strokes: &Strokes, number: usize) -> bool
    ensures { result ≡ is_left_out (length strokes.now.given.items) strokes.now.left_out number }
{
    let given = strokes.given.len();
    given <= number && number - given < strokes.left_out
}

/// Adds a finding for each mandatory line that the row at `line` leaves out. The first line of its
/// table has the column `first`.
pub fn add_left_out(
    line: u32,
    first: u32,
    mandatory: &[u32],
    strokes: &Strokes,
    findings: &mut Vec<Finding>,
) -> Result<(), Memory>
    requires { All (λ number. first + number ≤ 4294967295) mandatory.now }
    ensures { OnOk result (AddsFindings findings.old.items findings.new.items
        (left_out_findings line first (length strokes.now.given.items) strokes.now.left_out
        mandatory.now)) }
{
    for number in mandatory {
        if is_left_out(strokes, *number as usize) {
            report(findings, line, first + *number, Some(Code::Undefined))?;
        }
    }
    Ok(())
}

/// Reads the polylines that the row at `line` of the transfer has, and adds what is wrong with
/// them. The first of them has the column `first`.
pub fn read_given(
    role: Role,
    line: u32,
    first: u32,
    forms: &[LineForm],
    strokes: &[Stroke],
    values: &mut RowValues,
    findings: &mut Vec<Finding>,
) -> Result<(), Memory>
    requires { first + length forms.now ≤ 4294967295 }
    ensures cells { OnOk result (values.new.cells.items ≡ values.old.cells.items) }
    ensures vertices { OnOk result (vertices_view values.new.vertices.items ≡ vertices_view
        values.old.vertices.items ++ lines_vertices (lines_view forms.now)
        (strokes_of strokes.now)) }
    ensures heights { OnOk result (values.new.heights.items ≡ values.old.heights.items ++
        lines_heights (lines_view forms.now) (strokes_of strokes.now)) }
    ensures findings { OnOk result (AddsFindings findings.old.items findings.new.items
        (lines_findings (role_view role) line first (lines_view forms.now)
        (strokes_of strokes.now))) }
{
    let mut column = first;
    for (form, stroke) in forms.iter().zip(strokes) {
        read_line(role, line, column, form, stroke, values, findings)?;
        column += 1;
    }
    Ok(())
}

// One line: an undefined one has no vertices.
fn read_line(
    role: Role,
    line: u32,
    column: u32,
    form: &LineForm,
    stroke: &Stroke,
    values: &mut RowValues,
    findings: &mut Vec<Finding>,
) -> Result<(), Memory>
    ensures cells { OnOk result (values.new.cells.items ≡ values.old.cells.items) }
    ensures vertices { OnOk result (vertices_view values.new.vertices.items ≡ vertices_view
        values.old.vertices.items ++ sound_vertices (line_of form.now) (stroke_of stroke.now)) }
    ensures heights { OnOk result (values.new.heights.items ≡ values.old.heights.items ++
        sound_heights (line_of form.now) (stroke_of stroke.now)) }
    ensures findings { OnOk result (AddsFindings findings.old.items findings.new.items
        (line_findings (role_view role) line column (line_of form.now) (stroke_of stroke.now))) }
{
    let vertices = stroke.vertices.as_slice();
    if vertices.is_empty() {
        return report(findings, line, column, missing_code(form));
    }
    read_stroke(role, column, form, vertices, values, findings)?;
    Ok(())
}

// What fails at an undefined line.
fn missing_code(form: &LineForm) -> Option<Code>
    ensures { result ≡ code_if (not form.now.optional) Undefined }
{
    if form.optional {
        None
    } else {
        Some(Code::Undefined)
    }
}

/// Whether nothing is wrong with the vertices of a line. It holds their values while it looks.
pub fn is_sound_line(
    alloc: Global,
    role: Role,
    form: &LineForm,
    vertices: VertexSlice,
) -> Result<bool, Memory>
    ensures { IfOk result (λ sound. sound ≡ is_sound_stroke (role_view role) (line_of form.now)
        (slice_of vertices.entry)) }
{
    let mut values = RowValues::new(alloc);
    let mut findings = Vec::new(alloc);
    read_stroke(role, 0, form, vertices, &mut values, &mut findings)
}

// Reads the vertices of a line, and answers whether nothing is wrong with them. Arcs and the length
// are judged where each vertex is clean.
fn read_stroke(
    role: Role,
    column: u32,
    form: &LineForm,
    vertices: VertexSlice,
    values: &mut RowValues,
    findings: &mut Vec<Finding>,
) -> Result<bool, Memory>
    ensures sound { IfOk result (λ sound. sound ≡ is_sound_stroke (role_view role)
        (line_of form.now) (slice_of vertices.entry)) }
    ensures cells { OnOk result (values.new.cells.items ≡ values.old.cells.items) }
    ensures vertices { OnOk result (vertices_view values.new.vertices.items ≡ vertices_view
        values.old.vertices.items ++ sound_vertices (line_of form.now) (slice_of vertices.entry)) }
    ensures heights { OnOk result (values.new.heights.items ≡ values.old.heights.items ++
        sound_heights (line_of form.now) (slice_of vertices.entry)) }
    ensures findings { OnOk result (AddsFindings findings.old.items findings.new.items
        (stroke_findings (role_view role) (line_of form.now) column (slice_of vertices.entry))) }
{
    let start = values.vertices.len();
    let clean = add_vertices(form, column, vertices, values, findings)?;
    let own = from(&values.vertices, start);
    if !clean {
        return Ok(false);
    }
    let sound = judge(role, column, own, findings)?;
    Ok(sound)
}

// The vertices from a place on.
fn from(vertices: &[ReadVertex], start: usize) -> &[ReadVertex]
    ensures { result.now ≡ drop start vertices.now }
{
    if start < vertices.len() {
        &vertices[start..]
    } else {
        &[]
    }
}

// Judges a line whose vertices are all clean, and answers whether nothing is wrong with it.
fn judge(
    role: Role,
    column: u32,
    vertices: &[ReadVertex],
    findings: &mut Vec<Finding>,
) -> Result<bool, Memory>
    ensures whole { IfOk result (λ whole. whole ≡ is_whole (role_view role)
        (vertices_view vertices.now)) }
    ensures findings { OnOk result (AddsFindings findings.old.items findings.new.items
        (short_finding (role_view role) column (vertices_view vertices.now)
        ++ arc_findings column (vertices_view vertices.now))) }
{
    if is_whole(role, vertices) {
        return Ok(true);
    }
    add_short(role, column, vertices, findings)?;
    add_arcs(column, vertices, findings)?;
    Ok(false)
}

// A line of one distinct point is reported where it begins.
fn add_short(
    role: Role,
    column: u32,
    vertices: &[ReadVertex],
    findings: &mut Vec<Finding>,
) -> Result<(), Memory>
    ensures { OnOk result (AddsFindings findings.old.items findings.new.items
        (short_finding (role_view role) column (vertices_view vertices.now))) }
{
    let Some(first) = vertices.first() else {
        return Ok(());
    };
    if is_short(role, vertices) {
        return report(findings, first.line, column, Some(Code::Short));
    }
    Ok(())
}

// A bad arc is reported where it ends.
fn add_arcs(column: u32, vertices: &[ReadVertex], findings: &mut Vec<Finding>) -> Result<(), Memory>
    ensures { OnOk result (AddsFindings findings.old.items findings.new.items
        (arc_findings column (vertices_view vertices.now))) }
{
    let mut rest = vertices;
    while let [s, m, e, ..] = rest {
        if is_bad_arc(s, m, e) {
            report(findings, e.line, column, Some(Code::Arc))?;
        }
        rest = &rest[1..];
    }
    Ok(())
}
