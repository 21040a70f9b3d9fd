// The vertices of a line, one after the other.
ghost use Rattle.std.specs.Prelude.{◌≡◌, ◌++◌, ◌∷◌, [], ◌&&◌, not, IfOk, OnOk};
ghost use Rattle.std.specs.List.{flat_map};
ghost use Rattle.std.specs.Option.{option_to_list};
ghost use Rattle.resolver.specs.Values.{line_of};
ghost use Rattle.field_values.specs.Places.{place_view};
ghost use Rattle.itf_reader.specs.Findings.{AddsFindings};
ghost use Rattle.itf_reader.specs.RowReadings.{sound_height, sound_heights, sound_vertex};
ghost use Rattle.itf_reader.specs.RowReadings.{sound_vertices, vertices_view};
ghost use Rattle.itf_reader.specs.VertexLists.{kind_of};
ghost use Rattle.itf_reader.specs.Views.{slice_of, vertex_of};
ghost use Rattle.itf_reader.specs.StrokeFindings.{are_clean, is_clean, is_on_arc, vertex_finding};
ghost use Rattle.itf_reader.specs.VertexReadings.{vertex_reading, value_reading};

use super::report::{code_of, report};
use super::strokes::is_on_arc;
use super::values::{ReadVertex, RowValues};
use crate::findings::{Code, Finding};
use crate::vertices::{Vertex, VertexSlice};
use field_values::{VertexValue, read_vertex};
use ports::Memory;
use resolver::LineForm;

// What the fields of a vertex stand for, or what fails at them first.
fn value_of(form: &LineForm, vertex: Vertex) -> Result<VertexValue, Code>
    ensures { value_reading result ≡ vertex_reading (line_of form.now) (vertex_of vertex.entry) }
{
    match read_vertex(form, vertex.fields) {
        Ok(value) => {
            if is_barred(form, vertex) {
                Err(Code::Arcs)
            } else {
                Ok(value)
            }
        }
        Err(fault) => Err(code_of(fault)),
    }
}

// It lies on an arc, and the line may have none.
fn is_barred(form: &LineForm, vertex: Vertex) -> bool
    ensures { result ≡ (is_on_arc (vertex_of vertex.entry).kind && not form.now.arcs) }
{
    is_on_arc(vertex.kind) && !form.arcs
}

// Adds a vertex if it is sound, else what is wrong with it, and answers whether it is.
fn add_vertex(
    form: &LineForm,
    column: u32,
    vertex: Vertex,
    values: &mut RowValues,
    findings: &mut Vec<Finding>,
) -> Result<bool, Memory>
    ensures clean { IfOk result (λ clean. clean
        ≡ is_clean (line_of form.now) (vertex_of vertex.entry)) }
    ensures vertices { OnOk result (vertices_view values.new.vertices.items ≡ vertices_view
        values.old.vertices.items ++ sound_vertex (line_of form.now) (vertex_of vertex.entry)) }
    ensures heights { OnOk result (values.new.heights.items ≡ values.old.heights.items ++
        sound_height (line_of form.now) (vertex_of vertex.entry)) }
    ensures cells { OnOk result (values.new.cells.items ≡ values.old.cells.items) }
    ensures findings { OnOk result (AddsFindings findings.old.items findings.new.items
        (vertex_finding (line_of form.now) column (vertex_of vertex.entry))) }
{
    match value_of(form, vertex) {
        Ok(value) => {
            add_sound(vertex, value, values)?;
            Ok(true)
        }
        Err(code) => {
            report(findings, vertex.line, column, Some(code))?;
            Ok(false)
        }
    }
}

fn add_sound(vertex: Vertex, value: VertexValue, values: &mut RowValues) -> Result<(), Memory>
    ensures vertices { OnOk result (vertices_view values.new.vertices.items ≡ vertices_view
        values.old.vertices.items ++ record {
          at = place_view value.at;
          line = vertex.entry.line;
          kind = kind_of vertex.entry.kind;
        } ∷ []) }
    ensures heights { OnOk result (values.new.heights.items ≡ values.old.heights.items ++
        option_to_list value.height) }
    ensures cells { OnOk result (values.new.cells.items ≡ values.old.cells.items) }
{
    values.vertices.push(ReadVertex {
        at: value.at,
        line: vertex.line,
        kind: vertex.kind,
    })?;
    add_height(&mut values.heights, value.height)
}

fn add_height(heights: &mut Vec<i64>, height: Option<i64>) -> Result<(), Memory>
    ensures { OnOk result (heights.new.items ≡ heights.old.items ++ option_to_list height) }
{
    if let Some(height) = height {
        heights.push(height)?;
    }
    Ok(())
}

/// Adds the sound vertices of a line, and what is wrong with the others, and answers whether all
/// are sound.
pub fn add_vertices(
    form: &LineForm,
    column: u32,
    vertices: VertexSlice,
    values: &mut RowValues,
    findings: &mut Vec<Finding>,
) -> Result<bool, Memory>
    ensures clean { IfOk result (λ clean. clean ≡ are_clean (line_of form.now)
        (slice_of vertices.entry)) }
    ensures vertices { OnOk result (vertices_view values.new.vertices.items ≡ vertices_view
        values.old.vertices.items ++ sound_vertices (line_of form.now) (slice_of vertices.entry)) }
    ensures heights { OnOk result (values.new.heights.items ≡ values.old.heights.items ++
        sound_heights (line_of form.now) (slice_of vertices.entry)) }
    ensures cells { OnOk result (values.new.cells.items ≡ values.old.cells.items) }
    ensures findings { OnOk result (AddsFindings findings.old.items findings.new.items
        (flat_map (vertex_finding (line_of form.now) column) (slice_of vertices.entry))) }
{
    let mut clean = true;
    let mut rest = vertices;
    while let Some((vertex, others)) = rest.split_first() {
        let sound = add_vertex(form, column, vertex, values, findings)?;
        clean = clean && sound;
        rest = others;
    }
    Ok(clean)
}
