// The values of a row, as they are compared.
ghost use Rattle.std.specs.Prelude.{◌≡◌, length, map, None, IfOk, IsTrue};
ghost use Rattle.std.specs.Option.{option_map};
ghost use Rattle.ili_grammar.specs.Values.{codes_of};
ghost use Rattle.resolver.specs.Values.{form_of, line_of};
ghost use Rattle.table_layout.specs.Values.{role_view};
ghost use Rattle.field_values.specs.Fields.{vertex_fault, width};
ghost use Rattle.field_values.specs.Readings.{bytes_of};
ghost use Rattle.field_values.specs.Views.{value_view as read_view};
ghost use Rattle.itf_reader.specs.Views.{slice_of, vertex_of};
ghost use Rattle.itf_reader.specs.StrokeFindings.{is_sound_stroke};
ghost use Rattle.ident_refs.specs.ValueViews.{key_vertex_view, value_view};
ghost use Rattle.ident_refs.specs.ListValues.{key_value, key_vertex_of, form_value, line_value};

use super::key_values::{KeyVertex, Value};
use field_values::{ColumnValue, read_column, read_vertex};
use ili_grammar::Codes;
use itf_lines::Field;
use itf_reader::{Vertex, VertexSlice, is_sound_line};
use ports::Memory;
use resolver::{Form, LineForm};
use std::alloc::Global;
use table_layout::Role;

// What some words stand for, as it is compared.
fn value_of<'a>(value: ColumnValue, words: &'a [Field]) -> Value<'a>
    ensures { value_view result ≡ key_value (read_view words.now value) }
{
    match value {
        ColumnValue::Number(n) => Value::Number(n),
        ColumnValue::Plane(p) => Value::Plane(p.x, p.y),
        ColumnValue::Space(p, z) => Value::Space(p.x, p.y, z),
        ColumnValue::Word => Value::Word(first_word(words)),
    }
}

fn first_word(words: &[Field]) -> &[u8]
    ensures { result.now ≡ bytes_of words.now }
{
    match words {
        [word, ..] => word.bytes(),
        [] => &[],
    }
}

/// The value of a column by its form, none where it is undefined or has a finding.
pub fn form_value<'a>(form: &Form, codes: &Codes, words: &'a [Field]) -> Option<Value<'a>>
    requires { length words.now ≡ width (form_of form.now) }
    ensures { option_map value_view result ≡ form_value (codes_of codes.now) (form_of form.now)
        words.now }
{
    match read_column(form, codes, words) {
        Ok(value) => Some(value_of(value, words)),
        Err(_) => None,
    }
}

// A sound vertex by its kind and its numbers.
fn key_vertex_of(form: &LineForm, vertex: Vertex) -> KeyVertex
    requires { vertex_fault (line_of form.now) vertex.fields.now ≡ None }
    ensures { key_vertex_view result ≡ key_vertex_of (line_of form.now) (vertex_of vertex.entry) }
{
    let kind = vertex.kind;
    match read_vertex(form, vertex.fields) {
        Ok(value) => KeyVertex {
            kind,
            x: value.at.x,
            y: value.at.y,
            height: value.height,
        },
        // A sound vertex is read.
        Err(_) => KeyVertex {
            kind,
            x: 0,
            y: 0,
            height: None,
        },
    }
}

// The vertices of a line with which nothing is wrong.
fn key_vertices_of(
    alloc: Global,
    role: Role,
    form: &LineForm,
    vertices: VertexSlice,
) -> Result<Vec<KeyVertex>, Memory>
    requires { IsTrue (is_sound_stroke (role_view role) (line_of form.now)
        (slice_of vertices)) }
    ensures { IfOk result (λ key_vertices. map key_vertex_view key_vertices.items ≡ map
        (key_vertex_of (line_of form.now)) (slice_of vertices.entry)) }
{
    let mut key_vertices = Vec::with_capacity(alloc, vertices.len())?;
    let mut rest = vertices;
    while let Some((vertex, others)) = rest.split_first() {
        key_vertices.push(key_vertex_of(form, vertex))?;
        rest = others;
    }
    Ok(key_vertices)
}

/// The value of a line, none where it is undefined or has a finding.
pub fn line_value<'a>(
    alloc: Global,
    role: Role,
    form: &LineForm,
    vertices: VertexSlice,
) -> Result<Option<Value<'a>>, Memory>
    ensures { IfOk result (λ value. option_map value_view value ≡ line_value (role_view role)
        (line_of form.now) (slice_of vertices.entry)) }
{
    if vertices.is_empty() || !is_sound_line(alloc, role, form, vertices)? {
        return Ok(None);
    }
    Ok(Some(Value::Line(key_vertices_of(alloc, role, form, vertices)?)))
}
