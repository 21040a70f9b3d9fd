// The values of rows, as the bytes of keys.
ghost use Rattle.std.specs.Prelude.{◌≡◌, ◌<◌, ◌+◌, ◌++◌, ◌∷◌, [], length, map, Some};
ghost use Rattle.std.specs.Prelude.{IfOk, OnOk};
ghost use Rattle.std.specs.Option.{option_to_list};
ghost use Rattle.ident_refs.specs.ValueViews.{key_vertex_view, rank_of, value_view};
ghost use Rattle.ident_refs.specs.KeptRows.{id_key};
ghost use Rattle.ident_refs.specs.KeyBytes.{byte_code, key_vertex_code, key_vertices_code};
ghost use Rattle.ident_refs.specs.KeyBytes.{with_end};
ghost use Rattle.ident_refs.specs.KeyBytes.{number_code, numbers_code};
ghost use Rattle.ident_refs.specs.KeyBytes.{value_code, word_code};
ghost use Rattle.itf_reader.specs.Views.{row_of};

use super::key_cell::KeyCell;
use super::key_values::{KeyVertex, Value};
use itf_reader::{Row, VertexKind};
use ports::{Keyed, Memory};
use std::alloc::Global;

// A key of at most this many bytes needs no memory.
const ROOM: usize = 14;

fn add_byte(into: &mut Vec<u8>, byte: u8) -> Result<(), Memory>
    ensures { OnOk result (into.new.items ≡ into.old.items ++ byte_code byte) }
{
    if byte == 0 {
        into.push(0)?;
        into.push(1)?;
    } else {
        into.push(byte)?;
    }
    Ok(())
}

/// Adds bytes and their end mark.
pub fn add_ended(into: &mut Vec<u8>, bytes: &[u8]) -> Result<(), Memory>
    ensures { OnOk result (into.new.items ≡ into.old.items ++ with_end bytes.now) }
{
    for byte in bytes {
        add_byte(into, *byte)?;
    }
    into.push(0)?;
    into.push(0)?;
    Ok(())
}

#[tactic(auto, unfolding(crate::specs::KeyBytes::number_code))]
fn add_number(into: &mut Vec<u8>, number: &i64) -> Result<(), Memory>
    ensures { OnOk result (into.new.items ≡ into.old.items ++ number_code number.now) }
{
    into.extend_from_slice(&number.to_be_bytes())?;
    Ok(())
}

fn add_height(into: &mut Vec<u8>, height: Option<i64>) -> Result<(), Memory>
    ensures { OnOk result (into.new.items ≡ into.old.items ++ numbers_code
        (option_to_list height)) }
{
    match height {
        Some(number) => add_number(into, &number),
        None => Ok(()),
    }
}

fn add_place(into: &mut Vec<u8>, x: &i64, y: &i64) -> Result<(), Memory>
    ensures { OnOk result (into.new.items ≡ into.old.items ++ numbers_code (x.now ∷ y.now ∷ [])) }
{
    add_number(into, x)?;
    add_number(into, y)
}

// The number of a kind.
fn rank(kind: VertexKind) -> u8
    ensures { result ≡ rank_of kind }
{
    match kind {
        VertexKind::Start => 0,
        VertexKind::Straight => 1,
        VertexKind::OnArc => 2,
    }
}

fn axes(height: Option<i64>) -> u8
    ensures { result ≡ 2 + length (option_to_list height) }
{
    match height {
        Some(_) => 3,
        None => 2,
    }
}

// Adds a vertex: its kind, how many numbers it has, and these.
fn add_vertex(into: &mut Vec<u8>, key_vertex: &KeyVertex) -> Result<(), Memory>
    ensures { OnOk result (into.new.items ≡ into.old.items ++ key_vertex_code
        (key_vertex_view key_vertex.now)) }
{
    into.push(rank(key_vertex.kind))?;
    into.push(axes(key_vertex.height))?;
    add_place(into, &key_vertex.x, &key_vertex.y)?;
    add_height(into, key_vertex.height)
}

fn add_vertices(into: &mut Vec<u8>, key_vertices: &[KeyVertex]) -> Result<(), Memory>
    ensures { OnOk result (into.new.items ≡ into.old.items ++ key_vertices_code
        (map key_vertex_view key_vertices.now)) }
{
    for key_vertex in key_vertices {
        add_vertex(into, key_vertex)?;
    }
    Ok(())
}

// Adds a value: a byte for its kind, and its numbers, bytes or vertices.
fn add_value(into: &mut Vec<u8>, value: &Value) -> Result<(), Memory>
    ensures { OnOk result (into.new.items ≡ into.old.items ++ value_code (value_view value.now)) }
{
    match value {
        Value::Number(n) => {
            into.push(0)?;
            add_number(into, n)
        }
        Value::Plane(x, y) => {
            into.push(0)?;
            add_place(into, x, y)
        }
        Value::Space(x, y, z) => {
            into.push(0)?;
            add_place(into, x, y)?;
            add_number(into, z)
        }
        Value::Word(word) => {
            into.push(1)?;
            into.extend_from_slice(word)?;
            Ok(())
        }
        Value::Line(key_vertices) => {
            into.push(2)?;
            add_vertices(into, key_vertices)
        }
    }
}

// The key of a word for which a value has room, which needs no memory.
fn short_key(alloc: Global, word: &[u8]) -> Result<KeyCell, Memory>
    requires { length word.now < 14 }
    ensures { IfOk result (λ key. key ≡ Some (word_code word.now)) }
{
    let mut bytes = [1; ROOM];
    bytes[1..1 + word.len()].copy_from_slice(word);
    KeyCell::new(alloc, &bytes[..1 + word.len()])
}

/// The key of a word as an identification.
pub fn word_key(alloc: Global, word: &[u8]) -> Result<KeyCell, Memory>
    ensures { IfOk result (λ key. key ≡ Some (word_code word.now)) }
{
    if word.len() < ROOM {
        return short_key(alloc, word);
    }
    let mut bytes = Vec::with_capacity(alloc, word.len().saturating_add(1))?;
    bytes.push(1)?;
    bytes.extend_from_slice(word)?;
    KeyCell::new(alloc, &bytes)
}

// The key of a value that is no word.
fn other_key(alloc: Global, value: &Value) -> Result<KeyCell, Memory>
    ensures { IfOk result (λ key. key ≡ Some (value_code (value_view value.now))) }
{
    let mut bytes = Vec::with_capacity(alloc, 25)?;
    add_value(&mut bytes, value)?;
    KeyCell::new(alloc, &bytes)
}

/// The key of a row by a list with one place, from its value there.
pub fn value_key(alloc: Global, value: &Value) -> Result<KeyCell, Memory>
    ensures { IfOk result (λ key. key ≡ Some (value_code (value_view value.now))) }
{
    match value {
        Value::Word(word) => word_key(alloc, word),
        _ => other_key(alloc, value),
    }
}

/// The key of a row by its identification.
pub fn row_key(alloc: Global, row: &Row) -> Result<KeyCell, Memory>
    ensures { IfOk result (λ key. key ≡ id_key (row_of row.now)) }
{
    match row.key() {
        Some(word) => word_key(alloc, word),
        None => KeyCell::new(alloc, &[]),
    }
}
