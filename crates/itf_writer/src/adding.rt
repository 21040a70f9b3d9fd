// The lines of a canonical text, added to a text that is held in memory.
ghost use Rattle.std.specs.Prelude.{◌≡◌, ◌<◌, ◌++◌, ◌∷◌, [], length, IfOk, OnOk};
ghost use Rattle.std.specs.List.{flat_map};
ghost use Rattle.itf_lines.specs.declared.word.LineWord.TheVariants.{Elin};
ghost use Rattle.itf_reader.specs.TransferText.{line};
ghost use Rattle.itf_reader.specs.Views.{all_strokes, row_of, slice_of, strokes_of};
ghost use Rattle.itf_writer.specs.Canonical.{spelt, blank_before, line_text};
ghost use Rattle.itf_writer.specs.Canonical.{row_lines, stroke_lines};
ghost use Rattle.itf_writer.specs.Ends.{last_from, end_by};
ghost use Rattle.itf_writer.specs.Runs.{lines_text};

use super::lines::{last_of, spelt};
use super::rows::vertex_word;
use file_pages::HeldText;
use itf_lines::{Field, LineWord};
use itf_reader::{Row, Stroke, Strokes, VertexSlice};
use ports::Memory;

/// The line ELIN alone, of a model with that continue code.
pub fn undefined_stroke(code: u8) -> &'static [u8]
    ensures { result.now ≡ line_text code (line Elin 0 []) }
{
    if code == b'N' {
        b"ELINN\nCONT\n"
    } else {
        b"ELIN\n"
    }
}

// Ends a line whose last byte is that.
fn add_end(text: &mut HeldText, code: u8, last: u8) -> Result<(), Memory>
    ensures { OnOk result (text.new ≡ text.old ++ end_by code last) }
{
    if last == code {
        text.add(&[code])?;
        text.add(b"\nCONT\n")
    } else if last == b'\r' {
        text.add(b"\r\n")
    } else {
        text.add(b"\n")
    }
}

// Adds a blank and a field.
fn add_field(text: &mut HeldText, field: &Field) -> Result<(), Memory>
    ensures { OnOk result (text.new ≡ text.old ++ 32 ∷ field.now) }
{
    text.add(b" ")?;
    text.add(field.bytes())
}

// Adds fields, a blank before each, behind a line whose last byte is `last`, and answers the last
// byte then.
fn add_fields(text: &mut HeldText, last: u8, fields: &[Field]) -> Result<u8, Memory>
    ensures added { OnOk result (text.new ≡ text.old ++ blank_before fields.now) }
    ensures last { IfOk result (λ end. end ≡ last_from last (blank_before fields.now)) }
{
    let mut end = last;
    for field in fields {
        add_field(text, field)?;
        end = last_of(b' ', field.bytes());
    }
    Ok(end)
}

/// Adds a line of that word with these fields.
pub fn add_line(
    text: &mut HeldText,
    code: u8,
    word: LineWord,
    fields: &[Field],
) -> Result<(), Memory>
    requires { 0 < length (spelt word) }
    ensures { OnOk result (text.new ≡ text.old ++ line_text code (line word 0 fields.now)) }
{
    let bytes = spelt(word);
    text.add(bytes)?;
    let last = add_fields(text, last_of(b' ', bytes), fields)?;
    add_end(text, code, last)
}

/// Adds a line of that word with one field, a name.
pub fn add_named(text: &mut HeldText, code: u8, word: LineWord, field: &[u8]) -> Result<(), Memory>
    requires { 0 < length (spelt word) }
    ensures { OnOk result (text.new ≡ text.old ++ line_text code (line word 0 (field.now ∷ []))) }
{
    text.add(spelt(word))?;
    text.add(b" ")?;
    text.add(field)?;
    add_end(text, code, last_of(b' ', field))
}

// Adds the lines of a stroke: its vertices, and ELIN.
fn add_stroke(text: &mut HeldText, code: u8, vertices: VertexSlice<'_>) -> Result<(), Memory>
    ensures { OnOk result (text.new ≡ text.old
        ++ lines_text code (stroke_lines (slice_of vertices.entry))) }
{
    let mut left = vertices;
    while let Some((vertex, rest)) = left.split_first() {
        add_line(text, code, vertex_word(vertex.kind), vertex.fields)?;
        left = rest;
    }
    add_line(text, code, LineWord::Elin, &[])
}

// Adds the strokes that are given.
fn add_given(text: &mut HeldText, code: u8, strokes: &[Stroke]) -> Result<(), Memory>
    ensures { OnOk result (text.new ≡ text.old
        ++ lines_text code (flat_map stroke_lines (strokes_of strokes.now))) }
{
    for stroke in strokes {
        add_stroke(text, code, stroke.vertices.as_slice())?;
    }
    Ok(())
}

// Adds the strokes of a row; one that is left out is undefined.
fn add_strokes(text: &mut HeldText, code: u8, strokes: &Strokes) -> Result<(), Memory>
    ensures { OnOk result (text.new ≡ text.old
        ++ lines_text code (flat_map stroke_lines (all_strokes strokes.now))) }
{
    add_given(text, code, &strokes.given)?;
    text.add_times(undefined_stroke(code), strokes.left_out)
}

/// Adds the lines of an object.
pub fn add_row(text: &mut HeldText, code: u8, row: &Row) -> Result<(), Memory>
    ensures { OnOk result (text.new ≡ text.old ++ lines_text code (row_lines (row_of row.now))) }
{
    add_line(text, code, LineWord::Obje, &row.fields)?;
    add_strokes(text, code, &row.strokes)
}
