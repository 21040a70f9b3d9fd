// The fields of a vertex by its line.
ghost use Rattle.std.specs.Prelude.{◌≡◌, ◌∷◌, IfOk};
ghost use Rattle.std.specs.Option.{option_map, option_to_list};
ghost use Rattle.resolver.specs.Values.{limits_of, line_of};
ghost use Rattle.field_values.specs.Fields.{vertex_fault, axes_fault, line_axes};
ghost use Rattle.field_values.specs.Places.{place_named, place_view};
ghost use Rattle.field_values.specs.Readings.{reading, numbers_on};
ghost use Rattle.field_values.specs.Views.{vertex_view, height_view};

use super::numbers::{read_number, read_place};
use super::value::{ValueFault, VertexValue};
use itf_lines::Field;
use resolver::{Limits, LineForm};

/// What the fields of a vertex stand for, or the rule that they break: that of the first field
/// which is no number within the bounds of its axis; else `Coord`, where there are more or fewer
/// fields than axes. A field without an axis is not judged as a number.
pub fn read_vertex(form: &LineForm, words: &[Field]) -> Result<VertexValue, ValueFault>
    ensures read { vertex_view result ≡ reading (vertex_fault (line_of form.now) words.now)
        (numbers_on (line_axes (line_of form.now)) words.now) }
    ensures place { IfOk result (λ v. place_view v.at ≡ place_named (line_of form.now).window
        words.now) }
{
    match words {
        [] => Err(ValueFault::Coord),
        [x] => {
            read_number(&form.window.x, x.bytes())?;
            Err(ValueFault::Coord)
        }
        [x, y, heights @ ..] => read_fields(form, x.bytes(), y.bytes(), heights),
    }
}

// The fields of a place, and those after them.
fn read_fields(
    form: &LineForm,
    x: &[u8],
    y: &[u8],
    heights: &[Field],
) -> Result<VertexValue, ValueFault>
    ensures read { vertex_view result ≡ reading (vertex_fault (line_of form.now)
        (x.now ∷ y.now ∷ heights.now)) (numbers_on (line_axes (line_of form.now))
        (x.now ∷ y.now ∷ heights.now)) }
    ensures place { IfOk result (λ v. place_view v.at ≡ place_named (line_of form.now).window
        (x.now ∷ y.now ∷ heights.now)) }
{
    let at = read_place(&form.window.x, &form.window.y, x, y)?;
    let height = read_height(form.height, heights)?;
    Ok(VertexValue { at, height })
}

// The fields after the two of a place: one for the height, where the line has heights.
fn read_height(height: Option<Limits>, words: &[Field]) -> Result<Option<i64>, ValueFault>
    ensures { height_view result
        ≡ reading (axes_fault (option_to_list (option_map limits_of height))
        words.now) (numbers_on (option_to_list (option_map limits_of height)) words.now) }
{
    match (height, words) {
        (Some(limits), [z, more @ ..]) => {
            let z = read_number(&limits, z.bytes())?;
            if more.is_empty() {
                Ok(Some(z))
            } else {
                Err(ValueFault::Coord)
            }
        }
        (None, []) => Ok(None),
        _ => Err(ValueFault::Coord),
    }
}
