// Numbers within bounds.
ghost use Rattle.std.specs.Prelude.{◌≡◌, ℕ, List, [], ◌∷◌, IfOk, length};
ghost use Rattle.resolver.specs.Values.{limits_of, window_of, block_of};
ghost use Rattle.field_values.specs.Fields.{number_fault};
ghost use Rattle.field_values.specs.Readings.{axes_reading, bounded_reading, reading, units};
ghost use Rattle.field_values.specs.Places.{place_at, place_fault, place_reading};
ghost use Rattle.field_values.specs.Sizes.{IsShort};
ghost use Rattle.field_values.specs.Views.{column_view};

use super::place::Place;
use super::value::{ColumnValue, ValueFault};
use decimals::{DecimalFault, read_scaled};
use itf_lines::Field;
use resolver::{Block, Limits, Window};

/// The number of a word at the scale of these bounds, within them.
pub fn read_number(limits: &Limits, word: &[u8]) -> Result<i64, ValueFault>
    ensures read { result ≡ reading (number_fault (limits_of limits.now) word.now)
        (units (limits_of limits.now) word.now) }
    ensures short { IfOk result IsShort }
{
    match read_scaled(word, limits.scale) {
        Ok(value) => within(limits, value),
        Err(DecimalFault::MoreDecimals) => Err(ValueFault::Decimals),
        Err(_) => Err(ValueFault::Number),
    }
}

fn within(limits: &Limits, value: i64) -> Result<i64, ValueFault>
    requires { IsShort value }
    ensures read { result ≡ bounded_reading (limits_of limits.now) value }
    ensures short { IfOk result IsShort }
{
    if value < limits.low {
        return Err(ValueFault::Range);
    }
    if limits.high < value {
        return Err(ValueFault::Range);
    }
    Ok(value)
}

/// The place of two words, one for each axis.
pub fn read_place(across: &Limits, upward: &Limits, x: &[u8], y: &[u8]) -> Result<Place, ValueFault>
    ensures { place_reading result ≡ reading (place_fault (limits_of across.now)
        (limits_of upward.now) x.now y.now) (place_at (limits_of across.now) (limits_of upward.now)
        x.now y.now) }
{
    let x = read_number(across, x)?;
    let y = read_number(upward, y)?;
    Ok(Place { x, y })
}

/// The number of the one word of a column.
pub fn read_single(limits: &Limits, words: &[Field]) -> Result<ColumnValue, ValueFault>
    requires { length words.now ≡ 1 }
    ensures { column_view words.now result ≡ axes_reading (limits_of limits.now ∷ []) words.now }
{
    match words {
        [word] => Ok(ColumnValue::Number(read_number(limits, word.bytes())?)),
        _ => Ok(ColumnValue::Word),
    }
}

/// The numbers on two axes.
pub fn read_plane(window: &Window, words: &[Field]) -> Result<ColumnValue, ValueFault>
    requires { length words.now ≡ 2 }
    ensures { column_view words.now result ≡ axes_reading
        (limits_of window.now.x ∷ limits_of window.now.y ∷ []) words.now }
{
    match words {
        [x, y] => {
            let x = read_number(&window.x, x.bytes())?;
            let y = read_number(&window.y, y.bytes())?;
            Ok(ColumnValue::Plane(Place { x, y }))
        }
        _ => Ok(ColumnValue::Word),
    }
}

/// The numbers on three axes.
pub fn read_space(block: &Block, words: &[Field]) -> Result<ColumnValue, ValueFault>
    requires { length words.now ≡ 3 }
    ensures { column_view words.now result ≡ axes_reading
        (limits_of block.now.x ∷ limits_of block.now.y ∷ limits_of block.now.z ∷ []) words.now }
{
    match words {
        [x, y, z] => read_axes(block, x.bytes(), y.bytes(), z.bytes()),
        _ => Ok(ColumnValue::Word),
    }
}

fn read_axes(block: &Block, x: &[u8], y: &[u8], z: &[u8]) -> Result<ColumnValue, ValueFault>
    ensures { (words : List (List ℕ)) → column_view words result ≡ axes_reading
        (limits_of block.now.x ∷ limits_of block.now.y ∷ limits_of block.now.z ∷ [])
        (x.now ∷ y.now ∷ z.now ∷ []) }
{
    let at = read_place(&block.x, &block.y, x, y)?;
    let z = read_number(&block.z, z)?;
    Ok(ColumnValue::Space(at, z))
}
