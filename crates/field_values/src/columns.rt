// The words of a column by its form.
ghost use Rattle.std.specs.Prelude.{◌≡◌, length};
ghost use Rattle.std.specs.List.{list_any, list_all};
ghost use Rattle.ili_grammar.specs.Values.{codes_of};
ghost use Rattle.resolver.specs.Values.{form_of};
ghost use Rattle.field_values.specs.Fields.{is_date, is_leaf, is_text, is_undefined, value_fault};
ghost use Rattle.field_values.specs.Fields.{width};
ghost use Rattle.field_values.specs.Readings.{column_reading, reading, value_of};
ghost use Rattle.field_values.specs.Views.{column_view, word_reading};

use super::leaves::is_leaf;
use super::numbers::{read_plane, read_single, read_space};
use super::value::{ColumnValue, ValueFault};
use super::words::{is_date, is_text, is_undefined};
use ili_grammar::Codes;
use itf_lines::Field;
use resolver::Form;

/// What the words of a mandatory column stand for by its form, or the first rule that they break.
///
/// There are two words for a coordinate of two axes and for the point of an area, three for a
/// coordinate of three axes, and one for each other form.
pub fn read_column(form: &Form, codes: &Codes, words: &[Field]) -> Result<ColumnValue, ValueFault>
    requires { length words.now ≡ width (form_of form.now) }
    ensures { column_view words.now result ≡ column_reading (form_of form.now) (codes_of codes.now)
        words.now }
{
    if holds_undefined(codes, words) {
        return Err(ValueFault::Undefined);
    }
    read_value(form, words)
}

fn holds_undefined(codes: &Codes, words: &[Field]) -> bool
    ensures { result ≡ list_any (is_undefined (codes_of codes.now)) words.now }
{
    words.iter().any(|word| is_undefined(codes, word.bytes()))
}

fn read_value(form: &Form, words: &[Field]) -> Result<ColumnValue, ValueFault>
    requires { length words.now ≡ width (form_of form.now) }
    ensures { column_view words.now result ≡ reading (value_fault (form_of form.now) words.now)
        (value_of (form_of form.now) words.now) }
{
    match form {
        Form::Range(limits) => read_single(limits, words),
        Form::Dim1(limits) => read_single(limits, words),
        Form::Dim2(limits) => read_single(limits, words),
        Form::Radians(limits) => read_single(limits, words),
        Form::Grads(limits) => read_single(limits, words),
        Form::Degrees(limits) => read_single(limits, words),
        Form::Coord2(window) => read_plane(window, words),
        Form::AreaPoint(window) => read_plane(window, words),
        Form::Coord3(block) => read_space(block, words),
        Form::Text(most) => read_word(are_texts(*most, words), ValueFault::Text),
        Form::Date => read_word(are_dates(words), ValueFault::Date),
        Form::Enumeration(leaves) => read_word(are_leaves(*leaves, words), ValueFault::Enum),
        Form::HAlignment => read_word(are_leaves(3, words), ValueFault::Enum),
        Form::VAlignment => read_word(are_leaves(5, words), ValueFault::Enum),
        Form::Reference(_) => Ok(ColumnValue::Word),
    }
}

fn are_texts(most: u32, words: &[Field]) -> bool
    ensures { result ≡ list_all (is_text most) words.now }
{
    words.iter().all(|word| is_text(most, word.bytes()))
}

fn are_dates(words: &[Field]) -> bool
    ensures { result ≡ list_all is_date words.now }
{
    words.iter().all(|word| is_date(word.bytes()))
}

fn are_leaves(leaves: u32, words: &[Field]) -> bool
    ensures { result ≡ list_all (is_leaf leaves) words.now }
{
    words.iter().all(|word| is_leaf(leaves, word.bytes()))
}

// A word that stands for itself where it passes its test.
fn read_word(passes: bool, fault: ValueFault) -> Result<ColumnValue, ValueFault>
    ensures { result ≡ word_reading passes fault }
{
    if passes {
        Ok(ColumnValue::Word)
    } else {
        Err(fault)
    }
}
