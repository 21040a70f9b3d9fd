// The words of a column and its form.
ghost use Rattle.std.specs.Prelude.{◌≡◌, ◌↔◌, length, None};
ghost use Rattle.ili_grammar.specs.Values.{codes_of};
ghost use Rattle.resolver.specs.Values.{form_of};
ghost use Rattle.field_values.specs.Fields.{width};
ghost use Rattle.field_values.specs.Meeting.{Meets};
ghost use Rattle.itf_reader.specs.RowFindings.{field_code};

use field_values::read_column;
use ili_grammar::Codes;
use itf_lines::Field;
use itf_reader::{Code, code_of};
use resolver::Form;

/// Why the words do not meet the form in a mandatory column, by the first test that fails.
///
/// There are two words for a coordinate of two axes and for the point of an area, three for a
/// coordinate of three axes, and one for each other form.
pub fn field_ok(form: &Form, codes: &Codes, words: &[Field]) -> Option<Code>
    requires { length words.now ≡ width (form_of form.now) }
    // The answer, as a function of the form, the codes and the words.
    ensures code { result ≡ field_code (form_of form.now) (codes_of codes.now) words.now }
    // There is none exactly where no word is undefined, and the words are a value of the form.
    ensures meets { (result ≡ None) ↔ Meets (form_of form.now) (codes_of codes.now) words.now }
{
    match read_column(form, codes, words) {
        Ok(_) => None,
        Err(fault) => Some(code_of(fault)),
    }
}
