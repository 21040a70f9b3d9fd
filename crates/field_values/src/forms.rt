// The form of a column: how many words it has.
ghost use Rattle.std.specs.Prelude.{◌≡◌};
ghost use Rattle.resolver.specs.Values.{form_of};
ghost use Rattle.field_values.specs.Fields.{width};

use resolver::Form;

/// How many words a column of this form has: one for each axis of a coordinate, else one.
pub fn width(form: &Form) -> usize
    ensures { result ≡ width (form_of form.now) }
{
    match form {
        Form::Coord2(_) | Form::AreaPoint(_) => 2,
        Form::Coord3(_) => 3,
        _ => 1,
    }
}
