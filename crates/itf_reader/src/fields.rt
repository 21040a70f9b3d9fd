// Copies of the fields of a line.
ghost use Rattle.std.specs.Prelude.{◌≡◌, ◌++◌, IfOk, OnOk};

use itf_lines::Field;
use ports::Memory;
use std::alloc::Global;

fn copy(alloc: Global, field: &Field) -> Result<Field, Memory>
    ensures { IfOk result (λ copy. copy ≡ field.now) }
{
    Field::new(alloc, field.bytes())
}

/// Adds copies of fields after others.
pub fn add_copies(alloc: Global, into: &mut Vec<Field>, fields: &[Field]) -> Result<(), Memory>
    ensures { OnOk result (into.new.items ≡ into.old.items ++ fields.now) }
{
    for field in fields {
        into.push(copy(alloc, field)?)?;
    }
    Ok(())
}
