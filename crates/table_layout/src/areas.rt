// The areas of a transfer: the AREA attributes, in the order of their tables.
ghost use Rattle.std.specs.Prelude.{◌≡◌, ◌≤◌, ◌++◌, length, Option, IfOk, option_and_then};
ghost use Rattle.std.specs.Prelude.{slice_get};
ghost use Rattle.std.specs.Option.{option_map, option_copied};
ghost use Rattle.std.specs.Result.{OnOk};
ghost use Rattle.table_layout.specs.Layouts.{Column, Table};
ghost use Rattle.table_layout.specs.Tables.{area_of, areas_from, column_at, column_name};
ghost use Rattle.table_layout.specs.Values.{areas_view, column_view, role_view, tables_view};

use super::attributes::copied;
use super::layouts::{AreaOf, Column, Role, Table, TableId};
use ports::{Memory, Name};
use std::alloc::Global;

/// One area for each helper table of an AREA.
pub fn areas(alloc: Global, tables: &[Table]) -> Result<Vec<AreaOf>, Memory>
    requires few { length tables.now ≤ 4194304 }
    ensures { IfOk result (λ areas. areas_view areas.items
        ≡ areas_from (tables_view tables.now) 0 (tables_view tables.now)) }
{
    let mut areas = Vec::new(alloc);
    for (number, table) in tables.iter().enumerate() {
        add_area(alloc, tables, number as u32, table.role, &mut areas)?;
    }
    Ok(areas)
}

// Adds the area of a table with this number and role, if it holds the lines of an AREA.
fn add_area(
    alloc: Global,
    tables: &[Table],
    number: u32,
    role: Role,
    areas: &mut Vec<AreaOf>,
) -> Result<(), Memory>
    ensures { OnOk result (areas_view areas.new.items ≡ areas_view areas.old.items
        ++ area_of (tables_view tables.now) number (role_view role)) }
{
    if let Role::AreaLines { main, column } = role {
        areas.push(AreaOf {
            lines: TableId(number),
            main,
            column,
            name: column_name(alloc, tables, main, column)?,
        })?;
    }
    Ok(())
}

// The name of a column, which is that of its attribute.
fn column_name(alloc: Global, tables: &[Table], main: TableId, column: u32) -> Result<Name, Memory>
    ensures { IfOk result (λ name. name ≡ column_name (tables_view tables.now) main.0 column) }
{
    match column_at(tables, main, column) {
        Some(column) => copied(alloc, &column.name),
        None => Name::new(alloc, &[]),
    }
}

fn column_at(tables: &[Table], main: TableId, column: u32) -> Option<&Column>
    ensures { option_map column_view (option_copied result)
        ≡ column_at (tables_view tables.now) main.0 column }
{
    match tables.get(main.0 as usize) {
        Some(table) => table.columns.get(column as usize),
        None => None,
    }
}
