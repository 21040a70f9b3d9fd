// The tables that stand for a declared table: its helper tables, and itself between them.
ghost use Rattle.std.specs.Prelude.{◌≡◌, ◌≤◌, ◌+◌, ◌++◌, [], ◌∷◌, length, map, IfOk};
ghost use Rattle.std.specs.Result.{OnOk};
ghost use Rattle.std.specs.List.{All, flat_map};
ghost use Rattle.resolver.specs.Values.{attribute_of, line_of, part_of, places_of};
ghost use Rattle.resolver.specs.Sound.{listed};
ghost use Rattle.table_layout.specs.Few.{AreFew, HasFew, IsSmallPart};
ghost use Rattle.table_layout.specs.Tables.{area_count, areas_in, surface_count, surfaces_in};
ghost use Rattle.table_layout.specs.Tables.{boundary, helper_table, area_table, area_tables};
ghost use Rattle.table_layout.specs.Tables.{owner_column, surface_table, main_table, with_helpers};
ghost use Rattle.table_layout.specs.Values.{column_view, columns_view, lines_view, role_view};
ghost use Rattle.table_layout.specs.Values.{owner_view, table_view, tables_view};

use super::attributes::{
    add_columns, area, columns_given, copied, copied_line, lines, own, surface,
};
use super::idents::idents;
use super::layouts::{Column, Role, Table, TableId};
use ports::{Memory, Name};
use resolver::{Attribute, Form, LineForm, LinePart, ModelTable, helper_name};
use std::alloc::Global;

/// A declared table: the number of its topic, the numbers of the topic's main tables in the whole
/// list, its own number there, and its name.
#[derive(Clone, Copy)]
pub struct Owner<'a> {
    pub topic: u32,
    pub mains: &'a [u32],
    pub main: u32,
    pub name: &'a Name,
}

/// Adds the helper tables of the AREA attributes, the table itself, and the helper tables of the
/// SURFACE attributes.
pub fn add_tables(
    alloc: Global,
    owner: Owner<'_>,
    table: &ModelTable,
    tables: &mut Vec<Table>,
) -> Result<(), Memory>
    requires { AreFew (map attribute_of table.now.attributes.items) }
    ensures { OnOk result (tables_view tables.new.items ≡ tables_view tables.old.items
        ++ with_helpers (owner_view owner.entry) (map attribute_of table.now.attributes.items)
        (places_of table.now.idents.items)) }
{
    add_area_tables(alloc, owner, &table.attributes, tables)?;
    tables.push(main_table(alloc, owner, table)?)?;
    add_surface_tables(alloc, owner, &table.attributes, tables)
}

// The declared table itself.
fn main_table(alloc: Global, owner: Owner<'_>, table: &ModelTable) -> Result<Table, Memory>
    requires { AreFew (map attribute_of table.now.attributes.items) }
    ensures { IfOk result (λ t. table_view t
        ≡ main_table (owner_view owner.entry) (map attribute_of table.now.attributes.items)
        (places_of table.now.idents.items)) }
{
    let mut columns = Vec::new(alloc);
    add_columns(alloc, &table.attributes, owner.mains, &mut columns)?;
    Ok(Table {
        topic: owner.topic,
        name: copied(alloc, owner.name)?,
        role: Role::Main,
        columns,
        lines: lines(alloc, &table.attributes)?,
        idents: idents(alloc, 0, &table.attributes, &table.idents)?,
    })
}

// ---- helper tables

// The one line of a helper table, which has the name of the attribute and may not be missing.
fn boundary(alloc: Global, name: &Name, line: &LineForm) -> Result<Vec<LineForm>, Memory>
    ensures { IfOk result (λ lines. lines_view lines.items
        ≡ boundary name.now (line_of line.now)) }
{
    let mut lines = Vec::new(alloc);
    lines.push(copied_line(alloc, name, line, false)?)?;
    Ok(lines)
}

// The table of the lines of an attribute of that name: these columns, and then those that the
// lines have of their own.
fn helper_table(
    alloc: Global,
    owner: Owner<'_>,
    role: Role,
    columns: Vec<Column>,
    name: &Name,
    line: &LineForm,
    part: &LinePart,
) -> Result<Table, Memory>
    requires first { length columns.items ≤ 1 }
    requires small { IsSmallPart (part_of part.now) }
    ensures { IfOk result (λ t. table_view t
        ≡ helper_table (owner_view owner.entry) (role_view role) (columns_view columns.items)
        name.now (line_of line.now) (part_of part.now)) }
{
    let (attributes, lists) = own(part);
    let idents = idents(alloc, columns.len() as u32, attributes, lists)?;
    let mut columns = columns;
    add_columns(alloc, attributes, owner.mains, &mut columns)?;
    Ok(Table {
        topic: owner.topic,
        name: helper_name(alloc, owner.name.bytes(), name.bytes())?,
        role,
        columns,
        lines: boundary(alloc, name, line)?,
        idents,
    })
}

fn add_area_tables(
    alloc: Global,
    owner: Owner<'_>,
    attributes: &[Attribute],
    tables: &mut Vec<Table>,
) -> Result<(), Memory>
    requires { AreFew (map attribute_of attributes.now) }
    ensures { OnOk result (tables_view tables.new.items ≡ tables_view tables.old.items
        ++ area_tables (owner_view owner.entry) 0 (map attribute_of attributes.now)) }
{
    let mut column = 0;
    for attribute in attributes {
        add_area_table(alloc, owner, column, attribute, tables)?;
        column += columns_given(attribute);
    }
    Ok(())
}

// The table of an AREA attribute, which is this column of its table.
fn add_area_table(
    alloc: Global,
    owner: Owner<'_>,
    column: u32,
    attribute: &Attribute,
    tables: &mut Vec<Table>,
) -> Result<(), Memory>
    requires { HasFew (attribute_of attribute.now) }
    ensures { OnOk result (tables_view tables.new.items ≡ tables_view tables.old.items
        ++ area_table (owner_view owner.entry) column (attribute_of attribute.now)) }
{
    if let Some((line, part)) = area(attribute) {
        let main = TableId(owner.main);
        let role = Role::AreaLines { main, column };
        let columns = Vec::new(alloc);
        let name = &attribute.name;
        tables.push(helper_table(alloc, owner, role, columns, name, line, part)?)?;
    }
    Ok(())
}

fn add_surface_tables(
    alloc: Global,
    owner: Owner<'_>,
    attributes: &[Attribute],
    tables: &mut Vec<Table>,
) -> Result<(), Memory>
    requires { AreFew (map attribute_of attributes.now) }
    ensures { OnOk result (tables_view tables.new.items ≡ tables_view tables.old.items
        ++ flat_map (surface_table (owner_view owner.entry)) (map attribute_of attributes.now)) }
{
    for attribute in attributes {
        add_surface_table(alloc, owner, attribute, tables)?;
    }
    Ok(())
}

// The table of a SURFACE attribute, which refers to its table in column 0.
fn add_surface_table(
    alloc: Global,
    owner: Owner<'_>,
    attribute: &Attribute,
    tables: &mut Vec<Table>,
) -> Result<(), Memory>
    requires { HasFew (attribute_of attribute.now) }
    ensures { OnOk result (tables_view tables.new.items ≡ tables_view tables.old.items
        ++ surface_table (owner_view owner.entry) (attribute_of attribute.now)) }
{
    if let Some((line, part)) = surface(attribute) {
        let main = TableId(owner.main);
        let role = Role::SurfaceLines { main };
        let mut columns = Vec::new(alloc);
        columns.push(owner_column(alloc, owner)?)?;
        let name = &attribute.name;
        tables.push(helper_table(alloc, owner, role, columns, name, line, part)?)?;
    }
    Ok(())
}

// A mandatory reference to the main table, by its name.
fn owner_column(alloc: Global, owner: Owner<'_>) -> Result<Column, Memory>
    ensures { IfOk result (λ column. column_view column ≡ owner_column (owner_view owner.entry)) }
{
    Ok(Column {
        name: copied(alloc, owner.name)?,
        optional: false,
        form: Form::Reference(owner.main),
    })
}

// ---- how many helper tables there are

/// How many of the attributes are an AREA.
pub fn areas_in(attributes: &[Attribute]) -> u32
    requires few { length attributes.now ≤ 4194304 }
    ensures value { result ≡ areas_in (map attribute_of attributes.now) }
    ensures few { result ≤ length attributes.now }
{
    let mut areas = 0;
    for attribute in attributes {
        if area(attribute).is_some() {
            areas += 1;
        }
    }
    areas
}

/// How many of the attributes are a SURFACE.
pub fn surfaces_in(attributes: &[Attribute]) -> u32
    requires few { length attributes.now ≤ 4194304 }
    ensures value { result ≡ surfaces_in (map attribute_of attributes.now) }
    ensures few { result ≤ length attributes.now }
{
    let mut surfaces = 0;
    for attribute in attributes {
        if surface(attribute).is_some() {
            surfaces += 1;
        }
    }
    surfaces
}
