// What an attribute gives the tables of a transfer.
ghost use Rattle.std.specs.Prelude.{◌≡◌, ◌≤◌, ◌+◌, ◌++◌, [], ◌∷◌, length, map, IfOk, MatchOption};
ghost use Rattle.std.specs.Option.{option_to_list, option_map};
ghost use Rattle.std.specs.Result.{OnOk};
ghost use Rattle.std.specs.List.{flat_map};
ghost use Rattle.resolver.specs.Resolved.{an_attribute, Area, Surface, a_part};
ghost use Rattle.resolver.specs.Values.{attribute_of, attributes_of, form_of, line_of, part_of};
ghost use Rattle.resolver.specs.Values.{places_of};
ghost use Rattle.table_layout.specs.Attributes.{form_in, columns_of, lines_of, place_of};
ghost use Rattle.table_layout.specs.Tables.{area_count, surface_count};
ghost use Rattle.table_layout.specs.Values.{columns_view, lines_view};

use super::layouts::Column;
use ports::{Memory, Name};
use resolver::{Attribute, AttributeForm, Form, LineForm, LinePart, Places};
use std::alloc::Global;

// The form as it stands in a column, where a reference names a table of the whole list.
fn form_among(form: Form, mains: &[u32]) -> Form
    ensures { form_of result ≡ form_in mains.now (form_of form) }
{
    match form {
        Form::Reference(table) => Form::Reference(mains.get(table as usize).copied().unwrap_or(0)),
        _ => form,
    }
}

/// A copy of a name.
pub fn copied(alloc: Global, name: &Name) -> Result<Name, Memory>
    ensures { IfOk result (λ copy. copy ≡ name.now) }
{
    Name::new(alloc, name.bytes())
}

/// A copy of a line, of that name.
pub fn copied_line(
    alloc: Global,
    name: &Name,
    line: &LineForm,
    optional: bool,
) -> Result<LineForm, Memory>
    ensures { IfOk result (λ copy. line_of copy
        ≡ record (line_of line.now) { name = name.now; optional = optional }) }
{
    Ok(LineForm {
        name: copied(alloc, name)?,
        optional,
        arcs: line.arcs,
        window: line.window,
        height: line.height,
        overlap: line.overlap,
    })
}

// Adds the column of a value, a reference or an AREA.
fn add_column(
    alloc: Global,
    attribute: &Attribute,
    mains: &[u32],
    columns: &mut Vec<Column>,
) -> Result<(), Memory>
    ensures { OnOk result (columns_view columns.new.items ≡ columns_view columns.old.items
        ++ columns_of mains.now (attribute_of attribute.now)) }
{
    let form = match &attribute.content {
        AttributeForm::Value(form) => form_among(*form, mains),
        AttributeForm::Area(line, _) => Form::AreaPoint(line.window),
        AttributeForm::Polyline(_) | AttributeForm::Surface(_, _) => return Ok(()),
    };
    let name = copied(alloc, &attribute.name)?;
    let optional = attribute.optional;
    columns.push(Column {
        name,
        optional,
        form,
    })?;
    Ok(())
}

// Adds the line of a POLYLINE.
fn add_line(alloc: Global, attribute: &Attribute, lines: &mut Vec<LineForm>) -> Result<(), Memory>
    ensures { OnOk result (lines_view lines.new.items ≡ lines_view lines.old.items
        ++ lines_of (attribute_of attribute.now)) }
{
    if let AttributeForm::Polyline(line) = &attribute.content {
        lines.push(copied_line(alloc, &line.name, line, line.optional)?)?;
    }
    Ok(())
}

/// The place of an attribute in IDENT lists, with `all` columns in the table, and `column` columns
/// and `line` lines before it: its column, or for a POLYLINE `all` and its line; none for a
/// SURFACE.
pub fn place(attribute: &Attribute, all: u32, column: u32, line: u32) -> Option<u32>
    requires { all + line ≤ 4294967295 }
    ensures { result ≡ place_of all column line (attribute_of attribute.now) }
{
    match &attribute.content {
        AttributeForm::Value(_) | AttributeForm::Area(_, _) => Some(column),
        AttributeForm::Polyline(_) => Some(all + line),
        AttributeForm::Surface(_, _) => None,
    }
}

/// The line and the own part of an AREA, if the attribute is one.
pub fn area(attribute: &Attribute) -> Option<(&LineForm, &LinePart)>
    ensures { MatchOption result (area_count (attribute_of attribute.now) ≡ 0)
        (λ r. attribute_of attribute.now
        ≡ an_attribute attribute.now.name attribute.now.optional
        (Area (line_of r.0.now) (part_of r.1.now))) }
{
    match &attribute.content {
        AttributeForm::Area(line, part) => Some((line, part)),
        _ => None,
    }
}

/// The line and the own part of a SURFACE, if the attribute is one.
pub fn surface(attribute: &Attribute) -> Option<(&LineForm, &LinePart)>
    ensures { MatchOption result (surface_count (attribute_of attribute.now) ≡ 0)
        (λ r. attribute_of attribute.now
        ≡ an_attribute attribute.now.name attribute.now.optional
        (Surface (line_of r.0.now) (part_of r.1.now))) }
{
    match &attribute.content {
        AttributeForm::Surface(line, part) => Some((line, part)),
        _ => None,
    }
}

/// The attributes and the IDENT lists that lines have of their own.
pub fn own(part: &LinePart) -> (&[Attribute], &[Places])
    ensures { part_of part.now ≡ a_part (attributes_of result.0.now) (places_of result.1.now) }
{
    (&part.attributes, &part.idents)
}

// ---- all attributes of a list

/// The columns of all attributes, added in their order.
pub fn add_columns(
    alloc: Global,
    attributes: &[Attribute],
    mains: &[u32],
    columns: &mut Vec<Column>,
) -> Result<(), Memory>
    ensures { OnOk result (columns_view columns.new.items ≡ columns_view columns.old.items
        ++ flat_map (columns_of mains.now) (map attribute_of attributes.now)) }
{
    for attribute in attributes {
        add_column(alloc, attribute, mains, columns)?;
    }
    Ok(())
}

/// The lines of all attributes in their order.
pub fn lines(alloc: Global, attributes: &[Attribute]) -> Result<Vec<LineForm>, Memory>
    ensures { IfOk result (λ lines. lines_view lines.items
        ≡ flat_map lines_of (map attribute_of attributes.now)) }
{
    let mut lines = Vec::new(alloc);
    for attribute in attributes {
        add_line(alloc, attribute, &mut lines)?;
    }
    Ok(lines)
}

// How many columns the attribute gives, one or none.
pub fn columns_given(attribute: &Attribute) -> u32
    ensures value { result ≡ length (columns_of [] (attribute_of attribute.now)) }
    ensures few { result ≤ 1 }
{
    match &attribute.content {
        AttributeForm::Value(_) | AttributeForm::Area(_, _) => 1,
        AttributeForm::Polyline(_) | AttributeForm::Surface(_, _) => 0,
    }
}

// How many lines the attribute gives, one or none.
pub fn lines_given(attribute: &Attribute) -> u32
    ensures value { result ≡ length (lines_of (attribute_of attribute.now)) }
    ensures few { result ≤ 1 }
{
    match &attribute.content {
        AttributeForm::Polyline(_) => 1,
        AttributeForm::Value(_) | AttributeForm::Area(_, _) | AttributeForm::Surface(_, _) => 0,
    }
}

// How many columns all attributes give.
pub fn columns_in(attributes: &[Attribute]) -> u32
    requires few { length attributes.now ≤ 4194304 }
    ensures value { result ≡ length (flat_map (columns_of []) (map attribute_of attributes.now)) }
    ensures few { result ≤ length attributes.now }
{
    let mut columns = 0;
    for attribute in attributes {
        columns += columns_given(attribute);
    }
    columns
}
