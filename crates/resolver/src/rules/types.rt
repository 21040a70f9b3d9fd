// The rules on types: of a domain, of an attribute, and of the attributes of a line.
ghost use Rattle.std.specs.Prelude.{◌++◌, OnOk};
ghost use Rattle.std.specs.Option.{option_map};
ghost use Rattle.ili_grammar.specs.Values.{ident_of, decimal_of, element_of, elements_of, type_of};
ghost use Rattle.ili_grammar.specs.Values.{line_of, attribute_of, attributes_of};
ghost use Rattle.resolver.specs.FaultViews.{Reports};
ghost use Rattle.resolver.specs.ScopeViews.{scope_of};
ghost use Rattle.ili_grammar.specs.Limits.{IsSmallType, IsSmallLine, IsSmallAttribute};
ghost use Rattle.ili_grammar.specs.Limits.{AreSmallAttributes};
ghost use Rattle.resolver.specs.Limits.{IsBoundedScope, IsSmallOverlap};
ghost use Rattle.resolver.specs.Rules.{kind_faults, vertex_faults, element_names, twice_in};
ghost use Rattle.resolver.specs.Rules.{element_faults, parts_faults, line_attribute_fault};
ghost use Rattle.resolver.specs.Rules.{line_attribute_faults, plain_faults, type_faults};
ghost use Rattle.resolver.specs.Rules.{attribute_faults, line_faults};

use super::lines::{is_long_overlap, stands_for_line, suits};
use super::names::{check_elements, check_names, check_reference, check_type_name};
use super::numbers::check_numbers;
use crate::earliest::Earliest;
use crate::faults::ModelCode;
use crate::numbers::{is_text_length, is_wide};
use crate::scope::Scope;
use crate::shape::Shape;
use ili_grammar::{AttributeSyntax, Content, Decimal, Element, Ident, LineSyntax, TypeSyntax};
use ports::Memory;
use std::alloc::Global;

// Checks vertices of a type.
#[tactic(auto, using(crate::proofs::Hints::first_append))]
fn check_vertex_type<'a>(
    kind: &'a TypeSyntax,
    owner: &'a Ident,
    shape: Shape,
    vertex: &'a Ident,
    overlap: Option<Decimal>,
    earliest: &mut Earliest<'a>,
)
    requires kind { IsSmallType (type_of kind.now) }
    requires overlap { IsSmallOverlap (option_map decimal_of overlap) }
    ensures { Reports earliest.old earliest.new
        (kind_faults (ident_of owner.now) shape (ident_of vertex.now)
        (option_map decimal_of overlap) (type_of kind.now)) }
{
    earliest.report(is_long_overlap(overlap, kind), ModelCode::Decimals, owner);
    earliest.report(!suits(shape, kind), ModelCode::NotCoord, vertex);
    let wide = matches!(shape, Shape::Area) && is_wide(kind);
    earliest.report(wide, ModelCode::Wide, vertex);
}

// Checks the vertices of a line.
#[tactic(auto, using(crate::proofs::Hints::first_append, crate::proofs::Hints::name_small))]
fn check_vertex<'a>(
    scope: &Scope<'_, 'a>,
    owner: &'a Ident,
    shape: Shape,
    vertex: &'a Ident,
    overlap: Option<Decimal>,
    earliest: &mut Earliest<'a>,
)
    requires scope { IsBoundedScope (scope_of scope.now) }
    requires overlap { IsSmallOverlap (option_map decimal_of overlap) }
    ensures { Reports earliest.old earliest.new
        (vertex_faults (scope_of scope.now) (ident_of owner.now) shape (ident_of vertex.now)
        (option_map decimal_of overlap)) }
{
    check_type_name(scope, vertex, earliest);
    if let Some(meaning) = scope.resolve_name(vertex.text.bytes()) {
        check_vertex_type(
            meaning.counted.kind,
            owner,
            shape,
            vertex,
            overlap,
            earliest,
        );
    }
}

// Reports an attribute of LINEATTR whose type is a line.
#[tactic(auto, using(crate::proofs::Hints::attribute_out))]
fn check_line_attribute<'a>(
    scope: &Scope<'_, 'a>,
    attribute: &'a AttributeSyntax,
    earliest: &mut Earliest<'a>,
)
    ensures { Reports earliest.old earliest.new
        (line_attribute_fault (scope_of scope.now) (attribute_of attribute.now)) }
{
    let line = stands_for_line(scope, &attribute.content);
    earliest.report(line, ModelCode::LineAttr, &attribute.name);
}

// Reports each attribute of LINEATTR whose type is a line.
fn check_line_attributes<'a>(
    scope: &Scope<'_, 'a>,
    attributes: &'a [AttributeSyntax],
    earliest: &mut Earliest<'a>,
)
    ensures { Reports earliest.old earliest.new
        (line_attribute_faults (scope_of scope.now) (attributes_of attributes.now)) }
{
    for attribute in attributes {
        check_line_attribute(scope, attribute, earliest);
    }
}

// Reports each element that has the name of an earlier one of its list, in the parts of an element.
fn check_parts<'a>(
    alloc: Global,
    element: &'a Element,
    earliest: &mut Earliest<'a>,
) -> Result<(), Memory>
    ensures { OnOk result (Reports earliest.old earliest.new
        (element_faults (element_of element.now))) }
{
    check_elements(alloc, &element.parts, earliest)?;
    for part in &element.parts {
        check_parts(alloc, part, earliest)?;
    }
    Ok(())
}

// Checks an enumeration.
#[tactic(auto, using(crate::proofs::Hints::first_append))]
fn check_enumeration<'a>(
    alloc: Global,
    elements: &'a [Element],
    earliest: &mut Earliest<'a>,
) -> Result<(), Memory>
    ensures { OnOk result (Reports earliest.old earliest.new
        (twice_in (element_names (elements_of elements.now))
        ++ parts_faults (elements_of elements.now))) }
{
    check_elements(alloc, elements, earliest)?;
    for element in elements {
        check_parts(alloc, element, earliest)?;
    }
    Ok(())
}

// Checks a type that is no line.
fn check_plain_type<'a>(
    alloc: Global,
    kind: &'a TypeSyntax,
    owner: &'a Ident,
    scope: &Scope<'_, 'a>,
    earliest: &mut Earliest<'a>,
) -> Result<(), Memory>
    requires { IsSmallType (type_of kind.now) }
    ensures { OnOk result (Reports earliest.old earliest.new
        (plain_faults (scope_of scope.now) (ident_of owner.now) (type_of kind.now))) }
{
    match kind {
        TypeSyntax::Enumeration(elements) => return check_enumeration(alloc, elements, earliest),
        TypeSyntax::Named(name) => check_type_name(scope, name, earliest),
        TypeSyntax::Text(length) => {
            earliest.report(!is_text_length(*length), ModelCode::Bounds, owner);
        }
        _ => check_numbers(owner, kind, earliest),
    }
    Ok(())
}

/// Checks a type that is written at the attribute or domain `owner`.
#[cycle(rules)]
pub fn check_type<'a>(
    alloc: Global,
    kind: &'a TypeSyntax,
    owner: &'a Ident,
    scope: &Scope<'_, 'a>,
    earliest: &mut Earliest<'a>,
) -> Result<(), Memory>
    requires kind { IsSmallType (type_of kind.now) }
    requires scope { IsBoundedScope (scope_of scope.now) }
    ensures { OnOk result (Reports earliest.old earliest.new
        (type_faults (scope_of scope.now) (ident_of owner.now) (type_of kind.now))) }
{
    match kind {
        TypeSyntax::Polyline(line) => {
            check_line(alloc, line, owner, Shape::Polyline, scope, earliest)
        }
        TypeSyntax::Surface(line) => {
            check_line(alloc, line, owner, Shape::Surface, scope, earliest)
        }
        TypeSyntax::Area(line) => check_line(alloc, line, owner, Shape::Area, scope, earliest),
        _ => check_plain_type(alloc, kind, owner, scope, earliest),
    }
}

// Checks a line that is written at `owner`.
#[tactic(auto, using(crate::proofs::Hints::short_first))]
#[cycle(rules)]
fn check_line<'a>(
    alloc: Global,
    line: &'a LineSyntax,
    owner: &'a Ident,
    shape: Shape,
    scope: &Scope<'_, 'a>,
    earliest: &mut Earliest<'a>,
) -> Result<(), Memory>
    requires line { IsSmallLine (line_of line.now) }
    requires scope { IsBoundedScope (scope_of scope.now) }
    ensures { OnOk result (Reports earliest.old earliest.new
        (line_faults (scope_of scope.now) (ident_of owner.now) shape (line_of line.now))) }
{
    check_vertex(scope, owner, shape, &line.vertex, line.overlap, earliest);
    check_names(alloc, &line.attributes, &line.idents, earliest)?;
    check_line_attributes(scope, &line.attributes, earliest);
    for attribute in &line.attributes {
        check_attribute(alloc, attribute, scope, earliest)?;
    }
    Ok(())
}

/// Checks an attribute.
#[cycle(rules)]
pub fn check_attribute<'a>(
    alloc: Global,
    attribute: &'a AttributeSyntax,
    scope: &Scope<'_, 'a>,
    earliest: &mut Earliest<'a>,
) -> Result<(), Memory>
    requires attribute { IsSmallAttribute (attribute_of attribute.now) }
    requires scope { IsBoundedScope (scope_of scope.now) }
    ensures { OnOk result (Reports earliest.old earliest.new
        (attribute_faults (scope_of scope.now) (attribute_of attribute.now))) }
{
    match &attribute.content {
        Content::Value(kind) => check_type(alloc, kind, &attribute.name, scope, earliest),
        Content::Reference(name) => {
            check_reference(scope, name, earliest);
            Ok(())
        }
    }
}
