// What attributes stand for, of tables and of the lines of a boundary.
ghost use Rattle.std.specs.Prelude.{◌≡◌, ◌≤◌, IfOk};
ghost use Rattle.ili_grammar.specs.Limits.{IsSmallLine, line_names};
ghost use Rattle.ili_grammar.specs.Values.{attribute_of, attributes_of, content_of, lists_of};
ghost use Rattle.ili_grammar.specs.Values.{type_of, line_of};
ghost use Rattle.resolver.specs.Limits.{AreBounded, IsBounded, IsBoundedAttribute};
ghost use Rattle.resolver.specs.Limits.{IsBoundedContent, IsBoundedScope};
ghost use Rattle.resolver.specs.ScopeViews.{meaning_of, scope_of};
ghost use Rattle.resolver.specs.Models.{places, line_attribute, line_attributes, line_form};
ghost use Rattle.resolver.specs.Models.{line_part, type_form, content_form};
ghost use Rattle.resolver.specs.Models.{attribute, attributes};
ghost use Rattle.resolver.specs.Values.{attribute_of as resolved_attribute};
ghost use Rattle.resolver.specs.Values.{attributes_of as resolved_attributes};
ghost use Rattle.resolver.specs.Values.{content_of as resolved_content, line_of as resolved_line};
ghost use Rattle.resolver.specs.Values.{part_of, places_of};

use super::forms::form;
use super::line_forms::line_form;
use super::values::{places, table_number, value};
use crate::models::{Attribute, AttributeForm, Form, LineForm, LinePart, Places};
use crate::scope::name_index::NameIndex;
use crate::scope::{Meaning, Scope};
use ili_grammar::{AttributeSyntax, Content, Ident, IdentList, LineSyntax, TypeSyntax};
use ports::{Memory, Name};
use std::alloc::Global;

/// The numbers of the attributes in IDENT lists.
#[tactic(auto, using(crate::proofs::Hints::few_named, crate::proofs::Hints::attributes_read))]
pub fn ident_places(
    alloc: Global,
    attributes: &[AttributeSyntax],
    lists: &[IdentList],
) -> Result<Vec<Places>, Memory>
    requires { AreBounded (attributes_of attributes.now) }
    ensures { IfOk result (λ ps. places_of ps.items
        ≡ places (attributes_of attributes.now) (lists_of lists.now)) }
{
    let names = NameIndex::of(alloc, attributes)?;
    places(alloc, &names, lists)
}

// What an attribute of a boundary's lines stands for.
#[tactic(auto, using(crate::proofs::Hints::bounded_content, crate::proofs::Hints::attribute_out))]
fn line_attribute<'a>(
    alloc: Global,
    scope: &Scope<'_, 'a>,
    attribute: &'a AttributeSyntax,
) -> Result<Attribute, Memory>
    requires scope { IsBoundedScope (scope_of scope.now) }
    requires attribute { IsBoundedAttribute (attribute_of attribute.now) }
    ensures { IfOk result (λ a. resolved_attribute a
        ≡ line_attribute (scope_of scope.now) (attribute_of attribute.now)) }
{
    let form = value(scope, &attribute.content);
    Ok(Attribute {
        name: Name::new(alloc, attribute.name.text.bytes())?,
        optional: attribute.optional,
        content: AttributeForm::Value(form),
    })
}

// What the attributes of a boundary's lines stand for.
fn line_attributes<'a>(
    alloc: Global,
    scope: &Scope<'_, 'a>,
    attributes: &'a [AttributeSyntax],
) -> Result<Vec<Attribute>, Memory>
    requires scope { IsBoundedScope (scope_of scope.now) }
    requires attributes { AreBounded (attributes_of attributes.now) }
    ensures { IfOk result (λ done. resolved_attributes done.items
        ≡ line_attributes (scope_of scope.now) (attributes_of attributes.now)) }
{
    let mut done = Vec::new(alloc);
    for attribute in attributes {
        done.push(line_attribute(alloc, scope, attribute)?)?;
    }
    Ok(done)
}

// What the LINEATTR part of a boundary stands for.
fn line_part<'a>(
    alloc: Global,
    scope: &Scope<'_, 'a>,
    line: &'a LineSyntax,
) -> Result<LinePart, Memory>
    requires scope { IsBoundedScope (scope_of scope.now) }
    requires numbers { IsSmallLine (line_of line.now) }
    requires names { line_names (line_of line.now) ≤ 4194304 }
    ensures { IfOk result (λ p. part_of p ≡ line_part (scope_of scope.now) (line_of line.now)) }
{
    Ok(LinePart {
        idents: ident_places(alloc, &line.attributes, &line.idents)?,
        attributes: line_attributes(alloc, scope, &line.attributes)?,
    })
}

// What the lines of a boundary stand for, and what they have of their own.
fn boundary<'a>(
    alloc: Global,
    scope: &Scope<'_, 'a>,
    name: &Ident,
    optional: bool,
    line: &'a LineSyntax,
) -> Result<(LineForm, LinePart), Memory>
    requires scope { IsBoundedScope (scope_of scope.now) }
    requires numbers { IsSmallLine (line_of line.now) }
    requires names { line_names (line_of line.now) ≤ 4194304 }
    ensures form { IfOk result (λ b. resolved_line b.0
        ≡ line_form name.now.text optional (scope_of scope.now) (line_of line.now)) }
    ensures part { IfOk result (λ b. part_of b.1
        ≡ line_part (scope_of scope.now) (line_of line.now)) }
{
    let lines = line_form(alloc, scope, name, optional, line)?;
    let part = line_part(alloc, scope, line)?;
    Ok((lines, part))
}

// The form of an attribute of that name, by what its type stands for.
fn type_form(
    alloc: Global,
    name: &Ident,
    optional: bool,
    meaning: &Meaning<'_, '_>,
) -> Result<AttributeForm, Memory>
    requires scope { IsBoundedScope (meaning_of meaning.now).scope }
    requires kind { IsBounded (meaning_of meaning.now).kind }
    ensures { IfOk result (λ f. resolved_content f ≡ type_form name.now.text optional
        (meaning_of meaning.now).scope (meaning_of meaning.now).kind) }
{
    let scope = &meaning.scope;
    match meaning.counted.kind {
        TypeSyntax::Polyline(line) => {
            let lines = line_form(alloc, scope, name, optional, line)?;
            Ok(AttributeForm::Polyline(lines))
        }
        TypeSyntax::Surface(line) => {
            let (lines, part) = boundary(alloc, scope, name, optional, line)?;
            Ok(AttributeForm::Surface(lines, part))
        }
        TypeSyntax::Area(line) => {
            let (lines, part) = boundary(alloc, scope, name, optional, line)?;
            Ok(AttributeForm::Area(lines, part))
        }
        _ => Ok(AttributeForm::Value(form(&meaning.counted))),
    }
}

// What the content of an attribute of that name stands for.
#[tactic(auto, using(crate::proofs::Hints::scope_bounded))]
fn content_form<'a>(
    alloc: Global,
    scope: &Scope<'_, 'a>,
    name: &Ident,
    optional: bool,
    content: &'a Content,
) -> Result<AttributeForm, Memory>
    requires scope { IsBoundedScope (scope_of scope.now) }
    requires content { IsBoundedContent (content_of content.now) }
    ensures { IfOk result (λ f. resolved_content f
        ≡ content_form (scope_of scope.now) name.now.text optional (content_of content.now)) }
{
    match content {
        Content::Value(kind) => match scope.resolve_type(kind) {
            Some(meaning) => type_form(alloc, name, optional, &meaning),
            None => Ok(AttributeForm::Value(Form::Date)),
        },
        Content::Reference(table) => {
            let table = table_number(scope, table.text.bytes());
            Ok(AttributeForm::Value(Form::Reference(table)))
        }
    }
}

// What an attribute of a table stands for.
#[tactic(auto, using(crate::proofs::Hints::bounded_content, crate::proofs::Hints::attribute_out))]
fn attribute<'a>(
    alloc: Global,
    scope: &Scope<'_, 'a>,
    written: &'a AttributeSyntax,
) -> Result<Attribute, Memory>
    requires scope { IsBoundedScope (scope_of scope.now) }
    requires written { IsBoundedAttribute (attribute_of written.now) }
    ensures { IfOk result (λ a. resolved_attribute a
        ≡ attribute (scope_of scope.now) (attribute_of written.now)) }
{
    let (name, optional) = (&written.name, written.optional);
    Ok(Attribute {
        name: Name::new(alloc, name.text.bytes())?,
        optional,
        content: content_form(alloc, scope, name, optional, &written.content)?,
    })
}

/// What the attributes of a table stand for.
pub fn attributes<'a>(
    alloc: Global,
    scope: &Scope<'_, 'a>,
    written: &'a [AttributeSyntax],
) -> Result<Vec<Attribute>, Memory>
    requires scope { IsBoundedScope (scope_of scope.now) }
    requires written { AreBounded (attributes_of written.now) }
    ensures { IfOk result (λ done. resolved_attributes done.items
        ≡ attributes (scope_of scope.now) (attributes_of written.now)) }
{
    let mut done = Vec::new(alloc);
    for each in written {
        done.push(attribute(alloc, scope, each)?)?;
    }
    Ok(done)
}
