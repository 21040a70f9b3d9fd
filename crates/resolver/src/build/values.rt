// What values and references stand for, and the numbers of names.
ghost use Rattle.std.specs.Prelude.{◌≡◌, ◌≤◌, length, map, IfOk};
ghost use Rattle.std.specs.Option.{unwrap_or};
ghost use Rattle.ili_grammar.specs.Values.{content_of, lists_of, names_of};
ghost use Rattle.resolver.specs.NameIndexes.{names_in};
ghost use Rattle.resolver.specs.Limits.{IsBoundedContent, IsBoundedScope};
ghost use Rattle.resolver.specs.Scopes.{place, texts};
ghost use Rattle.resolver.specs.ScopeViews.{scope_of};
ghost use Rattle.resolver.specs.Models.{numbers, value};
ghost use Rattle.resolver.specs.Values.{form_of, places_of};

use super::forms::form;
use crate::models::{Form, Places};
use crate::scope::Scope;
use crate::scope::name_index::NameIndex;
use ili_grammar::{Content, IdentList};
use ports::Memory;
use std::alloc::Global;

/// The number of a name among few, from 0; 0 where it is none of them.
pub fn number(names: &NameIndex<'_>, name: &[u8]) -> u32
    requires { length (names_in names.now) ≤ 4194304 }
    ensures { result ≡ unwrap_or (place name.now (texts (names_in names.now))) 0 }
{
    match names.place(name) {
        Some(place) => place as u32,
        None => 0,
    }
}

/// The number of the table of that name, from 0; 0 where there is none.
pub fn table_number(scope: &Scope<'_, '_>, name: &[u8]) -> u32
    requires { IsBoundedScope (scope_of scope.now) }
    ensures { result ≡ unwrap_or (place name.now (scope_of scope.now).tables) 0 }
{
    match scope.tables {
        Some(tables) => number(tables, name),
        None => 0,
    }
}

/// What a value or a reference stands for.
pub fn value<'a>(scope: &Scope<'_, 'a>, content: &'a Content) -> Form
    requires scope { IsBoundedScope (scope_of scope.now) }
    requires content { IsBoundedContent (content_of content.now) }
    ensures { form_of result ≡ value (scope_of scope.now) (content_of content.now) }
{
    match content {
        Content::Value(kind) => match scope.resolve_type(kind) {
            Some(meaning) => form(&meaning.counted),
            None => Form::Date,
        },
        Content::Reference(name) => Form::Reference(table_number(scope, name.text.bytes())),
    }
}

// The numbers of the attributes in an IDENT list.
fn list_places(
    alloc: Global,
    attributes: &NameIndex<'_>,
    list: &IdentList,
) -> Result<Places, Memory>
    requires { length (names_in attributes.now) ≤ 4194304 }
    ensures { IfOk result (λ p. p.places.items
        ≡ numbers (texts (names_in attributes.now)) (names_of list.now)) }
{
    let mut places = Vec::new(alloc);
    for name in &list.names {
        places.push(number(attributes, name.text.bytes()))?;
    }
    Ok(Places { places })
}

/// The numbers of the attributes in IDENT lists.
pub fn places(
    alloc: Global,
    attributes: &NameIndex<'_>,
    lists: &[IdentList],
) -> Result<Vec<Places>, Memory>
    requires { length (names_in attributes.now) ≤ 4194304 }
    ensures { IfOk result (λ ps. places_of ps.items
        ≡ map (numbers (texts (names_in attributes.now))) (lists_of lists.now)) }
{
    let mut places = Vec::new(alloc);
    for list in lists {
        places.push(list_places(alloc, attributes, list)?)?;
    }
    Ok(places)
}
