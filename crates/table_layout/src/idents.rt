// The IDENT lists of a table, from attributes to columns and lines.
ghost use Rattle.std.specs.Prelude.{◌≡◌, ◌≤◌, ◌+◌, ℕ, List, [], length, map, IfOk, slice_index_or};
ghost use Rattle.std.specs.Prelude.{Option, None};
ghost use Rattle.std.specs.Option.{option_map};
ghost use Rattle.resolver.specs.Values.{attribute_of, places_of};
ghost use Rattle.table_layout.specs.Attributes.{places_from, list_at, lists_at, idents_of};

use super::attributes::{columns_given, columns_in, lines_given, place};
use ports::Memory;
use resolver::{Attribute, Places};
use std::alloc::Global;

/// The IDENT lists of these attributes in places, after so many columns that are no attributes.
/// A list with a SURFACE attribute is left out whole.
pub fn idents(
    alloc: Global,
    first: u32,
    attributes: &[Attribute],
    lists: &[Places],
) -> Result<Vec<Places>, Memory>
    requires shift { first ≤ 1 }
    requires few { length attributes.now ≤ 4194304 }
    ensures { IfOk result (λ idents. places_of idents.items
        ≡ idents_of first (map attribute_of attributes.now) (places_of lists.now)) }
{
    let all = first + columns_in(attributes);
    let places = places(alloc, all, first, attributes)?;
    located_lists(alloc, &places, lists)
}

// Where each of the attributes stands.
fn places(
    alloc: Global,
    all: u32,
    first: u32,
    attributes: &[Attribute],
) -> Result<Vec<Option<u32>>, Memory>
    requires shift { first ≤ 1 }
    requires all { all ≤ 4194305 }
    requires few { length attributes.now ≤ 4194304 }
    ensures { IfOk result (λ places. places.items
        ≡ places_from all first 0 (map attribute_of attributes.now)) }
{
    let mut places = Vec::new(alloc);
    let mut column = first;
    let mut line = 0;
    for attribute in attributes {
        places.push(place(attribute, all, column, line))?;
        column += columns_given(attribute);
        line += lines_given(attribute);
    }
    Ok(places)
}

// Where the attribute with this number stands.
fn place_at(places: &[Option<u32>], attribute: u32) -> Option<u32>
    ensures { result ≡ slice_index_or places.now attribute None }
{
    places.get(attribute as usize).copied().flatten()
}

// A list of attributes as a list of places, if each of them stands somewhere.
fn located(alloc: Global, places: &[Option<u32>], list: &[u32]) -> Result<Option<Vec<u32>>, Memory>
    ensures { IfOk result (λ located. option_map (λ l. l.items) located
        ≡ list_at places.now list.now) }
{
    let mut located = Vec::new(alloc);
    for attribute in list {
        match place_at(places, *attribute) {
            Some(place) => located.push(place)?,
            None => return Ok(None),
        }
    }
    Ok(Some(located))
}

// The lists that can be located, in their order.
fn located_lists(
    alloc: Global,
    places: &[Option<u32>],
    lists: &[Places],
) -> Result<Vec<Places>, Memory>
    ensures { IfOk result
        (λ kept. places_of kept.items ≡ lists_at places.now (places_of lists.now)) }
{
    let mut kept = Vec::new(alloc);
    for list in lists {
        if let Some(places) = located(alloc, places, &list.places)? {
            kept.push(Places { places })?;
        }
    }
    Ok(kept)
}
