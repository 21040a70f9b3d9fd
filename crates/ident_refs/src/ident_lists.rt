// The IDENT lists of a table, those of the same places once.
ghost use Rattle.std.specs.Prelude.{◌≡◌, ◌≤◌, ◌<◌, ◌∷◌, ℕ, List, [], Option, length, map, OnOk};
ghost use Rattle.std.specs.Prelude.{IfOk, IsTrue};
ghost use Rattle.std.specs.List.{All};
ghost use Rattle.ports.specs.SortedKeys.{IsSortedKeys};
ghost use Rattle.ili_grammar.specs.Syntax.{Codes as GivenCodes};
ghost use Rattle.resolver.specs.Values.{places_of};
ghost use Rattle.table_layout.specs.Layouts.{Table as GivenTable};
ghost use Rattle.ident_refs.specs.KeptRows.{cell_key, kept_lists};
ghost use Rattle.ident_refs.specs.RowKeys.{list_parts};
ghost use Rattle.ident_refs.specs.SharedLists.{AreBare, AreNumbered, bare_list, lists_view};
ghost use Rattle.ident_refs.specs.SharedLists.{picked, picked_one};

use super::key_cell::KeyCell;
use super::key_reader::column_of;
use ports::{Keyed, Memory, SortedKeys};
use resolver::Places;
use std::alloc::Global;

/// An IDENT list: the column of its findings, its places, and the numbers of its parts among those
/// of all lists of the table.
#[derive(Drop)]
pub struct KeptList<'a> {
    pub column: u32,
    pub places: &'a [u32],
    pub numbers: Vec<usize>,
}

/// The IDENT lists of a table: their parts, each once, in the order of the places, where a list
/// without places has one part that is none; the lists, those of the same places once; and of each
/// IDENT list the number of its own among these.
#[derive(Drop)]
pub struct IdentLists<'a> {
    pub parts: Vec<Option<u32>>,
    pub lists: Vec<KeptList<'a>>,
    pub order: Vec<usize>,
    ghost numbered: { AreNumbered parts.items lists.items },
}

// The places of a list as bytes.
fn list_name(alloc: Global, places: &[u32]) -> Result<KeyCell, Memory> {
    let mut bytes = Vec::new(alloc);
    bytes.push(0)?;
    for place in places {
        bytes.extend_from_slice(&place.to_be_bytes())?;
    }
    KeyCell::new(alloc, &bytes)
}

// The places of each list as bytes.
fn list_names(alloc: Global, lists: &[Places]) -> Result<Vec<KeyCell>, Memory> {
    let mut names = Vec::with_capacity(alloc, lists.len())?;
    for list in lists {
        names.push(list_name(alloc, &list.places)?)?;
    }
    Ok(names)
}

// The number that the first list with the name of the list at that place has, where there is one
// among those with a number.
fn first_such(names: &[KeyCell], sorted: &SortedKeys, place: usize, order: &[usize]) -> usize
    requires { IsSortedKeys (map cell_key names.now) sorted.now }
{
    let Some(cell) = names.get(place) else {
        return usize::MAX;
    };
    let Some(first) = sorted.first(names, cell.key().unwrap_or(&[])) else {
        return usize::MAX;
    };
    match order.get(first) {
        Some(number) => *number,
        None => usize::MAX,
    }
}

// Adds the parts of a list.
fn add_parts(places: &[u32], parts: &mut Vec<Option<u32>>) -> Result<(), Memory> {
    if places.is_empty() {
        parts.push(None)?;
    }
    for place in places {
        parts.push(Some(*place))?;
    }
    Ok(())
}

// The parts of some lists, each once, in the order of the places: so the lines that a row leaves
// out come last.
fn all_parts(alloc: Global, lists: &[Places]) -> Result<Vec<Option<u32>>, Memory> {
    let mut parts = Vec::new(alloc);
    for list in lists {
        add_parts(&list.places, &mut parts)?;
    }
    parts.sort_unstable();
    parts.dedup();
    Ok(parts)
}

// Whether the part of that number is this one.
fn is_part(parts: &[Option<u32>], number: usize, part: Option<u32>) -> bool
    ensures own { IsTrue result → picked_one parts.now number ≡ part ∷ [] }
    ensures within { IsTrue result → number < length parts.now }
{
    match parts.get(number) {
        Some(other) => *other == part,
        None => false,
    }
}

// The number of a part: the one that the search finds, if it is that of this part, else that of
// one more.
fn part_number(part: Option<u32>, parts: &mut Vec<Option<u32>>) -> Result<usize, Memory>
    ensures grown { OnOk result ((numbers : List ℕ) → All (λ n. n < length parts.old.items) numbers
        → picked parts.new.items numbers ≡ picked parts.old.items numbers) }
    ensures more { OnOk result (length parts.old.items ≤ length parts.new.items) }
    ensures own { IfOk result (λ number. picked_one parts.new.items number ≡ part ∷ []) }
    ensures within { IfOk result (λ number. number < length parts.new.items) }
{
    if let Ok(supposed) = parts.binary_search(&part) {
        if is_part(parts, supposed, part) {
            return Ok(supposed);
        }
    }
    let number = parts.len();
    parts.push(part)?;
    Ok(number)
}

// The numbers of the places of a list.
fn place_numbers(
    alloc: Global,
    places: &[u32],
    parts: &mut Vec<Option<u32>>,
) -> Result<Vec<usize>, Memory>
    ensures grown { OnOk result ((numbers : List ℕ) → All (λ n. n < length parts.old.items) numbers
        → picked parts.new.items numbers ≡ picked parts.old.items numbers) }
    ensures more { OnOk result (length parts.old.items ≤ length parts.new.items) }
    ensures own { IfOk result (λ numbers. picked parts.new.items numbers.items
        ≡ map Some places.now) }
    ensures within { IfOk result (λ numbers. All (λ n. n < length parts.new.items)
        numbers.items) }
{
    let mut numbers = Vec::with_capacity(alloc, places.len())?;
    for place in places {
        numbers.push(part_number(Some(*place), parts)?)?;
    }
    Ok(numbers)
}

// The numbers of the parts of a list.
fn part_numbers(
    alloc: Global,
    places: &[u32],
    parts: &mut Vec<Option<u32>>,
) -> Result<Vec<usize>, Memory>
    ensures grown { OnOk result ((numbers : List ℕ) → All (λ n. n < length parts.old.items) numbers
        → picked parts.new.items numbers ≡ picked parts.old.items numbers) }
    ensures more { OnOk result (length parts.old.items ≤ length parts.new.items) }
    ensures own { IfOk result (λ numbers. picked parts.new.items numbers.items
        ≡ list_parts places.now) }
    ensures within { IfOk result (λ numbers. All (λ n. n < length parts.new.items)
        numbers.items) }
{
    if places.is_empty() {
        let number = part_number(None, parts)?;
        return Ok(Vec::from_slice(alloc, &[number])?);
    }
    place_numbers(alloc, places, parts)
}

// Whether two lists have the same places.
fn are_same(a: &[u32], b: &[u32]) -> bool
    ensures { IsTrue result → a.now ≡ b.now }
{
    *a == *b
}

// The number of a list among those that are kept: the one supposed, if it has these places, else
// that of one more.
fn number_of<'a>(
    alloc: Global,
    supposed: usize,
    places: &'a [u32],
    parts: &mut Vec<Option<u32>>,
    kept: &mut Vec<KeptList<'a>>,
) -> Result<usize, Memory>
    requires places { All (λ p. p < 4194306) places.now }
    requires bare { AreBare kept.now.items }
    requires numbered { AreNumbered parts.now.items kept.now.items }
    ensures bare { OnOk result (AreBare kept.new.items) }
    ensures numbered { OnOk result (AreNumbered parts.new.items kept.new.items) }
    ensures grown { OnOk result ((order : List ℕ)
        → All (λ j. j < length kept.old.items) order
        → picked (lists_view [] kept.new.items) order
        ≡ picked (lists_view [] kept.old.items) order) }
    ensures more { OnOk result (length kept.old.items ≤ length kept.new.items) }
    ensures own { IfOk result (λ number. picked_one (lists_view [] kept.new.items) number
        ≡ bare_list places.now ∷ []) }
    ensures within { IfOk result (λ number. number < length kept.new.items) }
{
    if let Some(known) = kept.get(supposed) {
        if are_same(known.places, places) {
            return Ok(supposed);
        }
    }
    let number = kept.len();
    kept.push(KeptList {
        column: column_of(places),
        places,
        numbers: part_numbers(alloc, places, parts)?,
    })?;
    Ok(number)
}

impl<'a> IdentLists<'a> {
    /// The IDENT lists of a table. Which list is the same is supposed by a sort of their places,
    /// and then compared.
    pub fn new(alloc: Global, lists: &'a [Places]) -> Result<IdentLists<'a>, Memory>
        requires { All (All (λ p. p < 4194306)) (places_of lists.now) }
        ensures { IfOk result (λ r. (codes : GivenCodes) (t : GivenTable)
            → picked (lists_view [] r.lists.items) r.order.items
            ≡ kept_lists codes t [] (places_of lists.now)) }
    {
        let names = list_names(alloc, lists)?;
        let sorted = SortedKeys::new(alloc, &names)?;
        let mut parts = all_parts(alloc, lists)?;
        let mut kept = Vec::new(alloc);
        let mut order = Vec::with_capacity(alloc, lists.len())?;
        for (place, list) in lists.iter().enumerate() {
            let supposed = first_such(&names, &sorted, place, &order);
            let number = number_of(alloc, supposed, &list.places, &mut parts, &mut kept)?;
            order.push(number)?;
        }
        Ok(IdentLists {
            parts,
            lists: kept,
            order,
        })
    }
}
