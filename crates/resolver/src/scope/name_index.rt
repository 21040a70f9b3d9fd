// Names in the order of the text, each with the place of the first that has it.
ghost use Rattle.std.specs.Prelude.{◌≡◌, map, nat_eq, IfOk};
ghost use Rattle.std.specs.Cmp.Lexicographic.{pointwise};
ghost use Rattle.indexmap.specs.IndexMap.{get};
ghost use Rattle.resolver.specs.Indexed.{IsIndex, idents};

use super::all_names::{AllNames, key_of};
use super::named::Named;
use crate::earliest::Earliest;
use crate::faults::ModelCode;
use ili_grammar::Ident;
use indexmap::IndexMap;
use ports::{Key, Memory};
use std::alloc::Global;

/// Names in the order of the text, and for each name the place of the first that has it.
#[derive(Drop)]
pub struct NameIndex<'a> {
    names: Vec<&'a Ident>,
    places: IndexMap<Key<'a>, usize, AllNames>,
    ghost indexed: { IsIndex (get (pointwise nat_eq) places) (idents names.items) },
}

// The names of some things.
fn names<T: Named>(alloc: Global, items: &[T]) -> Result<Vec<&Ident>, Memory>
    ensures { IfOk result (λ names. idents names.items ≡ map T.name_of items.now) }
{
    let mut names = Vec::new(alloc);
    for item in items {
        names.push(item.name())?;
    }
    Ok(names)
}

// The first place of each name.
fn first_places<'a>(
    alloc: Global,
    names: &[&'a Ident],
) -> Result<IndexMap<Key<'a>, usize, AllNames>, Memory>
    ensures { IfOk result (λ m. IsIndex (get (pointwise nat_eq) m) (idents names.now)) }
{
    let mut places = IndexMap::with_hasher(alloc, AllNames::new(names));
    for place in (0..names.len()).rev() {
        places.insert(key_of(names[place]), place)?;
    }
    Ok(places)
}

impl<'a> NameIndex<'a> {
    ghost use Rattle.std.specs.Prelude.{◌≡◌, ◌++◌, map, take, IfOk};
    ghost use Rattle.resolver.specs.Scopes.{texts, place, is_among};
    ghost use Rattle.resolver.specs.Rules.{twice, entry};
    ghost use Rattle.resolver.specs.Indexed.{idents};
    ghost use Rattle.resolver.specs.NameIndexes.{names_in, names_if};
    ghost use Rattle.resolver.specs.FaultViews.{Reports};

    /// The names in their order.
    pub fn new(alloc: Global, names: Vec<&'a Ident>) -> Result<NameIndex<'a>, Memory>
        ensures { IfOk result (λ d. names_in d ≡ idents names.entry.items) }
    {
        let places = first_places(alloc, &names)?;
        Ok(NameIndex { names, places })
    }

    /// The names of some things.
    pub fn of<T: Named>(alloc: Global, items: &'a [T]) -> Result<NameIndex<'a>, Memory>
        ensures { IfOk result (λ d. names_in d ≡ map T.name_of items.now) }
    {
        NameIndex::new(alloc, names(alloc, items)?)
    }

    /// The place of the first name with these bytes, from 0.
    pub fn place(&self, name: &[u8]) -> Option<usize>
        ensures { result ≡ place name.now (texts (names_in self.now)) }
    {
        self.places.get(&Key::new(name)).copied()
    }

    /// Whether a name has these bytes.
    #[tactic(auto, using(crate::proofs::Hints::among_place))]
    pub fn has(&self, name: &[u8]) -> bool
        ensures { result ≡ is_among name.now (texts (names_in self.now)) }
    {
        self.place(name).is_some()
    }

    // Whether one of the first names has these bytes.
    #[tactic(auto, using(crate::proofs::Hints::among_first))]
    fn has_before(&self, name: &[u8], end: usize) -> bool
        ensures { result ≡ is_among name.now (take end (texts (names_in self.now))) }
    {
        self.place(name).is_some_and(|place| place < end)
    }

    // Whether a name of `above` or one of the first names here has these bytes.
    #[tactic(auto, using(crate::proofs::Hints::any_append))]
    fn stands_before(&self, above: Option<&NameIndex<'a>>, name: &[u8], end: usize) -> bool
        ensures { result ≡ is_among name.now
            (texts (names_if above.entry) ++ take end (texts (names_in self.now))) }
    {
        NameIndex::is_in(above, name) || self.has_before(name, end)
    }

    /// Reports each name that stands among those of `above` or among the names before it.
    pub fn check_unique(&self, above: Option<&NameIndex<'a>>, earliest: &mut Earliest<'a>)
        ensures { Reports earliest.old earliest.new
            (twice (texts (names_if above.entry)) (map entry (names_in self.now))) }
    {
        for (place, name) in self.names.iter().enumerate() {
            let again = self.stands_before(above, name.text.bytes(), place);
            earliest.report(again, ModelCode::Twice, name);
        }
    }

    /// Whether a name has these bytes, where there are names.
    pub fn is_in(names: Option<&NameIndex<'a>>, name: &[u8]) -> bool
        ensures { result ≡ is_among name.now (texts (names_if names.entry)) }
    {
        names.is_some_and(|names| names.has(name))
    }
}
