// The rules on names: of domains and tables, of attributes, of elements, and in IDENT lists.
ghost use Rattle.std.specs.Prelude.{◌≡◌, map, flat_map, IfOk, OnOk};
ghost use Rattle.ili_grammar.specs.Values.{ident_of, names_of, lists_of, elements_of};
ghost use Rattle.ili_grammar.specs.Values.{attributes_of};
ghost use Rattle.resolver.specs.FaultViews.{Reports};
ghost use Rattle.resolver.specs.NameIndexes.{names_in};
ghost use Rattle.resolver.specs.Scopes.{texts};
ghost use Rattle.resolver.specs.ScopeViews.{scope_of};
ghost use Rattle.resolver.specs.Rules.{type_name_faults, reference_faults, twice_in, element_names};
ghost use Rattle.resolver.specs.Rules.{no_attribute, list_faults, lists_faults};
ghost use Rattle.resolver.specs.Rules.{names_faults};

use crate::earliest::Earliest;
use crate::faults::ModelCode;
use crate::scope::Scope;
use crate::scope::name_index::NameIndex;
use crate::scope::named::Named;
use ili_grammar::{AttributeSyntax, Element, Ident, IdentList};
use ports::Memory;
use std::alloc::Global;

/// Reports a name of a domain that is not visible.
pub fn check_type_name<'a>(scope: &Scope<'_, 'a>, name: &'a Ident, earliest: &mut Earliest<'a>)
    ensures { Reports earliest.old earliest.new
        (type_name_faults (scope_of scope.now) (ident_of name.now)) }
{
    let visible = scope.is_visible(name.text.bytes());
    earliest.report(!visible, ModelCode::Unknown, name);
}

/// Reports a reference that names no table.
pub fn check_reference<'a>(scope: &Scope<'_, 'a>, name: &'a Ident, earliest: &mut Earliest<'a>)
    ensures { Reports earliest.old earliest.new
        (reference_faults (scope_of scope.now) (ident_of name.now)) }
{
    if NameIndex::is_in(scope.tables, name.text.bytes()) {
        return;
    }
    let code = if scope.is_visible(name.text.bytes()) {
        ModelCode::NotTable
    } else {
        ModelCode::Unknown
    };
    earliest.report(true, code, name);
}

/// Reports each name that stands among those before it.
pub fn check_unique<'a, T: Named>(
    alloc: Global,
    items: &'a [T],
    earliest: &mut Earliest<'a>,
) -> Result<NameIndex<'a>, Memory>
    ensures reported { OnOk result (Reports earliest.old earliest.new
        (twice_in (map T.name_of items.now))) }
    ensures names { IfOk result (λ d. names_in d ≡ map T.name_of items.now) }
{
    let names = NameIndex::of(alloc, items)?;
    names.check_unique(None, earliest);
    Ok(names)
}

/// Reports each element of a list that has the name of an earlier one.
#[tactic(auto, using(crate::proofs::Hints::elements_read))]
pub fn check_elements<'a>(
    alloc: Global,
    elements: &'a [Element],
    earliest: &mut Earliest<'a>,
) -> Result<(), Memory>
    ensures { OnOk result (Reports earliest.old earliest.new
        (twice_in (element_names (elements_of elements.now)))) }
{
    check_unique(alloc, elements, earliest)?;
    Ok(())
}

// Reports a name of an IDENT list that is no attribute.
fn check_listed_name<'a>(attributes: &NameIndex<'a>, name: &'a Ident, earliest: &mut Earliest<'a>)
    ensures { Reports earliest.old earliest.new
        (no_attribute (texts (names_in attributes.now)) (ident_of name.now)) }
{
    let there = attributes.has(name.text.bytes());
    earliest.report(!there, ModelCode::IdentUnknown, name);
}

// Reports each name of an IDENT list that is no attribute.
fn check_listed_names<'a>(
    attributes: &NameIndex<'a>,
    list: &'a IdentList,
    earliest: &mut Earliest<'a>,
)
    ensures { Reports earliest.old earliest.new
        (flat_map (no_attribute (texts (names_in attributes.now))) (names_of list.now)) }
{
    for name in &list.names {
        check_listed_name(attributes, name, earliest);
    }
}

// Checks an IDENT list.
#[tactic(auto, using(crate::proofs::Hints::first_append))]
fn check_list<'a>(
    alloc: Global,
    attributes: &NameIndex<'a>,
    list: &'a IdentList,
    earliest: &mut Earliest<'a>,
) -> Result<(), Memory>
    ensures { OnOk result (Reports earliest.old earliest.new
        (list_faults (texts (names_in attributes.now)) (names_of list.now))) }
{
    check_unique(alloc, &list.names, earliest)?;
    check_listed_names(attributes, list, earliest);
    Ok(())
}

// Checks IDENT lists.
fn check_lists<'a>(
    alloc: Global,
    attributes: &NameIndex<'a>,
    lists: &'a [IdentList],
    earliest: &mut Earliest<'a>,
) -> Result<(), Memory>
    ensures { OnOk result (Reports earliest.old earliest.new
        (lists_faults (texts (names_in attributes.now)) (lists_of lists.now))) }
{
    for list in lists {
        check_list(alloc, attributes, list, earliest)?;
    }
    Ok(())
}

/// Reports each attribute that has the name of an earlier one, and what is wrong in the IDENT
/// lists.
#[tactic(auto, using(crate::proofs::Hints::first_append, crate::proofs::Hints::attributes_read))]
pub fn check_names<'a>(
    alloc: Global,
    attributes: &'a [AttributeSyntax],
    lists: &'a [IdentList],
    earliest: &mut Earliest<'a>,
) -> Result<(), Memory>
    ensures { OnOk result (Reports earliest.old earliest.new
        (names_faults (attributes_of attributes.now) (lists_of lists.now))) }
{
    let names = check_unique(alloc, attributes, earliest)?;
    check_lists(alloc, &names, lists, earliest)
}
