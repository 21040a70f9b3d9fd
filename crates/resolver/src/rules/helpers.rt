// The names of tables and of the helper tables that boundaries give them.
ghost use Rattle.std.specs.Prelude.{◌≡◌, [], ◌∷◌, flat_map, IfOk, OnOk};
ghost use Rattle.indexmap.specs.IndexSet.{keys};
ghost use Rattle.ili_grammar.specs.Values.{ident_of, attribute_of, attributes_of, table_of};
ghost use Rattle.ili_grammar.specs.Values.{tables_of};
ghost use Rattle.resolver.specs.FaultViews.{Declares, Reports};
ghost use Rattle.resolver.specs.ScopeViews.{scope_of};
ghost use Rattle.resolver.specs.Rules.{twice, helper_name, helper, helpers, table_entries};

use super::lines::stands_for_boundary;
use crate::earliest::Earliest;
use crate::faults::ModelCode;
use crate::scope::Scope;
use crate::scope::all_names::AllNames;
use ili_grammar::{AttributeSyntax, Ident, TableSyntax};
use indexmap::IndexSet;
use ports::{Memory, Name};
use std::alloc::Global;

/// The name of a helper table: table, `_`, attribute.
pub fn helper_name(alloc: Global, table: &[u8], attribute: &[u8]) -> Result<Name, Memory>
    ensures { IfOk result (λ name. name ≡ helper_name table.now attribute.now) }
{
    let mut name = table.to_vec(alloc)?;
    name.extend_from_slice(b"_")?;
    name.extend_from_slice(attribute)?;
    Name::new(alloc, &name)
}

// Reports a table name that an earlier table or helper table has.
#[tactic(auto, using(crate::proofs::Hints::key_told))]
fn check_key<'a>(
    names: &mut IndexSet<Name, AllNames>,
    key: Name,
    name: &'a Ident,
    earliest: &mut Earliest<'a>,
) -> Result<(), Memory>
    ensures { OnOk result (Declares earliest.old earliest.new (keys names.old) (keys names.new)
        (record { key = key; name = ident_of name.now } ∷ [])) }
{
    let new = names.insert(key)?;
    earliest.report(!new, ModelCode::Twice, name);
    Ok(())
}

// Reports the helper table of an attribute, if it gives its table one.
#[tactic(auto, using(crate::proofs::Hints::attribute_out))]
fn check_helper<'a>(
    alloc: Global,
    scope: &Scope<'_, 'a>,
    table: &'a Ident,
    attribute: &'a AttributeSyntax,
    names: &mut IndexSet<Name, AllNames>,
    earliest: &mut Earliest<'a>,
) -> Result<(), Memory>
    ensures { OnOk result (Declares earliest.old earliest.new (keys names.old) (keys names.new)
        (helper (scope_of scope.now) table.now.text (attribute_of attribute.now))) }
{
    if !stands_for_boundary(scope, &attribute.content) {
        return Ok(());
    }
    let key = helper_name(alloc, table.text.bytes(), attribute.name.text.bytes())?;
    check_key(names, key, &attribute.name, earliest)
}

// Reports the helper tables of a table.
fn check_helpers<'a>(
    alloc: Global,
    scope: &Scope<'_, 'a>,
    table: &'a TableSyntax,
    names: &mut IndexSet<Name, AllNames>,
    earliest: &mut Earliest<'a>,
) -> Result<(), Memory>
    ensures { OnOk result (Declares earliest.old earliest.new (keys names.old) (keys names.new)
        (helpers (scope_of scope.now) table.now.name.text
        (attributes_of table.now.attributes.items))) }
{
    for attribute in &table.attributes {
        check_helper(alloc, scope, &table.name, attribute, names, earliest)?;
    }
    Ok(())
}

// Reports a table and its helper tables.
#[tactic(auto, using(crate::proofs::Hints::entries_told))]
fn check_table_name<'a>(
    alloc: Global,
    scope: &Scope<'_, 'a>,
    table: &'a TableSyntax,
    names: &mut IndexSet<Name, AllNames>,
    earliest: &mut Earliest<'a>,
) -> Result<(), Memory>
    ensures { OnOk result (Declares earliest.old earliest.new (keys names.old) (keys names.new)
        (table_entries (scope_of scope.now) (table_of table.now))) }
{
    let key = Name::new(alloc, table.name.text.bytes())?;
    check_key(names, key, &table.name, earliest)?;
    check_helpers(alloc, scope, table, names, earliest)
}

/// Reports each table that has the name of an earlier one, helper tables among them.
pub fn check_table_names<'a>(
    alloc: Global,
    scope: &Scope<'_, 'a>,
    tables: &'a [TableSyntax],
    earliest: &mut Earliest<'a>,
) -> Result<(), Memory>
    ensures { OnOk result (Reports earliest.old earliest.new
        (twice [] (flat_map (table_entries (scope_of scope.now)) (tables_of tables.now)))) }
{
    let mut names = IndexSet::with_hasher(alloc, AllNames::of_tables(tables));
    for table in tables {
        check_table_name(alloc, scope, table, &mut names, earliest)?;
    }
    Ok(())
}
