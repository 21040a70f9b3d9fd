// The rules on the tables of a topic.
ghost use Rattle.std.specs.Prelude.{All, OnOk};
ghost use Rattle.ili_grammar.specs.Values.{attributes_of, table_of, tables_of};
ghost use Rattle.resolver.specs.FaultViews.{Reports};
ghost use Rattle.resolver.specs.ScopeViews.{scope_of};
ghost use Rattle.ili_grammar.specs.Limits.{AreSmallAttributes};
ghost use Rattle.resolver.specs.Limits.{IsBoundedScope, IsBoundedTable};
ghost use Rattle.resolver.specs.Rules.{attributes_faults, table_faults, tables_faults};

use super::helpers::check_table_names;
use super::names::check_names;
use super::types::check_attribute;
use crate::earliest::Earliest;
use crate::scope::Scope;
use ili_grammar::{AttributeSyntax, TableSyntax};
use ports::Memory;
use std::alloc::Global;

// Checks the types of some attributes.
#[tactic(auto, using(crate::proofs::Hints::short_first))]
fn check_attributes<'a>(
    alloc: Global,
    scope: &Scope<'_, 'a>,
    attributes: &'a [AttributeSyntax],
    earliest: &mut Earliest<'a>,
) -> Result<(), Memory>
    requires scope { IsBoundedScope (scope_of scope.now) }
    requires attributes { AreSmallAttributes (attributes_of attributes.now) }
    ensures { OnOk result (Reports earliest.old earliest.new
        (attributes_faults (scope_of scope.now) (attributes_of attributes.now))) }
{
    for attribute in attributes {
        check_attribute(alloc, attribute, scope, earliest)?;
    }
    Ok(())
}

// Checks a table.
#[tactic(auto, using(crate::proofs::Hints::first_append))]
fn check_table<'a>(
    alloc: Global,
    scope: &Scope<'_, 'a>,
    table: &'a TableSyntax,
    earliest: &mut Earliest<'a>,
) -> Result<(), Memory>
    requires scope { IsBoundedScope (scope_of scope.now) }
    requires table { IsBoundedTable (table_of table.now) }
    ensures { OnOk result (Reports earliest.old earliest.new
        (table_faults (scope_of scope.now) (table_of table.now))) }
{
    check_names(alloc, &table.attributes, &table.idents, earliest)?;
    check_attributes(alloc, scope, &table.attributes, earliest)
}

/// Checks the tables of a topic.
#[tactic(auto, using(crate::proofs::Hints::first_append))]
pub fn check_tables<'a>(
    alloc: Global,
    scope: &Scope<'_, 'a>,
    tables: &'a [TableSyntax],
    earliest: &mut Earliest<'a>,
) -> Result<(), Memory>
    requires scope { IsBoundedScope (scope_of scope.now) }
    requires tables { All IsBoundedTable (tables_of tables.now) }
    ensures { OnOk result (Reports earliest.old earliest.new
        (tables_faults (scope_of scope.now) (tables_of tables.now))) }
{
    check_table_names(alloc, scope, tables, earliest)?;
    for table in tables {
        check_table(alloc, scope, table, earliest)?;
    }
    Ok(())
}
