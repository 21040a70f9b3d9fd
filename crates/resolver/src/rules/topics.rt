// The rules on the topics of a model.
ghost use Rattle.std.specs.Prelude.{◌≡◌, ◌++◌, [], All, map, flat_map, OnOk};
ghost use Rattle.ili_grammar.specs.Values.{tables_of, topic_of, topics_of};
ghost use Rattle.resolver.specs.FaultViews.{Reports};
ghost use Rattle.resolver.specs.ScopeViews.{scope_of};
ghost use Rattle.resolver.specs.DomainScopes.{domains_in, StepsFrom};
ghost use Rattle.resolver.specs.Limits.{AreBoundedDomains, IsBoundedScope, IsBoundedTable};
ghost use Rattle.resolver.specs.Limits.{IsBoundedTopic};
ghost use Rattle.resolver.specs.Rules.{domains_faults, tables_faults, topic_faults, twice_in};

use super::domains::check_domains;
use super::names::check_unique;
use super::tables::check_tables;
use crate::earliest::Earliest;
use crate::scope::Scope;
use crate::scope::domain_scope::DomainScope;
use crate::scope::topic_scope::TopicScope;
use ili_grammar::{TableSyntax, TopicSyntax};
use ports::Memory;
use std::alloc::Global;

// Checks the domains of a scope, and then its tables.
#[tactic(auto, using(crate::proofs::Hints::first_append))]
fn check_parts<'a>(
    alloc: Global,
    scope: &Scope<'_, 'a>,
    tables: &'a [TableSyntax],
    earliest: &mut Earliest<'a>,
) -> Result<(), Memory>
    requires scope { IsBoundedScope (scope_of scope.now) }
    requires tables { All IsBoundedTable (tables_of tables.now) }
    ensures { OnOk result (Reports earliest.old earliest.new
        (domains_faults (scope_of scope.now)
        ++ tables_faults (scope_of scope.now) (tables_of tables.now))) }
{
    check_domains(alloc, scope, earliest)?;
    check_tables(alloc, scope, tables, earliest)
}

// Checks a topic, where the domains of `above` are declared outside.
fn check_topic<'a>(
    alloc: Global,
    above: &DomainScope<'a>,
    topic: &'a TopicSyntax,
    earliest: &mut Earliest<'a>,
) -> Result<(), Memory>
    requires steps { StepsFrom [] above.now }
    requires above { AreBoundedDomains (domains_in above.now) }
    requires topic { IsBoundedTopic (topic_of topic.now) }
    ensures { OnOk result (Reports earliest.old earliest.new
        (topic_faults (domains_in above.now) (topic_of topic.now))) }
{
    let own = TopicScope::new(alloc, above, topic)?;
    check_parts(alloc, &own.scope(), &topic.tables, earliest)
}

// Checks each of some topics.
fn check_each<'a>(
    alloc: Global,
    above: &DomainScope<'a>,
    topics: &'a [TopicSyntax],
    earliest: &mut Earliest<'a>,
) -> Result<(), Memory>
    requires steps { StepsFrom [] above.now }
    requires above { AreBoundedDomains (domains_in above.now) }
    requires topics { All IsBoundedTopic (topics_of topics.now) }
    ensures { OnOk result (Reports earliest.old earliest.new
        (flat_map (topic_faults (domains_in above.now)) (topics_of topics.now))) }
{
    for topic in topics {
        check_topic(alloc, above, topic, earliest)?;
    }
    Ok(())
}

/// Checks the topics of a model, where the domains of `above` are declared
/// outside.
#[tactic(auto, using(crate::proofs::Hints::first_append, crate::proofs::Hints::topics_read))]
pub fn check_topics<'a>(
    alloc: Global,
    above: &DomainScope<'a>,
    topics: &'a [TopicSyntax],
    earliest: &mut Earliest<'a>,
) -> Result<(), Memory>
    requires steps { StepsFrom [] above.now }
    requires above { AreBoundedDomains (domains_in above.now) }
    requires topics { All IsBoundedTopic (topics_of topics.now) }
    ensures { OnOk result (Reports earliest.old earliest.new
        (twice_in (map (λ t. t.name) (topics_of topics.now))
        ++ flat_map (topic_faults (domains_in above.now)) (topics_of topics.now))) }
{
    check_unique(alloc, topics, earliest)?;
    check_each(alloc, above, topics, earliest)
}
