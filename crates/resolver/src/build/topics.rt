// What tables, topics and a whole model stand for.
ghost use Rattle.std.specs.Prelude.{◌≡◌, [], All, map, IfOk};
ghost use Rattle.ili_grammar.specs.Limits.{IsWithinLimits};
ghost use Rattle.ili_grammar.specs.Values.{model_of, table_of, tables_of, topic_of, topics_of};
ghost use Rattle.resolver.specs.DomainScopes.{domains_in, StepsFrom};
ghost use Rattle.resolver.specs.Limits.{AreBoundedDomains, IsBoundedScope, IsBoundedTable};
ghost use Rattle.resolver.specs.Limits.{IsBoundedTopic};
ghost use Rattle.resolver.specs.Scopes.{everywhere};
ghost use Rattle.resolver.specs.ScopeViews.{scope_of};
ghost use Rattle.resolver.specs.Models.{table, topic, topic_in, resolved_model};
ghost use Rattle.resolver.specs.Values.{model_of as built_model, table_of as built_table};
ghost use Rattle.resolver.specs.Values.{tables_of as built_tables, topic_of as built_topic};
ghost use Rattle.resolver.specs.Values.{topics_of as built_topics};

use super::attributes::{attributes, ident_places};
use crate::models::{ModelTable, ResolvedModel, Topic};
use crate::scope::Scope;
use crate::scope::domain_scope::DomainScope;
use crate::scope::topic_scope::TopicScope;
use ili_grammar::{ModelSyntax, TableSyntax, TopicSyntax};
use ports::{Memory, Name};
use std::alloc::Global;

// What a table stands for.
fn table<'a>(
    alloc: Global,
    scope: &Scope<'_, 'a>,
    written: &'a TableSyntax,
) -> Result<ModelTable, Memory>
    requires scope { IsBoundedScope (scope_of scope.now) }
    requires written { IsBoundedTable (table_of written.now) }
    ensures { IfOk result (λ t. built_table t ≡ table (scope_of scope.now) (table_of written.now)) }
{
    Ok(ModelTable {
        name: Name::new(alloc, written.name.text.bytes())?,
        idents: ident_places(alloc, &written.attributes, &written.idents)?,
        attributes: attributes(alloc, scope, &written.attributes)?,
    })
}

// What the tables of a topic stand for.
fn tables<'a>(
    alloc: Global,
    scope: &Scope<'_, 'a>,
    written: &'a [TableSyntax],
) -> Result<Vec<ModelTable>, Memory>
    requires scope { IsBoundedScope (scope_of scope.now) }
    requires written { All IsBoundedTable (tables_of written.now) }
    ensures { IfOk result (λ ts. built_tables ts.items
        ≡ map (table (scope_of scope.now)) (tables_of written.now)) }
{
    let mut done = Vec::new(alloc);
    for each in written {
        done.push(table(alloc, scope, each)?)?;
    }
    Ok(done)
}

// What a topic stands for in its scope.
fn topic_in<'a>(
    alloc: Global,
    scope: &Scope<'_, 'a>,
    written: &'a TopicSyntax,
) -> Result<Topic, Memory>
    requires scope { IsBoundedScope (scope_of scope.now) }
    requires written { IsBoundedTopic (topic_of written.now) }
    ensures { IfOk result (λ t. built_topic t
        ≡ topic_in (scope_of scope.now) (topic_of written.now)) }
{
    Ok(Topic {
        name: Name::new(alloc, written.name.text.bytes())?,
        tables: tables(alloc, scope, &written.tables)?,
    })
}

// What a topic stands for, where the domains of `above` are declared outside.
fn topic<'a>(
    alloc: Global,
    above: &DomainScope<'a>,
    written: &'a TopicSyntax,
) -> Result<Topic, Memory>
    requires steps { StepsFrom [] above.now }
    requires above { AreBoundedDomains (domains_in above.now) }
    requires written { IsBoundedTopic (topic_of written.now) }
    ensures { IfOk result
        (λ t. built_topic t ≡ topic (domains_in above.now) (topic_of written.now)) }
{
    let own = TopicScope::new(alloc, above, written)?;
    topic_in(alloc, &own.scope(), written)
}

// What topics stand for, where the domains of `above` are declared outside.
fn topics<'a>(
    alloc: Global,
    above: &DomainScope<'a>,
    written: &'a [TopicSyntax],
) -> Result<Vec<Topic>, Memory>
    requires steps { StepsFrom [] above.now }
    requires above { AreBoundedDomains (domains_in above.now) }
    requires written { All IsBoundedTopic (topics_of written.now) }
    ensures { IfOk result (λ ts. built_topics ts.items
        ≡ map (topic (domains_in above.now)) (topics_of written.now)) }
{
    let mut done = Vec::new(alloc);
    for each in written {
        done.push(topic(alloc, above, each)?)?;
    }
    Ok(done)
}

/// What a model stands for, where the domains of `above` are those outside its topics.
pub fn model<'a>(
    alloc: Global,
    above: &DomainScope<'a>,
    written: &'a ModelSyntax,
) -> Result<ResolvedModel, Memory>
    requires within { IsWithinLimits (model_of written.now) }
    requires steps { StepsFrom [] above.now }
    requires domains { domains_in above.now ≡ everywhere (model_of written.now) }
    ensures { IfOk result (λ m. built_model m ≡ resolved_model (model_of written.now)) }
{
    Ok(ResolvedModel {
        name: Name::new(alloc, written.model.text.bytes())?,
        codes: written.codes,
        topics: topics(alloc, above, &written.topics)?,
    })
}
