// The domains of a topic and the names of its tables, for the scope of the topic.
ghost use Rattle.std.specs.Prelude.{◌≡◌, [], IfOk};
ghost use Rattle.ili_grammar.specs.Values.{domains_of};
ghost use Rattle.resolver.specs.DomainScopes.{domains_in, StepsFrom};
ghost use Rattle.resolver.specs.Scopes.{domain_names, names_of, texts};

use super::Scope;
use super::declared::push_domains;
use super::domain_scope::DomainScope;
use super::name_index::NameIndex;
use ili_grammar::{DomainSyntax, TopicSyntax};
use ports::Memory;
use std::alloc::Global;

/// The domains that are declared outside the topics, those of a topic, and the names of its tables.
#[derive(Drop)]
pub struct TopicScope<'s, 'a> {
    above: &'s DomainScope<'a>,
    own: DomainScope<'a>,
    tables: NameIndex<'a>,
    ghost outer: { StepsFrom [] above.now },
    ghost inner: { StepsFrom (names_of (domains_in above.now)) own },
}

// The domains of a topic, where those of `above` are declared further out.
fn topic_domains<'a>(
    alloc: Global,
    above: &DomainScope<'a>,
    domains: &'a [DomainSyntax],
) -> Result<DomainScope<'a>, Memory>
    ensures domains { IfOk result (λ l. domains_in l ≡ domains_of domains.now) }
    ensures steps { IfOk result (StepsFrom (texts (domain_names (domains_in above.now)))) }
{
    let mut all = Vec::new(alloc);
    push_domains(domains, &mut all)?;
    DomainScope::new(alloc, Some(above.names()), all)
}

impl<'s, 'a> TopicScope<'s, 'a> {
    ghost use Rattle.ili_grammar.specs.Values.{topic_of};
    ghost use Rattle.resolver.specs.Scopes.{inside};
    ghost use Rattle.resolver.specs.ScopeViews.{scope_of, topic_scope_of};

    /// Of a topic, where the domains of `above` are declared outside.
    pub fn new(
        alloc: Global,
        above: &'s DomainScope<'a>,
        topic: &'a TopicSyntax,
    ) -> Result<TopicScope<'s, 'a>, Memory>
        requires { StepsFrom [] above.now }
        ensures { IfOk result
            (λ s. topic_scope_of s ≡ inside (domains_in above.now) (topic_of topic.now)) }
    {
        let tables = NameIndex::of(alloc, &topic.tables)?;
        let own = topic_domains(alloc, above, &topic.domains)?;
        Ok(TopicScope { above, own, tables })
    }

    /// Where names in the topic are looked up.
    pub fn scope(&self) -> Scope<'_, 'a>
        ensures { scope_of result ≡ topic_scope_of self.now }
    {
        Scope {
            above: Some(self.above),
            own: &self.own,
            tables: Some(&self.tables),
        }
    }
}
