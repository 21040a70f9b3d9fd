// The domains that a model declares outside its topics.
ghost use Rattle.std.specs.Prelude.{◌≡◌, ◌++◌, [], IfOk, OnOk};
ghost use Rattle.ili_grammar.specs.Values.{domains_of, model_of};
ghost use Rattle.resolver.specs.Scopes.{everywhere};
ghost use Rattle.resolver.specs.Steps.{domains_at};
ghost use Rattle.resolver.specs.DomainScopes.{domains_in, StepsFrom};

use super::domain_scope::DomainScope;
use ili_grammar::{DomainSyntax, ModelSyntax};
use ports::Memory;
use std::alloc::Global;

/// Adds domains in their order.
pub fn push_domains<'a>(
    domains: &'a [DomainSyntax],
    all: &mut Vec<&'a DomainSyntax>,
) -> Result<(), Memory>
    ensures { OnOk result (domains_at all.new.items ≡ domains_at all.old.items
        ++ domains_of domains.now) }
{
    for domain in domains {
        all.push(domain)?;
    }
    Ok(())
}

/// The domains that are declared outside the topics.
pub fn everywhere<'a>(alloc: Global, syntax: &'a ModelSyntax) -> Result<DomainScope<'a>, Memory>
    ensures domains { IfOk result (λ l. domains_in l ≡ everywhere (model_of syntax.now)) }
    ensures steps { IfOk result (StepsFrom []) }
{
    let mut domains = Vec::new(alloc);
    push_domains(&syntax.outer, &mut domains)?;
    push_domains(&syntax.domains, &mut domains)?;
    DomainScope::new(alloc, None, domains)
}
