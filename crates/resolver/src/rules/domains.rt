// The rules on the domains of a scope.
ghost use Rattle.std.specs.Prelude.{All, flat_map, OnOk};
ghost use Rattle.resolver.specs.FaultViews.{Reports};
ghost use Rattle.resolver.specs.ScopeViews.{scope_of};
ghost use Rattle.resolver.specs.Steps.{domains_at};
ghost use Rattle.resolver.specs.Limits.{IsBounded, IsBoundedScope};
ghost use Rattle.resolver.specs.Rules.{domain_faults, domains_faults};

use super::types::check_type;
use crate::earliest::Earliest;
use crate::scope::Scope;
use ili_grammar::DomainSyntax;
use ports::Memory;
use std::alloc::Global;

// Checks the types of some domains.
fn check_types<'a>(
    alloc: Global,
    scope: &Scope<'_, 'a>,
    domains: &[&'a DomainSyntax],
    earliest: &mut Earliest<'a>,
) -> Result<(), Memory>
    requires scope { IsBoundedScope (scope_of scope.now) }
    requires domains { All (λ d. IsBounded d.kind) (domains_at domains.now) }
    ensures { OnOk result (Reports earliest.old earliest.new
        (flat_map (domain_faults (scope_of scope.now)) (domains_at domains.now))) }
{
    for domain in domains {
        check_type(alloc, &domain.kind, &domain.name, scope, earliest)?;
    }
    Ok(())
}

/// Checks the domains that are declared in a scope.
pub fn check_domains<'a>(
    alloc: Global,
    scope: &Scope<'_, 'a>,
    earliest: &mut Earliest<'a>,
) -> Result<(), Memory>
    requires { IsBoundedScope (scope_of scope.now) }
    ensures { OnOk result (Reports earliest.old earliest.new
        (domains_faults (scope_of scope.now))) }
{
    scope
        .own
        .names()
        .check_unique(scope.names_above(), earliest);
    scope.own.check_cycles(alloc, earliest)?;
    check_types(alloc, scope, scope.own.domains(), earliest)?;
    Ok(())
}
