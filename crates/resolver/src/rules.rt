// The rules on names and types, and the fault of a model that counts.
ghost use Rattle.std.specs.Prelude.{◌≡◌, [], IfOk};
ghost use Rattle.std.specs.Option.{option_map};
ghost use Rattle.ili_grammar.specs.Limits.{IsWithinLimits};
ghost use Rattle.ili_grammar.specs.Values.{model_of};
ghost use Rattle.resolver.specs.FaultViews.{fault_of};
ghost use Rattle.resolver.specs.Scopes.{everywhere};
ghost use Rattle.resolver.specs.DomainScopes.{domains_in, StepsFrom};
ghost use Rattle.resolver.specs.Rules.{first_fault};

mod domains;
mod helpers;
mod lines;
mod names;
mod numbers;
mod tables;
mod topics;
mod types;

use crate::earliest::{Earliest, FaultAt};
use crate::scope::Scope;
use crate::scope::domain_scope::DomainScope;
use domains::check_domains;
pub use helpers::helper_name;
use ili_grammar::ModelSyntax;
use ports::Memory;
use std::alloc::Global;
use topics::check_topics;

/// The fault of a model that counts, where the domains of `above` are those outside its topics.
pub fn first_fault<'a>(
    alloc: Global,
    above: &DomainScope<'a>,
    syntax: &'a ModelSyntax,
) -> Result<Option<FaultAt<'a>>, Memory>
    requires within { IsWithinLimits (model_of syntax.now) }
    requires steps { StepsFrom [] above.now }
    requires domains { domains_in above.now ≡ everywhere (model_of syntax.now) }
    ensures { IfOk result (λ first. option_map fault_of first ≡ first_fault (model_of syntax.now)) }
{
    let mut earliest = Earliest::new();
    check_domains(alloc, &Scope::outside(above), &mut earliest)?;
    check_topics(alloc, above, &syntax.topics, &mut earliest)?;
    Ok(earliest.fault())
}
