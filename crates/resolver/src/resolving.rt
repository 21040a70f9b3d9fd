// What a model stands for, or its fault that counts.
ghost use Rattle.std.specs.Prelude.{◌≡◌, [], IfErr, IfOk, None, Some};
ghost use Rattle.ili_grammar.specs.Limits.{IsWithinLimits};
ghost use Rattle.ili_grammar.specs.Values.{model_of};
ghost use Rattle.resolver.specs.Faults.{NamesFault};
ghost use Rattle.resolver.specs.First.{BreaksNone, NamesFirstBroken};
ghost use Rattle.resolver.specs.FaultViews.{fault_of};
ghost use Rattle.resolver.specs.Scopes.{everywhere};
ghost use Rattle.resolver.specs.DomainScopes.{domains_in, StepsFrom};
ghost use Rattle.resolver.specs.Rules.{first_fault};
ghost use Rattle.resolver.specs.Models.{resolved_model};
ghost use Rattle.resolver.specs.Values.{model_of as built_model};
ghost use Rattle.resolver.specs.Sound.{IsSound};
ghost use Rattle.resolver.specs.Standing.{IsModel};

use super::build::model;
use super::earliest::FaultAt;
use super::faults::ModelFault;
use super::models::ResolvedModel;
use super::rules::first_fault;
use super::scope::declared::everywhere;
use super::scope::domain_scope::DomainScope;
use ili_grammar::{Ident, ModelSyntax};
use ports::{Memory, Name};
use std::alloc::Global;

// The answer that names a fault.
fn refusal(alloc: Global, fault: FaultAt<'_>) -> Result<ModelFault, Memory>
    ensures { IfOk result (λ f. NamesFault f (Some (fault_of fault.entry))) }
{
    Ok(ModelFault::At {
        code: fault.code,
        name: Ident {
            text: Name::new(alloc, fault.name.text.bytes())?,
            line: fault.name.line,
            column: fault.name.column,
        },
    })
}

// What a model stands for, or its fault that counts, where the domains of `above` are those
// outside its topics.
fn resolve_within<'a>(
    alloc: Global,
    above: &DomainScope<'a>,
    syntax: &'a ModelSyntax,
) -> Result<ResolvedModel, ModelFault>
    requires within { IsWithinLimits (model_of syntax.now) }
    requires steps { StepsFrom [] above.now }
    requires domains { domains_in above.now ≡ everywhere (model_of syntax.now) }
    ensures model { IfOk result (λ m. (first_fault (model_of syntax.now) ≡ None)
        × (built_model m ≡ resolved_model (model_of syntax.now))) }
    ensures fault { IfErr result (λ f. NamesFault f (first_fault (model_of syntax.now))) }
{
    match first_fault(alloc, above, syntax)? {
        Some(fault) => Err(refusal(alloc, fault)?),
        None => Ok(model(alloc, above, syntax)?),
    }
}

/// What a model stands for.
///
/// The syntax is as small as the grammar's reader gives it. A model is given where no rule is
/// broken, and each part of it stands for what is written. It is sound: its numbers of tables and
/// attributes are those of tables and attributes that it has, the window of an AREA is narrow, its
/// names are few, and its codes differ. The error names the rule that is broken first in the text,
/// and the name at which it is; or it is out of memory.
pub fn resolve(alloc: Global, syntax: &ModelSyntax) -> Result<ResolvedModel, ModelFault>
    requires { IsWithinLimits (model_of syntax.now) }
    ensures model { IfOk result (λ m. BreaksNone (model_of syntax.now)
        × IsModel (model_of syntax.now) (built_model m)) }
    ensures sound { IfOk result (λ m. IsSound (built_model m)) }
    ensures fault { IfErr result (λ f. NamesFirstBroken (model_of syntax.now) f) }
{
    let above = everywhere(alloc, syntax)?;
    resolve_within(alloc, &above, syntax)
}
