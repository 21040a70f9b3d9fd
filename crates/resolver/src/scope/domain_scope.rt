// The domains that are declared outside the topics, or in one topic.
ghost use Rattle.std.specs.Prelude.{◌≡◌, ℕ, Some, [], ◌<◌, List, length, map, slice_get};
ghost use Rattle.std.specs.Prelude.{slice_index, IfOk};
ghost use Rattle.std.specs.Option.{option_map, option_and_then};
ghost use Rattle.ili_grammar.specs.Values.{domain_of, type_of};
ghost use Rattle.resolver.specs.Scopes.{texts, domain_names, names_of, name_alone, declared_in};
ghost use Rattle.resolver.specs.Scopes.{longest};
ghost use Rattle.resolver.specs.Indexed.{idents};
ghost use Rattle.resolver.specs.NameIndexes.{names_in, names_if};
ghost use Rattle.resolver.specs.Aliases.{step_in, StepsWithin, IsJump};
ghost use Rattle.resolver.specs.Numbers.{counted_leaves};
ghost use Rattle.resolver.specs.Steps.{domains_at, step_of, steps_of};

use super::aliases::{alias_of, cyclic, targets};
use super::counted_type::CountedType;
use super::name_index::NameIndex;
use crate::earliest::Earliest;
use crate::faults::ModelCode;
use crate::leaves::domain_leaves;
use ili_grammar::{DomainSyntax, Ident, TypeSyntax};
use ports::Memory;
use std::alloc::Global;

/// Domains in the order of the text, the leaves of the type of each, the step from each to the one
/// whose name is its type, and the last domain of the chain of such steps.
#[derive(Drop)]
pub struct DomainScope<'a> {
    domains: Vec<&'a DomainSyntax>,
    leaves: Vec<u32>,
    names: NameIndex<'a>,
    steps: Vec<Option<usize>>,
    targets: Vec<usize>,
    ghost named: { names_in names ≡ domain_names (domains_at domains.items) },
    ghost counted: { leaves.items
        ≡ map (λ d. counted_leaves (type_of d.now.kind)) domains.items },
    ghost long: { length steps.items ≡ length domains.items },
    ghost within: { (i k : ℕ) → step_in steps.items i ≡ Some k → k < length steps.items },
    ghost landed: { IsJump (step_in steps.items) longest (length steps.items) targets.items },
}

fn domain_names<'a>(alloc: Global, domains: &[&'a DomainSyntax]) -> Result<Vec<&'a Ident>, Memory>
    ensures { IfOk result (λ names. idents names.items ≡ domain_names (domains_at domains.now)) }
{
    let mut names = Vec::new(alloc);
    for domain in domains {
        names.push(&domain.name)?;
    }
    Ok(names)
}

// The domain to which a type leads, where it is a name alone that is not declared further out.
fn step(above: Option<&NameIndex<'_>>, names: &NameIndex<'_>, kind: &TypeSyntax) -> Option<usize>
    ensures { result ≡ option_and_then
        (declared_in (texts (names_if above.entry)) (texts (names_in names.now)))
        (name_alone (type_of kind.now)) }
{
    let name = alias_of(kind)?;
    if NameIndex::is_in(above, name.text.bytes()) {
        return None;
    }
    names.place(name.text.bytes())
}

fn steps(
    alloc: Global,
    above: Option<&NameIndex<'_>>,
    names: &NameIndex<'_>,
    domains: &[&DomainSyntax],
) -> Result<Vec<Option<usize>>, Memory>
    ensures { IfOk result (λ steps. steps.items
        ≡ map (λ d. option_and_then (declared_in (texts (names_if above.entry))
        (texts (names_in names.now))) (name_alone (type_of d.now.kind))) domains.now) }
{
    let steps = domains
        .iter()
        .map(|domain| step(above, names, &domain.kind))
        .collect(alloc)?;
    Ok(steps)
}

// The names of some domains, each with its place.
fn name_index<'a>(alloc: Global, domains: &[&'a DomainSyntax]) -> Result<NameIndex<'a>, Memory>
    ensures { IfOk result (λ d. names_in d ≡ domain_names (domains_at domains.now)) }
{
    NameIndex::new(alloc, domain_names(alloc, domains)?)
}

// The step from each domain, and the last domain of its chain.
fn aliases(
    alloc: Global,
    above: Option<&NameIndex<'_>>,
    names: &NameIndex<'_>,
    domains: &[&DomainSyntax],
) -> Result<(Vec<Option<usize>>, Vec<usize>), Memory>
    requires { names_in names.now ≡ domain_names (domains_at domains.now) }
    ensures steps { IfOk result
        (λ w. w.0.items ≡ steps_of (texts (names_if above.entry)) (domains_at domains.now)) }
    ensures within { IfOk result (λ w. StepsWithin w.0.items) }
    ensures long { IfOk result (λ w. length w.0.items ≡ length domains.now) }
    ensures targets { IfOk result (λ w. IsJump (step_in w.0.items) longest (length w.0.items)
        w.1.items) }
{
    let steps = steps(alloc, above, names, domains)?;
    let targets = targets(alloc, &steps)?;
    Ok((steps, targets))
}

// The type of the last domain of another's chain.
fn target_type<'a>(
    domains: &[&'a DomainSyntax],
    leaves: &[u32],
    targets: &[usize],
    place: usize,
) -> CountedType<'a>
    requires counted { leaves.now ≡ map (λ d. counted_leaves (type_of d.now.kind)) domains.now }
    requires place { place < length targets.now }
    requires end { slice_index targets.now place < length domains.now }
    ensures { option_map (λ d. d.kind)
        (slice_get (domains_at domains.now) (slice_index targets.now place))
        ≡ Some (type_of result.kind.now) }
{
    let end = targets[place];
    CountedType {
        kind: &domains[end].kind,
        leaves: Some(leaves[end]),
    }
}

impl<'a> DomainScope<'a> {
    ghost use Rattle.resolver.specs.DomainScopes.{domains_in, StepsFrom, target_in};
    ghost use Rattle.std.specs.Prelude.{◌≤◌, OnOk};
    ghost use Rattle.resolver.specs.FaultViews.{Reports};
    ghost use Rattle.resolver.specs.Rules.{cycle_faults};
    ghost use Rattle.resolver.specs.Scopes.{place};

    /// Domains, where the names of `above` are declared further out.
    pub fn new(
        alloc: Global,
        above: Option<&NameIndex<'a>>,
        domains: Vec<&'a DomainSyntax>,
    ) -> Result<DomainScope<'a>, Memory>
        ensures domains { IfOk result (λ l. domains_in l ≡ domains_at domains.entry.items) }
        ensures steps { IfOk result (StepsFrom (texts (names_if above.entry))) }
    {
        let names = name_index(alloc, &domains)?;
        let leaves = domain_leaves(alloc, &domains)?;
        let (steps, targets) = aliases(alloc, above, &names, &domains)?;
        Ok(DomainScope {
            domains,
            leaves,
            names,
            steps,
            targets,
        })
    }

    /// The names of the domains.
    pub fn names(&self) -> &NameIndex<'a>
        ensures { names_in result.now ≡ domain_names (domains_in self.now) }
    {
        &self.names
    }

    /// The type at the end of the chain of the domain of that name.
    pub fn target(&self, name: &[u8]) -> Option<CountedType<'a>>
        ensures { option_map (λ t. type_of t.kind.now) result
            ≡ option_and_then (target_in self.now)
            (place name.now (names_of (domains_in self.now))) }
    {
        let place = self.names.place(name)?;
        Some(target_type(&self.domains, &self.leaves, &self.targets, place))
    }

    /// The domains in the order of the text.
    pub fn domains(&self) -> &[&'a DomainSyntax]
        ensures { domains_at result.now ≡ domains_in self.now }
    {
        &self.domains
    }

    /// Reports each domain that leads back to itself.
    pub fn check_cycles(&self, alloc: Global, earliest: &mut Earliest<'a>) -> Result<(), Memory>
        requires { length (domains_in self.now) ≤ 4194304 }
        ensures { OnOk result (Reports earliest.old earliest.new
            (cycle_faults (step_in self.now.steps.items) 0 (domains_in self.now))) }
    {
        let marks = cyclic(alloc, &self.steps, &self.targets)?;
        for (place, domain) in self.domains.iter().enumerate() {
            earliest.report(marks[place], ModelCode::Cycle, &domain.name);
        }
        Ok(())
    }
}
