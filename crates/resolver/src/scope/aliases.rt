// Domains whose type is another domain's name: each leads to one other at most.
ghost use Rattle.std.specs.Prelude.{◌≡◌, ℕ, ◌<◌, ◌≤◌, List, length, slice_index, IfOk};
ghost use Rattle.std.specs.Option.{option_map};
ghost use Rattle.ili_grammar.specs.Values.{ident_of, type_of};
ghost use Rattle.resolver.specs.Scopes.{longest, name_alone};
ghost use Rattle.resolver.specs.Aliases.{step_in, StepsWithin, IsJump, AreCyclic};

use ili_grammar::{Ident, TypeSyntax};
use ports::Memory;
use std::alloc::Global;

/// The name, where a type is a name alone.
pub fn alias_of(kind: &TypeSyntax) -> Option<&Ident>
    ensures { option_map (λ n. ident_of n.now) result ≡ name_alone (type_of kind.now) }
{
    match kind {
        TypeSyntax::Named(name) => Some(name),
        _ => None,
    }
}

// So many times a jump is doubled: 2 to this power is more steps than any chain has that ends.
const DOUBLINGS: u32 = 22;

// One step, or none at the end of a chain.
fn one_step(alloc: Global, steps: &[Option<usize>]) -> Result<Vec<usize>, Memory>
    requires { StepsWithin steps.now }
    ensures { IfOk result (λ jumps. IsJump (step_in steps.now) 1 (length steps.now) jumps.items) }
{
    let mut jumps = Vec::new(alloc);
    for (place, step) in steps.iter().enumerate() {
        jumps.push(step.unwrap_or(place))?;
    }
    Ok(jumps)
}

// Each jump, and then the jump from there.
fn jump_twice(alloc: Global, jumps: &[usize]) -> Result<Vec<usize>, Memory>
    requires { (i : ℕ) → i < length jumps.now → slice_index jumps.now i < length jumps.now }
    ensures long { IfOk result (λ far. length far.items ≡ length jumps.now) }
    ensures lands { IfOk result (λ far. (i : ℕ) → i < length jumps.now → slice_index far.items i
        ≡ slice_index jumps.now (slice_index jumps.now i)) }
{
    let mut far = Vec::new(alloc);
    for jump in jumps {
        far.push(jumps[*jump])?;
    }
    Ok(far)
}

/// For each domain the last one of its chain, or one on the cycle that the chain enters, by the
/// domain to which each leads.
pub fn targets(alloc: Global, steps: &[Option<usize>]) -> Result<Vec<usize>, Memory>
    requires { StepsWithin steps.now }
    ensures { IfOk result
        (λ targets. IsJump (step_in steps.now) longest (length steps.now) targets.items) }
{
    let mut jumps = one_step(alloc, steps)?;
    for _ in 0..DOUBLINGS {
        jumps = jump_twice(alloc, &jumps)?;
    }
    Ok(jumps)
}

/// Whether each domain leads back to itself, by the targets of all.
pub fn cyclic(
    alloc: Global,
    steps: &[Option<usize>],
    targets: &[usize],
) -> Result<Vec<bool>, Memory>
    requires steps { StepsWithin steps.now }
    requires targets { IsJump (step_in steps.now) longest (length steps.now) targets.now }
    requires few { length steps.now ≤ longest }
    ensures { IfOk result (λ marks. AreCyclic steps.now marks.items) }
{
    let mut marks = vec![in alloc; false; steps.len()]?;
    for target in targets {
        marks[*target] = steps[*target].is_some();
    }
    Ok(marks)
}
