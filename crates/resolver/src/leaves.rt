// The elements of an enumeration that have no parts.
ghost use Rattle.std.specs.Prelude.{◌≡◌, ◌-◌, ◌^◌, min, map, IfOk};
ghost use Rattle.ili_grammar.specs.Values.{element_of, elements_of, type_of};
ghost use Rattle.resolver.specs.Numbers.{counted_leaves, leaves, leaves_in};

use ili_grammar::{DomainSyntax, Element, TypeSyntax};
use ports::Memory;
use std::alloc::Global;

// The leaves of an element, as far as 32 bits count: itself, or those of its parts.
fn leaves_in(element: &Element) -> u32
    ensures { result ≡ min (leaves_in (element_of element.now)) (2 ^ 32 - 1) }
{
    let mut count: u32 = 0;
    for part in &element.parts {
        count = count.saturating_add(leaves_in(part));
    }
    count.max(1)
}

// The leaves of an enumeration, those of all parts counted.
fn leaves(elements: &[Element]) -> u32
    ensures { result ≡ min (leaves (elements_of elements.now)) (2 ^ 32 - 1) }
{
    let mut count: u32 = 0;
    for element in elements {
        count = count.saturating_add(leaves_in(element));
    }
    count
}

/// The leaves of a type, as far as 32 bits count; none where it is no enumeration. It takes time
/// in proportion to the type.
pub fn leaves_of(kind: &TypeSyntax) -> u32
    ensures { result ≡ counted_leaves (type_of kind.now) }
{
    match kind {
        TypeSyntax::Enumeration(elements) => leaves(elements),
        _ => 0,
    }
}

/// The leaves of the types of domains.
pub fn domain_leaves(alloc: Global, domains: &[&DomainSyntax]) -> Result<Vec<u32>, Memory>
    ensures { IfOk result (λ counts. counts.items
        ≡ map (λ d. counted_leaves (type_of d.now.kind)) domains.now) }
{
    let counts = domains
        .iter()
        .map(|domain| leaves_of(&domain.kind))
        .collect(alloc)?;
    Ok(counts)
}
