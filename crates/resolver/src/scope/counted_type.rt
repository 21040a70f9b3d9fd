// A type with its leaves, where they were counted.
ghost use Rattle.std.specs.Prelude.{◌≡◌};
ghost use Rattle.std.specs.Option.{ForSome};
ghost use Rattle.ili_grammar.specs.Values.{type_of};
ghost use Rattle.resolver.specs.Numbers.{counted_leaves};

use crate::leaves::leaves_of;
use ili_grammar::TypeSyntax;

/// A type, and how many leaves it has where that is known: those of a domain are counted once, and
/// not for each attribute that names it.
#[derive(Clone, Copy)]
pub struct CountedType<'a> {
    pub kind: &'a TypeSyntax,
    pub leaves: Option<u32>,
    ghost counted: { ForSome leaves (λ n. n ≡ counted_leaves (type_of kind.now)) },
}

impl<'a> CountedType<'a> {
    ghost use Rattle.std.specs.Prelude.{◌≡◌};
    ghost use Rattle.ili_grammar.specs.Values.{type_of};
    ghost use Rattle.resolver.specs.Numbers.{counted_leaves};

    /// A type as it is written.
    pub fn written(kind: &'a TypeSyntax) -> CountedType<'a>
        ensures { type_of result.kind.now ≡ type_of kind.now }
    {
        CountedType { kind, leaves: None }
    }

    /// How many leaves it has, none where it is no enumeration.
    pub fn leaves(&self) -> u32
        ensures { result ≡ counted_leaves (type_of self.now.kind.now) }
    {
        match self.leaves {
            Some(leaves) => leaves,
            None => leaves_of(self.kind),
        }
    }
}
