// What has a name in the text.
ghost use Rattle.std.specs.Prelude.{◌≡◌};
ghost use Rattle.ili_grammar.specs.Syntax.{Ident as Written};
ghost use Rattle.ili_grammar.specs.Values.{attribute_of, element_of, ident_of};
ghost use Rattle.resolver.specs.Named.{attribute_name, element_name};

use ili_grammar::{AttributeSyntax, Element, Ident, TableSyntax, TopicSyntax};

/// What has a name in the text.
pub trait Named {
    ghost name_of: { Self → Written };

    fn name(&self) -> &Ident
        ensures { ident_of result.now ≡ name_of self.now };
}

impl Named for Ident {
    ghost name_of = { ident_of };

    fn name(&self) -> &Ident {
        self
    }
}

impl Named for Element {
    ghost name_of = { λ e. element_name (element_of e) };

    fn name(&self) -> &Ident {
        &self.name
    }
}

impl Named for AttributeSyntax {
    ghost name_of = { λ a. attribute_name (attribute_of a) };

    fn name(&self) -> &Ident {
        &self.name
    }
}

impl Named for TableSyntax {
    ghost name_of = { λ t. ident_of t.name };

    fn name(&self) -> &Ident {
        &self.name
    }
}

impl Named for TopicSyntax {
    ghost name_of = { λ t. ident_of t.name };

    fn name(&self) -> &Ident {
        &self.name
    }
}
