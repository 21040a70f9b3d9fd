// Where a name is looked up, and what it stands for.
ghost use Rattle.std.specs.Prelude.{◌≡◌, []};
ghost use Rattle.resolver.specs.Scopes.{names_of};
ghost use Rattle.resolver.specs.Steps.{steps_of};
ghost use Rattle.resolver.specs.DomainScopes.{domains_above, steps_above, StepsFrom};

pub mod aliases;
pub mod all_names;
pub mod counted_type;
pub mod declared;
pub mod domain_scope;
pub mod name_index;
pub mod named;
pub mod topic_scope;

use aliases::alias_of;
use counted_type::CountedType;
use domain_scope::DomainScope;
use ili_grammar::{Content, TypeSyntax};
use name_index::NameIndex;

/// The domains that are declared further out, if any are, those that are declared here, and the
/// tables that a reference may name, in a topic.
#[derive(Clone, Copy)]
pub struct Scope<'s, 'a> {
    pub above: Option<&'s DomainScope<'a>>,
    pub own: &'s DomainScope<'a>,
    pub tables: Option<&'s NameIndex<'a>>,
    ghost outer: { steps_above above ≡ steps_of [] (domains_above above) },
    ghost inner: { StepsFrom (names_of (domains_above above)) own.now },
}

/// What a name stands for: a type that is no name alone, and the scope of the names in it.
#[derive(Clone, Copy)]
pub struct Meaning<'s, 'a> {
    pub scope: Scope<'s, 'a>,
    pub counted: CountedType<'a>,
}

impl<'s, 'a> Scope<'s, 'a> {
    ghost use Rattle.std.specs.Prelude.{◌≡◌, [], None};
    ghost use Rattle.std.specs.Option.{option_map};
    ghost use Rattle.ili_grammar.specs.Values.{content_of, type_of};
    ghost use Rattle.resolver.specs.DomainScopes.{domains_in, StepsFrom};
    ghost use Rattle.resolver.specs.NameIndexes.{names_if};
    ghost use Rattle.resolver.specs.Scopes.{domain_names, is_among, is_visible, names_of};
    ghost use Rattle.resolver.specs.Scopes.{outside, written, meaning_outside, meaning, meant};
    ghost use Rattle.resolver.specs.Scopes.{value_meant};
    ghost use Rattle.resolver.specs.ScopeViews.{scope_of, meaning_of};

    /// The scope outside the topics.
    pub fn outside(own: &'s DomainScope<'a>) -> Scope<'s, 'a>
        requires { StepsFrom [] own.now }
        ensures { scope_of result ≡ outside (domains_in own.now) }
    {
        Scope {
            above: None,
            own,
            tables: None,
        }
    }

    /// The names of the domains further out.
    pub fn names_above(&self) -> Option<&'s NameIndex<'a>>
        ensures { names_if result ≡ domain_names (scope_of self.now).above }
    {
        Some(self.above?.names())
    }

    // Whether a domain of that name is declared further out.
    fn is_above(&self, name: &[u8]) -> bool
        ensures { result ≡ is_among name.now (names_of (scope_of self.now).above) }
    {
        NameIndex::is_in(self.names_above(), name)
    }

    /// Whether a domain of that name is visible.
    pub fn is_visible(&self, name: &[u8]) -> bool
        ensures { result ≡ is_visible (scope_of self.now) name.now }
    {
        self.is_above(name) || self.own.names().has(name)
    }

    // What a type outside the topics stands for, where it is no name alone.
    fn resolve_type_outside(
        domains: &'s DomainScope<'a>,
        counted: CountedType<'a>,
    ) -> Option<Meaning<'s, 'a>>
        requires { StepsFrom [] domains.now }
        ensures { option_map meaning_of result
            ≡ written (λ _. None) (outside (domains_in domains.now))
            (type_of counted.entry.kind.now) }
    {
        match alias_of(counted.kind) {
            Some(_) => None,
            None => Some(Meaning {
                scope: Scope::outside(domains),
                counted,
            }),
        }
    }

    // What a name stands for outside the topics.
    fn resolve_outside(domains: &'s DomainScope<'a>, name: &[u8]) -> Option<Meaning<'s, 'a>>
        requires { StepsFrom [] domains.now }
        ensures { option_map meaning_of result
            ≡ meaning_outside (domains_in domains.now) name.now }
    {
        let target = domains.target(name)?;
        Scope::resolve_type_outside(domains, target)
    }

    // What a name that is declared further out stands for.
    fn resolve_above(&self, name: &[u8]) -> Option<Meaning<'s, 'a>>
        ensures { option_map meaning_of result
            ≡ meaning_outside (scope_of self.now).above name.now }
    {
        Scope::resolve_outside(self.above?, name)
    }

    // What a type here stands for, where its name, if it is one alone, is declared further out.
    fn resolve_end(&self, counted: CountedType<'a>) -> Option<Meaning<'s, 'a>>
        ensures { option_map meaning_of result
            ≡ written (meaning_outside (scope_of self.now).above) (scope_of self.now)
            (type_of counted.entry.kind.now) }
    {
        match alias_of(counted.kind) {
            Some(name) => self.resolve_above(name.text.bytes()),
            None => Some(Meaning {
                scope: *self,
                counted,
            }),
        }
    }

    /// What a name stands for.
    pub fn resolve_name(&self, name: &[u8]) -> Option<Meaning<'s, 'a>>
        ensures { option_map meaning_of result ≡ meaning (scope_of self.now) name.now }
    {
        if self.is_above(name) {
            return self.resolve_above(name);
        }
        let target = self.own.target(name)?;
        self.resolve_end(target)
    }

    /// What a type stands for.
    pub fn resolve_type(&self, kind: &'a TypeSyntax) -> Option<Meaning<'s, 'a>>
        ensures { option_map meaning_of result ≡ meant (scope_of self.now) (type_of kind.now) }
    {
        match alias_of(kind) {
            Some(name) => self.resolve_name(name.text.bytes()),
            None => Some(Meaning {
                scope: *self,
                counted: CountedType::written(kind),
            }),
        }
    }

    /// What the content of an attribute stands for, if it is a value.
    pub fn resolve_value(&self, content: &'a Content) -> Option<Meaning<'s, 'a>>
        ensures { option_map meaning_of result
            ≡ value_meant (scope_of self.now) (content_of content.now) }
    {
        match content {
            Content::Value(kind) => self.resolve_type(kind),
            Content::Reference(_) => None,
        }
    }
}
