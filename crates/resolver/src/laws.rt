// What holds of models and of what they stand for.
ghost use Rattle.std.specs.Prelude.{◌≡◌, ◌↔◌, ℕ, ◌≤◌, ℤ, List, [], take, Some, None};
ghost use Rattle.decimals.specs.Numerals.{Numeral, Spells};
ghost use Rattle.decimals.specs.Scaled.{HasValue};
ghost use Rattle.ili_lexer.specs.Fronts.{front_of};
ghost use Rattle.ili_lexer.specs.declared.fronts.Front.TheVariants.{Token as FrontToken};
ghost use Rattle.ili_lexer.specs.declared.tokens.Kind.TheVariants.{Number};
ghost use Rattle.ili_lexer.specs.declared.tokens.Token.{Token};
ghost use Rattle.ili_lexer.specs.Tokens.{AreTokens};
ghost use Rattle.ili_grammar.specs.Syntax.{Ident, ModelSyntax};
ghost use Rattle.ili_grammar.specs.Limits.{IsWithinLimits};
ghost use Rattle.ili_grammar.specs.Numbers.{decimal};
ghost use Rattle.ili_grammar.specs.Models.{Spells as IsSpelt};
ghost use Rattle.ili_grammar.specs.Slices.{toks};
ghost use Rattle.ili_grammar.specs.Tokens.{Info};
ghost use Rattle.resolver.specs.declared.faults.ModelCode.{ModelCode};
ghost use Rattle.resolver.specs.Faults.{Fault};
ghost use Rattle.resolver.specs.Rules.{faults, first_fault};
ghost use Rattle.resolver.specs.Standing.{IsBound};
ghost use Rattle.resolver.specs.Breaking.{Breaks};
ghost use Rattle.resolver.specs.First.{IsLeast, IsListed, IsFirstBroken, BreaksNone};
ghost use Rattle.resolver.specs.Models.{resolved_model};
ghost use Rattle.resolver.specs.Resolved.{ResolvedModel};
ghost use Rattle.resolver.specs.Standing.{IsModel};

/// Where no rule is broken, each part of a model stands for what is written, and for no value in
/// place of a missing one: the chain from each name ends at a type, references and IDENT lists name
/// what is there, bounds are kept exactly and in order, vertices have coordinates. What is
/// written stands for one model at most.
pub fn stands_for_what_is_written()
    ensures kept { (m : ModelSyntax) → first_fault m ≡ None → IsWithinLimits m
        → IsModel m (resolved_model m) }
    ensures only { (m : ModelSyntax) (a b : ResolvedModel) → IsModel m a → IsModel m b → a ≡ b }
{}

/// The fault that counts is in the list of faults, and none of the list comes before it: none in
/// an earlier line, none in that line in an earlier column, none at its place of a lower rank.
/// Where none counts the list is empty.
pub fn first_is_least()
    ensures least { (m : ModelSyntax) (f : Fault) → first_fault m ≡ Some f → IsLeast (faults m) f }
    ensures none { (m : ModelSyntax) → first_fault m ≡ None → faults m ≡ [] }
{}

/// The faults of a model are exactly the rules that it breaks, each with the name at which it is
/// broken (`Breaks` has them one by one).
pub fn broken_is_listed()
    ensures listed { (m : ModelSyntax) (code : ModelCode) (name : Ident) → IsWithinLimits m
        → Breaks m code name → IsListed m code name }
    ensures broken { (m : ModelSyntax) (code : ModelCode) (name : Ident) → IsWithinLimits m
        → IsListed m code name → Breaks m code name }
{}

/// The fault that counts is a rule that is broken, and no broken rule comes before it; none counts
/// exactly where no rule is broken.
pub fn first_broken_counts()
    ensures first { (m : ModelSyntax) (f : Fault) → IsWithinLimits m → first_fault m ≡ Some f
        → IsFirstBroken m f }
    ensures none { (m : ModelSyntax) → IsWithinLimits m → (first_fault m ≡ None) ↔ BreaksNone m }
{}

/// A rule is broken at a name that is written, and no two names of a text stand at one place. So a
/// model that a text spells has one first broken rule at most.
pub fn one_first_broken()
    ensures { (text : List ℕ) (ts : List Token) (m : ModelSyntax) (f g : Fault)
        → AreTokens text ts → IsSpelt m (toks text ts) → IsFirstBroken m f → IsFirstBroken m g
        → f ≡ g }
{}

/// The bytes of each number token spell a number. The text of a bound that spells one, read as a
/// value at the scale of its type, is that bound, and no other value is.
pub fn bounds_are_values()
    ensures spelt { (text : List ℕ) (n : ℕ) → front_of text ≡ FrontToken Number n
        → (m : Numeral) × Spells (take n text) m }
    ensures value { (i : Info) (n : Numeral) (scale : ℕ) (bound : ℤ) → Spells i.text n
        → IsBound scale (decimal i) bound → HasValue i.text scale bound }
    ensures bound { (i : Info) (scale : ℕ) (value : ℤ) → (decimal i).scale ≤ scale
        → HasValue i.text scale value → IsBound scale (decimal i) value }
{}
