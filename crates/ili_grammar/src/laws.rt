// What holds of the grammar itself.
ghost use Rattle.std.specs.Prelude.{◌≡◌, List};
ghost use Rattle.ili_grammar.specs.Tokens.{Tok};
ghost use Rattle.ili_grammar.specs.Syntax.{ModelSyntax};
ghost use Rattle.ili_grammar.specs.Models.{Spells};
ghost use Rattle.ili_grammar.specs.Faults.{IsFirstFault};
ghost use Rattle.ili_grammar.specs.declared.syntax.SyntaxFault as fault;
ghost use Rattle.ili_grammar.specs.declared.syntax.SyntaxFault.TheVariants as faults;

/// At most one syntax value is spelt by a list of tokens.
pub fn one_model()
    ensures { (m o : ModelSyntax) (w : List Tok) → Spells m w → Spells o w → m ≡ o }
{}

/// A list of tokens has at most one first fault, and none where it is a model.
pub fn one_fault()
    ensures same { (w : List Tok) (f g : fault.SyntaxFault) → (f ≡ faults.Memory → ⊥)
        → (g ≡ faults.Memory → ⊥) → IsFirstFault w f → IsFirstFault w g → f ≡ g }
    ensures no_model { (w : List Tok) (f : fault.SyntaxFault) (m : ModelSyntax) → IsFirstFault w f
        → Spells m w → f ≡ faults.Memory }
{}
