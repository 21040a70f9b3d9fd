// Laws of the domains.
ghost use Rattle.std.specs.Prelude.{◌≡◌, ◌↔◌, ◌≤◌, ◌^◌, ℕ, List, None, true};
ghost use Rattle.ili_grammar.specs.Syntax.{Codes};
ghost use Rattle.resolver.specs.Resolved.{Form};
ghost use Rattle.field_values.specs.Fields.{field_fault, is_leaf};
ghost use Rattle.field_values.specs.Leaves.{IsLeaf};
ghost use Rattle.field_values.specs.Meeting.{Meets};

/// The words that are leaves of an enumeration are the decimal spellings of their numbers,
/// counted from 0.
pub fn leaves_are_spelled()
    ensures { (leaves : ℕ) (word : List ℕ)
        → leaves ≤ 2 ^ 32 → (is_leaf leaves word ≡ true)
        ↔ IsLeaf leaves word }
{}

/// Words break no rule exactly where none is undefined, and they are a value of the form.
pub fn columns_are_met()
    ensures { (form : Form) (codes : Codes) (words : List (List ℕ))
        → (field_fault form codes words ≡ None)
        ↔ Meets form codes words }
{}
