// Laws of the text.
ghost use Rattle.std.specs.Prelude.{◌≡◌, ℕ, List};
ghost use Rattle.certificate.specs.declared.notes.HalfNote.{HalfNote};
ghost use Rattle.certificate.specs.Spelling.{Plain, AreSpelt, ArePaired, pairs, Spells};

/// One text spells at most one list, whatever its version. That a list has one text in each
/// version needs no law: the text is a function of the list.
pub fn one_list()
    ensures { (bytes : List ℕ) (a b : List Plain) → AreSpelt a → AreSpelt b
        → Spells bytes a → Spells bytes b → a ≡ b }
{}

/// Notes that have partners are given by their pairs, so that a contract about pairs is one about
/// all notes.
pub fn one_pairing()
    ensures { (a b : List HalfNote) → ArePaired a → ArePaired b → pairs a ≡ pairs b → a ≡ b }
{}
