// What holds of the definition of tokens itself.
ghost use Rattle.std.specs.Prelude.{◌≡◌, ℕ, length, List, Some};
ghost use Rattle.ili_lexer.specs.declared.fronts.Front.{Front};
ghost use Rattle.ili_lexer.specs.declared.keywords.Keyword.{Keyword};
ghost use Rattle.ili_lexer.specs.declared.tokens.Kind.{Kind};
ghost use Rattle.ili_lexer.specs.declared.tokens.LexFault.{LexFault};
ghost use Rattle.ili_lexer.specs.declared.tokens.Token.{Token};
ghost use Rattle.ili_lexer.specs.Forms.{IsToken};
ghost use Rattle.ili_lexer.specs.Fronts.{front_of};
ghost use Rattle.ili_lexer.specs.Keywords.{word_of, keyword_of};
ghost use Rattle.ili_lexer.specs.Longest.{IsFront, MayHoldToken, Stands};
ghost use Rattle.ili_lexer.specs.Tokens.{Answer, Gives, AreTokens, IsFault, AreInOrder};
ghost use Rattle.ili_lexer.specs.Tokens.{AreLongest, IsFaultByTable};

/// A text gives one answer: one list of tokens, or one fault.
pub fn one_answer()
    ensures { (text : List ℕ) (i : ℕ) (a b : Answer) → Gives text i a → Gives text i b → a ≡ b }
{}

/// The tokens of a text stand in its order, do not overlap, and end by the end of the text.
pub fn tokens_in_order()
    ensures { (text : List ℕ) (ts : List Token) → AreTokens text ts
        → AreInOrder (length text) 0 ts }
{}

/// A keyword is found by its word, and what is found by a word has that word.
pub fn keyword_words()
    ensures known { (k : Keyword) → keyword_of (word_of k) ≡ Some k }
    ensures found { (w : List ℕ) (k : Keyword) → keyword_of w ≡ Some k → w ≡ word_of k }
{}

/// The same bytes are tokens of one kind.
pub fn one_kind()
    ensures { (j k : Kind) (bytes : List ℕ) → IsToken j bytes → IsToken k bytes → j ≡ k }
{}

/// What stands at the front of a text is what the table of tokens says: the longest token, whose
/// digits are few; bytes between tokens; or a fault. And what the table says is found there. So
/// where a token stands, the longest is found, or a fault of its digits.
pub fn front_by_table()
    ensures stands { (text : List ℕ) → IsFront text (front_of text) }
    ensures found { (text : List ℕ) (f : Front) → IsFront text f → front_of text ≡ f }
    ensures met { (text : List ℕ) (k : Kind) (n : ℕ) → Stands text k n
        → MayHoldToken text (front_of text) }
{}

/// Each token of a text is the longest token of the table at its place, and at the place of its
/// fault the table has that fault.
pub fn text_by_table()
    ensures tokens { (text : List ℕ) (ts : List Token) → AreTokens text ts → AreLongest text ts }
    ensures fault { (text : List ℕ) (f : LexFault) → IsFault text f → IsFaultByTable text f }
{}
