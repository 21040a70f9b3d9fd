// The keywords of the model language and their words.
ghost use Rattle.std.specs.Prelude.{◌≡◌, map};
ghost use Rattle.ili_lexer.specs.Keywords.{word_of, keyword_among, keyword_of};

/// A word with a meaning of its own. Each variant is named by its word, with the first letter
/// large and the others small.
#[derive(Clone, Copy, Debug, PartialEq, Eq)]
pub enum Keyword {
    Transfer,
    Domain,
    Model,
    Topic,
    Table,
    Optional,
    End,
    No,
    Ident,
    Coord2,
    Coord3,
    Dim1,
    Dim2,
    Radians,
    Grads,
    Degrees,
    Text,
    Date,
    Halignment,
    Valignment,
    Polyline,
    Surface,
    Area,
    With,
    Straights,
    Arcs,
    Vertex,
    Base,
    Without,
    Overlaps,
    Lineattr,
    Format,
    Free,
    Fix,
    Code,
    Font,
    Blank,
    Undefined,
    Continue,
    Default,
    Tid,
    I16,
    I32,
    Any,
    View,
    Derivatives,
}

// Each keyword with the bytes of its word.
const WORDS: [(Keyword, &[u8]); 46] = [
    (Keyword::Transfer, b"TRANSFER"),
    (Keyword::Domain, b"DOMAIN"),
    (Keyword::Model, b"MODEL"),
    (Keyword::Topic, b"TOPIC"),
    (Keyword::Table, b"TABLE"),
    (Keyword::Optional, b"OPTIONAL"),
    (Keyword::End, b"END"),
    (Keyword::No, b"NO"),
    (Keyword::Ident, b"IDENT"),
    (Keyword::Coord2, b"COORD2"),
    (Keyword::Coord3, b"COORD3"),
    (Keyword::Dim1, b"DIM1"),
    (Keyword::Dim2, b"DIM2"),
    (Keyword::Radians, b"RADIANS"),
    (Keyword::Grads, b"GRADS"),
    (Keyword::Degrees, b"DEGREES"),
    (Keyword::Text, b"TEXT"),
    (Keyword::Date, b"DATE"),
    (Keyword::Halignment, b"HALIGNMENT"),
    (Keyword::Valignment, b"VALIGNMENT"),
    (Keyword::Polyline, b"POLYLINE"),
    (Keyword::Surface, b"SURFACE"),
    (Keyword::Area, b"AREA"),
    (Keyword::With, b"WITH"),
    (Keyword::Straights, b"STRAIGHTS"),
    (Keyword::Arcs, b"ARCS"),
    (Keyword::Vertex, b"VERTEX"),
    (Keyword::Base, b"BASE"),
    (Keyword::Without, b"WITHOUT"),
    (Keyword::Overlaps, b"OVERLAPS"),
    (Keyword::Lineattr, b"LINEATTR"),
    (Keyword::Format, b"FORMAT"),
    (Keyword::Free, b"FREE"),
    (Keyword::Fix, b"FIX"),
    (Keyword::Code, b"CODE"),
    (Keyword::Font, b"FONT"),
    (Keyword::Blank, b"BLANK"),
    (Keyword::Undefined, b"UNDEFINED"),
    (Keyword::Continue, b"CONTINUE"),
    (Keyword::Default, b"DEFAULT"),
    (Keyword::Tid, b"TID"),
    (Keyword::I16, b"I16"),
    (Keyword::I32, b"I32"),
    (Keyword::Any, b"ANY"),
    (Keyword::View, b"VIEW"),
    (Keyword::Derivatives, b"DERIVATIVES"),
];

// The keyword with this word, if there is one.
#[tactic(auto, unfolding(crate::specs::Keywords::keyword_of))]
pub fn find_keyword(word: &[u8]) -> Option<Keyword>
    ensures { result ≡ keyword_of word.now }
{
    find_among(&WORDS, word)
}

// The keyword of the first of these words that is this one; each word is that of its keyword.
fn find_among(words: &[(Keyword, &[u8])], word: &[u8]) -> Option<Keyword>
    requires { map (λ w. w.1.now) words.now ≡ map (λ w. word_of w.0) words.now }
    ensures { result ≡ keyword_among (map (λ w. w.0) words.now) word.now }
{
    for (keyword, text) in words {
        if *text == word {
            return Some(*keyword);
        }
    }
    None
}
