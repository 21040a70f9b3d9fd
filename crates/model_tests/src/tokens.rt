// The tokens of a text.
use super::texts::tokens_of;
use ili_lexer::{Keyword, Kind, Mark, Token};
use std::alloc::Global;

const NUMBER: Kind = Kind::Number;

const NAME: Kind = Kind::Name;

const PERIOD: Kind = Kind::Mark(Mark::Period);

const TWO_PERIODS: Kind = Kind::Mark(Mark::TwoPeriods);

// A text, and the kinds of its tokens.
const KINDS: [(&[u8], &[Kind]); 23] = [
    (b"", &[]),
    (b"+0x1", &[NUMBER, NAME]),
    (b"10x1", &[NUMBER, NAME]),
    (b"00x1", &[NUMBER, NAME]),
    (b"0X1", &[NUMBER, NAME]),
    (b"0x1FF", &[Kind::Hex, NAME]),
    (b"0x1g", &[Kind::Hex, NAME]),
    (b"0xfF0", &[Kind::Hex, NUMBER]),
    (b"5-3", &[NUMBER, NUMBER]),
    (b"-5->", &[NUMBER, Kind::Mark(Mark::Arrow)]),
    (b"0..10", &[NUMBER, TWO_PERIODS, NUMBER]),
    (b"0...5", &[NUMBER, TWO_PERIODS, PERIOD, NUMBER]),
    (b"1.5.3", &[NUMBER, PERIOD, NUMBER]),
    (b"1.M", &[NUMBER, PERIOD, NAME]),
    (
        b"END M..",
        &[Kind::Keyword(Keyword::End), NAME, TWO_PERIODS],
    ),
    (
        b"NO NOT no I16 I160",
        &[
            Kind::Keyword(Keyword::No),
            NAME,
            NAME,
            Kind::Keyword(Keyword::I16),
            NAME,
        ],
    ),
    (b"////", &[Kind::Explanation]),
    (b"//a/b//0x1", &[Kind::Explanation, Kind::Hex]),
    (b"-0.5.", &[NUMBER, PERIOD]),
    (b">-1", &[Kind::Mark(Mark::Greater), NUMBER]),
    (b"//a\n!!\xff//b", &[Kind::Explanation, NAME]),
    (b"!!x\rN", &[]),
    (b"!!\xff\x0c//\nN!!", &[NAME]),
];

const WORDS: &[u8] = b"TRANSFER DOMAIN MODEL TOPIC TABLE OPTIONAL END NO IDENT COORD2 COORD3 DIM1 \
    DIM2 RADIANS GRADS DEGREES TEXT DATE HALIGNMENT VALIGNMENT POLYLINE SURFACE AREA WITH \
    STRAIGHTS ARCS VERTEX BASE WITHOUT OVERLAPS LINEATTR FORMAT FREE FIX CODE FONT BLANK \
    UNDEFINED CONTINUE DEFAULT TID I16 I32 ANY VIEW DERIVATIVES";

const MARKS: [Kind; 13] = [
    Kind::Mark(Mark::Semicolon),
    Kind::Mark(Mark::Colon),
    Kind::Mark(Mark::Comma),
    Kind::Mark(Mark::Equals),
    Kind::Mark(Mark::LeftParen),
    Kind::Mark(Mark::RightParen),
    Kind::Mark(Mark::LeftBracket),
    Kind::Mark(Mark::RightBracket),
    Kind::Mark(Mark::Star),
    Kind::Mark(Mark::Greater),
    Kind::Mark(Mark::Period),
    Kind::Mark(Mark::TwoPeriods),
    Kind::Mark(Mark::Arrow),
];

fn are_kinds(tokens: &[Token], kinds: &[Kind]) -> bool {
    for (token, kind) in tokens.iter().zip(kinds) {
        if token.kind != *kind {
            return false;
        }
    }
    tokens.len() == kinds.len()
}

fn has_kinds(alloc: Global, text: &[u8], kinds: &[Kind]) -> bool {
    match tokens_of(alloc, text) {
        Some(tokens) => are_kinds(&tokens, kinds),
        None => false,
    }
}

// Whether there are 46 keywords, from the first one of the table to the last.
fn are_keywords(tokens: &[Token]) -> bool {
    for token in tokens {
        if !matches!(token.kind, Kind::Keyword(_)) {
            return false;
        }
    }
    let first = tokens.first().map(|token| token.kind);
    let last = tokens.last().map(|token| token.kind);
    tokens.len() == 46
        && first == Some(Kind::Keyword(Keyword::Transfer))
        && last == Some(Kind::Keyword(Keyword::Derivatives))
}

fn has_keywords(alloc: Global) -> bool {
    match tokens_of(alloc, WORDS) {
        Some(tokens) => are_keywords(&tokens),
        None => false,
    }
}

#[test]
fn tokens_are_the_longest_at_their_place(rt: HostRuntime) {
    for (text, kinds) in &KINDS {
        assert!(rt;
            has_kinds(rt.alloc(), text, kinds),
            "{} tokens",
            kinds.len()
        );
    }
    assert!(rt;
        has_kinds(rt.alloc(), b"; : , = ( ) [ ] * > . .. ->", &MARKS),
        "the marks"
    );
    assert!(rt; has_keywords(rt.alloc()), "the keywords");
}

// The line, the column, the first byte and the byte after the last of each token.
const PLACES: [(u32, u32, u32, u32); 6] = [
    (1, 1, 0, 1),
    (2, 2, 4, 9),
    (3, 4, 10, 15),
    (3, 9, 15, 16),
    (3, 11, 17, 18),
    (4, 2, 22, 25),
];

fn are_at_places(tokens: &[Token]) -> bool {
    for (token, place) in tokens.iter().zip(&PLACES) {
        if (token.line, token.column, token.from, token.upto) != *place {
            return false;
        }
    }
    tokens.len() == PLACES.len()
}

const PLACED: &[u8] = b"a\r\n //\n// +1.50;\rb!!\n\tc_9 ";

fn has_places(alloc: Global) -> bool {
    match tokens_of(alloc, PLACED) {
        Some(tokens) => are_at_places(&tokens),
        None => false,
    }
}

#[test]
fn tokens_know_their_places(rt: HostRuntime) {
    assert!(rt; has_places(rt.alloc()));
}
