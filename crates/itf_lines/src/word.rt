// The words of lines.
ghost use Rattle.std.specs.Prelude.{◌≡◌};
ghost use Rattle.itf_lines.specs.Words.{word_of};

/// The word of a line, which says what the line is.
#[derive(Clone, Copy, Debug, PartialEq, Eq)]
pub enum LineWord {
    Scnt,
    /// The line `////` that ends the head. Only the first such line has this word.
    Slashes,
    Mtid,
    Modl,
    Motr,
    Topi,
    Tabl,
    Obje,
    Stpt,
    Lipt,
    Arcp,
    Elin,
    Etab,
    Etop,
    Emod,
    Ende,
    /// Any other first field, CONT too, or none at all in the head.
    Other,
}

/// The word that a field spells.
pub fn word_of(field: &[u8]) -> LineWord
    ensures { result ≡ word_of field.now }
{
    match field {
        b"LIPT" => LineWord::Lipt,
        b"STPT" => LineWord::Stpt,
        b"OBJE" => LineWord::Obje,
        b"ELIN" => LineWord::Elin,
        b"ARCP" => LineWord::Arcp,
        b"TABL" => LineWord::Tabl,
        b"ETAB" => LineWord::Etab,
        b"TOPI" => LineWord::Topi,
        b"ETOP" => LineWord::Etop,
        b"SCNT" => LineWord::Scnt,
        b"MTID" => LineWord::Mtid,
        b"MODL" => LineWord::Modl,
        b"MOTR" => LineWord::Motr,
        b"EMOD" => LineWord::Emod,
        b"ENDE" => LineWord::Ende,
        _ => LineWord::Other,
    }
}
