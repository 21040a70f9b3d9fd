// A physical line, cut into its fields.
ghost use Rattle.std.specs.Prelude.{◌≡◌, ◌≤◌, ◌<◌, ◌∷◌, ◌||◌, [], length, true, false};
ghost use Rattle.std.specs.Prelude.{OnSome, IfSome, IfNone, IsTrue, IsFalse};
ghost use Rattle.bstr.specs.Text.{without_terminator};
ghost use Rattle.itf_lines.specs.Fields.{fields, is_blank, trim_end, ends_in, without_last};
ghost use Rattle.itf_lines.specs.Fronts.{field_len, begins_with_field};
ghost use Rattle.itf_lines.specs.LogicalLines.{is_slashes, goes_on, without_code, is_cont};
ghost use Rattle.itf_lines.specs.LogicalLines.{without_first};

/// The text of a physical line without the code by which it goes on.
#[derive(Clone, Copy)]
pub struct Piece<'a> {
    pub text: &'a [u8],
    pub goes_on: bool,
}

// A blank or a tab.
fn is_blank(byte: u8) -> bool
    ensures { result ≡ is_blank byte }
{
    byte == b' ' || byte == b'\t'
}

/// The line without the blanks and tabs at its front.
pub fn skip_blanks(mut line: &[u8]) -> &[u8]
    ensures fields { fields result.now ≡ fields line.entry.now }
    ensures front { IsTrue (begins_with_field result.now) }
    ensures length { length result.now ≤ length line.entry.now }
{
    while let [first, rest @ ..] = line {
        if !is_blank(*first) {
            break;
        }
        line = rest;
    }
    line
}

// The length of the field at the front of a line.
fn field_len(line: &[u8]) -> usize
    ensures value { result ≡ field_len line.now }
    ensures within { result ≤ length line.now }
{
    for (i, byte) in line.iter().enumerate() {
        if is_blank(*byte) {
            return i;
        }
    }
    line.len()
}

/// A line that begins with a field, cut behind it.
#[tactic(auto, using(crate::proofs::Cuts::front_is_field))]
pub fn split_front(line: &[u8]) -> (&[u8], &[u8])
    requires front { IsTrue (begins_with_field line.now) }
    requires field { 0 < length line.now }
    ensures fields { fields line.now ≡ result.0.now ∷ fields result.1.now }
    ensures shorter { length result.1.now < length line.now }
{
    line.split_at(field_len(line))
}

/// The first field of a line and what follows it; none where there is no field.
pub fn split_field(line: &[u8]) -> Option<(&[u8], &[u8])>
    ensures some { IfSome result (λ parts. fields line.now ≡ parts.0.now ∷ fields parts.1.now) }
    ensures none { IfNone result (fields line.now ≡ []) }
    ensures shorter { IfSome result (λ parts. length parts.1.now < length line.now) }
{
    let line = skip_blanks(line);
    if line.is_empty() {
        return None;
    }
    Some(split_front(line))
}

/// What follows the field CONT at the front of a line; none where the first field is another.
pub fn after_cont(line: &[u8]) -> Option<&[u8]>
    ensures cont { IfSome result (λ rest. is_cont (fields line.now) ≡ true) }
    ensures some { IfSome result (λ rest. without_first (fields line.now) ≡ fields rest.now) }
    ensures none { IfNone result (is_cont (fields line.now) ≡ false) }
{
    match split_field(line) {
        Some((field, rest)) if field == b"CONT".as_slice() => Some(rest),
        _ => None,
    }
}

/// The line without the LF at its end and a CR before that.
pub fn content(line: &[u8]) -> &[u8]
    ensures { result.now ≡ without_terminator line.now }
{
    let [front @ .., b'\n'] = line else {
        return line;
    };
    match front {
        [text @ .., b'\r'] => text,
        _ => front,
    }
}

// The line with the blanks and tabs at its end dropped.
#[tactic(auto, using(crate::proofs::Ends::trimmed_blank, crate::proofs::Ends::trimmed_solid))]
fn trim_end(mut line: &[u8]) -> &[u8]
    ensures { result.now ≡ trim_end line.entry.now }
{
    while let [front @ .., last] = line {
        if !is_blank(*last) {
            break;
        }
        line = front;
    }
    line
}

/// Four slashes, blanks and tabs at the end dropped.
pub fn is_slashes(line: &[u8]) -> bool
    ensures { result ≡ is_slashes line.now }
{
    trim_end(line) == b"////".as_slice()
}

// The byte is the last one.
#[tactic(auto, using(crate::proofs::Ends::last_byte))]
fn ends_in(code: u8, line: &[u8]) -> bool
    ensures { result ≡ ends_in code line.now }
{
    match line {
        [.., last] => *last == code,
        [] => false,
    }
}

// All bytes but the last.
fn without_last(line: &[u8]) -> &[u8]
    ensures { result.now ≡ without_last line.now }
{
    match line {
        [front @ .., _] => front,
        [] => line,
    }
}

/// The text of a line, and whether it goes on by this code.
pub fn piece_of(code: u8, line: &[u8]) -> Piece<'_>
    ensures text { result.text.now ≡ without_code code line.now }
    ensures goes_on { result.goes_on ≡ goes_on code line.now }
{
    let front = trim_end(line);
    if ends_in(code, front) {
        Piece {
            text: without_last(front),
            goes_on: true,
        }
    } else {
        Piece {
            text: line,
            goes_on: false,
        }
    }
}
