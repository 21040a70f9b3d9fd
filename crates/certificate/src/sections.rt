// The lines of a certificate, read as far as they have come.
ghost use Rattle.std.specs.Prelude.{◌≡◌, ◌<◌, ◌≤◌, ◌+◌, length, IfSome, IfOk, IfErr, Ok};
ghost use Rattle.std.specs.Prelude.{true, false};
ghost use Rattle.std.specs.Option.{option_map};
ghost use Rattle.certificate.specs.Spelling.{ArePaired, pairs, view};
ghost use Rattle.certificate.specs.Reading.{Gives, line_of, line_at};
ghost use Rattle.certificate.specs.Views.{found_view, text_view};
ghost use Rattle.certificate.specs.Parts.{event_at, edge_at, place_at};
ghost use Rattle.certificate.specs.Feeding.{LeadsTo, FailsOn, IsLeft, more_at, body_on};

use crate::fault::CertFault;
use crate::forms::{edge_at, end_at, event_at, place_at};
use crate::notes::{HalfNote, PointPlace};
use crate::parts::Spelt;
use crate::stages::Body;
use crate::text::Text;

/// The line that was found at the front of a text, or its fault.
pub fn line_of<'a, T: Copy>(text: Text<'a>, line: Spelt<'a, T>) -> Result<(T, Text<'a>), CertFault>
    requires { IfSome line (λ line. length line.1.now < length text.rest.now) }
    ensures value { Gives (λ x. (x.0, text_view x.1)) result (line_of (text_view text.entry)
        (option_map found_view line.entry)) }
    ensures left { IfOk result (λ x. IsLeft (text_view text.entry) (text_view x.1)) }
    ensures shorter { IfOk result (λ x. length x.1.rest.now < length text.entry.rest.now) }
{
    if text.rest.is_empty() {
        return Err(CertFault::Short(text.line));
    }
    match line {
        None => Err(CertFault::Line(text.line)),
        Some((None, _)) => Err(CertFault::Number(text.line)),
        Some((Some(value), rest)) => Ok((
            value,
            Text {
                rest,
                line: text.line + 1,
            },
        )),
    }
}

// Adds the positions of events that have come, and answers how many still come.
fn add_positions<'a>(
    positions: &mut Vec<u32>,
    count: u32,
    text: Text<'a>,
) -> Result<(u32, Text<'a>), CertFault>
    ensures on { IfOk result (λ x. LeadsTo
        (more_at (line_at event_at) positions.old.items count)
        (more_at (line_at event_at) positions.new.items x.0)
        (text_view text.entry) (text_view x.1)) }
    ensures fails { IfErr result (λ e. FailsOn e
        (more_at (line_at event_at) positions.old.items count) (text_view text.entry)) }
    ensures used { IfOk result (λ x. 0 < x.0 → length x.1.rest.now ≡ 0) }
    ensures left { IfOk result (λ x. IsLeft (text_view text.entry) (text_view x.1)) }
{
    let mut left = text;
    for i in 0..count {
        if left.rest.is_empty() {
            return Ok((count - i, left));
        }
        let (position, after) = line_of(left, event_at(left.rest))?;
        positions.push(position)?;
        left = after;
    }
    Ok((0, left))
}

// Adds the notes of edges that have come, and answers how many edges still come.
fn add_notes<'a>(
    notes: &mut Vec<HalfNote>,
    count: u32,
    text: Text<'a>,
) -> Result<(u32, Text<'a>), CertFault>
    requires { ArePaired notes.old.items }
    ensures on { IfOk result (λ x. LeadsTo
        (more_at (line_at edge_at) (pairs notes.old.items) count)
        (more_at (line_at edge_at) (pairs notes.new.items) x.0)
        (text_view text.entry) (text_view x.1)) }
    ensures fails { IfErr result (λ e. FailsOn e
        (more_at (line_at edge_at) (pairs notes.old.items) count) (text_view text.entry)) }
    ensures used { IfOk result (λ x. 0 < x.0 → length x.1.rest.now ≡ 0) }
    ensures left { IfOk result (λ x. IsLeft (text_view text.entry) (text_view x.1)) }
    ensures paired { IfOk result (λ _. ArePaired notes.new.items) }
{
    let mut left = text;
    for i in 0..count {
        if left.rest.is_empty() {
            return Ok((count - i, left));
        }
        let ((below, above), after) = line_of(left, edge_at(left.rest))?;
        notes.push(below)?;
        notes.push(above)?;
        left = after;
    }
    Ok((0, left))
}

// Adds the places of points that have come, and answers how many still come.
fn add_places<'a>(
    places: &mut Vec<PointPlace>,
    count: u32,
    text: Text<'a>,
) -> Result<(u32, Text<'a>), CertFault>
    ensures on { IfOk result (λ x. LeadsTo
        (more_at (line_at place_at) places.old.items count)
        (more_at (line_at place_at) places.new.items x.0)
        (text_view text.entry) (text_view x.1)) }
    ensures fails { IfErr result (λ e. FailsOn e
        (more_at (line_at place_at) places.old.items count) (text_view text.entry)) }
    ensures used { IfOk result (λ x. 0 < x.0 → length x.1.rest.now ≡ 0) }
    ensures left { IfOk result (λ x. IsLeft (text_view text.entry) (text_view x.1)) }
{
    let mut left = text;
    for i in 0..count {
        if left.rest.is_empty() {
            return Ok((count - i, left));
        }
        let (place, after) = line_of(left, place_at(left.rest))?;
        places.push(place)?;
        left = after;
    }
    Ok((0, left))
}

/// Adds the lines of an open certificate that have come, and answers whether its last line has.
pub fn add_lines<'a>(body: &mut Body, text: Text<'a>) -> Result<(bool, Text<'a>), CertFault>
    requires some { 0 < length text.rest.now }
    requires paired { ArePaired body.old.certificate.notes.items }
    ensures closed { IfOk result (λ x. x.0 ≡ true → LeadsTo
        (body_on (view body.old.certificate) body.old.left)
        (λ rest. Ok (view body.new.certificate, rest))
        (text_view text.entry) (text_view x.1)) }
    ensures unclosed { IfOk result (λ x. x.0 ≡ false → LeadsTo
        (body_on (view body.old.certificate) body.old.left)
        (body_on (view body.new.certificate) body.new.left)
        (text_view text.entry) (text_view x.1)) }
    ensures fails { IfErr result (λ e. FailsOn e
        (body_on (view body.old.certificate) body.old.left) (text_view text.entry)) }
    ensures left { IfOk result (λ x. IsLeft (text_view text.entry) (text_view x.1)) }
    ensures shorter { IfOk result (λ x. length x.1.rest.now < length text.entry.rest.now) }
    ensures paired { IfOk result (λ _. ArePaired body.new.certificate.notes.items) }
{
    let (events, text) = add_positions(&mut body.certificate.positions, body.left.events, text)?;
    body.left.events = events;
    if events > 0 {
        return Ok((false, text));
    }
    let (edges, text) = add_notes(&mut body.certificate.notes, body.left.edges, text)?;
    body.left.edges = edges;
    if edges > 0 {
        return Ok((false, text));
    }
    let (points, text) = add_places(&mut body.certificate.places, body.left.points, text)?;
    body.left.points = points;
    if points > 0 || text.rest.is_empty() {
        return Ok((false, text));
    }
    let (_, text) = line_of(text, end_at(text.rest))?;
    Ok((true, text))
}
