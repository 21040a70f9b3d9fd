// The lines on curves and their sides.
ghost use Rattle.std.specs.Prelude.{◌≡◌, ◌≤◌, ◌++◌, OnOk};
ghost use Rattle.std.specs.List.{flat_map};
ghost use Rattle.plane.specs.Rule.Plans.{plan};
ghost use Rattle.itffaults.specs.FaultText.Text.{cut_line, ends_text, meeting_line, side_line};

use super::naming::curve_at;
use super::words::{add_numbered, add_pair, add_place, add_side};
use fault_lists::{MeetingAt, SideAt};
use file_pages::HeldText;
use plane::{Curve, Drawing};
use ports::Memory;

// MEETING line line x y
fn add_meeting(
    text: &mut HeldText,
    drawing: &Drawing,
    scale: u8,
    meeting: &MeetingAt,
) -> Result<(), Memory>
    requires { scale ≤ 9 }
    ensures { OnOk result (text.new ≡ text.old
        ++ meeting_line scale (plan drawing.now) meeting.now) }
{
    let first = curve_at(drawing, meeting.first).line;
    let second = curve_at(drawing, meeting.second).line;
    add_pair(text, b"MEETING ", first, second)?;
    add_place(text, scale, meeting.at)?;
    text.add(b"\n")
}

/// Adds the lines of curves that meet badly.
pub fn add_meetings(
    text: &mut HeldText,
    drawing: &Drawing,
    scale: u8,
    meetings: &[MeetingAt],
) -> Result<(), Memory>
    requires { scale ≤ 9 }
    ensures { OnOk result (text.new ≡ text.old
        ++ flat_map (meeting_line scale (plan drawing.now)) meetings.now) }
{
    for meeting in meetings {
        add_meeting(text, drawing, scale, meeting)?;
    }
    Ok(())
}

// The two ends of a curve, and the end of the line.
fn add_ends(text: &mut HeldText, scale: u8, curve: &Curve) -> Result<(), Memory>
    requires { scale ≤ 9 }
    ensures { OnOk result (text.new ≡ text.old ++ ends_text scale curve.now) }
{
    add_place(text, scale, curve.from)?;
    add_place(text, scale, curve.to)?;
    text.add(b"\n")
}

/// Adds the word, the curve's line, the side and the curve's two ends.
pub fn add_one_side(
    text: &mut HeldText,
    drawing: &Drawing,
    scale: u8,
    words: &[u8],
    side: &SideAt,
) -> Result<(), Memory>
    requires { scale ≤ 9 }
    ensures { OnOk result (text.new ≡ text.old
        ++ side_line words.now scale (plan drawing.now) side.now) }
{
    let curve = curve_at(drawing, side.curve);
    add_numbered(text, words, curve.line)?;
    add_side(text, side.left)?;
    add_ends(text, scale, &curve)
}

// CUT line x y x y
fn add_cut(text: &mut HeldText, drawing: &Drawing, scale: u8, number: u32) -> Result<(), Memory>
    requires { scale ≤ 9 }
    ensures { OnOk result (text.new ≡ text.old ++ cut_line scale (plan drawing.now) number) }
{
    let curve = curve_at(drawing, number);
    add_numbered(text, b"CUT ", curve.line)?;
    add_ends(text, scale, &curve)
}

/// Adds the lines of curves with one face on both sides.
pub fn add_cuts(
    text: &mut HeldText,
    drawing: &Drawing,
    scale: u8,
    cuts: &[u32],
) -> Result<(), Memory>
    requires { scale ≤ 9 }
    ensures { OnOk result (text.new ≡ text.old
        ++ flat_map (cut_line scale (plan drawing.now)) cuts.now) }
{
    for number in cuts {
        add_cut(text, drawing, scale, *number)?;
    }
    Ok(())
}
