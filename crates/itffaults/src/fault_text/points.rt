// The lines on objects' points.
ghost use Rattle.std.specs.Prelude.{◌≡◌, ◌≤◌, ◌++◌, OnOk};
ghost use Rattle.std.specs.List.{flat_map};
ghost use Rattle.plane.specs.Rule.Plans.{plan};
ghost use Rattle.itffaults.specs.FaultText.Text.{object_line, on_line, two_line};

use super::naming::{curve_at, placed_at};
use super::words::{add_numbered, add_pair, add_place};
use fault_lists::{OnAt, PointPair};
use file_pages::HeldText;
use plane::Drawing;
use ports::Memory;

// ON line line x y
fn add_on(text: &mut HeldText, drawing: &Drawing, scale: u8, on: &OnAt) -> Result<(), Memory>
    requires { scale ≤ 9 }
    ensures { OnOk result (text.new ≡ text.old ++ on_line scale (plan drawing.now) on.now) }
{
    let object = placed_at(drawing, on.point);
    add_pair(text, b"ON ", object.line, curve_at(drawing, on.curve).line)?;
    add_place(text, scale, object.at)?;
    text.add(b"\n")
}

/// Adds the lines of points on curves.
pub fn add_all_on(
    text: &mut HeldText,
    drawing: &Drawing,
    scale: u8,
    all: &[OnAt],
) -> Result<(), Memory>
    requires { scale ≤ 9 }
    ensures { OnOk result (text.new ≡ text.old
        ++ flat_map (on_line scale (plan drawing.now)) all.now) }
{
    for on in all {
        add_on(text, drawing, scale, on)?;
    }
    Ok(())
}

// The word, the object's line and its place.
fn add_object(
    text: &mut HeldText,
    drawing: &Drawing,
    scale: u8,
    words: &[u8],
    point: u32,
) -> Result<(), Memory>
    requires { scale ≤ 9 }
    ensures { OnOk result (text.new ≡ text.old
        ++ object_line words.now scale (plan drawing.now) point) }
{
    let object = placed_at(drawing, point);
    add_numbered(text, words, object.line)?;
    add_place(text, scale, object.at)?;
    text.add(b"\n")
}

/// Adds the lines of points, each with that word.
pub fn add_objects(
    text: &mut HeldText,
    drawing: &Drawing,
    scale: u8,
    words: &[u8],
    points: &[u32],
) -> Result<(), Memory>
    requires { scale ≤ 9 }
    ensures { OnOk result (text.new ≡ text.old
        ++ flat_map (object_line words.now scale (plan drawing.now)) points.now) }
{
    for point in points {
        add_object(text, drawing, scale, words, *point)?;
    }
    Ok(())
}

// TWO line line x y x y
fn add_two(text: &mut HeldText, drawing: &Drawing, scale: u8, two: &PointPair) -> Result<(), Memory>
    requires { scale ≤ 9 }
    ensures { OnOk result (text.new ≡ text.old ++ two_line scale (plan drawing.now) two.now) }
{
    let first = placed_at(drawing, two.first);
    let second = placed_at(drawing, two.second);
    add_pair(text, b"TWO ", first.line, second.line)?;
    add_place(text, scale, first.at)?;
    add_place(text, scale, second.at)?;
    text.add(b"\n")
}

/// Adds the lines of points that share a face.
pub fn add_all_two(
    text: &mut HeldText,
    drawing: &Drawing,
    scale: u8,
    all: &[PointPair],
) -> Result<(), Memory>
    requires { scale ≤ 9 }
    ensures { OnOk result (text.new ≡ text.old
        ++ flat_map (two_line scale (plan drawing.now)) all.now) }
{
    for two in all {
        add_two(text, drawing, scale, two)?;
    }
    Ok(())
}
