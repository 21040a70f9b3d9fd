// Regions with their rings.
ghost use Rattle.std.specs.Prelude.{◌≡◌, ◌≤◌, ◌++◌, OnOk};
ghost use Rattle.std.specs.List.{flat_map};
ghost use Rattle.fault_lists.specs.Rings.{start_on};
ghost use Rattle.plane.specs.Rule.Plans.{plan};
ghost use Rattle.itffaults.specs.FaultText.Text.{corner_line, region_text, ring_text, third_text};

use super::curves::add_one_side;
use super::naming::curve_at;
use super::words::{add_corner, add_number, add_place};
use fault_lists::{Region, Ring, SideAt};
use file_pages::HeldText;
use plane::{Curve, CurveKind, Drawing, Point};
use ports::Memory;

// Of a half arc a third point, with a blank before each of its numbers.
fn add_third(text: &mut HeldText, scale: u8, curve: &Curve) -> Result<(), Memory>
    requires { scale ≤ 9 }
    ensures { OnOk result (text.new ≡ text.old ++ third_text scale curve.now) }
{
    match curve.kind {
        CurveKind::Straight => Ok(()),
        CurveKind::HalfArc => add_place(text, scale, curve.third),
    }
}

// Where a curve begins that is passed with that side of it on the left.
fn start_on(left: bool, curve: &Curve) -> Point
    ensures { result ≡ start_on left curve.now }
{
    if left { curve.from } else { curve.to }
}

// x y, or x y x y
fn add_corner_line(
    text: &mut HeldText,
    drawing: &Drawing,
    scale: u8,
    side: &SideAt,
) -> Result<(), Memory>
    requires { scale ≤ 9 }
    ensures { OnOk result (text.new ≡ text.old ++ corner_line scale (plan drawing.now) side.now) }
{
    let curve = curve_at(drawing, side.curve);
    add_corner(text, scale, start_on(side.left, &curve))?;
    add_third(text, scale, &curve)?;
    text.add(b"\n")
}

fn add_corner_lines(
    text: &mut HeldText,
    drawing: &Drawing,
    scale: u8,
    sides: &[SideAt],
) -> Result<(), Memory>
    requires { scale ≤ 9 }
    ensures { OnOk result (text.new ≡ text.old
        ++ flat_map (corner_line scale (plan drawing.now)) sides.now) }
{
    for side in sides {
        add_corner_line(text, drawing, scale, side)?;
    }
    Ok(())
}

// RING n, and its corners
fn add_ring(text: &mut HeldText, drawing: &Drawing, scale: u8, ring: &Ring) -> Result<(), Memory>
    requires { scale ≤ 9 }
    ensures { OnOk result (text.new ≡ text.old ++ ring_text scale (plan drawing.now) ring.now) }
{
    let sides = ring.sides();
    text.add(b"RING ")?;
    add_number(text, sides.len() as u64)?;
    text.add(b"\n")?;
    add_corner_lines(text, drawing, scale, sides)
}

fn add_rings(
    text: &mut HeldText,
    drawing: &Drawing,
    scale: u8,
    rings: &[Ring],
) -> Result<(), Memory>
    requires { scale ≤ 9 }
    ensures { OnOk result (text.new ≡ text.old
        ++ flat_map (ring_text scale (plan drawing.now)) rings.now) }
{
    for ring in rings {
        add_ring(text, drawing, scale, ring)?;
    }
    Ok(())
}

// The word, the first side, and the rings.
fn add_region(
    text: &mut HeldText,
    drawing: &Drawing,
    scale: u8,
    words: &[u8],
    region: &Region,
) -> Result<(), Memory>
    requires { scale ≤ 9 }
    ensures { OnOk result (text.new ≡ text.old
        ++ region_text words.now scale (plan drawing.now) region.now) }
{
    add_one_side(text, drawing, scale, words, &region.side)?;
    add_rings(text, drawing, scale, &region.rings)
}

/// Adds the lines of regions, each with that word.
pub fn add_regions(
    text: &mut HeldText,
    drawing: &Drawing,
    scale: u8,
    words: &[u8],
    regions: &[Region],
) -> Result<(), Memory>
    requires { scale ≤ 9 }
    ensures { OnOk result (text.new ≡ text.old
        ++ flat_map (region_text words.now scale (plan drawing.now)) regions.now) }
{
    for region in regions {
        add_region(text, drawing, scale, words, region)?;
    }
    Ok(())
}
