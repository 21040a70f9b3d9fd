// Whether the points of pairs lie in the regions of their objects.
ghost use Rattle.std.specs.Prelude.{◌≡◌, ◌≤◌, ◌++◌, IfOk, OnOk, length};
ghost use Rattle.area_search.specs.Grounds.{IsAnswerBy};
ghost use Rattle.area_search.specs.declared.kinds.AreaAnswer.TheVariants.{Proved};
ghost use Rattle.certificate.specs.declared.notes.Certificate.{Certificate};
ghost use Rattle.plane.specs.Rule.Plans.{plan};
ghost use Rattle.delivery.specs.Links.{AreMisplaced};
ghost use Rattle.delivery.specs.LinkRegions.{inner_places, is_between, is_of, is_within, lines_by};
ghost use Rattle.delivery.specs.LinkRegions.{region_of, regions_after, regions_left};

use area_links::LinkPair;
use area_search::laws::{answers_are_right, one_right_ground, regions_are_exact};
use area_search::{Region, find_objects};
use plane::{Drawing, Point, Window2};
use ports::Memory;
use std::alloc::Global;

// The number lies between two others, or is one of them.
fn is_between(low: i64, high: i64, a: i64) -> bool
    ensures { result ≡ is_between low high a }
{
    low <= a && a <= high
}

// The point lies in the window, its border included.
fn is_within(window: &Window2, at: Point) -> bool
    ensures { result ≡ is_within window.now at }
{
    is_between(window.low.x, window.high.x, at.x) && is_between(window.low.y, window.high.y, at.y)
}

/// Adds the points of pairs that lie in the window of the drawing.
pub fn add_inner(
    drawing: &Drawing,
    pairs: &[LinkPair],
    places: &mut Vec<Point>,
) -> Result<(), Memory>
    ensures { OnOk result (places.new.items
        ≡ places.old.items ++ inner_places drawing.now.window pairs.now) }
{
    for pair in pairs {
        if is_within(&drawing.window, pair.at) {
            places.push(pair.at)?;
        }
    }
    Ok(())
}

// The region of the pair's point, by the regions of those that lie in the window; none where it
// does not.
fn region_of(drawing: &Drawing, pair: &LinkPair, regions: &[Region]) -> Option<Region>
    ensures { result ≡ region_of drawing.now.window pair.now regions.now }
{
    if !is_within(&drawing.window, pair.at) {
        return None;
    }
    match regions {
        [region, ..] => Some(*region),
        [] => None,
    }
}

// The regions of the pairs after this one.
fn regions_after<'r>(drawing: &Drawing, pair: &LinkPair, regions: &'r [Region]) -> &'r [Region]
    ensures { result.now ≡ regions_after drawing.now.window pair.now regions.now }
{
    if !is_within(&drawing.window, pair.at) {
        return regions;
    }
    match regions {
        [_, rest @ ..] => rest,
        [] => regions,
    }
}

// The region is that of the object.
fn is_of(region: Option<Region>, object: Option<u32>) -> bool
    ensures { result ≡ is_of region object }
{
    match (region, object) {
        (Some(Region::Of(k)), Some(object)) => k == object,
        _ => false,
    }
}

/// The lines of the pairs whose points do not lie in the regions of their objects, by the regions
/// of those that lie in the window; and the regions that are left.
pub fn misplaced_lines<'r>(
    alloc: Global,
    drawing: &Drawing,
    pairs: &[LinkPair],
    regions: &'r [Region],
) -> Result<(Vec<u32>, &'r [Region]), Memory>
    ensures lines { IfOk result (λ x. x.0.items
        ≡ lines_by drawing.now.window pairs.now regions.now) }
    ensures left { IfOk result (λ x. x.1.now
        ≡ regions_left drawing.now.window pairs.now regions.now) }
{
    let mut lines = Vec::new(alloc);
    let mut rest = regions;
    for pair in pairs {
        if !is_of(region_of(drawing, pair, rest), pair.object) {
            lines.push(pair.line)?;
        }
        rest = regions_after(drawing, pair, rest);
    }
    Ok((lines, rest))
}

/// The lines of the pairs that do not hold in a drawing that `find_area` proves: the pair has no
/// object, or its point does not lie in the region of the object's point. The only error is out of
/// memory. It takes one search of the drawing, and one walk over the pairs; 24 bytes for each.
pub fn misplaced(alloc: Global, drawing: &Drawing, pairs: &[LinkPair]) -> Result<Vec<u32>, Memory>
    requires curves { length (plan drawing.now).curves ≤ 16000000 }
    requires proved { (c : Certificate)
        × IsAnswerBy drawing.now.tolerance (plan drawing.now) (Proved c) }
    ensures { IfOk result (λ lines. AreMisplaced drawing.now.tolerance (plan drawing.now) pairs.now
        lines.items) }
{
    answers_are_right();
    one_right_ground();
    regions_are_exact();
    let mut places = Vec::new(alloc);
    add_inner(drawing, pairs, &mut places)?;
    let found = find_objects(alloc, drawing, &places)?;
    let (lines, _rest) = misplaced_lines(alloc, drawing, pairs, &found.regions)?;
    Ok(lines)
}
