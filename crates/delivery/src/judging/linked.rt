// What the rows of a text come to whose points are tested by links.
ghost use Rattle.std.specs.Prelude.{◌≡◌, ◌≤◌, ℕ, List, length, false, IfOk, Ok};
ghost use Rattle.std.specs.List.{All};
ghost use Rattle.itf_reader.specs.Forms.{Row as GivenRow};
ghost use Rattle.area_drawings.specs.AreaLimits.{has_too_large as has_large};
ghost use Rattle.area_drawings.specs.KeptViews.{kept_in};
ghost use Rattle.area_links.specs.Rules.{links_of};
ghost use Rattle.area_links.specs.Views.{rules_view};
ghost use Rattle.table_layout.specs.Valid.{IsValid};
ghost use Rattle.table_layout.specs.Values.{layout_view};
ghost use Rattle.delivery.specs.Judging.{IsTextOf, objects as objects_in};
ghost use Rattle.delivery.specs.KeptRows.{transfer_so_far};
ghost use Rattle.delivery.specs.LinkRows.{AreLinksKept, HasLinked, points_in};
ghost use Rattle.delivery.specs.LinkPieces.{IsLinksJudged};
ghost use Rattle.delivery.specs.Pieces.{AreKept};

use super::closing::{all_findings, has_any, has_too_large};
use super::keeping::count_objects;
use super::linking::LinksKept;
use super::rows::TransferKept;
use crate::links::{AskedArea, asked_areas};
use crate::surfaces::surface_answers;
use area_drawings::{KeptPoints, TablePlaces, drawings_from};
use area_links::{LinkFault, LinkRule, read_links};
use ident_refs::{Keys, fed_transfer};
use itf_reader::{Finding, lines_rise, strokes_counted};
use plane::Drawing;
use ports::Memory;
use reports::{SurfaceAnswer, surfaces_of};
use std::alloc::Global;
use table_layout::Layout;

/// Rows without a finding, no area over its limit, and rules: the number of objects, the drawings
/// of all areas, the answers to all SURFACEs, the rules, and what they ask of each area.
#[derive(Drop)]
pub struct CleanLinks {
    pub objects: u128,
    pub drawings: Vec<Drawing>,
    pub surfaces: Vec<SurfaceAnswer>,
    pub rules: Vec<LinkRule>,
    pub asked: Vec<AskedArea>,
}

/// What the rows of a text come to, and a file of links.
#[derive(Drop)]
pub enum LinksJudged {
    /// All findings, in the order of the report.
    Faulty(Vec<Finding>),
    /// No finding, and an area that is over its limit.
    Oversized,
    /// Neither, and this line of the links states no rule.
    BadLink(u32),
    /// None of these.
    Clean(CleanLinks),
}

// What rows come to that have no finding, and rules, by what is kept of the rows and by their keys.
fn ask_links(
    alloc: Global,
    layout: &Layout,
    objects: u128,
    places: &[TablePlaces],
    points: &[KeptPoints],
    keys: &Keys,
    rules: Vec<LinkRule>,
) -> Result<LinksJudged, Memory>
    requires valid { IsValid (layout_view layout.now) }
    requires rows { (rows : List (ℕ × GivenRow))
        × AreLinksKept (layout_view layout.now) rows (kept_in places.now) (points_in points.now)
        keys.now
        × (has_large (transfer_so_far (layout_view layout.now) rows)
        (layout_view layout.now).areas ≡ false) }
    requires rules { (links : List ℕ)
        × (links_of (layout_view layout.now) links ≡ Ok (rules_view rules.items)) }
    ensures { (text links : List ℕ) (rows : List (ℕ × GivenRow))
        → IsTextOf (layout_view layout.now) text (transfer_so_far (layout_view layout.now) rows)
        → AreLinksKept (layout_view layout.now) rows (kept_in places.now) (points_in points.now)
        keys.now
        → has_large (transfer_so_far (layout_view layout.now) rows)
        (layout_view layout.now).areas ≡ false
        → objects ≡ objects_in (transfer_so_far (layout_view layout.now) rows)
        → links_of (layout_view layout.now) links ≡ Ok (rules_view rules.items)
        → IfOk result (IsLinksJudged (layout_view layout.now) text links) }
{
    let asked = asked_areas(alloc, layout, keys, places, points, &rules)?;
    let all = surfaces_of(alloc, layout)?;
    let surfaces = surface_answers(alloc, layout, places, keys, &all)?;
    let drawings = drawings_from(alloc, layout, places)?;
    Ok(LinksJudged::Clean(CleanLinks {
        objects,
        drawings,
        surfaces,
        rules,
        asked,
    }))
}

// What rows come to that have no finding, and the text of links.
fn judge_clean_links(
    alloc: Global,
    layout: &Layout,
    objects: u128,
    places: &[TablePlaces],
    points: &[KeptPoints],
    keys: &Keys,
    links: &[u8],
) -> Result<LinksJudged, Memory>
    requires valid { IsValid (layout_view layout.now) }
    requires short { length links.now ≤ 65536 }
    requires rows { (rows : List (ℕ × GivenRow))
        × AreLinksKept (layout_view layout.now) rows (kept_in places.now) (points_in points.now)
        keys.now
        × (has_large (transfer_so_far (layout_view layout.now) rows)
        (layout_view layout.now).areas ≡ false) }
    ensures { (text : List ℕ) (rows : List (ℕ × GivenRow))
        → IsTextOf (layout_view layout.now) text (transfer_so_far (layout_view layout.now) rows)
        → AreLinksKept (layout_view layout.now) rows (kept_in places.now) (points_in points.now)
        keys.now
        → has_large (transfer_so_far (layout_view layout.now) rows)
        (layout_view layout.now).areas ≡ false
        → objects ≡ objects_in (transfer_so_far (layout_view layout.now) rows)
        → IfOk result (IsLinksJudged (layout_view layout.now) text links.now) }
{
    match read_links(alloc, layout, links) {
        Ok(rules) => ask_links(alloc, layout, objects, places, points, keys, rules),
        Err(LinkFault::Line(line)) => Ok(LinksJudged::BadLink(line)),
        Err(LinkFault::Memory) => Err(Memory),
    }
}

/// What the rows of a text come to, and the text of links.
pub fn judge_links(
    alloc: Global,
    layout: &Layout,
    kept: LinksKept,
    links: &[u8],
) -> Result<LinksJudged, Memory>
    requires valid { IsValid (layout_view layout.now) }
    requires short { length links.now ≤ 65536 }
    requires text { (text : List ℕ) × AreKept HasLinked (layout_view layout.now) text kept }
    ensures { (text : List ℕ) → AreKept HasLinked (layout_view layout.now) text kept.entry
        → IfOk result (IsLinksJudged (layout_view layout.now) text links.now) }
{
    strokes_counted();
    fed_transfer();
    lines_rise();
    let LinksKept { judged, points } = kept;
    let objects = count_objects(layout, &judged);
    let oversized = has_too_large(&judged, &layout.areas);
    let TransferKept {
        mut tables,
        places,
        keys,
        ..
    } = judged;
    let sorted = keys.sorted()?;
    let found = all_findings(alloc, &mut tables, &sorted)?;
    if has_any(&found) {
        return Ok(LinksJudged::Faulty(found));
    }
    if oversized {
        return Ok(LinksJudged::Oversized);
    }
    judge_clean_links(alloc, layout, objects, &places, &points, &sorted, links)
}
