// What the text of a transfer comes to.
ghost use Rattle.std.specs.Prelude.{◌≡◌, ◌≢◌, ◌≤◌, ◌++◌, ℕ, List, [], false, length};
ghost use Rattle.std.specs.Prelude.{IfOk, OnOk, Err, IsTrue, IsFalse};
ghost use Rattle.itf_lines.specs.Feeds.{line_if};
ghost use Rattle.itf_lines.specs.Views.{line_view};
ghost use Rattle.itf_reader.specs.Layouts.{form_of};
ghost use Rattle.itf_reader.specs.Names.{form_in};
ghost use Rattle.itf_reader.specs.RowFeeds.{after_lines, shown_rows};
ghost use Rattle.itf_reader.specs.Findings.{findings_of, in_order};
ghost use Rattle.itf_reader.specs.Forms.{Row as GivenRow};
ghost use Rattle.table_layout.specs.Layouts.{Layout as GivenLayout};
ghost use Rattle.table_layout.specs.Valid.{IsValid};
ghost use Rattle.table_layout.specs.Values.{area_view, areas_view, layout_view};
ghost use Rattle.ident_refs.specs.FedRows.{fed_keys};
ghost use Rattle.ident_refs.specs.KeptViews.{HasRows};
ghost use Rattle.ident_refs.specs.KeysOfRows.{HasKeys};
ghost use Rattle.area_drawings.specs.AreaLimits.{has_too_large as has_large};
ghost use Rattle.delivery.specs.Judging.{IsTextOf, objects as objects_in};
ghost use Rattle.delivery.specs.ObjectLines.{AreKeptClean};
ghost use Rattle.area_drawings.specs.KeptDrawings.{has_kept_large, is_kept_large, kept_vertices};
ghost use Rattle.area_drawings.specs.KeptViews.{kept_in};
ghost use Rattle.delivery.specs.KeptRows.{all_found, transfer_so_far};
ghost use Rattle.delivery.specs.KeptViews.{HasTaken, found_in, found_of};
ghost use Rattle.delivery.specs.Pieces.{AreKept, AreWanted, HasText, IsJudged, IsJudgedFor, IsKept};

use super::found::TableFound;
use super::keeping::{RowKeeper, count_objects};
use super::lines::Judge;
use super::rows::{RowJudge, TransferKept};
use crate::surfaces::surface_answers;
use area_drawings::{AREA_LIMIT, TablePlaces, drawings_from};
use ident_refs::{Keys, fed_transfer};
use itf_lines::{Line, from_the_opening, numbers_rise};
use itf_reader::{Finding, Names, ReadRefusal, Structure, sort_findings, strokes_counted};
use plane::Drawing;
use ports::Memory;
use reports::{SurfaceAnswer, surfaces_of};
use std::alloc::Global;
use std::mem::swap;
use table_layout::{AreaOf, Layout, TableId};

/// What is to be answered of rows without a finding.
#[derive(Clone, Copy)]
pub enum Wanted {
    /// The drawings of all areas, and the answers to all SURFACEs.
    Everything,
    /// The drawings of all areas, and nothing of the SURFACEs.
    AreasAlone,
}

/// What the text of a transfer comes to.
#[derive(Drop)]
pub enum Judged {
    /// No transfer: the first line at fault, and its code.
    Malformed(u32, Structure),
    /// All findings, in the order of the report.
    Faulty(Vec<Finding>),
    /// No finding, and an area that is over its limit.
    Oversized,
    /// No finding: the number of objects, the drawings of all areas, and the answers to all
    /// SURFACEs, where these are wanted.
    Clean(u128, Vec<Drawing>, Vec<SurfaceAnswer>),
}

// Takes the last line, where there is one.
fn take_last<K: RowKeeper>(
    rows: &mut RowJudge<K>,
    layout: &Layout,
    names: &Names,
    whole: bool,
    line: &mut Line,
) -> Result<(), Memory>
    requires named { form_in names.now ≡ form_of (layout_view layout.now) }
    ensures at { OnOk result (rows.new.feed.at ≡ after_lines (form_of (layout_view layout.now))
        rows.old.feed.at (line_if whole (line_view line.old))) }
    ensures sound { OnOk result (rows.old.feed.failed ≡ false
        → rows.new.feed.failed ≡ false) }
    ensures taken { OnOk result ((came : List (ℕ × GivenRow))
        → K.has_rows (layout_view layout.now) came rows.old.kept
        → K.has_rows (layout_view layout.now) (came ++ shown_rows
        (form_of (layout_view layout.now)) rows.old.feed.at (line_if whole (line_view line.old)))
        rows.new.kept) }
{
    if whole {
        return rows.take(layout, names, line);
    }
    Ok(())
}

impl<K: RowKeeper> Judge<K> {
    /// The text ends here: what is kept of its rows, or the line at fault.
    pub fn end(self, layout: &Layout, names: &Names) -> Result<K, ReadRefusal>
        requires named { form_in names.now ≡ form_of (layout_view layout.now) }
        requires text { (text : List ℕ) × HasText K.has_rows (layout_view layout.now) text self }
        ensures { (text : List ℕ) → HasText K.has_rows (layout_view layout.now) text self
            → IsKept K.has_rows (layout_view layout.now) text result }
    {
        let Judge {
            lines,
            mut line,
            mut rows,
        } = self;
        from_the_opening();
        numbers_rise();
        itf_reader::from_the_opening();
        let (whole, end) = lines.finish_line(&mut line)?;
        take_last(&mut rows, layout, names, whole, &mut line)?;
        rows.feed.finish(end)?;
        Ok(rows.kept)
    }
}

// What a text comes to that is no transfer.
fn malformed(refusal: ReadRefusal) -> Result<Judged, Memory>
    ensures { (l : GivenLayout) (text : List ℕ) → IsKept HasTaken l text (Err refusal)
        → IfOk result (IsJudged l text) }
{
    match refusal {
        ReadRefusal::At { line, code } => Ok(Judged::Malformed(line, code)),
        ReadRefusal::Memory => Err(Memory),
    }
}

// How many vertices are kept of the rows of that table, none where there is no such table.
fn count_vertices(places: &[TablePlaces], id: TableId) -> usize
    ensures { result ≡ length (kept_vertices (kept_in places.now) id.0) }
{
    match places.get(id.0 as usize) {
        Some(kept) => kept.vertex_count(),
        None => 0,
    }
}

// The table of the area's lines, or its main table, has more than the limit.
fn is_too_large(kept: &TransferKept, area: &AreaOf) -> bool
    ensures { (l : GivenLayout) (rows : List (ℕ × GivenRow)) → HasRows l kept.now.keys rows
        → result ≡ is_kept_large (kept_in kept.now.places.items) (transfer_so_far l rows)
        (area_view area.now) }
{
    AREA_LIMIT < count_vertices(&kept.places, area.lines)
        || AREA_LIMIT < kept.keys.row_count(area.main)
}

// Some area is too large.
pub(super) fn has_too_large(kept: &TransferKept, areas: &[AreaOf]) -> bool
    ensures { (l : GivenLayout) (rows : List (ℕ × GivenRow)) → HasRows l kept.now.keys rows
        → result ≡ has_kept_large (kept_in kept.now.places.items) (transfer_so_far l rows)
        (areas_view areas.now) }
{
    for area in areas {
        if is_too_large(kept, area) {
            return true;
        }
    }
    false
}

// Moves the findings of a table after others; where there are none, without copying them.
fn take_found(table: &mut TableFound, all: &mut Vec<Finding>) -> Result<(), Memory>
    ensures { OnOk result (findings_of all.new.items ≡ findings_of all.old.items ++
        (found_of table.old).found) }
{
    if all.is_empty() {
        swap(all, &mut table.found);
        return Ok(());
    }
    all.append(&mut table.found)?;
    Ok(())
}

// The findings of all rows, in the order of the tables.
fn gather(alloc: Global, tables: &mut [TableFound]) -> Result<Vec<Finding>, Memory>
    ensures { IfOk result (λ found. findings_of found.items ≡ all_found (found_in tables.old)) }
{
    let mut all = Vec::new(alloc);
    for place in 0..tables.len() {
        take_found(&mut tables[place], &mut all)?;
    }
    Ok(all)
}

// The findings of the rows, in order.
fn row_findings(alloc: Global, tables: &mut [TableFound]) -> Result<Vec<Finding>, Memory>
    ensures { IfOk result (λ found. findings_of found.items ≡ in_order (all_found
        (found_in tables.old))) }
{
    let mut found = gather(alloc, tables)?;
    sort_findings(&mut found)?;
    Ok(found)
}

// The findings of the keys, in order.
fn key_findings(alloc: Global, keys: &Keys) -> Result<Vec<Finding>, Memory>
    ensures { (l : GivenLayout) (rows : List (ℕ × GivenRow)) → HasKeys l keys.now rows
        → IfOk result (λ found. findings_of found.items ≡ in_order (fed_keys l rows)) }
{
    let mut found = Vec::new(alloc);
    keys.add_findings(&mut found)?;
    sort_findings(&mut found)?;
    Ok(found)
}

// All findings, in the order of the report: those of the rows and those of the keys.
pub(super) fn all_findings(
    alloc: Global,
    tables: &mut [TableFound],
    keys: &Keys,
) -> Result<Vec<Finding>, Memory>
    ensures { (l : GivenLayout) (rows : List (ℕ × GivenRow)) → HasKeys l keys.now rows
        → IfOk result (λ found. findings_of found.items ≡ in_order (in_order (all_found
        (found_in tables.old)) ++ in_order (fed_keys l rows))) }
{
    let mut found = row_findings(alloc, tables)?;
    let mut of_keys = key_findings(alloc, keys)?;
    found.append(&mut of_keys)?;
    sort_findings(&mut found)?;
    Ok(found)
}

// There are findings.
pub(super) fn has_any(found: &[Finding]) -> bool
    ensures some { IsTrue result → findings_of found.now ≢ [] }
    ensures none { IsFalse result → findings_of found.now ≡ [] }
{
    match found {
        [] => false,
        [_, ..] => true,
    }
}

/// What the rows of a text come to.
pub fn judge_rows(
    alloc: Global,
    layout: &Layout,
    kept: TransferKept,
    wanted: Wanted,
) -> Result<Judged, Memory>
    requires valid { IsValid (layout_view layout.now) }
    requires text { (text : List ℕ) × AreKept HasTaken (layout_view layout.now) text kept }
    ensures { (text : List ℕ) → AreKept HasTaken (layout_view layout.now) text kept.entry
        → IfOk result (IsJudgedFor wanted (layout_view layout.now) text) }
{
    strokes_counted();
    fed_transfer();
    let objects = count_objects(layout, &kept);
    let oversized = has_too_large(&kept, &layout.areas);
    let TransferKept {
        mut tables,
        places,
        keys,
        ..
    } = kept;
    let sorted = keys.sorted()?;
    let found = all_findings(alloc, &mut tables, &sorted)?;
    if has_any(&found) {
        return Ok(Judged::Faulty(found));
    }
    if oversized {
        return Ok(Judged::Oversized);
    }
    judge_clean(alloc, layout, objects, &places, &sorted, wanted)
}

// What rows come to that have no finding, by what is kept of them and by their keys.
fn judge_clean(
    alloc: Global,
    layout: &Layout,
    objects: u128,
    places: &[TablePlaces],
    keys: &Keys,
    wanted: Wanted,
) -> Result<Judged, Memory>
    requires valid { IsValid (layout_view layout.now) }
    requires rows { (rows : List (ℕ × GivenRow))
        × AreKeptClean (layout_view layout.now) rows (kept_in places.now) keys.now
        × (has_large (transfer_so_far (layout_view layout.now) rows)
        (layout_view layout.now).areas ≡ false) }
    ensures { (text : List ℕ) (rows : List (ℕ × GivenRow))
        → IsTextOf (layout_view layout.now) text (transfer_so_far (layout_view layout.now) rows)
        → AreKeptClean (layout_view layout.now) rows (kept_in places.now) keys.now
        → has_large (transfer_so_far (layout_view layout.now) rows)
        (layout_view layout.now).areas ≡ false
        → objects ≡ objects_in (transfer_so_far (layout_view layout.now) rows)
        → IfOk result (IsJudgedFor wanted (layout_view layout.now) text) }
{
    let surfaces = wanted_answers(alloc, layout, places, keys, wanted)?;
    let drawings = drawings_from(alloc, layout, places)?;
    Ok(Judged::Clean(objects, drawings, surfaces))
}

// The answers to all SURFACEs, where these are wanted; else none.
fn wanted_answers(
    alloc: Global,
    layout: &Layout,
    places: &[TablePlaces],
    keys: &Keys,
    wanted: Wanted,
) -> Result<Vec<SurfaceAnswer>, Memory>
    requires valid { IsValid (layout_view layout.now) }
    requires rows { (rows : List (ℕ × GivenRow))
        × AreKeptClean (layout_view layout.now) rows (kept_in places.now) keys.now }
    ensures { (rows : List (ℕ × GivenRow))
        → AreKeptClean (layout_view layout.now) rows (kept_in places.now) keys.now
        → IfOk result (λ answers. AreWanted wanted (layout_view layout.now)
        (transfer_so_far (layout_view layout.now) rows) answers.items) }
{
    match wanted {
        Wanted::Everything => {
            let all = surfaces_of(alloc, layout)?;
            surface_answers(alloc, layout, places, keys, &all)
        }
        Wanted::AreasAlone => Ok(Vec::new(alloc)),
    }
}

/// What a text comes to whose lines were all taken: what is kept of its rows, or the line at fault.
pub fn judge_end(
    alloc: Global,
    layout: &Layout,
    kept: Result<TransferKept, ReadRefusal>,
) -> Result<Judged, Memory>
    requires valid { IsValid (layout_view layout.now) }
    requires text { (text : List ℕ) × IsKept HasTaken (layout_view layout.now) text kept }
    ensures { (text : List ℕ) → IsKept HasTaken (layout_view layout.now) text kept.entry
        → IfOk result (IsJudged (layout_view layout.now) text) }
{
    match kept {
        Ok(kept) => judge_rows(alloc, layout, kept, Wanted::Everything),
        Err(refusal) => malformed(refusal),
    }
}
