// The outcome of a transfer that was judged.
ghost use Rattle.std.specs.Prelude.{◌≡◌, ◌≤◌, ℕ, List, length, true, IfOk};
ghost use Rattle.std.specs.List.{All, AllZip};
ghost use Rattle.itf_reader.specs.Forms.{Row as GivenRow};
ghost use Rattle.table_layout.specs.Layouts.{Layout as GivenLayout};
ghost use Rattle.table_layout.specs.Valid.{IsValid};
ghost use Rattle.table_layout.specs.Values.{areas_view, layout_view};
ghost use Rattle.certificate.specs.Spelling.{AreSpelt, views};
ghost use Rattle.reports.specs.AreaKinds.{plans};
ghost use Rattle.area_drawings.specs.AreaLimits.{IsSmallPlan};
ghost use Rattle.area_drawings.specs.Drawings.{AreDrawings};
ghost use Rattle.delivery.specs.AreaAnswers.{AreAnswers};
ghost use Rattle.delivery.specs.AreaPolygons.{AreWrittenAreas, IsSkippedOrArea};
ghost use Rattle.polygons.specs.Text.{views as polygons_in};
ghost use Rattle.reports.specs.Kinds.{are_fine};
ghost use Rattle.area_drawings.specs.KeptViews.{HasTolerance};
ghost use Rattle.delivery.specs.FiledLists.{IsReadOf};
ghost use Rattle.delivery.specs.FiledTexts.{AreVerified, IsVerified};
ghost use Rattle.delivery.specs.Judging.{AreJudged, IsChecked, objects};
ghost use Rattle.commands.specs.CommandViews.{target_of};
ghost use Rattle.reports.specs.OutcomeViews.{outcome_of};
ghost use Rattle.delivery.specs.Pieces.{AreKept, IsJudged, IsJudgedFor, IsSoundFor};
ghost use Rattle.delivery.specs.declared.judging.closing.Wanted.{Wanted as AnyWanted};
ghost use Rattle.delivery.specs.declared.judging.closing.Wanted.TheVariants.{AreasAlone};
ghost use Rattle.delivery.specs.Surfaces.{AreSurfaceAnswers};
ghost use Rattle.reports.specs.Surfaces.{surfaces as surfaces_in};
ghost use Rattle.delivery.specs.LinkPieces.{AreCleanLinks};
ghost use Rattle.delivery.specs.LinkRows.{HasLinked};
ghost use Rattle.delivery.specs.Links.{AreTestedBy, IsLinked};
ghost use Rattle.delivery.specs.Rewriting.{IsRewritten};
ghost use Rattle.area_links.specs.Views.{rules_view};
ghost use Rattle.itf_writer.specs.Feeds.{HoldsRows};

use crate::area_answers::answers_of;
use crate::filed::FiledList;
use crate::judging::{CleanLinks, Judged, LinksJudged, LinksKept, count_objects, judge_links};
use crate::links::{gather, tested_answers};
use crate::polygon_answers::written_areas;
use crate::verifying::verify_areas;
use area_search::laws::one_right_ground;
use commands::{Filed, Target};
use itf_writer::CanonFeed;
use plane::Drawing;
use polygons::AreaPolygons;
use ports::Memory;
use reports::outcome::{
    Outcome, area_too_large, areas_outcome, bad_link, canon_refused, canonical, linked, malformed,
    rejected, verified,
};
use reports::{Answers, AreaAnswer, SurfaceAnswer, are_fine};
use std::alloc::Global;
use table_layout::Layout;

/// A transfer that was judged: what its areas are drawn from, or an outcome before that.
#[derive(Drop)]
pub enum Sound<'a> {
    /// No finding: the number of objects, the drawings of all areas, and the answers to all
    /// SURFACEs, where these were wanted.
    Drawn(u128, Vec<Drawing>, Vec<SurfaceAnswer>),
    Ended(Outcome<'a>),
}

/// The outcome of a transfer that has no sound rows, or an area over its limit.
pub fn sound_rows<'a>(alloc: Global, judged: Judged) -> Result<Sound<'a>, Memory>
    ensures { (w : AnyWanted) (l : GivenLayout) (text : List ℕ) → IsJudgedFor w l text judged
        → IfOk result (IsSoundFor w l text) }
{
    match judged {
        Judged::Malformed(line, code) => Ok(Sound::Ended(malformed(alloc, line, code)?)),
        Judged::Faulty(found) => Ok(Sound::Ended(rejected(alloc, found)?)),
        Judged::Oversized => Ok(Sound::Ended(area_too_large(alloc)?)),
        Judged::Clean(count, drawings, surfaces) => Ok(Sound::Drawn(count, drawings, surfaces)),
    }
}

// The polygons of all areas where no answer names a fault or what is undecided; else none.
fn polygons_if_fine(
    alloc: Global,
    layout: &Layout,
    drawings: &[Drawing],
    answers: &[AreaAnswer],
) -> Result<Vec<AreaPolygons>, Memory>
    requires drawn { length drawings.now ≡ length layout.now.areas.items }
    requires few { All IsSmallPlan (plans drawings.now) }
    requires fine { are_fine answers.now ≡ true → All IsSkippedOrArea (plans drawings.now) }
    ensures { IfOk result (λ ps. are_fine answers.now ≡ true
        → AreWrittenAreas (layout_view layout.now) (areas_view layout.now.areas.items)
        (plans drawings.now) (polygons_in ps.items)) }
{
    if are_fine(answers) {
        return written_areas(alloc, layout, drawings);
    }
    Ok(Vec::new(alloc))
}

// The outcome of a number of objects without a finding, of the answers to all SURFACEs and of those
// to the drawings of all areas, where polygons are to be filed. The certificates are let go before
// any is made.
fn bound_areas<'a>(
    alloc: Global,
    target: &Target<'a>,
    layout: &Layout,
    count: u128,
    surfaces: &[SurfaceAnswer],
    drawings: &[Drawing],
    answers: Answers,
) -> Result<Outcome<'a>, Memory>
    requires valid { IsValid (layout_view layout.now) }
    requires filed { target.now.filed ≡ Filed.Polygons }
    requires drawn { length drawings.now ≡ length layout.now.areas.items }
    requires few { All IsSmallPlan (plans drawings.now) }
    requires answered { AreAnswers (layout_view layout.now) (areas_view layout.now.areas.items)
        (plans drawings.now) answers.areas.items (views answers.certificates.items) }
    requires spelt { AreSpelt (views answers.certificates.items) }
    ensures { (rows : List (List GivenRow)) → count ≡ objects rows
        → AreSurfaceAnswers (layout_view layout.now) rows (surfaces_in (layout_view layout.now))
        surfaces.now
        → AreDrawings (layout_view layout.now) rows (plans drawings.now)
        → IfOk result (λ o. AreJudged (target_of target.now) (layout_view layout.now) rows
        (outcome_of o)) }
{
    one_right_ground();
    let mut answers = answers;
    answers.certificates = Vec::new(alloc);
    let polygons = polygons_if_fine(alloc, layout, drawings, &answers.areas)?;
    areas_outcome(alloc, layout, count, target, surfaces, answers, polygons)
}

// The outcome of a number of objects without a finding, of the answers to all SURFACEs and of the
// drawings of all areas.
fn check_areas<'a>(
    alloc: Global,
    target: &Target<'a>,
    layout: &Layout,
    count: u128,
    surfaces: &[SurfaceAnswer],
    drawings: &[Drawing],
) -> Result<Outcome<'a>, Memory>
    requires valid { IsValid (layout_view layout.now) }
    requires drawn { length drawings.now ≡ length layout.now.areas.items }
    requires few { All IsSmallPlan (plans drawings.now) }
    requires tolerances { AllZip (HasTolerance (layout_view layout.now))
        (areas_view layout.now.areas.items) drawings.now }
    ensures { (rows : List (List GivenRow)) → count ≡ objects rows
        → AreSurfaceAnswers (layout_view layout.now) rows (surfaces_in (layout_view layout.now))
        surfaces.now
        → AreDrawings (layout_view layout.now) rows (plans drawings.now)
        → IfOk result (λ o. AreJudged (target_of target.now) (layout_view layout.now) rows
        (outcome_of o)) }
{
    let answers = answers_of(alloc, layout, drawings)?;
    match target.filed {
        Filed::Polygons => {
            bound_areas(alloc, target, layout, count, surfaces, drawings, answers)
        }
        Filed::Certificates | Filed::Trial(_) => {
            areas_outcome(
                alloc,
                layout,
                count,
                target,
                surfaces,
                answers,
                Vec::new(alloc),
            )
        }
    }
}

/// The outcome of a check, a trial or of polygons, from the judged transfer. What is filed goes to
/// the target.
pub fn checked<'a>(
    alloc: Global,
    target: &Target<'a>,
    layout: &Layout,
    judged: Judged,
) -> Result<Outcome<'a>, Memory>
    requires valid { IsValid (layout_view layout.now) }
    requires text { (text : List ℕ) × IsJudged (layout_view layout.now) text judged }
    ensures { (text : List ℕ) → IsJudged (layout_view layout.now) text judged
        → IfOk result (λ o. IsChecked (target_of target.now) (layout_view layout.now) text
        (outcome_of o)) }
{
    match sound_rows(alloc, judged)? {
        Sound::Drawn(count, drawings, surfaces) => {
            check_areas(alloc, target, layout, count, &surfaces, &drawings)
        }
        Sound::Ended(outcome) => Ok(outcome),
    }
}

// Judges filed certificates against the drawings of all areas of a number of objects.
fn verify_drawn<'a>(
    alloc: Global,
    layout: &Layout,
    count: u128,
    drawings: &[Drawing],
    filed: FiledList,
) -> Result<Outcome<'a>, Memory>
    requires drawn { length drawings.now ≡ length layout.now.areas.items }
    requires small { All IsSmallPlan (plans drawings.now) }
    requires tolerances { AllZip (HasTolerance (layout_view layout.now))
        (areas_view layout.now.areas.items) drawings.now }
    requires read { (spelling : List ℕ) × IsReadOf spelling filed }
    ensures { (spelling : List ℕ) (rows : List (List GivenRow)) → IsReadOf spelling filed
        → count ≡ objects rows → AreDrawings (layout_view layout.now) rows (plans drawings.now)
        → IfOk result (λ o. AreVerified (layout_view layout.now) spelling rows (outcome_of o)) }
{
    let verification = verify_areas(alloc, layout, drawings, filed)?;
    verified(alloc, layout, count, drawings, &verification)
}

/// The outcome of a verify, from the judged transfer and what the filed text is read as.
pub fn verified_by<'a>(
    alloc: Global,
    layout: &Layout,
    judged: Judged,
    filed: FiledList,
) -> Result<Outcome<'a>, Memory>
    requires text { (text : List ℕ) × IsJudgedFor AreasAlone (layout_view layout.now) text judged }
    requires read { (spelling : List ℕ) × IsReadOf spelling filed }
    ensures { (text spelling : List ℕ) → IsJudgedFor AreasAlone (layout_view layout.now) text judged
        → IsReadOf spelling filed
        → IfOk result (λ o. IsVerified (layout_view layout.now) text spelling (outcome_of o)) }
{
    match sound_rows(alloc, judged)? {
        Sound::Drawn(count, drawings, _surfaces) => {
            verify_drawn(alloc, layout, count, &drawings, filed)
        }
        Sound::Ended(outcome) => Ok(outcome),
    }
}

/// The outcome of the rows of a transfer whose canonical text goes to the file of that name.
pub fn rewritten<'a>(
    alloc: Global,
    layout: &Layout,
    file: &'a str,
    kept: CanonFeed,
) -> Result<Outcome<'a>, Memory>
    requires valid { IsValid (layout_view layout.now) }
    requires text { (text : List ℕ) × AreKept HoldsRows (layout_view layout.now) text kept }
    ensures { (text : List ℕ) → AreKept HoldsRows (layout_view layout.now) text kept
        → IfOk result (λ o. IsRewritten file.now (layout_view layout.now) text (outcome_of o)) }
{
    // A line CONT would go on.
    if layout.codes.continued == b'T' {
        return canon_refused(alloc);
    }
    let objects = count_objects(layout, &kept);
    let text = kept.finish(alloc, layout)?;
    canonical(alloc, file, objects, text)
}

// The outcome of rows without findings and of rules, by what these ask of the areas.
fn tested<'a>(alloc: Global, layout: &Layout, clean: &CleanLinks) -> Result<Outcome<'a>, Memory>
    requires valid { IsValid (layout_view layout.now) }
    requires rows { (links : List ℕ) × (rows : List (List GivenRow))
        × AreCleanLinks (layout_view layout.now) links rows clean.now }
    ensures { (links : List ℕ) (rows : List (List GivenRow))
        → AreCleanLinks (layout_view layout.now) links rows clean.now
        → IfOk result (λ o. AreTestedBy (layout_view layout.now)
        (rules_view clean.now.rules.items) rows (outcome_of o)) }
{
    let answers = tested_answers(alloc, layout, &clean.drawings, &clean.asked)?;
    let found = gather(alloc, &clean.rules, &clean.asked, &answers.results)?;
    linked(
        alloc,
        layout,
        clean.objects,
        &clean.surfaces,
        &answers.areas,
        &found.misplaced,
        clean.rules.len() as u64,
        found.pairs,
    )
}

/// The outcome of the rows of a transfer and of the text of links.
pub fn linked_by<'a>(
    alloc: Global,
    layout: &Layout,
    kept: LinksKept,
    links: &[u8],
) -> Result<Outcome<'a>, Memory>
    requires valid { IsValid (layout_view layout.now) }
    requires short { length links.now ≤ 65536 }
    requires text { (text : List ℕ) × AreKept HasLinked (layout_view layout.now) text kept }
    ensures { (text : List ℕ) → AreKept HasLinked (layout_view layout.now) text kept.entry
        → IfOk result (λ o. IsLinked (layout_view layout.now) text links.now (outcome_of o)) }
{
    match judge_links(alloc, layout, kept, links)? {
        LinksJudged::Faulty(found) => rejected(alloc, found),
        LinksJudged::Oversized => area_too_large(alloc),
        LinksJudged::BadLink(line) => bad_link(alloc, line),
        LinksJudged::Clean(clean) => tested(alloc, layout, &clean),
    }
}
