// What is answered to areas, and whether the points lie in them that links ask for.
ghost use Rattle.std.specs.Prelude.{◌≡◌, ◌≤◌, IfOk, List, length};
ghost use Rattle.std.specs.List.{All, AllZip};
ghost use Rattle.area_search.specs.Grounds.{IsAnswerBy};
ghost use Rattle.area_search.specs.Regions.{AreRegions};
ghost use Rattle.area_search.specs.declared.kinds.AreaAnswer.TheVariants.{Proved};
ghost use Rattle.certificate.specs.declared.notes.Certificate.{Certificate};
ghost use Rattle.area_drawings.specs.AreaLimits.{IsSmallPlan};
ghost use Rattle.area_drawings.specs.KeptViews.{HasTolerance};
ghost use Rattle.certificate.specs.Spelling.{Plain};
ghost use Rattle.plane.specs.Rule.Plans.{plan};
ghost use Rattle.reports.specs.AreaKinds.{plans};
ghost use Rattle.reports.specs.AreaNames.{HasTitle};
ghost use Rattle.table_layout.specs.Valid.{IsValid};
ghost use Rattle.table_layout.specs.Values.{area_view, areas_view, layout_view};
ghost use Rattle.delivery.specs.AskedLinks.{AreResults, AreTestedAnswers, IsTestedAnswer};
ghost use Rattle.delivery.specs.AskedLinks.{all_results, asked_pairs, pairs_in, results_view};
ghost use Rattle.delivery.specs.LinkRegions.{all_inner, results_by};

use super::asked::AskedArea;
use super::regions::{add_inner, misplaced_lines};
use crate::area_answers::answer_by;
use area_links::LinkPair;
use area_search::laws::{answers_are_right, one_right_ground, regions_are_exact};
use area_search::{AreaAnswer as Found, FoundObjects, Region, find_objects};
use plane::{Drawing, Point};
use ports::Memory;
use reports::AreaAnswer;
use std::alloc::Global;
use table_layout::{AreaOf, Layout, area_names};

/// The answers to areas, and for each area and each rule that asks it the lines of the pairs that
/// do not hold; where the answer names a fault or what is undecided, these are none.
#[derive(Drop)]
pub struct TestedAnswers {
    pub areas: Vec<AreaAnswer>,
    pub results: Vec<Vec<Vec<u32>>>,
}

// The answer to one area, and the lines of the pairs that do not hold, rule by rule.
#[derive(Drop)]
struct TestedAnswer {
    area: AreaAnswer,
    results: Vec<Vec<u32>>,
}

// The points of the pairs of all rules that lie in the window of the drawing.
fn all_inner(
    alloc: Global,
    drawing: &Drawing,
    pairs: &[Vec<LinkPair>],
) -> Result<Vec<Point>, Memory>
    ensures { IfOk result (λ ps. ps.items ≡ all_inner drawing.now.window (pairs_in pairs.now)) }
{
    let mut places = Vec::new(alloc);
    for of_rule in pairs {
        add_inner(drawing, of_rule, &mut places)?;
    }
    Ok(places)
}

// Of each rule the lines of the pairs that do not hold, by the regions of all points that lie in
// the window of the drawing.
fn results_by(
    alloc: Global,
    drawing: &Drawing,
    pairs: &[Vec<LinkPair>],
    regions: &[Region],
) -> Result<Vec<Vec<u32>>, Memory>
    ensures { IfOk result (λ xs. results_view xs
        ≡ results_by drawing.now.window (pairs_in pairs.now) regions.now) }
{
    let mut results = Vec::with_capacity(alloc, pairs.len())?;
    let mut rest = regions;
    for of_rule in pairs {
        let (lines, left) = misplaced_lines(alloc, drawing, of_rule, rest)?;
        results.push(lines)?;
        rest = left;
    }
    Ok(results)
}

// Of each rule that asks the area the lines of the pairs that do not hold, by what is found; none
// where the area is not proved.
fn results_of(
    alloc: Global,
    drawing: &Drawing,
    asked: &AskedArea,
    found: &FoundObjects,
) -> Result<Vec<Vec<u32>>, Memory>
    requires answer { IsAnswerBy drawing.now.tolerance (plan drawing.now) found.now.answer }
    requires regions { AreRegions drawing.now.tolerance (plan drawing.now)
        (all_inner drawing.now.window (asked_pairs asked.now)) found.now }
    ensures { (c : Certificate) → found.now.answer ≡ Proved c → IfOk result (λ xs. AreResults
        drawing.now.tolerance (plan drawing.now) (asked_pairs asked.now) (results_view xs)) }
{
    regions_are_exact();
    one_right_ground();
    match &found.answer {
        Found::Proved(_) => results_by(alloc, drawing, &asked.pairs, &found.regions),
        Found::Fault(_) | Found::Undecided { .. } => Ok(Vec::new(alloc)),
    }
}

// The answer to the drawing of an area, and the results of what is asked of it.
fn tested_answer(
    alloc: Global,
    layout: &Layout,
    area: &AreaOf,
    drawing: &Drawing,
    asked: &AskedArea,
) -> Result<TestedAnswer, Memory>
    requires names { HasTitle (layout_view layout.now) (area_view area.now) }
    requires small { IsSmallPlan (plan drawing.now) }
    requires tolerance { HasTolerance (layout_view layout.now) (area_view area.now) drawing.now }
    ensures { IfOk result (λ x. (cs : List Plain) × IsTestedAnswer (layout_view layout.now)
        (area_view area.now) (plan drawing.now) (asked_pairs asked.now) x.area cs
        (results_view x.results)) }
{
    answers_are_right();
    let places = all_inner(alloc, drawing, &asked.pairs)?;
    let found = find_objects(alloc, drawing, &places)?;
    let results = results_of(alloc, drawing, asked, &found)?;
    let answer = answer_by(alloc, layout, area, drawing, found.answer)?;
    Ok(TestedAnswer {
        area: answer.area,
        results,
    })
}

/// The answers to the areas of a layout by their drawings, one area after the other, and of each
/// rule that asks an area the lines of the pairs that do not hold. The cost of each area is that of
/// its search, with 24 bytes for a pair.
pub fn tested_answers(
    alloc: Global,
    layout: &Layout,
    drawings: &[Drawing],
    asked: &[AskedArea],
) -> Result<TestedAnswers, Memory>
    requires valid { IsValid (layout_view layout.now) }
    requires drawn { length drawings.now ≡ length layout.now.areas.items }
    requires asked { length asked.now ≡ length layout.now.areas.items }
    requires few { All IsSmallPlan (plans drawings.now) }
    requires tolerances { AllZip (HasTolerance (layout_view layout.now))
        (areas_view layout.now.areas.items) drawings.now }
    ensures { IfOk result (λ x. AreTestedAnswers (layout_view layout.now) (plans drawings.now)
        asked.now x.areas.items (all_results x.results.items)) }
{
    area_names();
    let mut areas = Vec::with_capacity(alloc, drawings.len())?;
    let mut results = Vec::with_capacity(alloc, drawings.len())?;
    for number in 0..drawings.len() {
        let tested = tested_answer(
            alloc,
            layout,
            &layout.areas[number],
            &drawings[number],
            &asked[number],
        )?;
        areas.push(tested.area)?;
        results.push(tested.results)?;
    }
    Ok(TestedAnswers { areas, results })
}
