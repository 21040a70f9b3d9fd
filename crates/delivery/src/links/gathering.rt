// What is found of the pairs of all rules, in the order of the rules.
ghost use Rattle.std.specs.Prelude.{◌≡◌, ◌+◌, ◌++◌, ◌<◌, ◌^◌, IfOk, OnOk, map, slice_get};
ghost use Rattle.std.specs.Prelude.{slice_index_or, []};
ghost use Rattle.std.specs.List.{flat_map};
ghost use Rattle.std.specs.Option.{option_map};
ghost use Rattle.area_links.specs.Views.{rule_view, rules_view};
ghost use Rattle.reports.specs.OutcomeViews.{misplaced_view};
ghost use Rattle.delivery.specs.AskedLinks.{all_results, count_at, lines_at, lines_view};
ghost use Rattle.delivery.specs.AskedLinks.{pairs_in, rule_count, rule_lines, rule_misplaced};
ghost use Rattle.delivery.specs.AskedLinks.{rules_count};
ghost use Rattle.delivery.specs.Links.{misplaced_by};

use super::asked::{AskedArea, place_alike};
use area_links::{LinkPair, LinkRule};
use ports::Memory;
use reports::Misplaced;
use std::alloc::Global;

/// The pairs of rules that do not hold, rule after rule, and how many pairs the rules have.
#[derive(Drop)]
pub struct TestedLinks {
    pub misplaced: Vec<Misplaced>,
    pub pairs: u128,
}

// What is asked of the area of that number, if there is one.
fn asked_at(asked: &[AskedArea], number: u32) -> Option<&AskedArea>
    ensures { option_map (λ a. a.now) result ≡ slice_get asked.now number }
{
    asked.get(number as usize)
}

// The results of the area of that number, none where there is no such area.
fn results_at(results: &[Vec<Vec<u32>>], number: u32) -> &[Vec<u32>]
    ensures { map lines_view result.now ≡ slice_index_or (all_results results.now) number [] }
{
    match results.get(number as usize) {
        Some(of_area) => of_area,
        None => &[],
    }
}

// The lines at that place, none where there is no such place.
fn lines_at(place: Option<usize>, results: &[Vec<u32>]) -> &[u32]
    ensures { result.now ≡ lines_at place (map lines_view results.now) }
{
    let Some(place) = place else {
        return &[];
    };
    match results.get(place) {
        Some(lines) => lines,
        None => &[],
    }
}

// How many pairs are at that place, none where there is no such place.
fn count_at(place: Option<usize>, pairs: &[Vec<LinkPair>]) -> usize
    ensures { result ≡ count_at place (pairs_in pairs.now) }
{
    let Some(place) = place else {
        return 0;
    };
    match pairs.get(place) {
        Some(of_rule) => of_rule.len(),
        None => 0,
    }
}

// The lines of the pairs of a rule that do not hold, by the results of its area.
fn rule_lines<'r>(asked: &[AskedArea], results: &'r [Vec<Vec<u32>>], rule: &LinkRule) -> &'r [u32]
    ensures { result.now
        ≡ rule_lines asked.now (all_results results.now) (rule_view rule.now) }
{
    match asked_at(asked, rule.area) {
        Some(area) => lines_at(
            place_alike(&area.rules, rule),
            results_at(results, rule.area),
        ),
        None => &[],
    }
}

// How many pairs a rule has.
fn rule_count(asked: &[AskedArea], rule: &LinkRule) -> usize
    ensures { result ≡ rule_count asked.now (rule_view rule.now) }
{
    match asked_at(asked, rule.area) {
        Some(area) => count_at(place_alike(&area.rules, rule), &area.pairs),
        None => 0,
    }
}

// Adds the pairs in these lines to those that do not hold.
fn add_misplaced(rule: u32, lines: &[u32], misplaced: &mut Vec<Misplaced>) -> Result<(), Memory>
    ensures { OnOk result (misplaced_view misplaced.new.items
        ≡ misplaced_view misplaced.old.items ++ map (misplaced_by rule) lines.now) }
{
    for line in lines {
        misplaced.push(Misplaced { rule, line: *line })?;
    }
    Ok(())
}

/// The pairs of rules that do not hold, by what was asked and found of their areas, and how many
/// pairs the rules have. It takes time in proportion to the rules times those that ask the same
/// area, and 8 bytes for a pair that does not hold.
pub fn gather(
    alloc: Global,
    rules: &[LinkRule],
    asked: &[AskedArea],
    results: &[Vec<Vec<u32>>],
) -> Result<TestedLinks, Memory>
    ensures misplaced { IfOk result (λ x. misplaced_view x.misplaced.items
        ≡ flat_map (rule_misplaced asked.now (all_results results.now)) (rules_view rules.now)) }
    ensures pairs { IfOk result (λ x. x.pairs ≡ rules_count asked.now (rules_view rules.now)) }
{
    let mut misplaced = Vec::new(alloc);
    let mut pairs: u128 = 0;
    for rule in rules {
        add_misplaced(rule.line, rule_lines(asked, results, rule), &mut misplaced)?;
        pairs += rule_count(asked, rule) as u128;
    }
    Ok(TestedLinks { misplaced, pairs })
}
