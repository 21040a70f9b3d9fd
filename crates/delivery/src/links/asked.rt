// What the rules of a file of links ask of each area.
ghost use Rattle.std.specs.Prelude.{◌≡◌, ◌+◌, ℕ, List, IfOk, OnOk, Some, false, map, slice_get};
ghost use Rattle.area_drawings.specs.KeptViews.{kept_in};
ghost use Rattle.area_links.specs.Pairs.{pairs_of};
ghost use Rattle.area_links.specs.Views.{rule_view, rules_view};
ghost use Rattle.itf_reader.specs.Forms.{Row as GivenRow};
ghost use Rattle.std.specs.List.{All};
ghost use Rattle.table_layout.specs.Valid.{IsValid};
ghost use Rattle.table_layout.specs.Values.{layout_view};
ghost use Rattle.delivery.specs.AskedLinks.{AreAsked, IsAsked, IsAskedOf, are_alike, pairs_in};
ghost use Rattle.delivery.specs.AskedLinks.{AreAskedTo, HasAlike, place_alike};
ghost use Rattle.area_links.specs.Rules.{Rule};
ghost use Rattle.delivery.specs.KeptRows.{transfer_so_far};
ghost use Rattle.delivery.specs.LinkRows.{AreLinksKept, IsGoodRule, points_in};

use crate::link_pairs::rule_pairs;
use area_drawings::{KeptPoints, TablePlaces};
use area_links::{LinkPair, LinkRule};
use ident_refs::Keys;
use ports::Memory;
use std::alloc::Global;
use table_layout::Layout;

/// The rules of one area, each once, and the pairs of each.
#[derive(Drop)]
pub struct AskedArea {
    pub rules: Vec<LinkRule>,
    pub pairs: Vec<Vec<LinkPair>>,
}

// Two rules ask the same.
fn are_alike(a: &LinkRule, b: &LinkRule) -> bool
    ensures { result ≡ are_alike (rule_view a.now) (rule_view b.now) }
{
    a.table.0 == b.table.0 && a.point == b.point && a.reference == b.reference && a.area == b.area
}

/// The place of the first rule that asks the same, if there is one.
pub fn place_alike(rules: &[LinkRule], rule: &LinkRule) -> Option<usize>
    ensures { result ≡ place_alike (rules_view rules.now) (rule_view rule.now) }
{
    for place in 0..rules.len() {
        if are_alike(&rules[place], rule) {
            return Some(place);
        }
    }
    None
}

// The rule is of the area of that number, and none of these asks the same.
fn is_missing(asked: &[LinkRule], rule: &LinkRule, number: u32) -> bool
    ensures { result ≡ false → rule.now.area ≡ number
        → HasAlike (rules_view asked.now) (rule_view rule.now) }
{
    if rule.area != number {
        return false;
    }
    match place_alike(asked, rule) {
        Some(_) => false,
        None => true,
    }
}

// Adds a rule to those that ask the area of that number, where it is missing.
fn add_missing(asked: &mut Vec<LinkRule>, rule: &LinkRule, number: u32) -> Result<(), Memory>
    ensures { OnOk result ((rules : List Rule) (k : ℕ)
        → slice_get rules k ≡ Some (rule_view rule.now)
        → AreAskedTo number rules k (rules_view asked.old.items)
        → AreAskedTo number rules (k + 1) (rules_view asked.new.items)) }
{
    if is_missing(asked, rule, number) {
        asked.push(*rule)?;
    }
    Ok(())
}

// Of some rules those of the area of that number, of rules that ask the same the first. It takes
// time in proportion to the rules times those that are answered.
fn rules_of_area(alloc: Global, rules: &[LinkRule], number: u32) -> Result<Vec<LinkRule>, Memory>
    ensures { IfOk result (λ rs. IsAskedOf number (rules_view rules.now) (rules_view rs.items)) }
{
    let mut asked = Vec::new(alloc);
    for rule in rules {
        add_missing(&mut asked, rule, number)?;
    }
    Ok(asked)
}

// The pairs of each of these rules.
fn all_pairs(
    alloc: Global,
    layout: &Layout,
    keys: &Keys,
    places: &[TablePlaces],
    points: &[KeptPoints],
    rules: &[LinkRule],
) -> Result<Vec<Vec<LinkPair>>, Memory>
    requires valid { IsValid (layout_view layout.now) }
    requires good { All (IsGoodRule (layout_view layout.now)) (rules_view rules.now) }
    requires rows { (rows : List (ℕ × GivenRow))
        × AreLinksKept (layout_view layout.now) rows (kept_in places.now) (points_in points.now)
        keys.now }
    ensures { (rows : List (ℕ × GivenRow))
        → AreLinksKept (layout_view layout.now) rows (kept_in places.now) (points_in points.now)
        keys.now
        → IfOk result (λ pss. pairs_in pss.items ≡ map (pairs_of (layout_view layout.now)
        (transfer_so_far (layout_view layout.now) rows)) (rules_view rules.now)) }
{
    let mut pairs = Vec::with_capacity(alloc, rules.len())?;
    for rule in rules {
        pairs.push(rule_pairs(alloc, layout, keys, places, points, rule)?)?;
    }
    Ok(pairs)
}

// What rules ask of the area of that number.
fn asked_area(
    alloc: Global,
    layout: &Layout,
    keys: &Keys,
    places: &[TablePlaces],
    points: &[KeptPoints],
    rules: &[LinkRule],
    number: u32,
) -> Result<AskedArea, Memory>
    requires valid { IsValid (layout_view layout.now) }
    requires good { All (IsGoodRule (layout_view layout.now)) (rules_view rules.now) }
    requires rows { (rows : List (ℕ × GivenRow))
        × AreLinksKept (layout_view layout.now) rows (kept_in places.now) (points_in points.now)
        keys.now }
    ensures { (rows : List (ℕ × GivenRow))
        → AreLinksKept (layout_view layout.now) rows (kept_in places.now) (points_in points.now)
        keys.now
        → IfOk result (IsAsked (layout_view layout.now)
        (transfer_so_far (layout_view layout.now) rows) (rules_view rules.now) number) }
{
    let asked = rules_of_area(alloc, rules, number)?;
    let pairs = all_pairs(alloc, layout, keys, places, points, &asked)?;
    Ok(AskedArea {
        rules: asked,
        pairs,
    })
}

/// What the rules of a file of links ask of each area, in order, from what is kept of the rows. It
/// takes what `rule_pairs` takes for each rule, of rules that ask the same for one.
pub fn asked_areas(
    alloc: Global,
    layout: &Layout,
    keys: &Keys,
    places: &[TablePlaces],
    points: &[KeptPoints],
    rules: &[LinkRule],
) -> Result<Vec<AskedArea>, Memory>
    requires valid { IsValid (layout_view layout.now) }
    requires good { All (IsGoodRule (layout_view layout.now)) (rules_view rules.now) }
    requires rows { (rows : List (ℕ × GivenRow))
        × AreLinksKept (layout_view layout.now) rows (kept_in places.now) (points_in points.now)
        keys.now }
    ensures { (rows : List (ℕ × GivenRow))
        → AreLinksKept (layout_view layout.now) rows (kept_in places.now) (points_in points.now)
        keys.now
        → IfOk result (λ xs. AreAsked (layout_view layout.now)
        (transfer_so_far (layout_view layout.now) rows) (rules_view rules.now) xs.items) }
{
    let mut asked = Vec::with_capacity(alloc, layout.areas.len())?;
    for number in 0..layout.areas.len() {
        asked.push(asked_area(alloc, layout, keys, places, points, rules, number as u32)?)?;
    }
    Ok(asked)
}
