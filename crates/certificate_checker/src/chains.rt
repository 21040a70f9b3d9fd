// The edges of tubes: their sides, the chains that they belong to, and the labels outside.
ghost use Rattle.std.specs.Prelude.{◌≡◌, ◌↔◌, ◌+◌, ◌*◌, ◌<◌, ◌≤◌, ◌^◌, IsTrue, length};
ghost use Rattle.plane.specs.CurveRuns.TubedRuns.{IsOfTube};
ghost use Rattle.plane.specs.Faces.Halves.{edge_of, half_of, twin};
ghost use Rattle.plane.specs.Rule.Plans.{IsHalfArc};
ghost use Rattle.tubes.specs.TubedEdges.{owner_as, part_of};
ghost use Rattle.certificate_checker.specs.Cases.{IsFit, judged};
ghost use Rattle.certificate_checker.specs.Chains.{IsFirstOf, half_side};
ghost use Rattle.certificate_checker.specs.Rules.{FacesTube, LiesOutside};
ghost use Rattle.certificate_checker.specs.Subjects.{owned_of, side_label, side_part, within};

use super::case::Case;
use super::notes::label_at;
use tubes::{Facing, Owner, Part};

/// The curve of an edge, and what the edge is of it.
pub fn owner_of(case: &Case, edge: u32) -> Owner
    requires fit { IsFit case.now }
    requires edge { edge < length (judged case.now).edges }
    ensures { result ≡ owner_as (owned_of (judged case.now) edge) }
{
    case.owners[edge as usize]
}

/// The half-edge of an edge of a tube that faces the tube from within.
pub fn within(case: &Case, edge: u32) -> u32
    requires fit { IsFit case.now }
    requires edge { edge < length (judged case.now).edges }
    requires tube { IsOfTube (owned_of (judged case.now) edge).part }
    ensures half { half_of result ≡ within (judged case.now) edge }
    ensures below { result < 2 * length (judged case.now).edges }
{
    match case.facings[edge as usize] {
        Facing::Above => 2 * edge + 1,
        _ => 2 * edge,
    }
}

/// The other half-edge of an edge of a tube.
pub fn outside(case: &Case, edge: u32) -> u32
    requires fit { IsFit case.now }
    requires edge { edge < length (judged case.now).edges }
    requires tube { IsOfTube (owned_of (judged case.now) edge).part }
    ensures half { half_of result ≡ twin (within (judged case.now) edge) }
    ensures below { result < 2 * length (judged case.now).edges }
{
    match case.facings[edge as usize] {
        Facing::Above => 2 * edge,
        _ => 2 * edge + 1,
    }
}

/// Whether the half-edge faces the tube of its edge's curve from within.
pub fn faces_tube(case: &Case, h: u32) -> bool
    requires fit { IsFit case.now }
    requires half { h < 2 * length (judged case.now).edges }
    ensures { IsTrue result ↔ FacesTube (judged case.now) (half_of h) }
{
    let edge = edge_of(h);
    are_same(case.facings[edge as usize], side_of(h))
}

/// Whether the half-edge lies outside an edge of that chain of the curve's tube.
pub fn lies_outside(case: &Case, h: u32, curve: u32, inside: bool) -> bool
    requires fit { IsFit case.now }
    requires half { h < 2 * length (judged case.now).edges }
    ensures { IsTrue result ↔ LiesOutside (judged case.now) (half_of h) curve inside }
{
    let edge = edge_of(h);
    if !is_on_chain(owner_of(case, edge), curve, inside) {
        return false;
    }
    are_same(case.facings[edge as usize], side_across(h))
}

fn is_on_chain(owner: Owner, curve: u32, inside: bool) -> bool
    ensures { IsTrue result ↔ ((owner.curve ≡ curve) × (owner.part ≡ part_of (side_part inside))) }
{
    let part = if inside { Part::Inner } else { Part::Outer };
    owner.curve == curve && owner.part == part
}

fn are_same(first: Facing, second: Facing) -> bool
    ensures { IsTrue result ↔ (first ≡ second) }
{
    first == second
}

fn edge_of(h: u32) -> u32
    ensures { result ≡ edge_of (half_of h) }
{
    h / 2
}

fn side_of(h: u32) -> Facing
    ensures { result ≡ half_side (half_of h) }
{
    if h % 2 == 0 {
        Facing::Below
    } else {
        Facing::Above
    }
}

fn side_across(h: u32) -> Facing
    ensures { result ≡ half_side (twin (half_of h)) }
{
    if h % 2 == 0 {
        Facing::Above
    } else {
        Facing::Below
    }
}

/// The label outside the first edge of that chain of the curve's tube.
pub fn side_label(case: &Case, inside: bool, curve: u32) -> u32
    requires fit { IsFit case.now }
    requires half_arc { IsHalfArc (judged case.now).drawing curve }
    ensures { result ≡ side_label (judged case.now) inside curve }
{
    let first = first_of(case, inside, curve);
    label_at(case, outside(case, first))
}

fn first_of(case: &Case, inside: bool, curve: u32) -> u32
    requires fit { IsFit case.now }
    requires half_arc { IsHalfArc (judged case.now).drawing curve }
    ensures { IsFirstOf (judged case.now) inside curve result }
{
    let first = case.firsts[curve as usize];
    if inside {
        first
    } else {
        first + bay_count(case.certificate.level)
    }
}

/// How many bays a tube has.
pub fn bay_count(level: u8) -> u32
    requires { level ≤ 5 }
    ensures { result ≡ 2 ^ (level + 1) }
{
    2u32.pow(u32::from(level) + 1)
}
