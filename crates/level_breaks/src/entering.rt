// Edges that end in a part of a tube.
ghost use Rattle.std.specs.Prelude.{◌≡◌, ◌↔◌, ◌≤◌, Some, IsTrue};
ghost use Rattle.plane.specs.Forms.Meets.{IsEnd};
ghost use Rattle.plane.specs.Rule.BadPairs.{IsEndOf};
ghost use Rattle.plane.specs.declared.kinds.Point.{Point};
ghost use Rattle.tubes.specs.Holding.{AreTurnable};
ghost use Rattle.level_breaks.specs.Groups.{AreGroups, IsEdged, bays_of, edges_with};
ghost use Rattle.level_breaks.specs.Parts.{AreTurnableAt, ArePartsOf, EndsEnter, EndsInPart};
ghost use Rattle.level_breaks.specs.Parts.{EntersPart, InnerEnters};

use super::groups::{Group, bay_count};
use super::parts::{inner_of, outer_of};
use super::triangles::is_in_part;
use plane::{Curve, Edge, Point};
use tubes::Tube;

/// Whether an edge of the part ends in a part of the other's tube, but at no end of that.
pub fn ends_enter(group: &Group, part: usize, other: &Group, number: usize) -> bool
    requires groups { AreGroups group.now other.now }
    requires parts { ArePartsOf group.now.tube.now other.now.tube.now part number }
    ensures { IsTrue result ↔ EndsEnter group.now.curve.now group.now.tube.now part
        other.now.curve.now other.now.tube.now number }
{
    match other.tube {
        Some(tube) => some_end_enters(group, part, other.curve, tube, number),
        None => false,
    }
}

fn some_end_enters(group: &Group, part: usize, curve: &Curve, tube: &Tube, number: usize) -> bool
    requires edged { IsEdged group.now.curve.now group.now.tube.now }
    requires part { part ≤ bays_of group.now.tube.now }
    requires turnable { AreTurnableAt tube.now
        (edges_with group.now.curve.now group.now.tube.now) }
    ensures { IsTrue result ↔ EndsEnter group.now.curve.now group.now.tube.now part
        curve.now (Some tube.now) number }
{
    ends_in_part(&outer_of(group, part), curve, tube, number)
        || inner_enters(group, part, curve, tube, number)
}

fn inner_enters(group: &Group, part: usize, curve: &Curve, tube: &Tube, number: usize) -> bool
    requires edged { IsEdged group.now.curve.now group.now.tube.now }
    requires turnable { AreTurnableAt tube.now
        (edges_with group.now.curve.now group.now.tube.now) }
    ensures { IsTrue result ↔ InnerEnters group.now.curve.now group.now.tube.now part
        curve.now (Some tube.now) number }
{
    part < bay_count(group) && ends_in_part(&inner_of(group, part), curve, tube, number)
}

fn ends_in_part(edge: &Edge, curve: &Curve, tube: &Tube, number: usize) -> bool
    requires { (p : Point) → IsEnd edge.now p
        → AreTurnable tube.now.inner.items tube.now.outer.items p }
    ensures { IsTrue result ↔ EndsInPart curve.now (Some tube.now) number edge.now }
{
    enters(edge.low, curve, tube, number) || enters(edge.high, curve, tube, number)
}

fn enters(p: Point, curve: &Curve, tube: &Tube, number: usize) -> bool
    requires { AreTurnable tube.now.inner.items tube.now.outer.items p }
    ensures { IsTrue result ↔ EntersPart curve.now tube.now number p }
{
    !is_end(curve, p) && is_in_part(tube, number, p)
}

/// Whether the point is an end of the curve.
pub fn is_end(curve: &Curve, p: Point) -> bool
    ensures { IsTrue result ↔ IsEndOf curve.now p }
{
    are_same(curve.from, p) || are_same(curve.to, p)
}

pub fn are_same(p: Point, q: Point) -> bool
    ensures { IsTrue result ↔ (p ≡ q) }
{
    p == q
}
