// Parts of two curves that break a level.
ghost use Rattle.std.specs.Prelude.{◌≡◌, ◌↔◌, ◌⊎◌, ◌<◌, ◌≤◌, suc, IsTrue, length};
ghost use Rattle.plane.specs.Forms.Meets.{Bad};
ghost use Rattle.plane.specs.Forms.Vectors.{Before};
ghost use Rattle.plane.specs.declared.kinds.Edge.{Edge};
ghost use Rattle.straight_predicates.specs.Meetings.{EdgesAreClose};
ghost use Rattle.near_pairs.specs.Boxes.{box_of};
ghost use Rattle.level_breaks.specs.Groups.{AreGroups, IsEdged, bays_of, edges_with};
ghost use Rattle.level_breaks.specs.Parts.{ArePartsOf, EdgesMeet, EndsEnter, HoldsPart, IsBeside};
ghost use Rattle.level_breaks.specs.Parts.{MeetsInner, MeetsPart, PartsClash, SomeClash};
ghost use Rattle.level_breaks.specs.Parts.{InnerMeets};
ghost use Rattle.level_breaks.specs.Stretches.{IsStretch, SomeOf};

use super::boxes::edge_reach;
use super::entering::ends_enter;
use super::groups::{Group, bay_count};
use super::halves::{PartTest, Stretch, some_sought};
use super::parts::{inner_of, outer_of, part_count, parts_reach};
use near_pairs::Reach;
use plane::Edge;
use straight_predicates::{Meet, meet};

// Two curves with their tubes.
#[derive(Clone, Copy)]
struct GroupTest<'a> {
    one: Group<'a>,
    other: Group<'a>,
}

impl<'a> PartTest for GroupTest<'a> {
    ghost use Rattle.std.specs.Prelude.{suc};
    ghost use Rattle.level_breaks.specs.Groups.{AreGroups, bays_of};
    ghost use Rattle.level_breaks.specs.Parts.{HoldsPart, PartsClash};

    ghost can_test = { λ s. AreGroups s.one s.other };

    ghost firsts = { λ s. suc (bays_of s.one.tube.now) };

    ghost seconds = { λ s. suc (bays_of s.other.tube.now) };

    ghost holds_first = { λ s. HoldsPart s.one.curve.now s.one.tube.now };

    ghost holds_second = { λ s. HoldsPart s.other.curve.now s.other.tube.now };

    ghost sought = { λ s. PartsClash s.one.curve.now s.one.tube.now
        s.other.curve.now s.other.tube.now };

    fn boxes_share(&self) {
        plane::arcs::boxes_hold_means();
    }

    fn first_reach(&self, from: usize, to: usize) -> Reach {
        parts_reach(&self.one, from, to)
    }

    fn second_reach(&self, from: usize, to: usize) -> Reach {
        parts_reach(&self.other, from, to)
    }

    fn is_sought(&self, number: usize, stretch: &Stretch) -> bool {
        some_clash(&self.one, number, &self.other, stretch)
    }
}

/// Whether two edges, one of each curve, share a place that is no common end, or more than one, or
/// an edge of the one ends in the tube of the other, but at no end of that.
pub fn parts_clash(one: &Group, other: &Group) -> bool
    requires { AreGroups one.now other.now }
    ensures { IsTrue result ↔ SomeClash one.now.curve.now one.now.tube.now
        other.now.curve.now other.now.tube.now }
{
    let test = GroupTest {
        one: *one,
        other: *other,
    };
    let first = all_of(one, part_count(one));
    let second = all_of(other, part_count(other));
    some_sought(&test, &first, &second)
}

fn all_of(group: &Group, count: usize) -> Stretch
    ensures from { result.from ≡ 0 }
    ensures to { result.to ≡ count }
    ensures reach { result.reach ≡ group.now.reach }
{
    Stretch {
        from: 0,
        to: count,
        reach: group.reach,
    }
}

// Whether the part and one of the stretch clash.
fn some_clash(one: &Group, part: usize, other: &Group, stretch: &Stretch) -> bool
    requires groups { AreGroups one.now other.now }
    requires part { part ≤ bays_of one.now.tube.now }
    requires stretch { IsStretch (HoldsPart other.now.curve.now other.now.tube.now)
        (suc (bays_of other.now.tube.now)) stretch.now }
    ensures { IsTrue result ↔ SomeOf (PartsClash one.now.curve.now one.now.tube.now
        other.now.curve.now other.now.tube.now part) stretch.now.from stretch.now.to }
{
    plane::arcs::boxes_hold_means();
    let around = parts_reach(one, part, part + 1);
    if !around.meets(&stretch.reach) {
        return false;
    }
    for number in stretch.from..stretch.to {
        if are_clashing(one, part, &around, other, number) {
            return true;
        }
    }
    false
}

fn are_clashing(one: &Group, part: usize, around: &Reach, other: &Group, number: usize) -> bool
    requires groups { AreGroups one.now other.now }
    requires parts { ArePartsOf one.now.tube.now other.now.tube.now part number }
    requires around { HoldsPart one.now.curve.now one.now.tube.now (box_of around.now) part }
    ensures { IsTrue result ↔ PartsClash one.now.curve.now one.now.tube.now
        other.now.curve.now other.now.tube.now part number }
{
    plane::arcs::boxes_hold_means();
    let reach = parts_reach(other, number, number + 1);
    around.meets(&reach) && clash_in_a_way(one, part, other, number)
}

fn clash_in_a_way(one: &Group, part: usize, other: &Group, number: usize) -> bool
    requires groups { AreGroups one.now other.now }
    requires parts { ArePartsOf one.now.tube.now other.now.tube.now part number }
    ensures { IsTrue result ↔ PartsClash one.now.curve.now one.now.tube.now
        other.now.curve.now other.now.tube.now part number }
{
    edges_meet(one, part, other, number) || some_ends_enter(one, part, other, number)
}

fn some_ends_enter(one: &Group, part: usize, other: &Group, number: usize) -> bool
    requires groups { AreGroups one.now other.now }
    requires parts { ArePartsOf one.now.tube.now other.now.tube.now part number }
    ensures { IsTrue result ↔ (EndsEnter one.now.curve.now one.now.tube.now part
        other.now.curve.now other.now.tube.now number ⊎ EndsEnter
        other.now.curve.now other.now.tube.now number one.now.curve.now one.now.tube.now part) }
{
    ends_enter(one, part, other, number) || ends_enter(other, number, one, part)
}

// Whether an edge of the part and one of the other curve's part meet badly.
fn edges_meet(one: &Group, part: usize, other: &Group, number: usize) -> bool
    requires groups { AreGroups one.now other.now }
    requires parts { ArePartsOf one.now.tube.now other.now.tube.now part number }
    ensures { IsTrue result ↔ EdgesMeet one.now.curve.now one.now.tube.now part
        other.now.curve.now other.now.tube.now number }
{
    meets_part(&outer_of(one, part), other, number) || inner_meets(one, part, other, number)
}

fn inner_meets(one: &Group, part: usize, other: &Group, number: usize) -> bool
    requires groups { AreGroups one.now other.now }
    requires parts { ArePartsOf one.now.tube.now other.now.tube.now part number }
    ensures { IsTrue result ↔ InnerMeets one.now.curve.now one.now.tube.now part
        other.now.curve.now other.now.tube.now number }
{
    part < bay_count(one) && meets_part(&inner_of(one, part), other, number)
}

// Whether the edge and one of the part meet badly.
fn meets_part(edge: &Edge, group: &Group, part: usize) -> bool
    requires edged { IsEdged group.now.curve.now group.now.tube.now }
    requires beside { IsBeside edge.now (edges_with group.now.curve.now group.now.tube.now) }
    requires part { part ≤ bays_of group.now.tube.now }
    ensures { IsTrue result ↔ MeetsPart group.now.curve.now group.now.tube.now part edge.now }
{
    are_bad(edge, &outer_of(group, part)) || meets_inner(edge, group, part)
}

fn meets_inner(edge: &Edge, group: &Group, part: usize) -> bool
    requires edged { IsEdged group.now.curve.now group.now.tube.now }
    requires beside { IsBeside edge.now (edges_with group.now.curve.now group.now.tube.now) }
    ensures { IsTrue result ↔ MeetsInner group.now.curve.now group.now.tube.now part edge.now }
{
    part < bay_count(group) && are_bad(edge, &inner_of(group, part))
}

// Whether two edges meet badly.
fn are_bad(edge: &Edge, other: &Edge) -> bool
    requires sorted { Before edge.now.low edge.now.high }
    requires other_sorted { Before other.now.low other.now.high }
    requires close { EdgesAreClose edge.now other.now }
    ensures { IsTrue result ↔ Bad edge.now other.now }
{
    plane::arcs::boxes_hold_means();
    edge_reach(edge).meets(&edge_reach(other)) && meet_badly(edge, other)
}

fn meet_badly(edge: &Edge, other: &Edge) -> bool
    requires sorted { Before edge.now.low edge.now.high }
    requires other_sorted { Before other.now.low other.now.high }
    requires close { EdgesAreClose edge.now other.now }
    ensures { IsTrue result ↔ Bad edge.now other.now }
{
    matches!(meet(edge, other), Meet::Bad)
}
