// How two edges meet: the signs of at most four turns, and comparisons of their ends.
ghost use Rattle.std.specs.Prelude.{◌≡◌, ◌↔◌, IsTrue, pos};
ghost use Rattle.plane.specs.Rule.Turns.{cross};
ghost use Rattle.plane.specs.Forms.Vectors.{Before};
ghost use Rattle.plane.specs.Forms.Meets as edges;
ghost use Rattle.straight_predicates.specs.Signs.{AreStraight, AreOneSide};
ghost use Rattle.straight_predicates.specs.Meetings.{EdgesAreClose, IsMeet, ShareEnd};

use super::meets::Meet;
use super::order::before;
use super::turning::turn;
use super::turns::Turn;
use plane::{Edge, Point};

/// How the edges `s` and `t` meet.
pub fn meet(s: &Edge, t: &Edge) -> Meet
    requires s_sorted { Before s.now.low s.now.high }
    requires t_sorted { Before t.now.low t.now.high }
    requires close { EdgesAreClose s.now t.now }
    ensures apart { result ≡ Meet.Apart ↔ edges.Disjoint s.now t.now }
    ensures common_end { result ≡ Meet.CommonEnd ↔ edges.Touch s.now t.now }
    ensures bad { result ≡ Meet.Bad ↔ edges.Bad s.now t.now }
{
    meet_as(s, t)
}

fn meet_as(s: &Edge, t: &Edge) -> Meet
    requires s_sorted { Before s.now.low s.now.high }
    requires t_sorted { Before t.now.low t.now.high }
    requires close { EdgesAreClose s.now t.now }
    ensures { IsMeet result s.now t.now }
{
    let low = turn(s.low, s.high, t.low);
    let high = turn(s.low, s.high, t.high);
    if are_straight(low, high) {
        return meet_in_line(s, t);
    }
    if is_one_side(low, high) {
        return Meet::Apart;
    }
    if is_one_side(turn(t.low, t.high, s.low), turn(t.low, t.high, s.high)) {
        return Meet::Apart;
    }
    if share_end(s, t) {
        Meet::CommonEnd
    } else {
        Meet::Bad
    }
}

// Whether no turn is to a side.
fn are_straight(first: Turn, second: Turn) -> bool
    ensures { IsTrue result ↔ AreStraight first second }
{
    first == Turn::Straight && second == Turn::Straight
}

// Whether both turns are strictly to one side.
fn is_one_side(first: Turn, second: Turn) -> bool
    ensures { IsTrue result ↔ AreOneSide first second }
{
    first == second && first != Turn::Straight
}

// Whether some point is an end of both.
fn share_end(s: &Edge, t: &Edge) -> bool
    ensures { IsTrue result ↔ ShareEnd s.now t.now }
{
    has_end(t, s.low) || has_end(t, s.high)
}

// Whether the point is an end of the edge.
fn has_end(e: &Edge, p: Point) -> bool
    ensures { IsTrue result ↔ edges.IsEnd e.now p }
{
    e.low == p || e.high == p
}

// How two edges of one line meet.
fn meet_in_line(s: &Edge, t: &Edge) -> Meet
    requires s_sorted { Before s.now.low s.now.high }
    requires t_sorted { Before t.now.low t.now.high }
    requires close { EdgesAreClose s.now t.now }
    requires low { cross s.now.low s.now.high t.now.low ≡ pos 0 }
    requires high { cross s.now.low s.now.high t.now.high ≡ pos 0 }
    ensures { IsMeet result s.now t.now }
{
    if before(s.high, t.low) || before(t.high, s.low) {
        Meet::Apart
    } else if s.high == t.low || t.high == s.low {
        Meet::CommonEnd
    } else {
        Meet::Bad
    }
}
