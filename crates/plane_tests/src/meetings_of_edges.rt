// How edges meet and turn.
ghost use Rattle.std.specs.Prelude.{◌^◌, IsTrue};
ghost use Rattle.plane.specs.Numbers.{IsNear};
ghost use Rattle.straight_predicates.specs.Meetings.{AreClose, EdgesAreClose};

use plane::{Edge, Point};
use straight_predicates::{Meet, Turn, before, meet, turn};

// The greatest difference that the predicates take, 2^41 - 1.
const WIDE: i64 = 2_199_023_255_551;

fn is_near(a: i64, b: i64) -> bool
    ensures { IsTrue result → IsNear (2 ^ 41) a b }
{
    let difference = i128::from(a) - i128::from(b);
    -2_199_023_255_552 < difference && difference < 2_199_023_255_552
}

pub fn are_close(p: Point, q: Point) -> bool
    ensures { IsTrue result → AreClose p q }
{
    is_near(p.x, q.x) && is_near(p.y, q.y)
}

fn edges_are_close(s: &Edge, t: &Edge) -> bool
    ensures { IsTrue result → EdgesAreClose s.now t.now }
{
    are_close(s.low, s.high)
        && are_close(t.low, t.high)
        && are_close(s.low, t.low)
        && are_close(s.low, t.high)
        && are_close(s.high, t.low)
        && are_close(s.high, t.high)
}

// How two edges meet, each given by the coordinates of its low and its high end.
fn meeting_of(s: [i64; 4], t: [i64; 4]) -> Option<Meet> {
    let s = edge(s);
    let t = edge(t);
    if before(s.low, s.high) && before(t.low, t.high) && edges_are_close(&s, &t) {
        Some(meet(&s, &t))
    } else {
        None
    }
}

fn edge(e: [i64; 4]) -> Edge {
    Edge {
        low: Point { x: e[0], y: e[1] },
        high: Point { x: e[2], y: e[3] },
    }
}

type Pair = (&'static str, [i64; 4], [i64; 4], Meet);

const PAIRS: [Pair; 41] = [
    // Edges across each other or beside.
    ("cross", [0, 0, 4, 4], [0, 4, 4, 0], Meet::Bad),
    (
        "cross between whole places",
        [0, 0, 3, 1],
        [1, 1, 2, 0],
        Meet::Bad,
    ),
    (
        "low end inside the other",
        [0, 0, 4, 0],
        [2, 0, 2, 3],
        Meet::Bad,
    ),
    (
        "high end inside the other",
        [0, 0, 4, 0],
        [2, -3, 2, 0],
        Meet::Bad,
    ),
    (
        "first ends inside the second",
        [0, 0, 2, 2],
        [0, 4, 4, 0],
        Meet::Bad,
    ),
    (
        "first begins inside the second",
        [2, 2, 5, 5],
        [0, 4, 4, 0],
        Meet::Bad,
    ),
    (
        "common low end",
        [0, 0, 4, 0],
        [0, 0, 3, 5],
        Meet::CommonEnd,
    ),
    (
        "common high end",
        [0, 0, 4, 4],
        [1, 7, 4, 4],
        Meet::CommonEnd,
    ),
    (
        "high end on low end",
        [0, 0, 4, 4],
        [4, 4, 6, 1],
        Meet::CommonEnd,
    ),
    (
        "low end on high end",
        [4, 4, 6, 1],
        [0, 0, 4, 4],
        Meet::CommonEnd,
    ),
    ("parallel", [0, 0, 4, 0], [0, 1, 4, 1], Meet::Apart),
    ("all above", [0, 0, 3, 2], [1, 1, 2, 5], Meet::Apart),
    (
        "across the line, past the end",
        [0, 0, 4, 0],
        [5, -1, 5, 1],
        Meet::Apart,
    ),
    (
        "the line meets the other, the edge does not",
        [2, 1, 2, 5],
        [0, 0, 4, 0],
        Meet::Apart,
    ),
    // In one line.
    ("equal", [0, 0, 4, 2], [0, 0, 4, 2], Meet::Bad),
    (
        "second inside the first",
        [0, 0, 9, 3],
        [3, 1, 6, 2],
        Meet::Bad,
    ),
    (
        "first inside the second",
        [3, 1, 6, 2],
        [0, 0, 9, 3],
        Meet::Bad,
    ),
    ("overlap", [0, 0, 6, 3], [4, 2, 8, 4], Meet::Bad),
    (
        "overlap, turned round",
        [4, 2, 8, 4],
        [0, 0, 6, 3],
        Meet::Bad,
    ),
    (
        "common low end, one longer",
        [0, 0, 2, 1],
        [0, 0, 6, 3],
        Meet::Bad,
    ),
    (
        "common high end, one longer",
        [4, 2, 6, 3],
        [0, 0, 6, 3],
        Meet::Bad,
    ),
    (
        "second goes on",
        [0, 0, 2, 1],
        [2, 1, 6, 3],
        Meet::CommonEnd,
    ),
    ("first goes on", [2, 1, 6, 3], [0, 0, 2, 1], Meet::CommonEnd),
    ("gap, second later", [0, 0, 2, 1], [4, 2, 6, 3], Meet::Apart),
    ("gap, first later", [4, 2, 6, 3], [0, 0, 2, 1], Meet::Apart),
    // Upright.
    ("upright equal", [1, 0, 1, 5], [1, 0, 1, 5], Meet::Bad),
    ("upright overlap", [1, 0, 1, 5], [1, 3, 1, 9], Meet::Bad),
    ("upright inside", [1, 0, 1, 9], [1, 3, 1, 5], Meet::Bad),
    (
        "upright goes on",
        [1, 0, 1, 5],
        [1, 5, 1, 9],
        Meet::CommonEnd,
    ),
    ("upright gap", [1, 0, 1, 5], [1, 6, 1, 9], Meet::Apart),
    (
        "upright beside upright",
        [1, 0, 1, 5],
        [2, 0, 2, 5],
        Meet::Apart,
    ),
    ("upright crossed", [1, -2, 1, 2], [0, 0, 3, 0], Meet::Bad),
    (
        "upright touched inside",
        [1, -2, 1, 2],
        [1, 0, 3, 0],
        Meet::Bad,
    ),
    (
        "upright stands on a level",
        [1, 0, 1, 2],
        [0, 0, 3, 0],
        Meet::Bad,
    ),
    ("corner", [0, 0, 0, 5], [0, 0, 5, 0], Meet::CommonEnd),
    // As large as may be.
    (
        "wide cross",
        [0, 0, WIDE, WIDE],
        [0, WIDE, WIDE, 0],
        Meet::Bad,
    ),
    (
        "wide and parallel",
        [0, 0, WIDE, WIDE - 1],
        [0, 1, WIDE, WIDE],
        Meet::Apart,
    ),
    (
        "wide common end",
        [0, 0, WIDE, WIDE],
        [WIDE - 1, WIDE, WIDE, WIDE],
        Meet::CommonEnd,
    ),
    (
        "one unit above the last place",
        [0, 0, WIDE, 1],
        [WIDE - 1, 1, WIDE, 2],
        Meet::Apart,
    ),
    (
        "through the last unit",
        [0, 0, WIDE, 1],
        [WIDE - 1, 0, WIDE - 1, 1],
        Meet::Bad,
    ),
    (
        "far from the origin",
        [WIDE, -WIDE, WIDE + 2, -WIDE],
        [WIDE + 1, -WIDE, WIDE + 1, 0],
        Meet::Bad,
    ),
];

#[test]
fn edges_meet_as_worked_by_hand(rt: HostRuntime) {
    for (name, s, t, want) in &PAIRS {
        assert!(rt; meeting_of(*s, *t) == Some(*want), "{name}");
    }
}

#[test]
fn ways_turn_and_points_come_in_order(rt: HostRuntime) {
    let a = Point { x: 0, y: 0 };
    let b = Point {
        x: WIDE,
        y: WIDE - 1,
    };
    let turns = [
        turn(a, b, Point { x: WIDE, y: WIDE }),
        turn(a, b, b),
        turn(a, b, Point { x: 2, y: 1 }),
    ];
    let p = Point { x: 1, y: 9 };
    let q = Point { x: 2, y: 3 };
    // By x, by y, the later one, and equal ones.
    let come = [
        before(p, q),
        before(p, Point { x: 1, y: 10 }),
        before(q, p),
        before(p, p),
    ];
    assert!(rt; turns == [Turn::Left, Turn::Straight, Turn::Right], "turns");
    assert!(rt; come == [true, true, false, false], "order");
}
