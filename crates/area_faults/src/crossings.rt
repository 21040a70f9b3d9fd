// Where two straights cross.
ghost use Rattle.std.specs.Prelude.{◌≡◌, ◌^◌, pos, ◌*ℤ◌, ◌-ℤ◌, ◌<ℤ◌};
ghost use Rattle.plane.specs.Numbers.{IsNear, IsWithin};
ghost use Rattle.plane.specs.Rule.MeetingPlaces.{part, turning};
ghost use Rattle.plane.specs.Rule.Turns.{AreNear};
ghost use Rattle.area_faults.specs.Crossings.{IsRounded, IsUnitOf, SharePlace};

use plane::{Curve, Point};

/// Where two straights meet that are not parallel, rounded down.
pub(crate) fn crossing(first: &Curve, second: &Curve) -> Point
    requires first { AreNear (2 ^ 41) first.now.from first.now.to }
    requires second { AreNear (2 ^ 41) second.now.from second.now.to }
    requires from { AreNear (2 ^ 41) first.now.from second.now.from }
    requires to { AreNear (2 ^ 41) first.now.from second.now.to }
    requires meet { SharePlace first.now.from first.now.to second.now.from second.now.to }
    requires cross { turning first.now.from first.now.to second.now.from second.now.to ≡ pos 0
        → ⊥ }
    ensures { IsUnitOf first.now.from first.now.to second.now.from second.now.to result }
{
    let (e, f) = (second.from, second.to);
    let turn = turn_between(first, e, f);
    if turn > 0 {
        crossing_with(first, e, f, turn)
    } else {
        crossing_with(first, f, e, turn_between(first, f, e))
    }
}

// The same of a straight and that from `e` to `f`, where it turns left from the first to that one.
fn crossing_with(straight: &Curve, e: Point, f: Point, turn: i128) -> Point
    requires first { AreNear (2 ^ 41) straight.now.from straight.now.to }
    requires e_close { AreNear (2 ^ 41) straight.now.from e }
    requires f_close { AreNear (2 ^ 41) e f }
    requires meet { SharePlace straight.now.from straight.now.to e f }
    requires turn { turn ≡ turning straight.now.from straight.now.to e f }
    requires left { pos 0 <ℤ turn }
    ensures { IsUnitOf straight.now.from straight.now.to e f result }
{
    plane::rule::rounded_meetings_are_near();
    let part = part_before(straight.from, e, f);
    let x = rounded(straight.from.x, straight.to.x, part, turn);
    let y = rounded(straight.from.y, straight.to.y, part, turn);
    Point {
        x: x as i64,
        y: y as i64,
    }
}

// from + (to - from) part / turn, rounded down
fn rounded(from: i64, to: i64, part: i128, turn: i128) -> i128
    requires near { IsNear (2 ^ 41) from to }
    requires part { IsWithin (2 ^ 83) part }
    requires left { pos 0 <ℤ turn }
    ensures { IsRounded from (to -ℤ from) part turn result }
{
    let step = difference(to, from);
    let along = scaled(step, part);
    let quotient = along.div_euclid(turn);
    i128::from(from) + quotient
}

// The turn from the direction of the straight to that from `e` to `f`.
fn turn_between(straight: &Curve, e: Point, f: Point) -> i128
    requires first { AreNear (2 ^ 41) straight.now.from straight.now.to }
    requires second { AreNear (2 ^ 41) e f }
    ensures { result ≡ turning straight.now.from straight.now.to e f }
{
    let ux = difference(straight.to.x, straight.from.x);
    let uy = difference(straight.to.y, straight.from.y);
    let vx = difference(f.x, e.x);
    let vy = difference(f.y, e.y);
    cross(ux, uy, vx, vy)
}

// How far along the way of a straight from `a` the line from `e` to `f` is met, times the turn.
fn part_before(a: Point, e: Point, f: Point) -> i128
    requires first { AreNear (2 ^ 41) a e }
    requires second { AreNear (2 ^ 41) e f }
    ensures value { result ≡ part a e f }
    ensures bound { IsWithin (2 ^ 83) result }
{
    let ux = difference(e.x, a.x);
    let uy = difference(e.y, a.y);
    let vx = difference(f.x, e.x);
    let vy = difference(f.y, e.y);
    cross(ux, uy, vx, vy)
}

// a d - b c, below 2^83
fn cross(a: i128, b: i128, c: i128, d: i128) -> i128
    requires a { IsWithin (2 ^ 41) a }
    requires b { IsWithin (2 ^ 41) b }
    requires c { IsWithin (2 ^ 41) c }
    requires d { IsWithin (2 ^ 41) d }
    ensures value { result ≡ (a *ℤ d) -ℤ (b *ℤ c) }
    ensures bound { IsWithin (2 ^ 83) result }
{
    let ad = product(a, d);
    let bc = product(b, c);
    ad - bc
}

// a b, below 2^82
fn product(a: i128, b: i128) -> i128
    requires a { IsWithin (2 ^ 41) a }
    requires b { IsWithin (2 ^ 41) b }
    ensures value { result ≡ a *ℤ b }
    ensures bound { IsWithin (2 ^ 82) result }
{
    a * b
}

// step part, below 2^124
fn scaled(step: i128, part: i128) -> i128
    requires step { IsWithin (2 ^ 41) step }
    requires part { IsWithin (2 ^ 83) part }
    ensures value { result ≡ step *ℤ part }
    ensures bound { IsWithin (2 ^ 124) result }
{
    step * part
}

// a - b, below 2^41
fn difference(a: i64, b: i64) -> i128
    requires { IsNear (2 ^ 41) b a }
    ensures value { result ≡ a -ℤ b }
    ensures bound { IsWithin (2 ^ 41) result }
{
    i128::from(a) - i128::from(b)
}
