// Places of the plane, and when three of them lie on no arc.
ghost use Rattle.std.specs.Prelude.{◌≡◌, ◌&&◌, ◌^◌, ◌*◌, ◌-ℤ◌, ◌*ℤ◌};
ghost use Rattle.field_values.specs.Places.{are_collinear, is_between, is_no_arc, is_same};
ghost use Rattle.field_values.specs.Places.{is_same_place, place_view};
ghost use Rattle.field_values.specs.Sizes.{IsWithin, IsShort};

use super::place::Place;

/// The two are one place.
pub fn is_same_place(p: Place, q: Place) -> bool
    ensures { result ≡ is_same_place (place_view p) (place_view q) }
{
    p.x == q.x && p.y == q.y
}

/// No arc leads from `s` over `m` to `e`: the ends are one place, or the three lie on one straight
/// and `m` is not between the ends.
pub fn is_no_arc(s: Place, m: Place, e: Place) -> bool
    ensures { result ≡ is_no_arc (place_view s) (place_view m) (place_view e) }
{
    if is_same_place(s, e) {
        return true;
    }
    are_collinear(s, m, e) && !is_between_places(s, e, m)
}

// The three lie on one straight.
fn are_collinear(s: Place, m: Place, e: Place) -> bool
    ensures { result ≡ are_collinear (place_view s) (place_view m) (place_view e) }
{
    let mx = difference(m.x, s.x);
    let my = difference(m.y, s.y);
    let ex = difference(e.x, s.x);
    let ey = difference(e.y, s.y);
    are_equal(product(mx, ey), product(my, ex))
}

// a - b, which fits: both have at most 18 digits.
fn difference(a: i64, b: i64) -> i64
    requires a { IsShort a }
    requires b { IsShort b }
    ensures value { result ≡ a -ℤ b }
    ensures bound { IsWithin (2 * 10 ^ 18) result }
{
    a - b
}

// a * b, which fits: both are differences of numbers of at most 18 digits.
fn product(a: i64, b: i64) -> i128
    requires a { IsWithin (2 * 10 ^ 18) a }
    requires b { IsWithin (2 * 10 ^ 18) b }
    ensures { result ≡ a *ℤ b }
{
    i128::from(a) * i128::from(b)
}

// Whether two numbers are equal, which the definition says by two comparisons.
fn are_equal(a: i128, b: i128) -> bool
    ensures { result ≡ is_same a b }
{
    a == b
}

// Between two places in both coordinates.
fn is_between_places(p: Place, q: Place, m: Place) -> bool
    ensures { result ≡ (is_between p.x q.x m.x && is_between p.y q.y m.y) }
{
    let across = is_between(p.x, q.x, m.x);
    let upward = is_between(p.y, q.y, m.y);
    across && upward
}

// Between two numbers, both included.
fn is_between(a: i64, b: i64, n: i64) -> bool
    ensures { result ≡ is_between a b n }
{
    (a <= n && n <= b) || (b <= n && n <= a)
}
