// The count of two neighbours: how far from their middle the circle is reached.
ghost use Rattle.std.specs.Prelude.{◌≡◌, ◌<◌, ◌^◌, true};
ghost use Rattle.plane.specs.Rule.Turns.{AreNear};
ghost use Rattle.plane.specs.Rule.Windows.{IsShort};
ghost use Rattle.arc_predicates.specs.Circles.{half_arc};
ghost use Rattle.tubes.specs.HalfArcTubes.{count, is_inside, with_bits};
ghost use Rattle.tubes.specs.Counting.{AreBounds, IsWindow};
ghost use Rattle.tubes.specs.Making.{IsInDisk};

use super::bounds::{Bounds, END, Window, inside_to, outside_from, width};
use super::guessing::guess;
use super::placing::beside;
use super::spans::Span;
use arc_predicates::{Circle, Side, place_of};

/// The count of the span's points; `None` where the point two units from their middle to the third
/// point's side is not strictly inside the circle. The diameter is about the circle's.
pub fn count(circle: &Circle, span: &Span, diameter: u64) -> Option<u32>
    requires short { IsShort circle.now.s }
    requires near { AreNear (2 ^ 31) circle.now.s span.now.p }
    requires p_inside { IsInDisk (half_arc circle.now) span.now.p }
    requires q_inside { IsInDisk (half_arc circle.now) span.now.q }
    ensures { result ≡ count (half_arc circle.now) span.now.p span.now.q }
{
    if is_inside(circle, span, 0) {
        let window = window(circle, span, diameter);
        Some(with_bits(circle, span, &window))
    } else {
        None
    }
}

// The greatest bits first, from the greatest that may be inside down.
fn with_bits(circle: &Circle, span: &Span, window: &Window) -> u32
    requires short { IsShort circle.now.s }
    requires near { AreNear (2 ^ 31) circle.now.s span.now.p }
    requires window { IsWindow (half_arc circle.now) span.now.p span.now.q window.now }
    ensures { result ≡ with_bits (is_inside (half_arc circle.now) span.now.p span.now.q) 27 0 }
{
    let width = width(window.outside_from);
    let mut k: u32 = 0;
    for done in 0..width {
        let more = k + (1 << (width - 1 - done));
        if is_inside_by(circle, span, window, more) {
            k = more;
        }
    }
    k
}

// `is_inside`, by what is known where that says it.
fn is_inside_by(circle: &Circle, span: &Span, window: &Window, k: u32) -> bool
    requires k { k < 2 ^ 27 }
    requires short { IsShort circle.now.s }
    requires near { AreNear (2 ^ 31) circle.now.s span.now.p }
    requires window { IsWindow (half_arc circle.now) span.now.p span.now.q window.now }
    ensures { result ≡ is_inside (half_arc circle.now) span.now.p span.now.q k }
{
    if window.outside_from <= k || k == window.bounds.high {
        false
    } else if k == window.bounds.low || (4 <= k && k <= window.inside_to) {
        true
    } else {
        is_inside(circle, span, k)
    }
}

// What two tests near the guess say.
fn window(circle: &Circle, span: &Span, diameter: u64) -> Window
    requires short { IsShort circle.now.s }
    requires near { AreNear (2 ^ 31) circle.now.s span.now.p }
    requires p_inside { IsInDisk (half_arc circle.now) span.now.p }
    requires q_inside { IsInDisk (half_arc circle.now) span.now.q }
    requires inside { is_inside (half_arc circle.now) span.now.p span.now.q 0 ≡ true }
    ensures { IsWindow (half_arc circle.now) span.now.p span.now.q result }
{
    let length = span.length.unsigned_abs();
    let bounds = bounds(circle, span, guess(diameter, length));
    Window {
        bounds,
        inside_to: inside_to(length, bounds.low),
        outside_from: outside_from(length, bounds.high),
    }
}

// The two tests: of a number near the guess, and of the one two above where that is inside, else
// of the one two below.
fn bounds(circle: &Circle, span: &Span, guess: u32) -> Bounds
    requires guess { guess < 2 ^ 26 }
    requires short { IsShort circle.now.s }
    requires near { AreNear (2 ^ 31) circle.now.s span.now.p }
    requires inside { is_inside (half_arc circle.now) span.now.p span.now.q 0 ≡ true }
    ensures { AreBounds (half_arc circle.now) span.now.p span.now.q result }
{
    let near = guess + 4;
    if !is_inside(circle, span, near) {
        let low = if guess >= 2 && is_inside(circle, span, near - 2) {
            near - 2
        } else {
            0
        };
        return Bounds { low, high: near };
    }
    if is_inside(circle, span, near + 2) {
        Bounds {
            low: near + 2,
            high: END,
        }
    } else {
        Bounds {
            low: near,
            high: near + 2,
        }
    }
}

// Whether the point two units less than k from the middle is strictly inside the circle.
fn is_inside(circle: &Circle, span: &Span, k: u32) -> bool
    requires k { k < 2 ^ 27 }
    requires short { IsShort circle.now.s }
    requires near { AreNear (2 ^ 31) circle.now.s span.now.p }
    ensures { result ≡ is_inside (half_arc circle.now) span.now.p span.now.q k }
{
    let at = beside(circle, span, i64::from(k) - 2);
    matches!(place_of(circle, at), Side::Inside)
}
