// Bounds and overlaps at a scale.
ghost use Rattle.std.specs.Prelude.{◌≡◌, ◌<◌, ◌≤◌, ◌^◌, max, pos, neg_ℤ, ◌<ℤ◌, ◌-ℤ◌};
ghost use Rattle.ili_grammar.specs.Syntax.{Coord2, Coord3};
ghost use Rattle.ili_grammar.specs.Values.{decimal_of, span_of, corners2_of, corners3_of};
ghost use Rattle.ili_grammar.specs.Values.{type_of};
ghost use Rattle.resolver.specs.Numbers.{magnitude, in_units, scale_of, is_long};
ghost use Rattle.resolver.specs.Numbers.{is_reversed, has_long_bound, is_wide_span, is_wide};
ghost use Rattle.resolver.specs.Numbers.{is_text_length};
ghost use Rattle.ili_grammar.specs.Limits.{IsSmall, IsSmallSpan, IsSmallType};

use ili_grammar::{Corners2, Corners3, Decimal, Span, TypeSyntax};

// An area's window is less than 2^40 units wide.
const WIDE: i128 = 1_099_511_627_776;

// The least number of more than 18 digits.
const LONG: u128 = 1_000_000_000_000_000_000;

// 10 to a power.
fn power(exponent: u8) -> u128
    requires { exponent ≤ 9 }
    ensures value { result ≡ 10 ^ exponent }
    ensures most { result ≤ 10 ^ 9 }
    ensures least { 0 < result }
{
    10u128.pow(u32::from(exponent))
}

// The number without its sign in units of a scale, further decimals dropped.
fn magnitude(number: Decimal, scale: u8) -> u128
    requires short { IsSmall (decimal_of number) }
    requires scale { scale ≤ 9 }
    ensures value { result ≡ magnitude scale (decimal_of number) }
    ensures most { result < 10 ^ 27 }
{
    let more = power(scale.saturating_sub(number.scale));
    let fewer = power(number.scale.saturating_sub(scale));
    u128::from(number.digits.unsigned_abs()) * more / fewer
}

/// A number in units of a scale, further decimals dropped towards zero.
pub fn in_units(number: Decimal, scale: u8) -> i128
    requires short { IsSmall (decimal_of number) }
    requires scale { scale ≤ 9 }
    ensures value { result ≡ in_units scale (decimal_of number) }
    ensures low { neg_ℤ (pos (10 ^ 27)) <ℤ result }
    ensures high { result <ℤ pos (10 ^ 27) }
{
    let value = magnitude(number, scale) as i128;
    if number.digits < 0 { -value } else { value }
}

/// Whether a number has more than 18 digits at a scale.
pub fn is_long(number: Decimal, scale: u8) -> bool
    requires short { IsSmall (decimal_of number) }
    requires scale { scale ≤ 9 }
    ensures { result ≡ is_long scale (decimal_of number) }
{
    LONG <= magnitude(number, scale)
}

/// Whether the low bound is above the high one.
pub fn is_reversed(span: Span, scale: u8) -> bool
    requires short { IsSmallSpan (span_of span) }
    requires scale { scale ≤ 9 }
    ensures { result ≡ is_reversed scale (span_of span) }
{
    in_units(span.high, scale) < in_units(span.low, scale)
}

/// Whether one of the bounds has more than 18 digits at a scale.
pub fn has_long_bound(span: Span, scale: u8) -> bool
    requires short { IsSmallSpan (span_of span) }
    requires scale { scale ≤ 9 }
    ensures { result ≡ has_long_bound scale (span_of span) }
{
    is_long(span.low, scale) || is_long(span.high, scale)
}

// Whether the high bound is 2^40 units or more above the low one.
fn is_wide_span(span: Span, scale: u8) -> bool
    requires short { IsSmallSpan (span_of span) }
    requires scale { scale ≤ 9 }
    ensures { result ≡ is_wide_span scale (span_of span) }
{
    WIDE <= difference(in_units(span.high, scale), in_units(span.low, scale))
}

// high - low
fn difference(high: i128, low: i128) -> i128
    requires high_low { neg_ℤ (pos (10 ^ 27)) <ℤ high }
    requires high_high { high <ℤ pos (10 ^ 27) }
    requires low_low { neg_ℤ (pos (10 ^ 27)) <ℤ low }
    requires low_high { low <ℤ pos (10 ^ 27) }
    ensures { result ≡ high -ℤ low }
{
    high - low
}

/// The greater number of decimals of two bounds.
pub fn span_scale(span: Span) -> u8
    requires { IsSmallSpan (span_of span) }
    ensures value { result ≡ max (span_of span).low.scale (span_of span).high.scale }
    ensures most { result ≤ 9 }
{
    span.low.scale.max(span.high.scale)
}

/// The scale of coordinates of two axes.
pub fn scale2(corners: Corners2) -> u8
    requires { IsSmallSpan (corners2_of corners).x × IsSmallSpan (corners2_of corners).y }
    ensures value { result ≡ scale_of (Coord2 (corners2_of corners)) }
    ensures most { result ≤ 9 }
{
    span_scale(corners.x).max(span_scale(corners.y))
}

/// The scale of coordinates of three axes.
pub fn scale3(corners: Corners3) -> u8
    requires { IsSmallSpan (corners3_of corners).x × IsSmallSpan (corners3_of corners).y
        × IsSmallSpan (corners3_of corners).z }
    ensures value { result ≡ scale_of (Coord3 (corners3_of corners)) }
    ensures most { result ≤ 9 }
{
    span_scale(corners.x).max(span_scale(corners.y).max(span_scale(corners.z)))
}

/// Whether a text length is whole, from 1 to 65,535.
pub fn is_text_length(number: Decimal) -> bool
    ensures { result ≡ is_text_length (decimal_of number) }
{
    number.scale == 0 && (1 <= number.digits && number.digits <= 65_535)
}

/// Whether an area with such vertices is too wide, in x or in y.
pub fn is_wide(kind: &TypeSyntax) -> bool
    requires { IsSmallType (type_of kind.now) }
    ensures { result ≡ is_wide (type_of kind.now) }
{
    match kind {
        TypeSyntax::Coord2(c) => {
            let scale = scale2(*c);
            is_wide_span(c.x, scale) || is_wide_span(c.y, scale)
        }
        TypeSyntax::Coord3(c) => {
            let scale = scale3(*c);
            is_wide_span(c.x, scale) || is_wide_span(c.y, scale)
        }
        _ => false,
    }
}
