// What a type stands for, where it is no line.
ghost use Rattle.std.specs.Prelude.{◌≡◌, ◌<◌, ◌≤◌, ◌∷◌, [], false, pos, neg_ℤ, ◌<ℤ◌, ◌^◌};
ghost use Rattle.ili_grammar.specs.Syntax.{Coord2, Coord3};
ghost use Rattle.ili_grammar.specs.Limits.{IsSmall, IsSmallSpan, IsSmallType, type_names};
ghost use Rattle.ili_grammar.specs.Values.{decimal_of, span_of, corners2_of, corners3_of, type_of};
ghost use Rattle.resolver.specs.Numbers.{in_units, is_long, most_decimals, scale_of};
ghost use Rattle.resolver.specs.Models.{limits, no_limits, window, block, text_length, form};
ghost use Rattle.resolver.specs.Values.{limits_of, window_of, block_of, form_of};

use crate::models::{Block, Form, Limits, Window};
use crate::numbers::{
    has_long_bound, in_units, is_reversed, is_text_length, scale2, scale3, span_scale,
};
use crate::scope::counted_type::CountedType;
use ili_grammar::{Corners2, Corners3, Decimal, Span, TypeSyntax};

/// Bounds where a rule on them is broken.
pub fn no_limits() -> Limits
    ensures { limits_of result ≡ no_limits }
{
    Limits {
        low: 0,
        high: 0,
        scale: 0,
    }
}

/// A number of at most 18 digits in units of a scale, further decimals dropped towards zero.
pub fn bound(number: Decimal, scale: u8) -> i64
    requires short { IsSmall (decimal_of number) }
    requires scale { scale ≤ 9 }
    requires fits { is_long scale (decimal_of number) ≡ false }
    ensures value { result ≡ in_units scale (decimal_of number) }
    ensures above { neg_ℤ (pos (10 ^ 18)) <ℤ result }
    ensures below { result <ℤ pos (10 ^ 18) }
{
    in_units(number, scale) as i64
}

/// The bounds of a span at a scale.
pub fn limits(span: Span, scale: u8) -> Limits
    requires short { IsSmallSpan (span_of span) }
    requires scale { scale ≤ 9 }
    ensures { limits_of result ≡ limits scale (span_of span) }
{
    if is_reversed(span, scale) || has_long_bound(span, scale) {
        return no_limits();
    }
    Limits {
        low: bound(span.low, scale),
        high: bound(span.high, scale),
        scale,
    }
}

// The bounds of a span that stands alone.
fn range(span: Span) -> Limits
    requires { IsSmallSpan (span_of span) }
    ensures { limits_of result ≡ limits (most_decimals (span_of span ∷ [])) (span_of span) }
{
    limits(span, span_scale(span))
}

/// Where coordinates of two axes may lie.
pub fn window(corners: Corners2) -> Window
    requires { IsSmallSpan (corners2_of corners).x × IsSmallSpan (corners2_of corners).y }
    ensures { window_of result ≡ window (scale_of (Coord2 (corners2_of corners)))
        (corners2_of corners) }
{
    let scale = scale2(corners);
    Window {
        x: limits(corners.x, scale),
        y: limits(corners.y, scale),
    }
}

/// Where coordinates of three axes may lie.
pub fn block(corners: Corners3) -> Block
    requires { IsSmallSpan (corners3_of corners).x × IsSmallSpan (corners3_of corners).y
        × IsSmallSpan (corners3_of corners).z }
    ensures { block_of result ≡ block (scale_of (Coord3 (corners3_of corners)))
        (corners3_of corners) }
{
    let scale = scale3(corners);
    Block {
        x: limits(corners.x, scale),
        y: limits(corners.y, scale),
        z: limits(corners.z, scale),
    }
}

// A greatest number of bytes.
fn text_length(number: Decimal) -> u32
    ensures { result ≡ text_length (decimal_of number) }
{
    if !is_text_length(number) {
        return 0;
    }
    number.digits as u32
}

/// What a type stands for, where it is no line and no name.
pub fn form(counted: &CountedType<'_>) -> Form
    requires numbers { IsSmallType (type_of counted.now.kind.now) }
    requires names { type_names (type_of counted.now.kind.now) ≤ 4194304 }
    ensures { form_of result ≡ form (type_of counted.now.kind.now) }
{
    match counted.kind {
        TypeSyntax::Coord2(corners) => Form::Coord2(window(*corners)),
        TypeSyntax::Coord3(corners) => Form::Coord3(block(*corners)),
        TypeSyntax::Dim1(span) => Form::Dim1(range(*span)),
        TypeSyntax::Dim2(span) => Form::Dim2(range(*span)),
        TypeSyntax::Radians(span) => Form::Radians(range(*span)),
        TypeSyntax::Grads(span) => Form::Grads(range(*span)),
        TypeSyntax::Degrees(span) => Form::Degrees(range(*span)),
        TypeSyntax::Range(span) => Form::Range(range(*span)),
        TypeSyntax::Text(length) => Form::Text(text_length(*length)),
        TypeSyntax::HAlignment => Form::HAlignment,
        TypeSyntax::VAlignment => Form::VAlignment,
        TypeSyntax::Enumeration(_) => Form::Enumeration(counted.leaves()),
        _ => Form::Date,
    }
}
