// The rules on bounds.
ghost use Rattle.std.specs.Prelude.{◌∷◌, []};
ghost use Rattle.ili_grammar.specs.Syntax.{Coord2, Coord3};
ghost use Rattle.ili_grammar.specs.Limits.{IsSmallSpan, IsSmallType};
ghost use Rattle.ili_grammar.specs.Values.{ident_of, span_of, corners2_of, corners3_of, type_of};
ghost use Rattle.resolver.specs.FaultViews.{Reports};
ghost use Rattle.resolver.specs.Numbers.{most_decimals};
ghost use Rattle.resolver.specs.Rules.{spans_faults, numbers_faults};

use crate::earliest::Earliest;
use crate::faults::ModelCode;
use crate::numbers::{has_long_bound, is_reversed, scale2, scale3, span_scale};
use ili_grammar::{Corners2, Corners3, Ident, Span, TypeSyntax};

// Reports the rules on numbers that one span breaks.
#[tactic(auto, using(crate::proofs::Hints::first_append))]
fn check_span<'a>(owner: &'a Ident, span: Span, earliest: &mut Earliest<'a>)
    requires { IsSmallSpan (span_of span) }
    ensures { Reports earliest.old earliest.new
        (spans_faults (ident_of owner.now) (most_decimals (span_of span ∷ []))
        (span_of span ∷ [])) }
{
    let scale = span_scale(span);
    earliest.report(is_reversed(span, scale), ModelCode::Bounds, owner);
    earliest.report(has_long_bound(span, scale), ModelCode::Decimals, owner);
}

// Reports the rules on numbers that coordinates of two axes break.
#[tactic(auto, using(crate::proofs::Hints::first_append))]
fn check_corners2<'a>(owner: &'a Ident, corners: Corners2, earliest: &mut Earliest<'a>)
    requires { IsSmallSpan (corners2_of corners).x × IsSmallSpan (corners2_of corners).y }
    ensures { Reports earliest.old earliest.new
        (numbers_faults (ident_of owner.now) (Coord2 (corners2_of corners))) }
{
    let scale = scale2(corners);
    let reversed = is_reversed(corners.x, scale) || is_reversed(corners.y, scale);
    earliest.report(reversed, ModelCode::Bounds, owner);
    let long = has_long_bound(corners.x, scale) || has_long_bound(corners.y, scale);
    earliest.report(long, ModelCode::Decimals, owner);
}

// Reports the rules on numbers that coordinates of three axes break.
#[tactic(auto, using(crate::proofs::Hints::first_append))]
fn check_corners3<'a>(owner: &'a Ident, corners: Corners3, earliest: &mut Earliest<'a>)
    requires { IsSmallSpan (corners3_of corners).x × IsSmallSpan (corners3_of corners).y
        × IsSmallSpan (corners3_of corners).z }
    ensures { Reports earliest.old earliest.new
        (numbers_faults (ident_of owner.now) (Coord3 (corners3_of corners))) }
{
    let scale = scale3(corners);
    let reversed = is_reversed(corners.x, scale)
        || is_reversed(corners.y, scale)
        || is_reversed(corners.z, scale);
    earliest.report(reversed, ModelCode::Bounds, owner);
    let long = has_long_bound(corners.x, scale)
        || has_long_bound(corners.y, scale)
        || has_long_bound(corners.z, scale);
    earliest.report(long, ModelCode::Decimals, owner);
}

/// Reports the rules on numbers that the bounds of a type break.
pub fn check_numbers<'a>(owner: &'a Ident, kind: &TypeSyntax, earliest: &mut Earliest<'a>)
    requires { IsSmallType (type_of kind.now) }
    ensures { Reports earliest.old earliest.new
        (numbers_faults (ident_of owner.now) (type_of kind.now)) }
{
    match kind {
        TypeSyntax::Coord2(corners) => check_corners2(owner, *corners, earliest),
        TypeSyntax::Coord3(corners) => check_corners3(owner, *corners, earliest),
        TypeSyntax::Dim1(span)
        | TypeSyntax::Dim2(span)
        | TypeSyntax::Radians(span)
        | TypeSyntax::Grads(span)
        | TypeSyntax::Degrees(span)
        | TypeSyntax::Range(span) => check_span(owner, *span, earliest),
        _ => {}
    }
}
