// The rules on the vertices of a line, and what an attribute stands for.
ghost use Rattle.std.specs.Prelude.{◌≡◌, ◌≤◌, if◌then◌else◌, Some, None, IfSome};
ghost use Rattle.std.specs.Option.{option_map};
ghost use Rattle.ili_grammar.specs.Values.{decimal_of, type_of, content_of};
ghost use Rattle.resolver.specs.Numbers.{scale_of};
ghost use Rattle.resolver.specs.Lines.{is_area, is_coord, suits, is_long_overlap, is_line};
ghost use Rattle.resolver.specs.Lines.{is_boundary, stands_for};
ghost use Rattle.ili_grammar.specs.Limits.{IsSmallType};
ghost use Rattle.resolver.specs.Limits.{IsSmallOverlap};
ghost use Rattle.resolver.specs.ScopeViews.{scope_of};

use crate::numbers::{is_long, scale2, scale3};
use crate::scope::Scope;
use crate::shape::Shape;
use ili_grammar::{Content, Decimal, TypeSyntax};

/// Whether a type is a line.
pub fn is_line(kind: &TypeSyntax) -> bool
    ensures { result ≡ is_line (type_of kind.now) }
{
    matches!(
        kind,
        TypeSyntax::Polyline(_) | TypeSyntax::Surface(_) | TypeSyntax::Area(_)
    )
}

/// Whether a type is a line that gives its table a helper table.
pub fn is_boundary(kind: &TypeSyntax) -> bool
    ensures { result ≡ is_boundary (type_of kind.now) }
{
    matches!(kind, TypeSyntax::Surface(_) | TypeSyntax::Area(_))
}

/// Whether vertices of this type suit a line.
pub fn suits(shape: Shape, kind: &TypeSyntax) -> bool
    ensures { result ≡ suits shape (type_of kind.now) }
{
    match (shape, kind) {
        (_, TypeSyntax::Coord2(_)) => true,
        (Shape::Polyline, TypeSyntax::Coord3(_)) => true,
        _ => false,
    }
}

/// The scale of coordinates, if a type is some.
pub fn coord_scale(kind: &TypeSyntax) -> Option<u8>
    requires { IsSmallType (type_of kind.now) }
    ensures value { result ≡ (if is_coord (type_of kind.now) then Some (scale_of (type_of kind.now))
        else None) }
    ensures most { IfSome result (λ scale. scale ≤ 9) }
{
    match kind {
        TypeSyntax::Coord2(corners) => Some(scale2(*corners)),
        TypeSyntax::Coord3(corners) => Some(scale3(*corners)),
        _ => None,
    }
}

/// Whether an overlap has more than 18 digits at the scale of the vertices.
pub fn is_long_overlap(overlap: Option<Decimal>, kind: &TypeSyntax) -> bool
    requires overlap { IsSmallOverlap (option_map decimal_of overlap) }
    requires kind { IsSmallType (type_of kind.now) }
    ensures { result ≡ is_long_overlap (option_map decimal_of overlap) (type_of kind.now) }
{
    match (overlap, coord_scale(kind)) {
        (Some(number), Some(scale)) => is_long(number, scale),
        _ => false,
    }
}

/// Whether an attribute is a line.
pub fn stands_for_line<'a>(scope: &Scope<'_, 'a>, content: &'a Content) -> bool
    ensures { result ≡ stands_for is_line (scope_of scope.now) (content_of content.now) }
{
    scope
        .resolve_value(content)
        .is_some_and(|meaning| is_line(meaning.counted.kind))
}

/// Whether an attribute is a line that gives its table a helper table.
pub fn stands_for_boundary<'a>(scope: &Scope<'_, 'a>, content: &'a Content) -> bool
    ensures { result ≡ stands_for is_boundary (scope_of scope.now) (content_of content.now) }
{
    scope
        .resolve_value(content)
        .is_some_and(|meaning| is_boundary(meaning.counted.kind))
}
