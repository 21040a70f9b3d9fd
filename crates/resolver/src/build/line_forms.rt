// What a line stands for.
ghost use Rattle.std.specs.Prelude.{◌≡◌, ◌≤◌, IfOk};
ghost use Rattle.std.specs.Option.{option_map};
ghost use Rattle.ili_grammar.specs.Syntax.{Coord3, Date};
ghost use Rattle.ili_grammar.specs.Limits.{IsSmall, IsSmallSpan, IsSmallType, IsSmallLine};
ghost use Rattle.ili_grammar.specs.Values.{decimal_of, corners3_of, type_of};
ghost use Rattle.ili_grammar.specs.Values.{line_of as written_line};
ghost use Rattle.resolver.specs.Limits.{IsBoundedScope, IsSmallOverlap};
ghost use Rattle.resolver.specs.Scopes.{meaning};
ghost use Rattle.resolver.specs.ScopeViews.{scope_of};
ghost use Rattle.resolver.specs.Models.{window_in, heights_in, vertex_scale, vertex_kind};
ghost use Rattle.resolver.specs.Models.{overlap_at, line_form};
ghost use Rattle.resolver.specs.Values.{limits_of, window_of, line_of};

use super::forms::{block, bound, no_limits, window};
use crate::models::{Limits, LineForm, Window};
use crate::numbers::{is_long, scale2, scale3};
use crate::scope::Scope;
use ili_grammar::{Corners3, Decimal, Ident, LineSyntax, TypeSyntax};
use ports::{Memory, Name};
use std::alloc::Global;

// Where the vertices of a line lie, their heights if they have any, and the scale of an overlap.
#[derive(Clone, Copy)]
struct Vertices {
    window: Window,
    heights: Option<Limits>,
    scale: u8,
    ghost scaled: { scale ≤ 9 },
}

// Vertices of three axes.
fn vertices_in_space(corners: Corners3) -> Vertices
    requires { IsSmallSpan (corners3_of corners).x × IsSmallSpan (corners3_of corners).y
        × IsSmallSpan (corners3_of corners).z }
    ensures window { window_of result.window ≡ window_in (Coord3 (corners3_of corners)) }
    ensures heights { option_map limits_of result.heights
        ≡ heights_in (Coord3 (corners3_of corners)) }
    ensures scale { result.scale ≡ vertex_scale (Coord3 (corners3_of corners)) }
{
    let scale = scale3(corners);
    let block = block(corners);
    Vertices {
        window: Window {
            x: block.x,
            y: block.y,
        },
        heights: Some(block.z),
        scale,
    }
}

// Vertices of a type.
fn vertices_in(kind: &TypeSyntax) -> Vertices
    requires { IsSmallType (type_of kind.now) }
    ensures window { window_of result.window ≡ window_in (type_of kind.now) }
    ensures heights { option_map limits_of result.heights ≡ heights_in (type_of kind.now) }
    ensures scale { result.scale ≡ vertex_scale (type_of kind.now) }
{
    match kind {
        TypeSyntax::Coord2(corners) => Vertices {
            window: window(*corners),
            heights: None,
            scale: scale2(*corners),
        },
        TypeSyntax::Coord3(corners) => vertices_in_space(*corners),
        _ => vertices_nowhere(),
    }
}

// Vertices that have no coordinates.
fn vertices_nowhere() -> Vertices
    ensures window { window_of result.window ≡ window_in Date }
    ensures heights { option_map limits_of result.heights ≡ heights_in Date }
    ensures scale { result.scale ≡ 0 }
{
    Vertices {
        window: Window {
            x: no_limits(),
            y: no_limits(),
        },
        heights: None,
        scale: 0,
    }
}

// Vertices of the type for which a name stands.
#[tactic(auto, using(crate::proofs::Hints::name_small))]
fn vertices_of(scope: &Scope<'_, '_>, vertex: &Ident) -> Vertices
    requires { IsBoundedScope (scope_of scope.now) }
    ensures window { window_of result.window
        ≡ window_in (vertex_kind (meaning (scope_of scope.now) vertex.now.text)) }
    ensures heights { option_map limits_of result.heights
        ≡ heights_in (vertex_kind (meaning (scope_of scope.now) vertex.now.text)) }
    ensures scale { result.scale ≡ vertex_scale
        (vertex_kind (meaning (scope_of scope.now) vertex.now.text)) }
{
    match scope.resolve_name(vertex.text.bytes()) {
        Some(meaning) => vertices_in(meaning.counted.kind),
        None => vertices_nowhere(),
    }
}

// An overlap at a scale.
fn overlap_at(number: Decimal, scale: u8) -> i64
    requires short { IsSmall (decimal_of number) }
    requires scale { scale ≤ 9 }
    ensures { result ≡ overlap_at scale (decimal_of number) }
{
    if is_long(number, scale) {
        return 0;
    }
    bound(number, scale)
}

// The overlap that is allowed, if one is written.
fn overlap(number: Option<Decimal>, scale: u8) -> Option<i64>
    requires short { IsSmallOverlap (option_map decimal_of number) }
    requires scale { scale ≤ 9 }
    ensures { result ≡ option_map (overlap_at scale) (option_map decimal_of number) }
{
    match number {
        Some(number) => Some(overlap_at(number, scale)),
        None => None,
    }
}

/// What a line stands for that is written in a scope, for the attribute of that name.
pub fn line_form(
    alloc: Global,
    scope: &Scope<'_, '_>,
    name: &Ident,
    optional: bool,
    line: &LineSyntax,
) -> Result<LineForm, Memory>
    requires scope { IsBoundedScope (scope_of scope.now) }
    requires line { IsSmallLine (written_line line.now) }
    ensures { IfOk result (λ f. line_of f
        ≡ line_form name.now.text optional (scope_of scope.now) (written_line line.now)) }
{
    let vertices = vertices_of(scope, &line.vertex);
    let overlap = overlap(line.overlap, vertices.scale);
    Ok(LineForm {
        name: Name::new(alloc, name.text.bytes())?,
        optional,
        arcs: line.arcs,
        window: vertices.window,
        height: vertices.heights,
        overlap,
    })
}
