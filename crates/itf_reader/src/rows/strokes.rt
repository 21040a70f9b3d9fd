// Vertices that are all clean: whether their line is short, and whether each arc is one.
ghost use Rattle.std.specs.Prelude.{◌≡◌};
ghost use Rattle.std.specs.List.{list_all};
ghost use Rattle.table_layout.specs.Values.{role_view};
ghost use Rattle.field_values.specs.Places.{is_same_place, place_view};
ghost use Rattle.itf_reader.specs.RowReadings.{vertex_view, vertices_view};
ghost use Rattle.itf_reader.specs.VertexLists.{kind_of};
ghost use Rattle.itf_reader.specs.StrokeFindings.{are_arcs, is_bad_arc, is_of_area, is_on_arc};
ghost use Rattle.itf_reader.specs.StrokeFindings.{is_one_place, is_short, is_whole};

use super::values::ReadVertex;
use crate::transfer::VertexKind;
use field_values::{Place, is_no_arc, is_same_place};
use table_layout::Role;

pub fn is_on_arc(kind: VertexKind) -> bool
    ensures { result ≡ is_on_arc (kind_of kind) }
{
    match kind {
        VertexKind::OnArc => true,
        VertexKind::Start | VertexKind::Straight => false,
    }
}

/// Nothing is wrong with the vertices of a line.
pub fn is_whole(role: Role, vertices: &[ReadVertex]) -> bool
    ensures { result ≡ is_whole (role_view role) (vertices_view vertices.now) }
{
    !is_short(role, vertices) && are_arcs(vertices)
}

/// A line of an AREA with one distinct point.
pub fn is_short(role: Role, vertices: &[ReadVertex]) -> bool
    ensures { result ≡ is_short (role_view role) (vertices_view vertices.now) }
{
    match vertices {
        [] => false,
        _ => is_of_area(role) && is_one_place(vertices),
    }
}

fn is_of_area(role: Role) -> bool
    ensures { result ≡ is_of_area (role_view role) }
{
    match role {
        Role::AreaLines { .. } => true,
        Role::Main | Role::SurfaceLines { .. } => false,
    }
}

fn is_one_place(vertices: &[ReadVertex]) -> bool
    ensures { result ≡ is_one_place (vertices_view vertices.now) }
{
    match vertices {
        [first, others @ ..] => are_at(first.at, others),
        [] => true,
    }
}

// All these vertices lie at that place.
fn are_at(place: Place, vertices: &[ReadVertex]) -> bool
    ensures { result ≡ list_all (λ v. is_same_place (place_view place) v.at)
        (vertices_view vertices.now) }
{
    for vertex in vertices {
        if !is_same_place(place, vertex.at) {
            return false;
        }
    }
    true
}

/// The vertex `m` lies on an arc, but no arc leads from `s` over it to `e`.
pub fn is_bad_arc(s: &ReadVertex, m: &ReadVertex, e: &ReadVertex) -> bool
    ensures { result ≡ is_bad_arc (vertex_view s.now) (vertex_view m.now) (vertex_view e.now) }
{
    is_on_arc(m.kind) && is_no_arc(s.at, m.at, e.at)
}

// Each vertex on an arc makes an arc with the vertices before and after it.
#[tactic(auto, using(crate::proofs::Arcs::few_are_arcs))]
fn are_arcs(vertices: &[ReadVertex]) -> bool
    ensures { result ≡ are_arcs (vertices_view vertices.now) }
{
    let mut rest = vertices;
    while let [s, m, e, ..] = rest {
        if is_bad_arc(s, m, e) {
            return false;
        }
        rest = &rest[1..];
    }
    true
}
