// The curves of lines, vertex by vertex.
ghost use Rattle.std.specs.Prelude.{◌≡◌, ◌≤◌, ◌<◌, ◌+◌, ◌++◌, ◌∷◌, ◌^◌, false, List, vec_len, OnOk};
ghost use Rattle.std.specs.Prelude.{IfOk};
ghost use Rattle.field_values.specs.Places.{are_collinear, place_view};
ghost use Rattle.itf_reader.specs.RowReadings.{vertex_view};
ghost use Rattle.itf_reader.specs.StrokeFindings.{Seen};
ghost use Rattle.area_drawings.specs.Drawings.{point_at, straight_between, half_arcs, arc_over};
ghost use Rattle.area_drawings.specs.Drawable.{IsIn, IsPenIn, rest_curves, waiting};

use field_values::{Place, is_same_place};
use itf_reader::{ReadVertex, VertexKind};
use plane::{Drawing, Point, Window2};
use ports::Memory;
use straight_predicates::{Turn, turn};

/// Where a line goes on: the place that it has come to, and the vertex that an open arc leads over.
#[derive(Clone, Copy)]
pub struct Pen {
    pub at: Place,
    pub over: Option<ReadVertex>,
}

/// A place as a point of the plane.
pub fn point_at(place: Place) -> Point
    ensures { result ≡ point_at (place_view place) }
{
    Point {
        x: place.x,
        y: place.y,
    }
}

// Adds the straight between two places, none where they are one.
fn add_straight(drawing: &mut Drawing, from: Place, to: Place, line: u32) -> Result<(), Memory>
    requires from_in { IsIn drawing.old.window (place_view from) }
    requires to_in { IsIn drawing.old.window (place_view to) }
    requires room { vec_len drawing.old.curves + 1 < 2 ^ 30 }
    ensures curves { OnOk result (drawing.new.curves.items ≡ drawing.old.curves.items ++
        straight_between (place_view from) (place_view to) line) }
    ensures few { OnOk result (vec_len drawing.new.curves ≤ vec_len drawing.old.curves + 1) }
    ensures window { OnOk result (drawing.new.window ≡ drawing.old.window) }
    ensures points { OnOk result (drawing.new.points.items ≡ drawing.old.points.items) }
{
    if is_same_place(from, to) {
        return Ok(());
    }
    drawing.add_straight(point_at(from), point_at(to), line)
}

// Three places of a window lie on one straight.
fn are_collinear(window: Window2, start: Place, over: Place, end: Place) -> bool
    requires start_in { IsIn window (place_view start) }
    requires over_in { IsIn window (place_view over) }
    requires end_in { IsIn window (place_view end) }
    ensures { result ≡ are_collinear (place_view start) (place_view over) (place_view end) }
{
    let from = point_at(start);
    let on = point_at(over);
    let to = point_at(end);
    match turn(from, on, to) {
        Turn::Straight => true,
        Turn::Left => false,
        Turn::Right => false,
    }
}

// Adds the two half arcs of an arc.
fn add_half_arcs(
    drawing: &mut Drawing,
    start: Place,
    over: ReadVertex,
    end: ReadVertex,
) -> Result<(), Memory>
    requires start_in { IsIn drawing.old.window (place_view start) }
    requires over_in { IsIn drawing.old.window (place_view over.at) }
    requires end_in { IsIn drawing.old.window (place_view end.at) }
    requires bent { are_collinear (place_view start) (place_view over.at) (place_view end.at)
        ≡ false }
    requires room { vec_len drawing.old.curves + 2 < 2 ^ 30 }
    ensures curves { OnOk result (drawing.new.curves.items ≡ drawing.old.curves.items ++ half_arcs
        (place_view start) (vertex_view over) (vertex_view end)) }
    ensures few { OnOk result (vec_len drawing.new.curves ≤ vec_len drawing.old.curves + 2) }
    ensures window { OnOk result (drawing.new.window ≡ drawing.old.window) }
    ensures points { OnOk result (drawing.new.points.items ≡ drawing.old.points.items) }
{
    let from = point_at(start);
    let on = point_at(over.at);
    let to = point_at(end.at);
    drawing.add_arc(from, on, to, over.line, end.line)
}

// Adds the arc from a place over a vertex to another.
fn add_arc(
    drawing: &mut Drawing,
    start: Place,
    over: ReadVertex,
    end: ReadVertex,
) -> Result<(), Memory>
    requires start_in { IsIn drawing.old.window (place_view start) }
    requires over_in { IsIn drawing.old.window (place_view over.at) }
    requires end_in { IsIn drawing.old.window (place_view end.at) }
    requires room { vec_len drawing.old.curves + 2 < 2 ^ 30 }
    ensures curves { OnOk result (drawing.new.curves.items ≡ drawing.old.curves.items ++ arc_over
        (place_view start) (vertex_view over) (vertex_view end)) }
    ensures few { OnOk result (vec_len drawing.new.curves ≤ vec_len drawing.old.curves + 2) }
    ensures window { OnOk result (drawing.new.window ≡ drawing.old.window) }
    ensures points { OnOk result (drawing.new.points.items ≡ drawing.old.points.items) }
{
    if are_collinear(drawing.window, start, over.at, end.at) {
        add_straight(drawing, start, over.at, over.line)?;
        add_straight(drawing, over.at, end.at, end.line)
    } else {
        add_half_arcs(drawing, start, over, end)
    }
}

/// Draws on to a vertex.
pub fn draw_to(pen: Pen, vertex: ReadVertex, drawing: &mut Drawing) -> Result<Pen, Memory>
    requires pen_in { IsPenIn drawing.old.window pen }
    requires vertex_in { IsIn drawing.old.window (place_view vertex.at) }
    requires room { vec_len drawing.old.curves + waiting pen.over + 1 < 2 ^ 30 }
    ensures curves { (vs : List Seen) → IfOk result (λ next. drawing.new.curves.items ++
        rest_curves next vs ≡ drawing.old.curves.items ++ rest_curves pen
        (vertex_view vertex ∷ vs)) }
    ensures pen_in { IfOk result (λ next. IsPenIn drawing.old.window next) }
    ensures few { IfOk result (λ next. vec_len drawing.new.curves + waiting next.over ≤
        vec_len drawing.old.curves + waiting pen.over + 1) }
    ensures window { IfOk result (λ next. drawing.new.window ≡ drawing.old.window) }
    ensures points { IfOk result (λ next. drawing.new.points.items ≡ drawing.old.points.items) }
{
    if let Some(over) = pen.over {
        add_arc(drawing, pen.at, over, vertex)?;
        return Ok(Pen {
            at: vertex.at,
            over: None,
        });
    }
    match vertex.kind {
        VertexKind::OnArc => Ok(Pen {
            at: pen.at,
            over: Some(vertex),
        }),
        VertexKind::Start | VertexKind::Straight => {
            add_straight(drawing, pen.at, vertex.at, vertex.line)?;
            Ok(Pen {
                at: vertex.at,
                over: None,
            })
        }
    }
}
