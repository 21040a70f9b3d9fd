// Lines by their vertices, as those of one object.
ghost use Rattle.std.specs.Prelude.{◌≡◌, ◌⊎◌, ◌∷◌, List, None, false, true, IfOk, IfSome};
ghost use Rattle.field_values.specs.Places.{is_same_place, place_view};
ghost use Rattle.itf_reader.specs.RowReadings.{vertex_view, vertices_view};
ghost use Rattle.itf_reader.specs.StrokeFindings.{Seen};
ghost use Rattle.resolver.specs.Sound.{IsNarrow};
ghost use Rattle.resolver.specs.Values.{line_of};
ghost use Rattle.area_drawings.specs.Drawable.{rest_curves};
ghost use Rattle.area_drawings.specs.Drawings.{curves_after};
ghost use Rattle.area_drawings.specs.KeptDrawings.{seen_curves};
ghost use Rattle.area_drawings.specs.Strokes.{CanDraw, has_curve, strokes_curves, strokes_view};

use crate::curves::Pen;
use crate::drawing::add_stroke;
use crate::forms::plane_window;
use field_values::{Place, is_same_place};
use itf_reader::{ReadVertex, VertexKind};
use plane::Drawing;
use ports::Memory;
use resolver::LineForm;
use std::alloc::Global;

/// The drawing of lines of that form, without points.
pub fn draw_strokes(
    alloc: Global,
    form: &LineForm,
    strokes: &[&[ReadVertex]],
) -> Result<Drawing, Memory>
    requires narrow { IsNarrow (line_of form.now).window }
    requires drawable { CanDraw (line_of form.now) (strokes_view strokes.now) }
    ensures { IfOk result (λ d. d.curves.items ≡ strokes_curves (strokes_view strokes.now)) }
{
    let mut drawing = Drawing::new(alloc, plane_window(&form.window));
    for stroke in strokes {
        add_stroke(stroke, &mut drawing)?;
    }
    Ok(drawing)
}

/// Some of the lines draws a curve. It takes no window, and no memory.
pub fn draw_some(strokes: &[&[ReadVertex]]) -> bool
    ensures { result ≡ has_curve (strokes_curves (strokes_view strokes.now)) }
{
    for stroke in strokes {
        if draws(stroke) {
            return true;
        }
    }
    false
}

// A line draws a curve.
fn draws(vertices: &[ReadVertex]) -> bool
    ensures { result ≡ has_curve (seen_curves (vertices_view vertices.now)) }
{
    match vertices {
        [first, others @ ..] => draws_after(first.at, others),
        [] => false,
    }
}

// The vertices that follow a place draw a curve.
fn draws_after(start: Place, vertices: &[ReadVertex]) -> bool
    ensures { result ≡ has_curve (curves_after (place_view start) None
        (vertices_view vertices.now)) }
{
    let mut pen = Pen {
        at: start,
        over: None,
    };
    for vertex in vertices {
        match moved(pen, *vertex) {
            Some(next) => pen = next,
            None => return true,
        }
    }
    false
}

// Where the pen is at a vertex to which it draws nothing, or none where it draws a curve.
fn moved(pen: Pen, vertex: ReadVertex) -> Option<Pen>
    ensures drawn { (vs : List Seen) → result ≡ None
        → has_curve (rest_curves pen (vertex_view vertex ∷ vs)) ≡ true }
    ensures moved { (vs : List Seen) → IfSome result (λ next.
        has_curve (rest_curves pen (vertex_view vertex ∷ vs)) ≡ has_curve (rest_curves next vs)) }
{
    match pen.over {
        Some(over) => stays_over(pen.at, over.at, vertex.at),
        None => match vertex.kind {
            VertexKind::OnArc => Some(Pen {
                at: pen.at,
                over: Some(vertex),
            }),
            VertexKind::Start | VertexKind::Straight => stays(pen.at, vertex.at),
        },
    }
}

// The pen at the end of a straight between two places, if they are one place.
fn stays(from: Place, to: Place) -> Option<Pen>
    ensures one { IfSome result (λ next. (is_same_place (place_view from) (place_view to) ≡ true)
        × (next.at ≡ to) × (next.over ≡ None)) }
    ensures two { result ≡ None → is_same_place (place_view from) (place_view to) ≡ false }
{
    if is_same_place(from, to) {
        return Some(Pen { at: to, over: None });
    }
    None
}

// The pen at the end of an arc over a place, if all three are one place.
fn stays_over(start: Place, over: Place, end: Place) -> Option<Pen>
    ensures one { IfSome result (λ next.
        (is_same_place (place_view start) (place_view over) ≡ true)
        × (is_same_place (place_view over) (place_view end) ≡ true)
        × (next.at ≡ end) × (next.over ≡ None)) }
    ensures more { result ≡ None → (is_same_place (place_view start) (place_view over) ≡ false)
        ⊎ (is_same_place (place_view over) (place_view end) ≡ false) }
{
    if is_same_place(start, over) {
        return stays(over, end);
    }
    None
}
