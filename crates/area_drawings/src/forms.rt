// The forms of an area in the layout.
ghost use Rattle.std.specs.Prelude.{◌≡◌, ◌∷◌, [], Some, slice_get};
ghost use Rattle.plane.specs.Rule.Overlaps.{IsTolerance};
ghost use Rattle.resolver.specs.Resolved.{LineForm as GivenForm};
ghost use Rattle.resolver.specs.Sound.{IsNarrow};
ghost use Rattle.resolver.specs.Values.{line_of, window_of};
ghost use Rattle.table_layout.specs.Values.{area_view, layout_view, lines_view, tables_view};
ghost use Rattle.area_drawings.specs.Drawings.{lines_in, permitted, IsWindowOf};
ghost use Rattle.area_drawings.specs.Drawable.{HasForms};

use plane::{Point, Window2};
use resolver::{LineForm, Window};
use table_layout::{AreaOf, Layout, TableId};

// The greatest overlap that a drawing may permit, in units.
const MOST_PERMITTED: i64 = 1_048_576;

// The forms of the lines of a table, none where there is no such table.
fn lines_of(layout: &Layout, id: TableId) -> &[LineForm]
    ensures { lines_view result.now ≡ lines_in (slice_get (tables_view layout.now.tables.items)
        id.0) }
{
    match layout.tables.get(id.0 as usize) {
        Some(table) => &table.lines,
        None => &[],
    }
}

/// The form of the lines of a table that has one.
pub fn only_form(layout: &Layout, id: TableId) -> &LineForm
    requires { (form : GivenForm) × (lines_in (slice_get (tables_view layout.now.tables.items)
        id.0) ≡ form ∷ []) }
    ensures { lines_in (slice_get (tables_view layout.now.tables.items) id.0)
        ≡ line_of result.now ∷ [] }
{
    match lines_of(layout, id) {
        [form, ..] => form,
        [] => unreachable!(),
    }
}

/// The form of the lines of an area.
pub fn line_form<'a>(layout: &'a Layout, area: &AreaOf) -> &'a LineForm
    requires { HasForms (layout_view layout.now) (area_view area.now) }
    ensures lines { lines_in (slice_get (tables_view layout.now.tables.items) area.now.lines.0) ≡
        line_of result.now ∷ [] }
    ensures narrow { IsNarrow (line_of result.now).window }
{
    match lines_of(layout, area.lines) {
        [form, ..] => form,
        [] => unreachable!(),
    }
}

/// The overlap in units that lines of that form permit a drawing: 0 where none or one below 0 is
/// given, and at most 1,048,576.
pub fn tolerance(form: &LineForm) -> i64
    ensures value { result ≡ permitted form.now.overlap }
    ensures permitted { IsTolerance result }
{
    match form.overlap {
        Some(overlap) => most_permitted(overlap),
        None => 0,
    }
}

// An overlap within the bounds that a drawing asks for.
fn most_permitted(overlap: i64) -> i64
    ensures value { result ≡ permitted (Some overlap) }
    ensures permitted { IsTolerance result }
{
    if overlap < 0 {
        0
    } else if overlap > MOST_PERMITTED {
        MOST_PERMITTED
    } else {
        overlap
    }
}

/// The window of the plane for the vertices of a line.
pub fn plane_window(window: &Window) -> Window2
    requires { IsNarrow (window_of window.now) }
    ensures { IsWindowOf (window_of window.now) result }
{
    Window2 {
        low: Point {
            x: window.x.low,
            y: window.y.low,
        },
        high: Point {
            x: window.x.high,
            y: window.y.high,
        },
    }
}
