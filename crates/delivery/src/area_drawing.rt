// The drawing of an area from the rows of a transfer.
ghost use Rattle.std.specs.Prelude.{◌≡◌, ◌<◌, [], IfOk, Some, length, slice_get};
ghost use Rattle.std.specs.Prelude.{slice_index_or};
ghost use Rattle.ili_grammar.specs.Values.{codes_of};
ghost use Rattle.itf_reader.specs.Few.{HasFew};
ghost use Rattle.itf_reader.specs.Views.{rows_of, tables_rows_of, transfer_of};
ghost use Rattle.plane.specs.Rule.Plans.{plan};
ghost use Rattle.table_layout.specs.Layouts.{AreaOf as GivenArea, Table as GivenTable};
ghost use Rattle.table_layout.specs.Valid.{IsValid};
ghost use Rattle.table_layout.specs.Values.{areas_view, layout_view, table_view};
ghost use Rattle.area_drawings.specs.AreaLimits.{IsWithinLimits};
ghost use Rattle.area_drawings.specs.Drawings.{IsDrawingAt};
ghost use Rattle.area_drawings.specs.KeptRows.{kept};
ghost use Rattle.area_drawings.specs.KeptViews.{HasTolerance, kept_of};
ghost use Rattle.delivery.specs.Judging.{IsClean};

use crate::judging::TableFound;
use area_drawings::{TablePlaces, draw, line_form};
use ili_grammar::Codes;
use itf_reader::{Row, RowValues, TableRows, Transfer};
use plane::Drawing;
use ports::Memory;
use std::alloc::Global;
use table_layout::{Layout, Table, TableId};

// The rows of the table of that number, none where there is no such table.
fn rows_at(tables: &[TableRows], id: TableId) -> &[Row]
    ensures { rows_of result.now ≡ slice_index_or (tables_rows_of tables.now) id.0 [] }
{
    match tables.get(id.0 as usize) {
        Some(table) => &table.rows,
        None => &[],
    }
}

// What areas are drawn from, of rows of a table.
fn places_of(
    alloc: Global,
    codes: &Codes,
    table: &Table,
    rows: &[Row],
) -> Result<TablePlaces, Memory>
    requires { HasFew (table_view table.now) }
    ensures { IfOk result (λ k. kept_of k ≡ kept (codes_of codes.now) (table_view table.now)
        (rows_of rows.now)) }
{
    let mut read = TableFound::new(alloc, table)?;
    let mut kept = TablePlaces::new(alloc, table)?;
    let mut values = RowValues::new(alloc);
    for row in rows {
        read.add_row(codes, row, &mut values)?;
        kept.add_row(row.line, &mut values)?;
    }
    Ok(kept)
}

// What areas are drawn from, of the rows of the table of that number.
fn places_at(
    alloc: Global,
    layout: &Layout,
    transfer: &Transfer,
    id: TableId,
) -> Result<TablePlaces, Memory>
    requires valid { IsValid (layout_view layout.now) }
    requires there { id.0 < length layout.now.tables.items }
    ensures { IfOk result (λ k. (t : GivenTable)
        → slice_get (layout_view layout.now).tables id.0 ≡ Some t
        → kept_of k ≡ kept (layout_view layout.now).codes t
        (slice_index_or (transfer_of transfer.now) id.0 [])) }
{
    let table = &layout.tables[id.0 as usize];
    places_of(alloc, &layout.codes, table, rows_at(&transfer.tables, id))
}

/// The drawing of an area, by its number from 0 in the layout: the curves of its lines and the
/// points of its objects, in the order of the transfer, each with its line there.
///
/// A vertex at the place before it is left out. A straight has the line of its end. An arc is two
/// half arcs, with the lines of the vertex that it leads over and of its end; where the three
/// places lie on one straight it is the straights between them, without those of no length. An
/// object whose AREA value is undefined has no point. The drawing permits the overlap of the lines'
/// form. The only error is out of memory. It takes time linear in the rows of the area's two
/// tables, and keeps their places while it draws.
pub fn drawing(
    alloc: Global,
    layout: &Layout,
    transfer: &Transfer,
    area: u32,
) -> Result<Drawing, Memory>
    requires valid { IsValid (layout_view layout.now) }
    requires area { area < length layout.now.areas.items }
    requires clean { IsClean (layout_view layout.now) (transfer_of transfer.now) }
    requires small { IsWithinLimits (transfer_of transfer.now)
        (areas_view layout.now.areas.items) area }
    ensures drawn { IfOk result (λ d. IsDrawingAt (layout_view layout.now)
        (transfer_of transfer.now) area (plan d)) }
    ensures tolerance { IfOk result (λ d. (a : GivenArea)
        → slice_get (layout_view layout.now).areas area ≡ Some a
        → HasTolerance (layout_view layout.now) a d) }
{
    let found = &layout.areas[area as usize];
    let form = line_form(layout, found);
    let lines = places_at(alloc, layout, transfer, found.lines)?;
    let objects = places_at(alloc, layout, transfer, found.main)?;
    draw(alloc, form, &lines, objects.points(found.column))
}
