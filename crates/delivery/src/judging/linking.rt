// What is kept of the rows of a transfer whose points are tested by links.
ghost use Rattle.std.specs.Prelude.{◌≡◌, [], IfOk, map};
ghost use Rattle.std.specs.List.{list_any};
ghost use Rattle.ili_grammar.specs.Syntax.{Codes as GivenCodes};
ghost use Rattle.resolver.specs.Values.{form_of};
ghost use Rattle.table_layout.specs.Layouts.{Table as GivenTable};
ghost use Rattle.table_layout.specs.Valid.{IsValid};
ghost use Rattle.table_layout.specs.Values.{columns_view, layout_view, table_view, tables_view};
ghost use Rattle.area_drawings.specs.KeptPoints.{points_kept};
ghost use Rattle.area_drawings.specs.KeptViews.{points_of};
ghost use Rattle.delivery.specs.LinkRows.{HasLinked, is_point, is_reference, link_points};
ghost use Rattle.delivery.specs.LinkRows.{point_columns, points_in};

use super::keeping::RowKeeper;
use super::rows::TransferKept;
use area_drawings::KeptPoints;
use itf_reader::Row;
use ports::Memory;
use resolver::Form;
use std::alloc::Global;
use table_layout::{Column, Layout, Table, TableId};

/// What is kept of the rows of a transfer that is judged, and, table by table, the points that
/// links may name: 24 bytes for each.
#[derive(Drop)]
pub struct LinksKept<'a> {
    pub judged: TransferKept<'a>,
    pub points: Vec<KeptPoints>,
}

// The values of a form are points of two axes.
fn is_point(form: &Form) -> bool
    ensures { result ≡ is_point (form_of form.now) }
{
    match form {
        Form::Coord2(_) => true,
        _ => false,
    }
}

// The values of a form are references.
fn is_reference(form: &Form) -> bool
    ensures { result ≡ is_reference (form_of form.now) }
{
    match form {
        Form::Reference(_) => true,
        _ => false,
    }
}

// Some column has references.
fn has_reference(columns: &[Column]) -> bool
    ensures { result ≡ list_any (λ c. is_reference c.form) (columns_view columns.now) }
{
    for column in columns {
        if is_reference(&column.form) {
            return true;
        }
    }
    false
}

// The columns with points of two axes, without rows.
fn point_columns(alloc: Global, columns: &[Column]) -> Result<KeptPoints, Memory>
    ensures { IfOk result (λ k. (codes : GivenCodes) (t : GivenTable)
        → points_of k ≡ points_kept codes t (point_columns 0 (columns_view columns.now)) []) }
{
    let mut kept = KeptPoints::new(alloc);
    for (number, column) in columns.iter().enumerate() {
        if is_point(&column.form) {
            kept.ask(alloc, number)?;
        }
    }
    Ok(kept)
}

// The columns of points that links may name, without rows.
fn link_columns(alloc: Global, table: &Table) -> Result<KeptPoints, Memory>
    ensures { IfOk result (λ k. (codes : GivenCodes)
        → points_of k ≡ link_points codes (table_view table.now) []) }
{
    if has_reference(&table.columns) {
        point_columns(alloc, &table.columns)
    } else {
        Ok(KeptPoints::new(alloc))
    }
}

// The same of some tables.
fn empty_points(alloc: Global, tables: &[Table]) -> Result<Vec<KeptPoints>, Memory>
    ensures { IfOk result (λ ks. (codes : GivenCodes)
        → points_in ks.items ≡ map (λ t. link_points codes t []) (tables_view tables.now)) }
{
    let mut points = Vec::with_capacity(alloc, tables.len())?;
    for table in tables {
        points.push(link_columns(alloc, table)?)?;
    }
    Ok(points)
}

impl<'a> LinksKept<'a> {
    /// Before the first row of a transfer of that layout.
    pub fn new(alloc: Global, layout: &'a Layout) -> Result<LinksKept<'a>, Memory>
        requires { IsValid (layout_view layout.now) }
        ensures { IfOk result (HasLinked (layout_view layout.now) []) }
    {
        let judged = TransferKept::new(alloc, layout)?;
        let points = empty_points(alloc, &layout.tables)?;
        Ok(LinksKept { judged, points })
    }
}

impl<'a> RowKeeper for LinksKept<'a> {
    ghost has_rows = { HasLinked };

    fn add_row(&mut self, layout: &Layout, table: TableId, row: &Row) -> Result<(), Memory> {
        self.judged.take_row(layout, table, row, &mut self.points)
    }

    fn row_count(&self, table: TableId) -> usize {
        self.judged.row_count(table)
    }
}
