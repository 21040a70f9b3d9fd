// What is kept of the rows of a table.
ghost use Rattle.std.specs.Prelude.{◌≡◌, [], length, IfOk, OnOk};
ghost use Rattle.ili_grammar.specs.Syntax.{Codes as GivenCodes};
ghost use Rattle.resolver.specs.Values.{form_of};
ghost use Rattle.table_layout.specs.Layouts.{Table as GivenTable};
ghost use Rattle.table_layout.specs.Values.{columns_view, role_view, table_view};
ghost use Rattle.itf_reader.specs.RowReadings.{cells_view, vertices_view};
ghost use Rattle.area_drawings.specs.KeptPoints.{points_in_column, points_kept};
ghost use Rattle.area_drawings.specs.KeptRows.{are_lines, area_columns, counts_in, is_area_point};
ghost use Rattle.area_drawings.specs.KeptRows.{kept, vertices_in, with_row};
ghost use Rattle.area_drawings.specs.KeptViews.{kept_of, points_of};

use crate::kept_lines::KeptLines;
use crate::kept_points::KeptPoints;
use itf_reader::{ReadVertex, RowValues};
use plane::Placed;
use ports::Memory;
use resolver::Form;
use std::alloc::Global;
use table_layout::{Column, Role, Table};

/// What AREAs and SURFACEs are drawn from, of the rows of a table: if these are lines of one, their
/// vertices; and the points in the columns that are the points of areas.
#[derive(Drop)]
pub struct TablePlaces {
    pub lines: Option<KeptLines>,
    pub points: KeptPoints,
}

// The values of a form are the points of an area.
fn is_area_point(form: &Form) -> bool
    ensures { result ≡ is_area_point (form_of form.now) }
{
    match form {
        Form::AreaPoint(_) => true,
        _ => false,
    }
}

// The columns that are the points of areas, without rows.
fn area_points(alloc: Global, columns: &[Column]) -> Result<KeptPoints, Memory>
    ensures { IfOk result (λ k. (codes : GivenCodes) (t : GivenTable)
        → points_of k ≡ points_kept codes t (area_columns 0 (columns_view columns.now)) []) }
{
    let mut kept = KeptPoints::new(alloc);
    for (number, column) in columns.iter().enumerate() {
        if is_area_point(&column.form) {
            kept.ask(alloc, number)?;
        }
    }
    Ok(kept)
}

// The rows of a table of that role are lines of an AREA or of a SURFACE.
fn are_lines(role: Role) -> bool
    ensures { result ≡ are_lines (role_view role) }
{
    match role {
        Role::AreaLines { .. } | Role::SurfaceLines { .. } => true,
        Role::Main => false,
    }
}

impl TablePlaces {
    /// No row of that table.
    pub fn new(alloc: Global, table: &Table) -> Result<TablePlaces, Memory>
        ensures { IfOk result (λ k. (codes : GivenCodes)
            → kept_of k ≡ kept codes (table_view table.now) []) }
    {
        let points = area_points(alloc, &table.columns)?;
        let lines = if are_lines(table.role) {
            Some(KeptLines::new(alloc))
        } else {
            None
        };
        Ok(TablePlaces { lines, points })
    }

    /// Adds a row, by its line and what was read of it. Its vertices may be moved.
    pub fn add_row(&mut self, line: u32, values: &mut RowValues) -> Result<(), Memory>
        ensures { OnOk result (kept_of self.new ≡ with_row line
            (cells_view values.old.cells.items) (vertices_view values.old.vertices.items)
            (kept_of self.old)) }
    {
        if let Some(lines) = &mut self.lines {
            lines.add(&mut values.vertices)?;
        }
        self.points.add(line, &values.cells)
    }

    /// The vertices of the lines, one row after another; none where the rows are no lines.
    pub fn vertices(&self) -> &[ReadVertex]
        ensures { vertices_view result.now ≡ vertices_in (kept_of self.now).lines }
    {
        match &self.lines {
            Some(lines) => &lines.vertices,
            None => &[],
        }
    }

    /// How many vertices are kept.
    pub fn vertex_count(&self) -> usize
        ensures { result ≡ length (vertices_in (kept_of self.now).lines) }
    {
        match &self.lines {
            Some(lines) => lines.vertices.len(),
            None => 0,
        }
    }

    /// How many vertices each row has; none where the rows are no lines.
    pub fn counts(&self) -> &[usize]
        ensures { result.now ≡ counts_in (kept_of self.now).lines }
    {
        match &self.lines {
            Some(lines) => &lines.counts,
            None => &[],
        }
    }

    /// The points in the column of that number, none where it is no point of an area.
    pub fn points(&self, column: u32) -> &[Placed]
        ensures { result.now ≡ points_in_column column (kept_of self.now).points }
    {
        self.points.column(column)
    }
}
