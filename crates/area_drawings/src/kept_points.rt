// What is kept of the columns of rows.
ghost use Rattle.std.specs.Prelude.{◌≡◌, ◌++◌, ◌∷◌, [], slice_get, OnOk};
ghost use Rattle.std.specs.Option.{option_to_list};
ghost use Rattle.itf_reader.specs.RowReadings.{cells_view};
ghost use Rattle.area_drawings.specs.KeptPoints.{cell_points, points_in_column, with_point};
ghost use Rattle.area_drawings.specs.KeptPoints.{with_points};
ghost use Rattle.area_drawings.specs.KeptViews.{cell_there, column_view, columns_view, points_of};

use crate::curves::point_at;
use field_values::ColumnValue;
use itf_reader::Cell;
use plane::Placed;
use ports::Memory;
use std::alloc::Global;

/// A column by its number, and the points of rows in it.
#[derive(Drop)]
pub struct PointColumn {
    pub number: usize,
    pub points: Vec<Placed>,
}

/// The points in the columns that were asked for.
#[derive(Drop)]
pub struct KeptPoints {
    pub columns: Vec<PointColumn>,
}

impl KeptPoints {
    /// No column.
    pub fn new(alloc: Global) -> KeptPoints
        ensures { points_of result ≡ [] }
    {
        KeptPoints {
            columns: Vec::new(alloc),
        }
    }

    /// Asks for the column of that number, from the next row on.
    pub fn ask(&mut self, alloc: Global, number: usize) -> Result<(), Memory>
        ensures { OnOk result (points_of self.new ≡ points_of self.old ++
            record { number = number; points = [] } ∷ []) }
    {
        self.columns.push(PointColumn {
            number,
            points: Vec::new(alloc),
        })?;
        Ok(())
    }

    /// Adds the points of a row, by its line and what its columns stand for.
    pub fn add(&mut self, line: u32, cells: &[Cell]) -> Result<(), Memory>
        ensures { OnOk result (points_of self.new ≡ with_points line (cells_view cells.now)
            (points_of self.old)) }
    {
        add_points(line, cells, &mut self.columns)
    }

    /// The points in the column of that number, none where it was not asked for.
    pub fn column(&self, number: u32) -> &[Placed]
        ensures { result.now ≡ points_in_column number (points_of self.now) }
    {
        for column in &self.columns {
            if column.number == number as usize {
                return &column.points;
            }
        }
        &[]
    }
}

// The point that a column stands for, for the object in that line.
fn cell_point(line: u32, cell: Option<&Cell>) -> Option<Placed>
    ensures { option_to_list result ≡ cell_points line (cell_there cell.entry) }
{
    match cell {
        Some(Cell::Sound(ColumnValue::Plane(at))) => Some(Placed {
            at: point_at(*at),
            line,
        }),
        _ => None,
    }
}

// What the column of that number stands for, none where there is no such column.
fn cell_at(cells: &[Cell], number: usize) -> Option<&Cell>
    ensures { cell_there result ≡ slice_get (cells_view cells.now) number }
{
    cells.get(number)
}

// Adds the point of a row to its column, where the row has one.
fn add_point(line: u32, cells: &[Cell], column: &mut PointColumn) -> Result<(), Memory>
    ensures { OnOk result (column_view column.new ≡ with_point line (cells_view cells.now)
        (column_view column.old)) }
{
    match cell_point(line, cell_at(cells, column.number)) {
        Some(point) => {
            column.points.push(point)?;
            Ok(())
        }
        None => Ok(()),
    }
}

// Adds the points of a row to all columns. Where nothing was read of the row, since it has a wrong
// number of words, no column is looked at: columns and such rows can be many.
fn add_points(line: u32, cells: &[Cell], columns: &mut [PointColumn]) -> Result<(), Memory>
    ensures { OnOk result (columns_view columns.new ≡ with_points line (cells_view cells.now)
        (columns_view columns.old)) }
{
    if cells.is_empty() {
        return Ok(());
    }
    for place in 0..columns.len() {
        add_point(line, cells, &mut columns[place])?;
    }
    Ok(())
}
