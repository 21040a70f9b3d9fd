// Laws of drawings and of what they are drawn from.
ghost use Rattle.std.specs.Prelude.{◌≡◌, ◌<◌, ◌++◌, ◌∷◌, [], ℕ, List, length};
ghost use Rattle.ili_grammar.specs.Syntax.{Codes};
ghost use Rattle.table_layout.specs.Layouts.{AreaOf, Layout, Table};
ghost use Rattle.itf_lines.specs.LogicalLines.{logical};
ghost use Rattle.itf_reader.specs.Forms.{Row};
ghost use Rattle.itf_reader.specs.Layouts.{form_of};
ghost use Rattle.itf_reader.specs.Readings.{IsRead};
ghost use Rattle.plane.specs.Rule.Plans.{Plan};
ghost use Rattle.area_drawings.specs.Drawings.{IsDrawing};
ghost use Rattle.area_drawings.specs.KeptLines.{lines_kept, row_vertices, with_line};
ghost use Rattle.area_drawings.specs.KeptPoints.{points_kept, row_cells, with_points};
ghost use Rattle.area_drawings.specs.KeptRows.{kept, with_row};
ghost use Rattle.area_drawings.specs.LineNames.{curve_line, object_line};

use itf_reader::lines_rise;

/// What is kept of some rows and one more is what is kept of them, with that row: of lines, of the
/// columns of these numbers, and of all that areas are drawn from.
pub fn one_more_row()
    ensures lines { (t : Table) (rows : List Row) (r : Row)
        → lines_kept t (rows ++ r ∷ []) ≡ with_line (row_vertices t r) (lines_kept t rows) }
    ensures points { (codes : Codes) (t : Table) (numbers : List ℕ) (rows : List Row) (r : Row)
        → points_kept codes t numbers (rows ++ r ∷ []) ≡ with_points r.line
        (row_cells codes t r) (points_kept codes t numbers rows) }
    ensures all { (codes : Codes) (t : Table) (rows : List Row) (r : Row)
        → kept codes t (rows ++ r ∷ []) ≡ with_row r.line (row_cells codes t r)
        (row_vertices t r) (kept codes t rows) }
{}

/// A line of a transfer names one curve of an area and one object: both stand in the drawing in
/// the order of their lines.
pub fn lines_name_one()
    ensures curves { (l : Layout) (text : List ℕ) (rows : List (List Row)) (a : AreaOf) (d : Plan)
        (i j : ℕ) → IsRead (form_of l) (logical l.codes.continued text) rows
        → IsDrawing l rows a d → i < j → j < length d.curves
        → curve_line d i < curve_line d j }
    ensures objects { (l : Layout) (text : List ℕ) (rows : List (List Row)) (a : AreaOf) (d : Plan)
        (i j : ℕ) → IsRead (form_of l) (logical l.codes.continued text) rows
        → IsDrawing l rows a d → i < j → j < length d.points
        → object_line d i < object_line d j }
{
    lines_rise();
}
