//! The drawings of areas: rows of a transfer become curves and points of the plane.
//!
//! An area of a layout has a table of lines and a main table with a column of points. Of the rows
//! of both, which may come one after another, `TablePlaces` keeps the vertices of the lines and the
//! points; from these `drawings_from` draws all areas, and `draw` one.
//!
//! - **The rule.** A vertex at the place before it draws nothing. A straight has the line of its
//!   end. An arc is two half arcs, with the lines of the vertex that it leads over and of its end;
//!   where the three places lie on one straight it is the straights between them, without those of
//!   no length. An object has the line of its row, and no point where its column is undefined. The
//!   definition is `IsDrawing`, of a layout and rows; one line names one curve of an area, and one
//!   object (`laws::lines_name_one`), and an area has one drawing. It permits the overlap that the
//!   form of the area's lines gives, in units: 0 where there is none, and at most 1,048,576.
//! - **What is kept.** Chosen once for each table: of lines of an area the vertices and how many
//!   each row has (`KeptLines`), and the points of the columns that are asked for by number
//!   (`KeptPoints`). Each is a function of the rows, one row more a step (`laws::one_more_row`).
//! - **What is asked for.** Drawing asks that what is kept can be drawn (`CanBeDrawn`): vertices
//!   and points in the window of the lines, and at most 16,000,000 of each. That rows without
//!   findings are such is shown where findings are known; here no finding is.
//! - **Not here:** reading rows, and what is wrong with them (`itf_reader`, `domain_rules`); what
//!   makes a drawing a partition (`plane`).
//! - **Degenerate cases:** a table may have no row, a row no line, a line no vertex or one, and an
//!   area no line and no point. Nothing is kept of a row with too few or too many words.
//!
//! Cost: 24 bytes for a vertex or a point, and 8 for a row of lines. A row is kept in time linear
//! in its vertices and the columns that are asked for. Drawing takes linear time, and 56 bytes for
//! a curve. The only error is out of memory.
#![tactic(auto)]

mod area_limits;
mod curves;
mod drawing;
mod forms;
mod kept_lines;
mod kept_points;
pub mod laws;
mod strokes;
mod table_places;

pub use area_limits::AREA_LIMIT;
pub use drawing::{draw, drawings_from};
pub use forms::{line_form, only_form};
pub use kept_lines::KeptLines;
pub use kept_points::{KeptPoints, PointColumn};
pub use strokes::{draw_some, draw_strokes};
pub use table_places::TablePlaces;
