// How the rows of a transfer are judged, one after another.
ghost use Rattle.std.specs.Prelude.{◌≡◌, ◌++◌, ◌∷◌, ℕ, List, [], false, IfOk, IfSome, OnOk, map};
ghost use Rattle.std.specs.Prelude.{slice_get};
ghost use Rattle.std.specs.List.{All};
ghost use Rattle.itf_lines.specs.Views.{line_view};
ghost use Rattle.itf_reader.specs.Few.{HasFew};
ghost use Rattle.itf_reader.specs.Forms.{Row as GivenRow};
ghost use Rattle.itf_reader.specs.Layouts.{form_of};
ghost use Rattle.itf_reader.specs.Machine.{start};
ghost use Rattle.itf_reader.specs.Names.{form_in};
ghost use Rattle.itf_reader.specs.RowFeeds.{next, shows, standing};
ghost use Rattle.table_layout.specs.Valid.{IsValid};
ghost use Rattle.table_layout.specs.Values.{layout_view, tables_view};
ghost use Rattle.ili_grammar.specs.Syntax.{Codes as GivenCodes};
ghost use Rattle.ili_grammar.specs.Values.{codes_of};
ghost use Rattle.itf_reader.specs.Views.{row_of};
ghost use Rattle.itf_reader.specs.RowReadings.{cells_view, vertices_view};
ghost use Rattle.area_drawings.specs.KeptPoints.{with_points};
ghost use Rattle.area_drawings.specs.KeptRows.{kept, with_row};
ghost use Rattle.area_drawings.specs.KeptViews.{kept_in};
ghost use Rattle.delivery.specs.KeptRows.{changed_at, rows_found, with_found};
ghost use Rattle.delivery.specs.KeptViews.{AreReadAs, HasTaken, found_in};
ghost use Rattle.delivery.specs.LinkRows.{HasLinkPoints, points_in};

use super::found::TableFound;
use super::keeping::RowKeeper;
use area_drawings::{KeptPoints, TablePlaces};
use ident_refs::KeyFeed;
use ili_grammar::Codes;
use itf_lines::Line;
use itf_reader::{Cell, Names, Row, RowFeed, RowValues};
use ports::Memory;
use std::alloc::Global;
use table_layout::{Layout, Table, TableId};

/// What is kept of the rows of a transfer that is judged: table by table their findings and what
/// areas are drawn from, and their keys.
#[derive(Drop)]
pub struct TransferKept<'a> {
    pub tables: Vec<TableFound<'a>>,
    pub places: Vec<TablePlaces>,
    pub keys: KeyFeed<'a>,
    values: RowValues,
}

/// The rows of a transfer, one after another: where its lines have come to, and what is kept of
/// the rows that they closed.
#[derive(Drop)]
pub struct RowJudge<K: RowKeeper> {
    pub feed: RowFeed,
    pub kept: K,
}

// The findings of the tables of a layout, without rows.
fn empty_tables<'a>(alloc: Global, tables: &'a [Table]) -> Result<Vec<TableFound<'a>>, Memory>
    requires { All HasFew (tables_view tables.now) }
    ensures { IfOk result (λ fs. (codes : GivenCodes)
        → found_in fs.items ≡ map (λ t. rows_found codes t []) (tables_view tables.now)) }
{
    let mut found = Vec::with_capacity(alloc, tables.len())?;
    for table in tables {
        found.push(TableFound::new(alloc, table)?)?;
    }
    Ok(found)
}

// What areas are drawn from, of tables without rows.
fn empty_places(alloc: Global, tables: &[Table]) -> Result<Vec<TablePlaces>, Memory>
    ensures { IfOk result (λ ks. (codes : GivenCodes)
        → kept_in ks.items ≡ map (λ t. kept codes t []) (tables_view tables.now)) }
{
    let mut places = Vec::with_capacity(alloc, tables.len())?;
    for table in tables {
        places.push(TablePlaces::new(alloc, table)?)?;
    }
    Ok(places)
}

// Reads a row of the table at that place, if there is one.
fn read_at(
    tables: &mut [TableFound],
    codes: &Codes,
    place: usize,
    row: &Row,
    values: &mut RowValues,
) -> Result<(), Memory>
    ensures found { OnOk result (found_in tables.new ≡ changed_at place
        (with_found (codes_of codes.now) (row_of row.now)) (found_in tables.old)) }
    ensures read { OnOk result (IfSome (slice_get (found_in tables.old) place)
        (λ f. AreReadAs (codes_of codes.now) f.table (row_of row.now) values.new)) }
{
    if tables.len() <= place {
        return Ok(());
    }
    tables[place].add_row(codes, row, values)
}

// Keeps what areas are drawn from of a row that was read, one of the table at that place.
fn keep_at(
    places: &mut [TablePlaces],
    place: usize,
    line: u32,
    values: &mut RowValues,
) -> Result<(), Memory>
    ensures { OnOk result (kept_in places.new ≡ changed_at place
        (with_row line (cells_view values.old.cells.items)
        (vertices_view values.old.vertices.items)) (kept_in places.old)) }
{
    if places.len() <= place {
        return Ok(());
    }
    places[place].add_row(line, values)
}

// Keeps the points of a row of the table at that place, if there is one.
fn keep_points(
    points: &mut [KeptPoints],
    place: usize,
    line: u32,
    cells: &[Cell],
) -> Result<(), Memory>
    ensures { OnOk result (points_in points.new ≡ changed_at place
        (with_points line (cells_view cells.now)) (points_in points.old)) }
{
    if points.len() <= place {
        return Ok(());
    }
    points[place].add(line, cells)
}

impl<'a> TransferKept<'a> {
    /// Before the first row of a transfer of that layout.
    pub fn new(alloc: Global, layout: &'a Layout) -> Result<TransferKept<'a>, Memory>
        requires { IsValid (layout_view layout.now) }
        ensures { IfOk result (HasTaken (layout_view layout.now) []) }
    {
        let tables = empty_tables(alloc, &layout.tables)?;
        let places = empty_places(alloc, &layout.tables)?;
        let keys = KeyFeed::new(alloc, layout)?;
        Ok(TransferKept {
            tables,
            places,
            keys,
            values: RowValues::new(alloc),
        })
    }

    /// Takes a row of that table, and adds its points to those that links may name, where these
    /// are kept. Each word is read once. The only error is out of memory.
    pub fn take_row(
        &mut self,
        layout: &Layout,
        table: TableId,
        row: &Row,
        points: &mut [KeptPoints],
    ) -> Result<(), Memory>
        ensures judged { OnOk result ((rows : List (ℕ × GivenRow))
            → HasTaken (layout_view layout.now) rows self.old
            → HasTaken (layout_view layout.now) (rows ++ (table.0, row_of row.now) ∷ [])
            self.new) }
        ensures points { OnOk result ((rows : List (ℕ × GivenRow))
            → HasTaken (layout_view layout.now) rows self.old
            → HasLinkPoints (layout_view layout.now) rows (points_in points.old)
            → HasLinkPoints (layout_view layout.now) (rows ++ (table.0, row_of row.now) ∷ [])
            (points_in points.new)) }
    {
        let place = table.0 as usize;
        let values = &mut self.values;
        read_at(&mut self.tables, &layout.codes, place, row, values)?;
        keep_points(points, place, row.line, &values.cells)?;
        keep_at(&mut self.places, place, row.line, values)?;
        self.keys.add_row(table, row)
    }
}

impl<'a> RowKeeper for TransferKept<'a> {
    ghost has_rows = { HasTaken };

    fn add_row(&mut self, layout: &Layout, table: TableId, row: &Row) -> Result<(), Memory> {
        self.take_row(layout, table, row, &mut [])
    }

    fn row_count(&self, table: TableId) -> usize {
        self.keys.row_count(table)
    }
}

impl<K: RowKeeper> RowJudge<K> {
    /// Before the first line of a text.
    pub fn new(alloc: Global, kept: K) -> RowJudge<K>
        ensures at { result.feed.at ≡ standing start }
        ensures sound { result.feed.failed ≡ false }
        ensures kept { result.kept ≡ kept }
    {
        RowJudge {
            feed: RowFeed::new(alloc),
            kept,
        }
    }

    /// Takes a line by the names of a layout, and the row that it closes. After the first line at
    /// fault nothing is taken.
    pub fn take(&mut self, layout: &Layout, names: &Names, line: &mut Line) -> Result<(), Memory>
        requires named { form_in names.now ≡ form_of (layout_view layout.now) }
        ensures at { OnOk result (self.new.feed.at ≡ next (form_of (layout_view layout.now))
            self.old.feed.at (line_view line.old)) }
        ensures sound { OnOk result (self.new.feed.failed ≡ false) }
        ensures taken { OnOk result ((rows : List (ℕ × GivenRow))
            → K.has_rows (layout_view layout.now) rows self.old.kept
            → K.has_rows (layout_view layout.now)
            (rows ++ shows self.old.feed.at line.old.word) self.new.kept) }
    {
        match self.feed.take(names, line)? {
            Some(table) => self.kept.add_row(layout, table, self.feed.closed()),
            None => Ok(()),
        }
    }
}
