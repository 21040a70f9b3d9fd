// The canonical text of rows that come one after another.
ghost use Rattle.std.specs.Prelude.{◌≡◌, ◌≤◌, ◌<◌, ◌++◌, ◌∷◌, ℕ, List, [], length, map, codes};
ghost use Rattle.std.specs.Prelude.{IfOk, IsFalse, IsTrue, OnOk, replicate, slice_index_or};
ghost use Rattle.itf_lines.specs.declared.word.LineWord.TheVariants.{Emod, Ende, Mtid, Modl};
ghost use Rattle.itf_reader.specs.ClosedRows.{by_table};
ghost use Rattle.itf_reader.specs.Forms.{Row as GivenRow};
ghost use Rattle.itf_reader.specs.Layouts.{form_of, wanted_of};
ghost use Rattle.itf_reader.specs.TransferText.{line};
ghost use Rattle.itf_reader.specs.Views.{row_of};
ghost use Rattle.table_layout.specs.ByTopic.{AreByTopic};
ghost use Rattle.table_layout.specs.Layouts.{Layout as GivenLayout};
ghost use Rattle.table_layout.specs.Valid.{IsValid};
ghost use Rattle.table_layout.specs.Values.{layout_view, table_view, tables_view};
ghost use Rattle.itf_writer.specs.Canonical.{canon_text, line_text, table_lines, topics_lines};
ghost use Rattle.itf_writer.specs.Feeds.{HoldsRows, held_in, held_of, rows_held, with_row};
ghost use Rattle.itf_writer.specs.Feeds.{with_row_at};
ghost use Rattle.itf_writer.specs.Runs.{closing, lines_text, next_lines, open_after, opening};
ghost use Rattle.itf_writer.specs.Runs.{table_run, topic_lines};

use super::adding::{add_line, add_named, add_row, undefined_stroke};
use file_pages::HeldText;
use itf_lines::LineWord;
use itf_reader::Row;
use ports::{Memory, Name};
use std::alloc::Global;
use table_layout::{Layout, Table, TableId};

// The objects of a table: how many they are, and their lines.
#[derive(Drop)]
struct TableText {
    rows: usize,
    text: HeldText,
}

impl TableText {
    // No object, of a model with that continue code.
    fn new(alloc: Global, code: u8) -> Result<TableText, Memory>
        ensures { IfOk result (λ held. held_of held ≡ rows_held code []) }
    {
        Ok(TableText {
            rows: 0,
            text: HeldText::new(alloc, undefined_stroke(code))?,
        })
    }

    fn is_empty(&self) -> bool
        ensures none { IsTrue result → self.now.rows ≡ 0 }
        ensures some { IsFalse result → 0 < self.now.rows }
    {
        self.rows == 0
    }

    // One object more.
    fn add_row(&mut self, code: u8, row: &Row) -> Result<(), Memory>
        ensures { OnOk result (held_of self.new
            ≡ with_row code (row_of row.now) (held_of self.old)) }
    {
        let Some(rows) = self.rows.checked_add(1) else {
            return Err(Memory);
        };
        add_row(&mut self.text, code, row)?;
        self.rows = rows;
        Ok(())
    }
}

/// The canonical text of a transfer whose rows come one after another, in any order of tables. Of
/// each row the bytes of its lines are held, and nothing else.
///
/// Cost: time in proportion to the lines. The lines that a row has take a byte for each byte, and
/// strokes that it leaves out 8 bytes however many they are.
#[derive(Drop)]
pub struct CanonFeed {
    tables: Vec<TableText>,
}

// No object of each of so many tables.
fn no_rows(alloc: Global, code: u8, count: usize) -> Result<Vec<TableText>, Memory>
    ensures { IfOk result (λ held. held_in held.items ≡ replicate count (rows_held code [])) }
{
    let mut held = Vec::with_capacity(alloc, count)?;
    for _ in 0..count {
        held.push(TableText::new(alloc, code)?)?;
    }
    Ok(held)
}

// Adds a row of the table at that place, if there is one.
fn add_at(tables: &mut [TableText], code: u8, place: usize, row: &Row) -> Result<(), Memory>
    ensures { OnOk result ((transfer : List (List GivenRow))
        → held_in tables.old ≡ map (rows_held code) transfer
        → held_in tables.new ≡ map (rows_held code) (with_row_at place (row_of row.now) transfer)) }
{
    if tables.len() <= place {
        return Ok(());
    }
    tables[place].add_row(code, row)
}

// How many rows the table at that place has, none where there is no such table.
fn rows_at(tables: &[TableText], place: usize) -> usize
    ensures { (code : ℕ) (transfer : List (List GivenRow))
        → held_in tables.now ≡ map (rows_held code) transfer
        → result ≡ length (slice_index_or transfer place []) }
{
    match tables.get(place) {
        Some(held) => held.rows,
        None => 0,
    }
}

impl CanonFeed {
    /// No row yet.
    pub fn new(alloc: Global, layout: &Layout) -> Result<CanonFeed, Memory>
        ensures { IfOk result (HoldsRows (layout_view layout.now) []) }
    {
        let tables = no_rows(alloc, layout.codes.continued, layout.tables.len())?;
        Ok(CanonFeed { tables })
    }

    /// Adds a row of that table of the layout. The only error is out of memory; nothing is then
    /// said of what is held.
    pub fn add_row(&mut self, layout: &Layout, table: TableId, row: &Row) -> Result<(), Memory>
        ensures { OnOk result ((rows : List (ℕ × GivenRow))
            → HoldsRows (layout_view layout.now) rows self.old
            → HoldsRows (layout_view layout.now) (rows ++ (table.0, row_of row.now) ∷ [])
            self.new) }
    {
        add_at(
            &mut self.tables,
            layout.codes.continued,
            table.0 as usize,
            row,
        )
    }

    /// How many rows of that table were added, none of a table that the layout lacks.
    pub fn row_count(&self, table: TableId) -> usize
        ensures { (l : GivenLayout) (rows : List (ℕ × GivenRow)) → HoldsRows l rows self.now
            → result ≡ length (slice_index_or (by_table (form_of l) rows) table.0 []) }
    {
        rows_at(&self.tables, table.0 as usize)
    }

    /// The canonical text of the rows that were added. Their bytes are moved.
    pub fn finish(self, alloc: Global, layout: &Layout) -> Result<HeldText, Memory>
        requires valid { IsValid (layout_view layout.now) }
        requires fed { (rows : List (ℕ × GivenRow))
            × HoldsRows (layout_view layout.now) rows self }
        ensures { (rows : List (ℕ × GivenRow))
            → HoldsRows (layout_view layout.now) rows self
            → IfOk result (λ text. text ≡ canon_text layout.now.codes.continued
            (form_of (layout_view layout.now))
            (by_table (form_of (layout_view layout.now)) rows)) }
    {
        let CanonFeed { mut tables } = self;
        let mut text = HeldText::new(alloc, b"")?;
        let code = layout.codes.continued;
        add_head(&mut text, layout)?;
        add_tables(&mut text, code, &layout.topics, &layout.tables, &mut tables)?;
        add_foot(&mut text, code)?;
        Ok(text)
    }
}

// Adds the lines before the first topic.
fn add_head(text: &mut HeldText, layout: &Layout) -> Result<(), Memory>
    ensures { OnOk result (text.new ≡ text.old ++ (codes "SCNT\n////\n"
        ++ (line_text layout.now.codes.continued (line Mtid 0 [])
        ++ line_text layout.now.codes.continued (line Modl 0 (layout.now.model ∷ []))))) }
{
    let code = layout.codes.continued;
    text.add(b"SCNT\n////\n")?;
    add_line(text, code, LineWord::Mtid, &[])?;
    add_named(text, code, LineWord::Modl, layout.model.bytes())
}

// Adds the lines after the last topic.
fn add_foot(text: &mut HeldText, code: u8) -> Result<(), Memory>
    ensures { OnOk result (text.new ≡ text.old
        ++ (line_text code (line Emod 0 []) ++ line_text code (line Ende 0 []))) }
{
    add_line(text, code, LineWord::Emod, &[])?;
    add_line(text, code, LineWord::Ende, &[])
}

// Ends the open topic, where one is open.
fn add_closing(text: &mut HeldText, code: u8, current: Option<u32>) -> Result<(), Memory>
    ensures { OnOk result (text.new ≡ text.old ++ lines_text code (closing current)) }
{
    match current {
        Some(_) => add_line(text, code, LineWord::Etop, &[]),
        None => Ok(()),
    }
}

// Opens a topic, where none is open.
fn add_topic(text: &mut HeldText, code: u8, topics: &[Name], topic: u32) -> Result<(), Memory>
    requires { topic < length topics.now }
    ensures { OnOk result (text.new ≡ text.old ++ lines_text code (topic_lines topics.now topic)) }
{
    add_named(text, code, LineWord::Topi, topics[topic as usize].bytes())
}

// Opens a topic, where that one is open: nothing, where they are the same.
fn add_next_topic(
    text: &mut HeldText,
    code: u8,
    topics: &[Name],
    current: u32,
    topic: u32,
) -> Result<(), Memory>
    requires { topic < length topics.now }
    ensures { OnOk result (text.new ≡ text.old
        ++ lines_text code (next_lines topics.now current topic)) }
{
    if current == topic {
        return Ok(());
    }
    add_line(text, code, LineWord::Etop, &[])?;
    add_topic(text, code, topics, topic)
}

// Opens a topic, where it is not open.
fn add_opening(
    text: &mut HeldText,
    code: u8,
    topics: &[Name],
    current: Option<u32>,
    topic: u32,
) -> Result<(), Memory>
    requires { topic < length topics.now }
    ensures { OnOk result (text.new ≡ text.old
        ++ lines_text code (opening topics.now current topic)) }
{
    match current {
        Some(current) => add_next_topic(text, code, topics, current, topic),
        None => add_topic(text, code, topics, topic),
    }
}

// Adds a table with its objects, which are moved.
fn add_table(
    text: &mut HeldText,
    code: u8,
    table: &Table,
    held: &mut TableText,
) -> Result<(), Memory>
    ensures { (rows : List GivenRow) → 0 < length rows → held_of held.old ≡ rows_held code rows
        → OnOk result (text.new ≡ text.old ++ lines_text code (table_lines table.now.name rows)) }
{
    add_named(text, code, LineWord::Tabl, table.name.bytes())?;
    text.append(&mut held.text)?;
    add_line(text, code, LineWord::Etab, &[])
}

// Adds a table in its topic, where it has objects, and answers which topic is open then.
fn add_in_topic(
    text: &mut HeldText,
    code: u8,
    topics: &[Name],
    current: Option<u32>,
    table: &Table,
    held: &mut TableText,
) -> Result<Option<u32>, Memory>
    requires { table.now.topic < length topics.now }
    ensures added { (rows : List GivenRow) → held_of held.old ≡ rows_held code rows
        → OnOk result (text.new ≡ text.old ++ lines_text code
        (table_run topics.now current (wanted_of (table_view table.now)) rows)) }
    ensures current { (rows : List GivenRow) → held_of held.old ≡ rows_held code rows
        → IfOk result (λ topic. topic
        ≡ open_after current (wanted_of (table_view table.now)) rows) }
{
    if held.is_empty() {
        return Ok(current);
    }
    add_opening(text, code, topics, current, table.topic)?;
    add_table(text, code, table, held)?;
    Ok(Some(table.topic))
}

// Adds the tables with objects, each in its topic. The tables stand in the order of their topics.
fn add_tables(
    text: &mut HeldText,
    code: u8,
    topics: &[Name],
    tables: &[Table],
    held: &mut [TableText],
) -> Result<(), Memory>
    requires by_topic { AreByTopic 0 (length topics.now) (tables_view tables.now) }
    requires all { length held.old ≡ length tables.now }
    ensures { (rows : List (List GivenRow)) → held_in held.old ≡ map (rows_held code) rows
        → OnOk result (text.new ≡ text.old ++ lines_text code
        (topics_lines 0 topics.now (map wanted_of (tables_view tables.now)) rows)) }
{
    let mut current = None;
    for number in 0..held.len() {
        let table = &tables[number];
        current = add_in_topic(text, code, topics, current, table, &mut held[number])?;
    }
    add_closing(text, code, current)
}
