// What the keys of all rows can be asked: what is wrong with them, and which rows are named.
ghost use Rattle.std.specs.Prelude.{◌≡◌, ◌++◌, [], ℕ, List, IfOk, OnOk, map, slice_index_or};
ghost use Rattle.std.specs.List.{flat_map};
ghost use Rattle.table_layout.specs.Layouts.{Layout as GivenLayout};
ghost use Rattle.itf_reader.specs.ClosedRows.{by_table};
ghost use Rattle.itf_reader.specs.Findings.{AddsFindings};
ghost use Rattle.itf_reader.specs.Forms.{Row as GivenRow};
ghost use Rattle.itf_reader.specs.Layouts.{form_of};
ghost use Rattle.ident_refs.specs.FedRows.{fed_keys};
ghost use Rattle.ident_refs.specs.KeptRows.{all_ids, all_lines, all_kept_findings, ref_names};
ghost use Rattle.ident_refs.specs.KeptRows.{refs_at, row_line};
ghost use Rattle.ident_refs.specs.KeptViews.{ids_view, all_kept_view, named_view, refs_view};
ghost use Rattle.ident_refs.specs.KeptViews.{row_lines_view};
ghost use Rattle.ident_refs.specs.KeysOfRows.{HasKeys};
ghost use Rattle.ident_refs.specs.NamedRows.{rows_named};

use super::feed::lines_at;
use super::references::{KeptRef, NamedRow, add_named};
use super::repeats::KeyColumn;
use super::sorted::Keys;
use super::table_keys::TableKeys;
use itf_reader::Finding;
use ports::Memory;
use table_layout::TableId;

// Adds what is wrong with the keys and references of each table.
fn add_findings(
    tables: &[TableKeys],
    ids: &[KeyColumn],
    findings: &mut Vec<Finding>,
) -> Result<(), Memory>
    requires keys { ids_view ids.now ≡ all_ids (all_kept_view tables.now) }
    requires lines { row_lines_view ids.now ≡ all_lines (all_kept_view tables.now) }
    ensures { OnOk result (AddsFindings findings.old.items findings.new.items
        (all_kept_findings (all_kept_view tables.now))) }
{
    for (place, table) in tables.iter().enumerate() {
        table.add_findings(&ids[place], ids, findings)?;
    }
    Ok(())
}

// Adds the references in the column of that number with the rows that they name.
fn add_all_named(
    ids: &[KeyColumn],
    column: u32,
    refs: &[KeptRef],
    named: &mut Vec<NamedRow>,
) -> Result<(), Memory>
    ensures { OnOk result (named_view named.new.items ≡ named_view named.old.items
        ++ flat_map (ref_names (ids_view ids.now) column) (refs_view refs.now)) }
{
    for reference in refs {
        add_named(ids, column, reference, named)?;
    }
    Ok(())
}

// The references of the table at that place, none where there is no such table.
fn refs_at<'b>(tables: &'b [TableKeys], place: usize) -> &'b [KeptRef]
    ensures { refs_view result.now ≡ refs_at place (all_kept_view tables.now) }
{
    match tables.get(place) {
        Some(table) => &table.refs,
        None => &[],
    }
}

impl<'b, 'a> Keys<'b, 'a> {
    /// Adds what is wrong with the keys and references of all rows: the findings of each table in
    /// the order of the layout, those of identifications and of each IDENT list in the order of its
    /// rows, then those of references.
    pub fn add_findings(&self, findings: &mut Vec<Finding>) -> Result<(), Memory>
        ensures { OnOk result ((l : GivenLayout) (rows : List (ℕ × GivenRow))
            → HasKeys l self.now rows
            → AddsFindings findings.old.items findings.new.items (fed_keys l rows)) }
    {
        add_findings(self.tables, &self.ids, findings)?;
        Ok(())
    }

    /// The lines of the rows of that table, in order; none of a table that the layout lacks. It
    /// takes no memory.
    pub fn row_lines(&self, table: TableId) -> &[u32]
        ensures { (l : GivenLayout) (rows : List (ℕ × GivenRow)) → HasKeys l self.now rows
            → result.now
            ≡ map row_line (slice_index_or (by_table (form_of l) rows) table.0 []) }
    {
        lines_at(self.tables, table.0 as usize)
    }

    /// The rows that the references in a column name, with the lines of the rows that name them, in
    /// the order of these: the first row with that identification in the table to which the column
    /// refers. Rows with a wrong number of fields and undefined words name none and are left out,
    /// and so are all rows of a column that is no reference. Columns count from 1. It takes a
    /// binary search and 24 bytes for each; the only error is out of memory.
    pub fn rows_named(&self, table: TableId, column: u32) -> Result<Vec<NamedRow>, Memory>
        ensures { IfOk result (λ named. (l : GivenLayout) (rows : List (ℕ × GivenRow))
            → HasKeys l self.now rows
            → named_view named.items
            ≡ rows_named l (by_table (form_of l) rows) table.0 column) }
    {
        let mut named = Vec::new(self.alloc);
        let refs = refs_at(self.tables, table.0 as usize);
        add_all_named(&self.ids, column, refs, &mut named)?;
        Ok(named)
    }
}
