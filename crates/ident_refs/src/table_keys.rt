// What is kept of the rows of a table.
ghost use Rattle.std.specs.Prelude.{◌≡◌, ◌≤◌, ◌<◌, [], length, map, OnOk, IfOk};
ghost use Rattle.std.specs.List.{All, flat_map};
ghost use Rattle.ili_grammar.specs.Values.{codes_of};
ghost use Rattle.resolver.specs.Values.{places_of};
ghost use Rattle.table_layout.specs.Values.{table_view};
ghost use Rattle.itf_reader.specs.Findings.{AddsFindings};
ghost use Rattle.itf_reader.specs.Views.{row_of};
ghost use Rattle.ident_refs.specs.KeptRows.{kept_table, ref_findings};
ghost use Rattle.ident_refs.specs.KeptRows.{kept_findings, with_key, with_row};
ghost use Rattle.ident_refs.specs.KeptViews.{ids_view, kept_view, refs_view, rows_view};
ghost use Rattle.ident_refs.specs.SharedLists.{lists_view};

use super::ident_lists::IdentLists;
use super::key_bytes::row_key;
use super::key_cell::KeyCell;
use super::key_reader::KeyReader;
use super::references::{KeptRef, add_dangling, add_refs};
use super::repeats::KeyColumn;
use super::row_keys::{RowKeys, part_keys};
use super::shared_lists::add_shared;
use ili_grammar::Codes;
use itf_reader::{Code, Finding, Row};
use ports::Memory;
use std::alloc::Global;
use table_layout::Table;

/// What is kept of the rows of a table: their lines and identifications, their keys by the parts of
/// the IDENT lists, and their references.
#[derive(Drop)]
pub struct TableKeys<'a> {
    alloc: Global,
    pub reader: KeyReader<'a>,
    pub lines: Vec<u32>,
    pub ids: Vec<KeyCell>,
    pub idents: IdentLists<'a>,
    pub rows: RowKeys,
    pub refs: Vec<KeptRef>,
}

// Adds the keys of a row by the parts of the lists of its table, none where it has no list.
fn add_keys(
    alloc: Global,
    reader: &KeyReader,
    idents: &IdentLists,
    row: &Row,
    rows: &mut RowKeys,
) -> Result<(), Memory>
    ensures { OnOk result (lists_view (rows_view rows.new) idents.now.lists.items
        ≡ map (with_key (codes_of reader.now.codes.now) (table_view reader.now.table.now)
        (row_of row.now)) (lists_view (rows_view rows.old) idents.now.lists.items)) }
{
    if idents.lists.is_empty() {
        return Ok(());
    }
    rows.add(&mut part_keys(alloc, reader, &idents.parts, row)?)
}

fn add_references(
    alloc: Global,
    ids: &[KeyColumn],
    refs: &[KeptRef],
    findings: &mut Vec<Finding>,
) -> Result<(), Memory>
    ensures { OnOk result (AddsFindings findings.old.items findings.new.items
        (flat_map (ref_findings (ids_view ids.now)) (refs_view refs.now))) }
{
    for reference in refs {
        add_dangling(alloc, ids, reference, findings)?;
    }
    Ok(())
}

impl<'a> TableKeys<'a> {
    /// No row of a table.
    pub fn new(alloc: Global, codes: &'a Codes, table: &'a Table) -> Result<TableKeys<'a>, Memory>
        requires few { length table.now.columns.items ≤ 4194306 }
        requires places { All (All (λ p. p < 4194306)) (places_of table.now.idents.items) }
        ensures { IfOk result (λ keys. kept_view keys ≡ kept_table (codes_of codes.now)
            (table_view table.now) []) }
    {
        let idents = IdentLists::new(alloc, &table.idents)?;
        Ok(TableKeys {
            alloc,
            reader: KeyReader::new(alloc, codes, table)?,
            lines: Vec::new(alloc),
            ids: Vec::new(alloc),
            idents,
            rows: RowKeys::new(alloc),
            refs: Vec::new(alloc),
        })
    }

    /// Adds a row.
    pub fn add_row(&mut self, row: &Row) -> Result<(), Memory>
        ensures { OnOk result (kept_view self.new
            ≡ with_row (row_of row.now) (kept_view self.old)) }
    {
        self.lines.push(row.line)?;
        self.ids.push(row_key(self.alloc, row)?)?;
        add_keys(self.alloc, &self.reader, &self.idents, row, &mut self.rows)?;
        add_refs(
            self.alloc,
            self.reader.codes,
            self.reader.table,
            row,
            &mut self.refs,
        )
    }

    /// Adds what is wrong with the keys and references of the table, by the identifications of its
    /// rows and of those of all tables.
    pub fn add_findings(
        &self,
        own: &KeyColumn,
        ids: &[KeyColumn],
        findings: &mut Vec<Finding>,
    ) -> Result<(), Memory>
        requires lines { own.now.lines.now ≡ self.now.lines.items }
        requires keys { own.now.keys.now ≡ self.now.ids.items }
        ensures { OnOk result (AddsFindings findings.old.items findings.new.items
            (kept_findings (ids_view ids.now) (kept_view self.now))) }
    {
        own.add_repeats(Code::Tid, 0, findings)?;
        add_shared(
            self.alloc,
            &self.lines,
            &self.rows,
            &self.idents.lists,
            &self.idents.order,
            findings,
        )?;
        add_references(self.alloc, ids, &self.refs, findings)
    }
}
