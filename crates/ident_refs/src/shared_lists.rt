// IDENT lists of the same places, which are kept and looked at once.
ghost use Rattle.std.specs.Prelude.{◌≡◌, drop, map, take, IfOk, OnOk};
ghost use Rattle.std.specs.List.{flat_map};
ghost use Rattle.itf_reader.specs.Findings.{AddsFindings, code_in, findings_of, other_of};
ghost use Rattle.ident_refs.specs.KeptRows.{list_findings};
ghost use Rattle.ident_refs.specs.KeptViews.{rows_view};
ghost use Rattle.ident_refs.specs.SharedLists.{found_view, list_view, lists_view, picked};

use super::ident_lists::KeptList;
use super::repeats::KeyColumn;
use super::row_keys::RowKeys;
use itf_lines::Field;
use itf_reader::{Code, Fault, Finding};
use ports::Memory;
use std::alloc::Global;

// The findings of a list.
#[derive(Drop)]
pub struct Found {
    pub findings: Vec<Finding>,
}

// Adds what repeats a key of an IDENT list.
fn add_list(
    alloc: Global,
    lines: &[u32],
    rows: &RowKeys,
    list: &KeptList,
    findings: &mut Vec<Finding>,
) -> Result<(), Memory>
    ensures { OnOk result (AddsFindings findings.old.items findings.new.items
        (list_findings lines.now (list_view (rows_view rows.now) list.now))) }
{
    let keys = rows.keys_by(alloc, &list.numbers)?;
    let column = KeyColumn::new(alloc, lines, &keys)?;
    column.add_repeats(Code::Ident, list.column, findings)
}

// What repeats a key of each list.
fn all_found(
    alloc: Global,
    lines: &[u32],
    rows: &RowKeys,
    lists: &[KeptList],
) -> Result<Vec<Found>, Memory>
    ensures { IfOk result (λ found. map found_view found.items
        ≡ map (list_findings lines.now) (lists_view (rows_view rows.now) lists.now)) }
{
    let mut found = Vec::with_capacity(alloc, lists.len())?;
    for list in lists {
        let mut findings = Vec::new(alloc);
        add_list(alloc, lines, rows, list, &mut findings)?;
        found.push(Found { findings })?;
    }
    Ok(found)
}

// The same fault.
fn copied(alloc: Global, fault: &Fault) -> Result<Fault, Memory>
    ensures code { IfOk result (λ copy. code_in copy ≡ code_in fault.now) }
    ensures other { IfOk result (λ copy. other_of copy ≡ other_of fault.now) }
{
    match fault {
        Fault::Value(code) => Ok(Fault::Value(*code)),
        Fault::Repeat(code, line) => Ok(Fault::Repeat(*code, *line)),
        Fault::Reference(code, word) => {
            Ok(Fault::Reference(*code, Field::new(alloc, word.bytes())?))
        }
    }
}

// Adds findings once more.
fn add_copies(alloc: Global, own: &[Finding], findings: &mut Vec<Finding>) -> Result<(), Memory>
    ensures { OnOk result (AddsFindings findings.old.items findings.new.items
        (findings_of own.now)) }
{
    for finding in own {
        findings.push(Finding {
            line: finding.line,
            column: finding.column,
            fault: copied(alloc, &finding.fault)?,
        })?;
    }
    Ok(())
}

// Adds the findings of the list of that number, if there is one.
fn add_found(
    alloc: Global,
    found: &[Found],
    number: usize,
    findings: &mut Vec<Finding>,
) -> Result<(), Memory>
    ensures { OnOk result (AddsFindings findings.old.items findings.new.items
        (flat_map found_view (take 1 (drop number found.now)))) }
{
    match found.get(number) {
        Some(own) => add_copies(alloc, &own.findings, findings),
        None => Ok(()),
    }
}

/// Adds what repeats a key of each IDENT list, of which each has its number among the lists that
/// are kept. Each of these is looked at once: its keys are made for that and let go.
pub fn add_shared(
    alloc: Global,
    lines: &[u32],
    rows: &RowKeys,
    lists: &[KeptList],
    order: &[usize],
    findings: &mut Vec<Finding>,
) -> Result<(), Memory>
    ensures { OnOk result (AddsFindings findings.old.items findings.new.items
        (flat_map (list_findings lines.now)
        (picked (lists_view (rows_view rows.now) lists.now) order.now))) }
{
    let found = all_found(alloc, lines, rows, lists)?;
    for number in order {
        add_found(alloc, &found, *number, findings)?;
    }
    Ok(())
}
