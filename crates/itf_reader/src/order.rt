// The order of findings.
ghost use Rattle.std.specs.Prelude.{◌≡◌, ℕ, OnOk};
ghost use Rattle.itf_reader.specs.Findings.{rank, finding_of, findings_of, finding_cmp, in_order};

use super::findings::{Code, Finding};
use ports::Memory;
use std::cmp::Ordering;

// The place of a code in the order of the report.
fn rank(code: Code) -> u8
    ensures { result ≡ rank code }
{
    match code {
        Code::Count => 0,
        Code::Undefined => 1,
        Code::Number => 2,
        Code::Decimals => 3,
        Code::Range => 4,
        Code::Text => 5,
        Code::Date => 6,
        Code::Enum => 7,
        Code::Coord => 8,
        Code::Arcs => 9,
        Code::Arc => 10,
        Code::Short => 11,
        Code::Tid => 12,
        Code::Ident => 13,
        Code::Reference => 14,
    }
}

fn compare(a: &Finding, b: &Finding) -> Ordering
    ensures { result ≡ finding_cmp (finding_of a.now) (finding_of b.now) }
{
    a.line
        .cmp(&b.line)
        .then(a.column.cmp(&b.column))
        .then(rank(a.code()).cmp(&rank(b.code())))
}

/// Puts findings into the order of the report: by the line, on one line by the column, in one
/// column by the code. Findings at one place with one code keep their order. The only error is
/// out of memory. It takes time linear in the findings where few are out of order, and else
/// n log n.
pub fn sort_findings(findings: &mut Vec<Finding>) -> Result<(), Memory>
    ensures { OnOk result (findings_of findings.new.items ≡ in_order
        (findings_of findings.old.items)) }
{
    findings.sort_by(compare)?;
    Ok(())
}
