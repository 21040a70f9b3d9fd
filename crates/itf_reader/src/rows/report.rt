// Findings of values.
ghost use Rattle.std.specs.Prelude.{◌≡◌};
ghost use Rattle.std.specs.Result.{OnOk};
ghost use Rattle.itf_reader.specs.Findings.{AddsFindings};
ghost use Rattle.itf_reader.specs.StrokeFindings.{code_of, finding_at};

use crate::findings::{Code, Fault, Finding};
use field_values::ValueFault;
use ports::Memory;

/// Adds a finding, if a test failed.
pub fn report(
    findings: &mut Vec<Finding>,
    line: u32,
    column: u32,
    failed: Option<Code>,
) -> Result<(), Memory>
    ensures { OnOk result (AddsFindings findings.old.items findings.new.items
        (finding_at line column failed)) }
{
    if let Some(code) = failed {
        findings.push(Finding {
            line,
            column,
            fault: Fault::Value(code),
        })?;
    }
    Ok(())
}

/// The code of a rule that words break.
pub fn code_of(fault: ValueFault) -> Code
    ensures { result ≡ code_of fault }
{
    match fault {
        ValueFault::Undefined => Code::Undefined,
        ValueFault::Number => Code::Number,
        ValueFault::Decimals => Code::Decimals,
        ValueFault::Range => Code::Range,
        ValueFault::Text => Code::Text,
        ValueFault::Date => Code::Date,
        ValueFault::Enum => Code::Enum,
        ValueFault::Coord => Code::Coord,
    }
}
