// What is told of a transfer that a check rejects before any area is searched.
ghost use Rattle.std.specs.Prelude.{◌≡◌, ◌++◌, List, ℕ, IfOk, codes};
ghost use Rattle.reports.specs.Lines.{Line};
ghost use Rattle.reports.specs.OutcomeViews.{outcome_of};
ghost use Rattle.itffaults.specs.Faults.{IsRejection, rejection};

use super::fault_text::rejected_text;
use crate::telling::Telling;
use ports::Memory;
use reports::outcome::Outcome;
use reports::{Status, report};
use std::alloc::Global;

// The lines of the report of a transfer that is rejected, without the verdict, which is the last.
fn without_verdict(report: &[u8]) -> &[u8]
    ensures { (lines : List ℕ) → report.now ≡ lines ++ codes "VERDICT REJECTED\n"
        → result.now ≡ lines }
{
    &report[..report.len().saturating_sub(b"VERDICT REJECTED\n".len())]
}

/// Tells the lines of the report of a transfer that is rejected.
pub fn tell_rejection(alloc: Global, outcome: &Outcome<'_>) -> Result<Telling, Memory>
    ensures { IfOk result (λ t. (ls : List Line) → outcome_of outcome.now ≡ rejection ls
        → IsRejection ls t.text t.report.items t.status) }
{
    let report = report(alloc, outcome)?;
    let text = rejected_text(alloc, outcome.findings.len(), without_verdict(&report))?;
    Ok(Telling {
        text,
        report,
        status: Status::Rejected,
    })
}
