// Keys and references.
ghost use Rattle.std.specs.Prelude.{◌≡◌, IfOk};
ghost use Rattle.table_layout.specs.Values.{layout_view};
ghost use Rattle.table_layout.specs.Valid.{IsValid};
ghost use Rattle.itf_reader.specs.Findings.{findings_of};
ghost use Rattle.itf_reader.specs.Views.{transfer_of};
ghost use Rattle.ident_refs.specs.KeyFindings.{key_findings};

use super::feed::KeyFeed;
use itf_reader::{Finding, Transfer, sort_findings};
use ports::Memory;
use std::alloc::Global;
use table_layout::Layout;

/// Which identifications and IDENT values of a transfer that was read for the layout an earlier
/// row of the table has, and which references name no row, in order of line, column and code. The
/// only error is out of memory.
pub fn check_keys(
    alloc: Global,
    layout: &Layout,
    transfer: &Transfer,
) -> Result<Vec<Finding>, Memory>
    requires { IsValid (layout_view layout.now) }
    ensures { IfOk result (λ findings. findings_of findings.items
        ≡ key_findings (layout_view layout.now)
        (transfer_of transfer.now)) }
{
    let mut feed = KeyFeed::new(alloc, layout)?;
    feed.add_tables(&transfer.tables)?;
    let mut findings = Vec::new(alloc);
    feed.sorted()?.add_findings(&mut findings)?;
    sort_findings(&mut findings)?;
    Ok(findings)
}
