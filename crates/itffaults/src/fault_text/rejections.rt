// The text of a transfer that is rejected before its areas are drawn.
ghost use Rattle.std.specs.Prelude.{◌≡◌, ◌++◌, IfOk, OnOk};
ghost use Rattle.itffaults.specs.FaultText.Text.{findings_text, rejected_text};

use super::words::add_number;
use file_pages::HeldText;
use ports::Memory;
use std::alloc::Global;

// How many findings there are, where there are some.
fn add_findings(text: &mut HeldText, findings: usize) -> Result<(), Memory>
    ensures { OnOk result (text.new ≡ text.old ++ findings_text findings) }
{
    if 0 < findings {
        text.add(b"FINDINGS ")?;
        add_number(text, findings as u64)?;
        return text.add(b"\n");
    }
    Ok(())
}

/// The text of a transfer that is rejected before its areas are drawn: how many findings it has,
/// where it has some, and these lines of the report.
pub fn rejected_text(alloc: Global, findings: usize, lines: &[u8]) -> Result<HeldText, Memory>
    ensures { IfOk result (λ text. text ≡ rejected_text findings lines.now) }
{
    let mut text = HeldText::new(alloc, b"")?;
    text.add(b"ITFFAULTS 1\n")?;
    add_findings(&mut text, findings)?;
    text.add(lines)?;
    text.add(b"END\n")?;
    Ok(text)
}
