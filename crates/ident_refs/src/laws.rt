// Laws of the keys of transfers.
ghost use Rattle.std.specs.Prelude.{◌≡◌, List};
ghost use Rattle.itf_lines.specs.LogicalLines.{LogicalLine};
ghost use Rattle.table_layout.specs.Layouts.{Layout};
ghost use Rattle.itf_reader.specs.ClosedRows.{closed_rows};
ghost use Rattle.itf_reader.specs.Findings.{in_order};
ghost use Rattle.itf_reader.specs.Forms.{Row};
ghost use Rattle.itf_reader.specs.Layouts.{form_of};
ghost use Rattle.itf_reader.specs.TransferText.{TransferText};
ghost use Rattle.ident_refs.specs.FedRows.{fed_keys};
ghost use Rattle.ident_refs.specs.KeyFindings.{key_findings};

/// A caller that feeds each row when it is closed, and keeps none, finds what is wrong with the
/// keys of the whole transfer: the rows that the lines of a text close, one after another, have
/// the findings that `check_keys` puts in order.
pub fn fed_transfer()
    ensures { (l : Layout) (lines : List LogicalLine) (transfer : List (List Row))
        → TransferText (form_of l) lines transfer
        → key_findings l transfer ≡ in_order (fed_keys l (closed_rows (form_of l) lines)) }
{}
