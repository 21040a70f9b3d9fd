// Laws of the values of transfers.
ghost use Rattle.std.specs.Prelude.{◌≡◌, List, [], ◌∷◌, ◌++◌, ℕ, Some, map, slice_get};
ghost use Rattle.itf_lines.specs.LogicalLines.{LogicalLine};
ghost use Rattle.table_layout.specs.Layouts.{Layout, Table};
ghost use Rattle.itf_reader.specs.ClosedRows.{closed_rows};
ghost use Rattle.itf_reader.specs.Findings.{in_order};
ghost use Rattle.itf_reader.specs.Forms.{Row};
ghost use Rattle.itf_reader.specs.Layouts.{form_of};
ghost use Rattle.itf_reader.specs.RowFindings.{row_findings};
ghost use Rattle.itf_reader.specs.TransferText.{TransferText};
ghost use Rattle.domain_rules.specs.CleanPlaces.{HavePlaces};
ghost use Rattle.domain_rules.specs.FedFindings.{all_findings, fed_findings};
ghost use Rattle.domain_rules.specs.FedFindings.{no_findings, with_findings};
ghost use Rattle.domain_rules.specs.ValueFindings.{value_findings};

/// Where no value is at fault, each row has the words of its columns, each vertex is read without a
/// fault, each vertex and each point of an object in its area has a place in its window, the ends
/// of an arc differ, and a point of an arc that lies on one straight with its ends lies between
/// them.
pub fn clean_places()
    ensures { (l : Layout) (transfer : List (List Row))
        → value_findings l transfer ≡ [] → HavePlaces l.codes l.tables transfer }
{}

/// A caller that judges each row when it is closed, and adds what is wrong with it to the findings
/// of its table, has those of the whole transfer: none before the first row, those of one more row
/// after those of its table, and in the end, table by table, those that `check_values` puts in
/// order.
pub fn fed_values()
    ensures none { (l : Layout) → fed_findings l [] ≡ map no_findings l.tables }
    ensures more { (l : Layout) (rows : List (ℕ × Row)) (n : ℕ) (t : Table) (r : Row)
        → slice_get l.tables n ≡ Some t → fed_findings l (rows ++ (n, r) ∷ [])
        ≡ with_findings n (row_findings l.codes t r) (fed_findings l rows) }
    ensures whole { (l : Layout) (lines : List LogicalLine) (transfer : List (List Row))
        → TransferText (form_of l) lines transfer → value_findings l transfer
        ≡ in_order (all_findings (fed_findings l (closed_rows (form_of l) lines))) }
{}
