// Laws of the form of a transfer text.
ghost use Rattle.std.specs.Prelude.{◌≡◌, List, ℕ, Ok, Err, ◌++◌, ◌∷◌, []};
ghost use Rattle.itf_lines.specs.LogicalLines.{LogicalLine, LogicalLines, logical};
ghost use Rattle.itf_reader.specs.Forms.{Form, Row, TopicRows};
ghost use Rattle.itf_reader.specs.TransferText.{IsText, TransferText, Begins, IsFaultAt};
ghost use Rattle.itf_reader.specs.Machine.{State, start, done, Code, Twice, run, step};
ghost use Rattle.itf_reader.specs.Codes.{HasCode};
ghost use Rattle.itf_reader.specs.NamedBefore.{NamedBefore};
ghost use Rattle.itf_reader.specs.ClosedRows.{by_table, closed_rows};
ghost use Rattle.itf_reader.specs.RowForms.{EachRow, IsCounted, HasForm};
ghost use Rattle.itf_reader.specs.RowLines.{LinesRise};
ghost use Rattle.itf_reader.specs.Readings.{Structure, IsRead, IsRefused, HasAnswer};
ghost use Rattle.itf_reader.specs.Reads.{read, refused, read_from, opening, end_of};
ghost use Rattle.itf_reader.specs.RowFeeds.{standing, shown_rows};

use itf_lines::numbers_rise;

/// Some lines are the text of at most one transfer.
pub fn one_transfer()
    ensures { (form : Form) (lines : List LogicalLine) (a b : List (List Row))
        → TransferText form lines a → TransferText form lines b
        → a ≡ b }
{}

/// A machine that takes line after line comes to its end with a text's topics exactly where the
/// lines are that text.
pub fn machine_reads()
    ensures reads { (form : Form) (lines : List LogicalLine) (ts : List TopicRows)
        → IsText form ts lines → run form start lines ≡ Ok (done ts) }
    ensures only { (form : Form) (lines : List LogicalLine) (ts : List TopicRows)
        → run form start lines ≡ Ok (done ts)
        → IsText form ts lines }
{}

/// It takes some lines exactly where they begin a text: what it takes can be carried on to one,
/// and what it refuses cannot.
pub fn machine_begins()
    ensures taken { (form : Form) (lines : List LogicalLine) (s : State)
        → run form start lines ≡ Ok s → Begins form lines }
    ensures refused { (form : Form) (lines : List LogicalLine) (c : Code)
        → run form start lines ≡ Err c → Begins form lines
        → ⊥ }
{}

/// So the line at which it stops is the line at fault, and its code is the first that fits.
pub fn machine_stops()
    ensures fault { (form : Form) (front : List LogicalLine) (l : LogicalLine) (s : State)
        (c : Code) → run form start front ≡ Ok s
        → step form s l ≡ Err c → IsFaultAt form front l }
    ensures code { (form : Form) (front : List LogicalLine) (l : LogicalLine) (s : State) (c : Code)
        → run form start front ≡ Ok s → step form s l ≡ Err c
        → HasCode form front l c }
{}

/// Some lines are read or refused, never both, and they are refused at one line with one code.
pub fn one_answer()
    ensures some { (form : Form) (given : LogicalLines) → HasAnswer form given }
    ensures never_both { (form : Form) (given : LogicalLines) (transfer : List (List Row)) (n : ℕ)
        (code : Structure) → IsRead form given transfer
        → IsRefused form given n code → ⊥ }
    ensures one_refusal { (form : Form) (given : LogicalLines) (n m : ℕ) (code other : Structure)
        → IsRefused form given n code → IsRefused form given m other
        → (n ≡ m) × (code ≡ other) }
{}

/// Each row of a transfer has as many strokes as its table has lines. A stroke is undefined, or it
/// has a start, and then straights and arcs, each arc by a point on it and its end.
pub fn strokes_counted()
    ensures counted { (form : Form) (lines : List LogicalLine) (transfer : List (List Row))
        → TransferText form lines transfer → EachRow IsCounted form.tables transfer }
    ensures form { (form : Form) (lines : List LogicalLine) (transfer : List (List Row))
        → TransferText form lines transfer → EachRow HasForm form.tables transfer }
{}

/// In each table of a text the lines rise: the line of a row, then those of its vertices, then
/// those of the next row.
pub fn lines_rise()
    ensures { (form : Form) (code : ℕ) (text : List ℕ) (transfer : List (List Row))
        → IsRead form (logical code text) transfer → LinesRise transfer }
{
    numbers_rise();
}

/// The rows that the lines of a text close one after another, each with the number of its table,
/// are all rows of its transfer, those of one table in their order. So a caller that takes each
/// row when it is closed, and keeps none, misses nothing.
pub fn rows_by_table()
    ensures { (form : Form) (lines : List LogicalLine) (transfer : List (List Row))
        → TransferText form lines transfer
        → transfer ≡ by_table form (closed_rows form lines) }
{}

/// A feed that begins before a text and takes all of its lines, and their end, gives the
/// transfer of these lines, or the line at fault with its code. The rows that it shows on the way
/// are all that the lines close, though no closed row is kept.
pub fn from_the_opening()
    ensures reads { (form : Form) (given : LogicalLines) (transfer : List (List Row))
        → read_from form opening given.lines (end_of given) ≡ read transfer
        → IsRead form given transfer }
    ensures refuses { (form : Form) (given : LogicalLines) (n : ℕ) (code : Structure)
        → read_from form opening given.lines (end_of given) ≡ refused n code
        → IsRefused form given n code }
    ensures shows { (form : Form) (lines : List LogicalLine)
        → shown_rows form (standing start) lines ≡ closed_rows form lines }
{}

/// A line with the code `twice` names a topic that a line TOPI after the head named before, or a
/// table that a line TABL named since the last line TOPI.
pub fn named_before()
    ensures { (form : Form) (front : List LogicalLine) (l : LogicalLine)
        → IsFaultAt form front l → HasCode form front l Twice
        → NamedBefore form front l.word l.fields }
{}
