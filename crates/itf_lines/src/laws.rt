// Laws of the lines of a text.
ghost use Rattle.std.specs.Prelude.{◌≡◌, ◌≤◌, ◌++◌, [], List, ℕ, length};
ghost use Rattle.itf_lines.specs.LogicalLines.{LogicalLine, logical};
ghost use Rattle.itf_lines.specs.FeedStates.{FeedState, opening};
ghost use Rattle.itf_lines.specs.Feeds.{Reads, lines_from_state};
ghost use Rattle.itf_lines.specs.Rising.{Rise, AreAtMost};

/// A feed that begins before a text has the logical lines of that text.
pub fn from_the_opening()
    ensures { (code : ℕ) (text : List ℕ)
        → lines_from_state (opening code) text ≡ logical code text }
{}

/// The numbers of logical lines rise from 1 on, and none is greater than the number of physical
/// lines; also where the first lines came from one piece and the others from later ones. There are
/// at most as many physical lines as bytes.
pub fn numbers_rise()
    ensures rise { (code : ℕ) (text : List ℕ) → Rise 0 (logical code text).lines }
    ensures within { (code : ℕ) (text : List ℕ)
        → AreAtMost (logical code text).total (logical code text).lines }
    ensures later { (code : ℕ) (text more : List ℕ)
        (lines : List LogicalLine) (feed : FeedState)
        → Reads (opening code) text lines feed []
        → Rise 0 (lines ++ (lines_from_state feed more).lines) }
    ensures later_within { (code : ℕ) (text more : List ℕ)
        (lines : List LogicalLine) (feed : FeedState)
        → Reads (opening code) text lines feed []
        → AreAtMost (lines_from_state feed more).total
        (lines ++ (lines_from_state feed more).lines) }
    ensures few { (code : ℕ) (text : List ℕ) → (logical code text).total ≤ length text }
{}
