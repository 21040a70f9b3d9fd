// The text that tells all faults of all areas of a transfer, and the lines of the report on them.
//
// - **The text.** `fault_text` has one area after another: its names, a line for each fault, and
//   eight counts. Curves and objects are named by their lines of the transfer, and places have the
//   decimals of the model. `specs/FaultText/Text` spells each line; docs/faults.md says what they
//   mean.
// - **A transfer that is rejected** before its areas are drawn has a text too: `rejected_text` has
//   the lines of the report on it, which come as a text, and before them how many findings it has.
// - **The report.** `fault_report` has a line for each area: its names, the eight counts, and a
//   word where its forks are bent, no level settles it or the pairs that are told are not all. Its
//   last line is the verdict, which `all_verdict` fixes.
// - **Held, not written.** The text is held in memory (`file_pages`), so that nothing is written
//   before the verdict is known.
// - **Degenerate cases.** An area without a fault has its names and its counts alone. A number
//   beyond the last curve or point of the drawing, which no list of faults has, stands for a curve
//   or a point at the origin in line 0.
// - **Not here:** which faults there are (`area_faults`), and the SURFACEs, whose lines come as a
//   text (`reports`).
//
// Cost: time and memory in proportion to the text. The only error is out of memory.
mod areas;
mod curves;
mod kinds;
mod naming;
mod points;
mod rejections;
mod report;
mod rings;
mod verdicts;
mod words;

pub use areas::fault_text;
pub use kinds::AreaTelling;
pub use rejections::rejected_text;
pub use report::fault_report;
pub use verdicts::{Verdict, all_verdict};
