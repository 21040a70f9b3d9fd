// How a transfer is judged whose bytes come in pieces.
mod closing;
mod found;
mod keeping;
mod lines;
mod linked;
mod linking;
mod rows;

pub use closing::{Judged, Wanted, judge_end, judge_rows};
pub use found::TableFound;
pub use keeping::{RowKeeper, count_objects};
pub use lines::Judge;
pub use linked::{CleanLinks, LinksJudged, judge_links};
pub use linking::LinksKept;
pub use rows::TransferKept;
