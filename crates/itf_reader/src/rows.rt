// The values of rows, and what is wrong with them.

mod columns;
mod counting;
mod lines;
mod reading;
mod report;
mod strokes;
mod values;
mod vertices;

pub use counting::is_counted;
pub use lines::is_sound_line;
pub use reading::RowReader;
pub use report::code_of;
pub use values::{Cell, ReadVertex, RowValues};
