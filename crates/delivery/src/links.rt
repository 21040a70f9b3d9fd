// Points that must lie in the area of the object that their row refers to.
mod asked;
mod gathering;
mod regions;
mod testing;

pub use asked::{AskedArea, asked_areas};
pub use gathering::{TestedLinks, gather};
pub use regions::misplaced;
pub use testing::{TestedAnswers, tested_answers};
