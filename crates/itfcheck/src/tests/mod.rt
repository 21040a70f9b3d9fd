//! Calls of the program's `run` that rows of data cannot show: refused growths, files that come in
//! pieces or without end, links at their limit, the largest trial, and the calls beside `run`. The
//! worked rows stand in `crates/worked_rows`.

mod calls;
mod endless;
mod growths;
mod links;
mod pieces;
mod trials;
