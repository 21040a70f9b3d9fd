//! Tests of the crates that read a transfer, by their public items alone: files and outputs,
//! logical lines, and whole transfers with what is wrong with their values and keys. The values of
//! words and lines, keys, and lines at fault are rows of `worked_rows`.
//!
//! They are in a crate of their own since a library with tests is proved once more with them.
#![tactic(auto)]

#[cfg(test)]
mod layouts;
#[cfg(test)]
mod lines;
#[cfg(test)]
mod shelves;
#[cfg(test)]
mod transfers;
