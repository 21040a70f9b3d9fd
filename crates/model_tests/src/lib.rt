//! Tests of the crates that read a model, by their public items alone: numbers with a point,
//! tokens, what is read of a model, and the layout of tables. The faults of models are rows of
//! `worked_rows`.
//!
//! They stand in a crate of their own since a library with tests is proved once more with them.
#![tactic(auto)]

#[cfg(test)]
mod grammar;
#[cfg(test)]
mod layouts;
#[cfg(test)]
mod numbers;
#[cfg(test)]
mod texts;
#[cfg(test)]
mod tokens;
