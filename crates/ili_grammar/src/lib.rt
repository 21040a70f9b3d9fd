//! The grammar of a model: tokens become the syntax of a model, or the first token with which
//! they begin no model.
//!
//! A model is a transfer with domains, one model with domains and topics, the format and the
//! three codes. `parse` is one descent over the tokens, with the number of the next one passed
//! along. At most 32 Enumerations and LINEATTR parts enclose any place, so nothing recurses
//! deeper than that.
//!
//! - **What is proved.** What `parse` reads is spelt: the tokens of the text are exactly those
//!   of the syntax, by a grammar that is a relation on whole lists of tokens (`Spells`), with
//!   the bytes and places of names and the values of numbers. At most one syntax is spelt by a
//!   list of tokens (`one_model`).
//! - **Faults.** A fault is the first token with which the tokens begin no model, or the end of
//!   the text, with the first code that fits (`IsFirstFault`). Tokens that spell a model are
//!   refused only for out of memory. No tokens have two faults, or a fault and a model
//!   (`one_fault`).
//! - **What the next layer may use.** The syntax as it is written, in the order of the text. Its
//!   twin without memory is `model_of`. Numbers, the count of names, the form of the names of
//!   topics, tables and attributes, and the three codes keep the limits of `IsWithinLimits`.
//! - **Not here:** what names mean, whether bounds are in order, and which types may stand where.
//!   OPTIONAL before a topic, explanations, FONT and the form of identifications leave no mark.
//! - **Degenerate cases:** a topic without tables and a table without attributes are good. A
//!   number for a code may have a `+` and leading zeros, and no full stop.
//!
//! Cost: time and memory in proportion to the number of tokens. Only the bytes of names are
//! copied.
#![tactic(auto)]

mod codes;
mod decimals;
mod enumerations;
mod laws;
mod lines;
mod models;
mod numbers;
mod parsing;
mod source;
mod syntax;
mod types;

pub use laws::{one_fault, one_model};
pub use parsing::parse;
pub use syntax::{
    AttributeSyntax, Codes, Content, Corners2, Corners3, Decimal, DomainSyntax, Element, Ident,
    IdentList, LineSyntax, ModelSyntax, Span, SyntaxCode, SyntaxFault, TableSyntax, TopicSyntax,
    TypeSyntax,
};
