//! Names and types of a model: what is written becomes what it stands for (INTERLIS 1,
//! SN 612030).
//!
//! - **What is promised.** `specs/Breaking` has each rule on names and types by what is written
//!   (`Breaks`), the cases of each row of the table of rules one by one, and `specs/Occurring` what
//!   is written where. `specs/First` has the first broken rule (`IsFirstBroken`): that at the
//!   earliest name in the text, and at one name the first code. `specs/Standing` says of each part
//!   what it stands for by what is written alone (`IsModel`), and `specs/Sound` what the next layer
//!   needs of it.
//! - **How it is computed.** `specs/Rules` has all rules as one list of faults (`faults`), and the
//!   fault that counts (`first_fault`). Of each model within the limits `faults` has exactly the
//!   rules that are broken, and the first of them counts (`broken_is_listed`, `first_is_least`,
//!   `first_broken_counts`). `specs/Models` has what a model without fault stands for
//!   (`resolved_model`), a function of its syntax.
//! - **One first broken rule.** A rule is broken at a name that is written, and no two names of a
//!   text stand at one place, so a text has one first broken rule at most (`one_first_broken`).
//! - **Bounds are values.** The text of a bound, read as `decimals` reads a value at the scale of
//!   its type, is that bound (`bounds_are_values`).
//! - **What is there.** The types of a resolved model (`models`), and the call `resolve`, which
//!   names the first broken rule or gives what the model stands for. Its parts are two programs
//!   over one scope:
//!   - `scope`: what has a name (`named`), the names of a scope with their first declarations
//!     (`name_index`), the domains whose type is another domain's name, with the last domain of
//!     each such chain and the domains on a cycle (`aliases`, `domain_scope`), the domains that are
//!     declared outside the topics (`declared`), the scope of a topic (`topic_scope`), and what a
//!     name and a type stand for in a scope;
//!   - `rules`: the rules on names, types, lines, domains, tables and topics, each of which
//!     reports its faults to `earliest`;
//!   - `build`: what types, lines, attributes, tables and topics stand for.
//!
//!   Both read bounds and overlaps at a scale (`numbers`).
//! - **What the next layer may use.** A resolved model is sound (`IsSound`), as the layout of
//!   tables asks: each reference is the number of a table of its topic, each place in an IDENT
//!   list that of an attribute, the attributes of LINEATTR are values and references, the window
//!   of an AREA is less than 2^40 units wide in each axis, there are at most 4,194,304 names, those
//!   of topics, tables and attributes have the form of names, and the three codes are bytes from
//!   33 to 126, no two equal.
//! - **No value in place of a missing one.** Where a rule is broken `resolved_model` gives some
//!   harmless value. A model without fault meets none: the law `stands_for_what_is_written` says
//!   that `resolved_model` keeps to `IsModel`. In particular each chain of names ends at a type.
//! - **Degenerate cases:** a domain may be used before its declaration; of two declarations the
//!   first counts; a chain of names may end at no type, by an unknown name or on a cycle.
//!
//! Cost: names are looked up in maps; the ends of chains of names take 22 passes over the domains
//! of a topic, each in proportion to their number; the leaves of a domain are counted once. The
//! rest is in proportion to the text, but for the attributes of a domain's lines: each attribute
//! of that domain copies them, so that a model may take time and memory with the square of its
//! text, some 310 bytes for each attribute of each copy.
#![tactic(auto)]

mod build;
mod earliest;
mod faults;
mod laws;
mod leaves;
mod models;
mod numbers;
mod resolving;
mod rules;
mod scope;
mod shape;

pub use faults::{ModelCode, ModelFault};
pub use laws::{
    bounds_are_values, broken_is_listed, first_broken_counts, first_is_least, one_first_broken,
    stands_for_what_is_written,
};
pub use models::{
    Attribute, AttributeForm, Block, Form, Limits, LineForm, LinePart, ModelTable, Places,
    ResolvedModel, Topic, Window,
};
pub use resolving::resolve;
pub use rules::helper_name;
