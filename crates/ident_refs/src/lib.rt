//! Keys and references: which rows of a transfer repeat a key that must be unique, and which
//! references name no row.
//!
//! `check_keys` takes the rows of all tables and answers the findings `tid`, `ident` and
//! `reference` in the order of the report (INTERLIS 1, SN 612030: the identifications of objects,
//! IDENT, and references).
//!
//! - **Identifications.** Each row that repeats the identification of an earlier row of its table
//!   has one finding, with the line of the first row that has it. The undefined word is an
//!   identification like any other, and a row with a wrong number of fields has its own too.
//! - **IDENT lists.** No two rows have the same values by a list. A row has none by it where its
//!   number of fields is wrong, or where a value of the list is undefined or has a finding of its
//!   own (`row_findings` of `itf_reader`), a line's vertices included. Numbers are compared at the
//!   scale of their bounds, lines vertex by vertex, all else by bytes. The finding is in the column
//!   of the list's first place.
//! - **References.** A word that is not the undefined word must be the identification of a row of
//!   the table that its column refers to, before or after it.
//! - **Row by row.** A `KeyFeed` takes the rows of all tables one after another and keeps of each
//!   its line, its identification, its keys at the places of IDENT lists, and its references. Its
//!   `Keys` (`sorted`) say what is wrong with all of them, and which rows the references of a
//!   column name (`rows_named`). `check_keys` is one feed over the rows of a transfer.
//! - **Keys** are bytes: a word with one byte before it, the numbers of a value in eight bytes
//!   each, and of several values each with an end mark. Rows have one key exactly where they have
//!   the same values.
//! - **What is proved.** The answer is `key_findings` of `specs/KeyFindings.antt`, which goes over
//!   rows and the rows before them, and knows no key. That equal keys are equal values is a lemma
//!   of `proofs/Injective.antt`. A caller that feeds each row when it is closed has the findings of
//!   the whole transfer (`fed_transfer`).
//! - **Not here:** whether values meet their domains (`domain_rules`), and whether a table must
//!   have rows.
//! - **Degenerate cases:** a row without fields has no identification. Two lists with one first
//!   place give two findings. A list without places is the same for all rows. Where a transfer has
//!   fewer tables than the layout, the others have no rows.
//!
//! Cost: the keys of each list are sorted, and found by binary search, in n log n comparisons for
//! every input. A feed keeps 20 bytes for each row, 36 where its table has IDENT lists, 16 for each
//! value at a place of these, 32 for each reference, and the bytes of keys of more than 14; at the
//! end 16 further ones for each row of all tables, and 32 and a key for each row of the table whose
//! list is looked at. Lists of the same places are looked at once; different ones take time, but no
//! memory, for rows times lists. The words of IDENT lists are read once more, the vertices of their
//! lines twice more. The order of the findings takes what a sort takes.
#![tactic(auto)]

mod asked;
mod feed;
mod ident_lists;
mod key_bytes;
mod key_cell;
mod key_reader;
mod key_values;
mod keys;
mod laws;
mod references;
mod repeats;
mod row_keys;
mod shared_lists;
mod sorted;
mod table_keys;
mod values;

pub use feed::KeyFeed;
pub use keys::check_keys;
pub use laws::fed_transfer;
pub use references::NamedRow;
pub use sorted::Keys;
