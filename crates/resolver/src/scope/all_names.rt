// Hashes of the names of a list.
ghost use Rattle.std.specs.Prelude.{◌≡◌};

use ili_grammar::{Ident, TableSyntax};
use ports::Key;
use std::hash::{BuildHasher, DefaultHasher, Hash};

/// Makes the hashes of names. Each begins with all of them, so that every choice of a name changes
/// the hashes of all: names that have one hash cannot be collected beforehand, though the file is
/// its author's and the hash is known. No clause speaks of that.
#[derive(Clone, Copy)]
pub struct AllNames {
    hasher: DefaultHasher,
}

impl AllNames {
    /// For the names of a list. It reads each once.
    pub fn new(names: &[&Ident]) -> AllNames {
        let mut hasher = DefaultHasher::new();
        for name in names {
            key_of(name).hash(&mut hasher);
        }
        AllNames { hasher }
    }

    /// For the names of tables and of their helper tables, which the names of tables and of their
    /// attributes make. It reads each of these once.
    pub fn of_tables(tables: &[TableSyntax]) -> AllNames {
        let mut hasher = DefaultHasher::new();
        for table in tables {
            hash_table(table, &mut hasher);
        }
        AllNames { hasher }
    }
}

// Hashes the name of a table and those of its attributes.
fn hash_table(table: &TableSyntax, hasher: &mut DefaultHasher) {
    key_of(&table.name).hash(hasher);
    for attribute in &table.attributes {
        key_of(&attribute.name).hash(hasher);
    }
}

impl BuildHasher for AllNames {
    type Hasher = DefaultHasher;

    ghost build_hasher = { λ all. all.hasher };

    fn build_hasher(&self) -> DefaultHasher {
        self.hasher
    }
}

/// The bytes of a name as a key.
pub fn key_of(name: &Ident) -> Key<'_>
    ensures { result ≡ name.now.text }
{
    Key::new(name.text.bytes())
}
