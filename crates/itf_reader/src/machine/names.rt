// The names of a layout.
ghost use Rattle.std.specs.Prelude.{◌≡◌, ◌≤◌, length, IfOk, OnOk};
ghost use Rattle.std.specs.List.{position_from};
ghost use Rattle.ports.specs.SortedKeys.{IsSortedKeys, is_key};
ghost use Rattle.table_layout.specs.Values.{layout_view, tables_view};
ghost use Rattle.itf_reader.specs.Forms.{names, topic_named, table_named};
ghost use Rattle.itf_reader.specs.TableKeys.{lines_found, entry_at, name_keys, table_key};
ghost use Rattle.itf_reader.specs.TableKeys.{table_keys, AreSmall};
ghost use Rattle.itf_reader.specs.Layouts.{form_of};

use itf_lines::Field;
use ports::{Memory, Name, SortedKeys};
use std::alloc::Global;
use table_layout::{Layout, Table};

/// A layout with its names in order: those of its topics, and for each table the number of its
/// topic and its name as one key. The first of a name counts.
#[derive(Drop)]
pub struct Names<'a> {
    pub layout: &'a Layout,
    topics: SortedKeys,
    keys: Vec<Name>,
    tables: SortedKeys,
    ghost topics_sorted: { IsSortedKeys (name_keys layout.now.topics.items) topics },
    ghost tables_sorted: { IsSortedKeys (name_keys keys.items) tables },
    ghost keys_given: { keys.items ≡ table_keys (tables_view layout.now.tables.items) },
    ghost small: { AreSmall (tables_view layout.now.tables.items) },
    ghost few: { length layout.now.tables.items ≤ 4194304 },
}

// The number of a topic and a name as one key: eight bytes, then those of the name.
fn table_key(alloc: Global, topic: u64, name: &[u8]) -> Result<Name, Memory>
    ensures { IfOk result (λ key. key ≡ table_key topic name.now) }
{
    let mut bytes = Vec::new(alloc);
    bytes.extend_from_slice(&topic.to_be_bytes())?;
    bytes.extend_from_slice(name)?;
    Name::new(alloc, &bytes)
}

// The keys of all tables.
fn table_keys(alloc: Global, tables: &[Table]) -> Result<Vec<Name>, Memory>
    ensures keys { IfOk result (λ keys. keys.items ≡ table_keys (tables_view tables.now)) }
    ensures small { OnOk result (AreSmall (tables_view tables.now)) }
{
    let mut keys = Vec::with_capacity(alloc, tables.len())?;
    for table in tables {
        keys.push(table_key(alloc, u64::from(table.topic), table.name.bytes())?)?;
    }
    Ok(keys)
}

impl<'a> Names<'a> {
    ghost use Rattle.itf_reader.specs.Names.{form_in};

    /// The names of a layout, in order. It takes n log n comparisons for every layout. The only
    /// error is out of memory.
    pub fn new(alloc: Global, layout: &'a Layout) -> Result<Names<'a>, Memory>
        requires { length layout.now.tables.items ≤ 4194304 }
        ensures { IfOk result (λ names. form_in names ≡ form_of (layout_view layout.now)) }
    {
        let topics = SortedKeys::new(alloc, &layout.topics)?;
        let keys = table_keys(alloc, &layout.tables)?;
        let tables = SortedKeys::new(alloc, &keys)?;
        Ok(Names {
            layout,
            topics,
            keys,
            tables,
        })
    }

    /// The fields name the model.
    pub fn is_model(&self, fields: &[Field]) -> bool
        ensures { result ≡ names fields.now (form_in self.now).model }
    {
        match fields {
            [field] => field.bytes() == self.layout.model.bytes(),
            _ => false,
        }
    }

    /// The number of the topic that the fields name.
    pub fn find_topic(&self, fields: &[Field]) -> Option<usize>
        ensures { result ≡ topic_named 0 fields.now (form_in self.now).topics }
    {
        match fields {
            [field] => self.topics.first(&self.layout.topics, field.bytes()),
            _ => None,
        }
    }

    // The number of the table with that key, and how many lines it has.
    fn find_key(&self, key: &[u8]) -> Option<(u32, usize)>
        ensures { result ≡ entry_at (tables_view self.now.layout.now.tables.items)
            (position_from (is_key key.now) 0 (name_keys self.now.keys.items)) }
    {
        let place = self.tables.first(&self.keys, key)?;
        let table = self.layout.tables.get(place)?;
        Some((place as u32, table.lines.len()))
    }

    /// The number of the table of that topic that the fields name, and how many lines it has. The
    /// only error is out of memory.
    pub fn find_table(
        &self,
        alloc: Global,
        topic: usize,
        fields: &[Field],
    ) -> Result<Option<(u32, usize)>, Memory>
        ensures { IfOk result (λ found. found ≡ lines_found
            (table_named 0 topic fields.now (form_in self.now).tables)) }
    {
        match fields {
            [field] => {
                let key = table_key(alloc, topic as u64, field.bytes())?;
                Ok(self.find_key(key.bytes()))
            }
            _ => Ok(None),
        }
    }
}
