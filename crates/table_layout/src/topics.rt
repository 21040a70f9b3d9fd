// The tables of a topic, and the numbers of its main tables.
ghost use Rattle.std.specs.Prelude.{◌≡◌, ◌≤◌, ◌+◌, ◌++◌, length, IfOk};
ghost use Rattle.std.specs.Result.{OnOk};
ghost use Rattle.std.specs.List.{All};
ghost use Rattle.resolver.specs.Values.{tables_of};
ghost use Rattle.table_layout.specs.Few.{IsSmallTable};
ghost use Rattle.table_layout.specs.Tables.{numbers_from, tables_in, topic_tables};
ghost use Rattle.table_layout.specs.Values.{tables_view};

use super::layouts::Table;
use super::tables::{Owner, add_tables, areas_in, surfaces_in};
use ports::Memory;
use resolver::{ModelTable, Topic};
use std::alloc::Global;

/// Adds the tables of a topic in their order.
pub fn add_topic(
    alloc: Global,
    number: u32,
    topic: &Topic,
    tables: &mut Vec<Table>,
) -> Result<(), Memory>
    requires few { length tables.old.items + tables_in (tables_of topic.now.tables.items)
        ≤ 4194304 }
    requires small { All IsSmallTable (tables_of topic.now.tables.items) }
    ensures { OnOk result (tables_view tables.new.items ≡ tables_view tables.old.items
        ++ topic_tables number (length tables.old.items) (tables_of topic.now.tables.items)) }
{
    let mains = numbers(alloc, tables.len() as u32, &topic.tables)?;
    for (at, table) in topic.tables.iter().enumerate() {
        let owner = Owner {
            topic: number,
            mains: &mains,
            main: mains[at],
            name: &table.name,
        };
        add_tables(alloc, owner, table, tables)?;
    }
    Ok(())
}

// The numbers of the declared tables, where the first table of the topic has this number.
fn numbers(alloc: Global, first: u32, tables: &[ModelTable]) -> Result<Vec<u32>, Memory>
    requires few { first + tables_in (tables_of tables.now) ≤ 4194304 }
    requires small { All IsSmallTable (tables_of tables.now) }
    ensures { IfOk result (λ numbers. numbers.items ≡ numbers_from first (tables_of tables.now)) }
{
    let mut numbers = Vec::new(alloc);
    let mut next = first;
    for table in tables {
        let main = next + areas_in(&table.attributes);
        numbers.push(main)?;
        next = main + 1 + surfaces_in(&table.attributes);
    }
    Ok(numbers)
}
