// The layout of a model.
ghost use Rattle.std.specs.Prelude.{◌≡◌, ◌≤◌, map, IfOk};
ghost use Rattle.std.specs.List.{All};
ghost use Rattle.resolver.specs.Values.{model_of, topics_of};
ghost use Rattle.resolver.specs.Sound.{IsSound};
ghost use Rattle.table_layout.specs.Few.{IsSmallTopic, numbers_in};
ghost use Rattle.table_layout.specs.Tables.{layout_of, tables_from, topic_names_of};
ghost use Rattle.table_layout.specs.Valid.{IsValid};
ghost use Rattle.table_layout.specs.Values.{layout_view, tables_view};

use super::areas::areas;
use super::attributes::copied;
use super::layouts::{Layout, Table};
use super::topics::add_topic;
use ports::{Memory, Name};
use resolver::{ResolvedModel, Topic};
use std::alloc::Global;

/// The tables, columns, lines, IDENT lists and areas of a resolved model. The only error is out
/// of memory. Time and memory are in proportion to the model, and to the name of a table once for
/// each of its helper tables.
pub fn layout(alloc: Global, model: &ResolvedModel) -> Result<Layout, Memory>
    requires { IsSound (model_of model.now) }
    ensures stated { IfOk result (λ l. layout_view l ≡ layout_of (model_of model.now)) }
    ensures valid { IfOk result (λ l. IsValid (layout_view l)) }
{
    let tables = tables(alloc, &model.topics)?;
    let areas = areas(alloc, &tables)?;
    Ok(Layout {
        model: copied(alloc, &model.name)?,
        codes: model.codes,
        topics: names(alloc, &model.topics)?,
        tables,
        areas,
    })
}

// The tables of all topics in their order.
fn tables(alloc: Global, topics: &[Topic]) -> Result<Vec<Table>, Memory>
    requires few { numbers_in (topics_of topics.now) ≤ 4194304 }
    requires small { All IsSmallTopic (topics_of topics.now) }
    ensures { IfOk result (λ tables. tables_view tables.items
        ≡ tables_from 0 0 (topics_of topics.now)) }
{
    let mut tables = Vec::new(alloc);
    for (number, topic) in topics.iter().enumerate() {
        add_topic(alloc, number as u32, topic, &mut tables)?;
    }
    Ok(tables)
}

// The names of all topics in their order.
fn names(alloc: Global, topics: &[Topic]) -> Result<Vec<Name>, Memory>
    ensures { IfOk result (λ names. names.items ≡ topic_names_of (topics_of topics.now)) }
{
    let mut names = Vec::new(alloc);
    for topic in topics {
        names.push(copied(alloc, &topic.name)?)?;
    }
    Ok(names)
}
