// What areas and tables are called.
ghost use Rattle.std.specs.Prelude.{◌≡◌, [], slice_get, slice_index_or, IfOk};
ghost use Rattle.table_layout.specs.Values.{area_view, layout_view, tables_view};
ghost use Rattle.reports.specs.AreaNames.{table_name, topic_name};
ghost use Rattle.reports.specs.OutcomeViews.{table_there};

use ports::{Memory, Name};
use std::alloc::Global;
use table_layout::{AreaOf, Layout, Table};

/// The names of an area's topic, of its main table and of its attribute.
#[derive(Drop)]
pub struct AreaNames {
    pub topic: Name,
    pub table: Name,
    pub attribute: Name,
}

/// The name of the topic of that number, empty where there is none.
pub fn topic_text(topics: &[Name], topic: u32) -> &[u8]
    ensures { result.now ≡ slice_index_or topics.now topic [] }
{
    match topics.get(topic as usize) {
        Some(name) => name.bytes(),
        None => b"",
    }
}

// The main table of an area, if it is there.
fn main_table<'a>(layout: &'a Layout, area: &AreaOf) -> Option<&'a Table>
    ensures { table_there result ≡ slice_get (tables_view layout.now.tables.items)
        area.now.main.0 }
{
    layout.tables.get(area.main.0 as usize)
}

/// The name of the topic of an area's main table, empty where there is none.
pub fn topic_name<'a>(layout: &'a Layout, area: &AreaOf) -> &'a [u8]
    ensures { result.now ≡ topic_name (layout_view layout.now) (area_view area.now) }
{
    match main_table(layout, area) {
        Some(table) => topic_text(&layout.topics, table.topic),
        None => b"",
    }
}

/// The name of an area's main table, empty where there is none.
pub fn table_name<'a>(layout: &'a Layout, area: &AreaOf) -> &'a [u8]
    ensures { result.now ≡ table_name (layout_view layout.now) (area_view area.now) }
{
    match main_table(layout, area) {
        Some(table) => table.name.bytes(),
        None => b"",
    }
}

/// The names of an area of the layout.
pub fn names_of(alloc: Global, layout: &Layout, area: &AreaOf) -> Result<AreaNames, Memory>
    ensures topic { IfOk result (λ n. n.topic ≡ topic_name (layout_view layout.now)
        (area_view area.now)) }
    ensures table { IfOk result (λ n. n.table ≡ table_name (layout_view layout.now)
        (area_view area.now)) }
    ensures attribute { IfOk result (λ n. n.attribute ≡ (area_view area.now).name) }
{
    Ok(AreaNames {
        topic: Name::new(alloc, topic_name(layout, area))?,
        table: Name::new(alloc, table_name(layout, area))?,
        attribute: Name::new(alloc, area.name.bytes())?,
    })
}
