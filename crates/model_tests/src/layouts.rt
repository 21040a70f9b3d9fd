// The layout of a topic with one table: a parcel has a number, which identifies it, and a form,
// which is an AREA.
ghost use Rattle.std.specs.Prelude.{IfSome};
ghost use Rattle.table_layout.specs.Valid.{IsValid};
ghost use Rattle.table_layout.specs.Values.{layout_view};

use super::texts::resolved;
use std::alloc::Global;
use table_layout::{AreaOf, Layout, Role, Table, TableId, layout, table_of};

const PARCEL: &[u8] = b"TRANSFER One; DOMAIN Metres = COORD2 0.000 0.000 1000.000 1000.000;\n\
    MODEL M TOPIC T =\nTABLE Parcel = Nr: TEXT*12; Form: AREA WITH (ARCS) VERTEX Metres \
    WITHOUT OVERLAPS > 0.050; IDENT Nr; END Parcel;\nEND T. END M. FORMAT FREE; \
    CODE BLANK = DEFAULT, UNDEFINED = DEFAULT, CONTINUE = DEFAULT; TID = ANY; END.\n";

fn laid(alloc: Global) -> Option<Layout>
    ensures { IfSome result (λ layout. IsValid (layout_view layout)) }
{
    let model = resolved(alloc, PARCEL)?;
    layout(alloc, &model).ok()
}

fn is_table(table: &Table, name: &[u8], role: Role, counts: (usize, usize)) -> bool {
    table.name.bytes() == name
        && table.role == role
        && (table.columns.len(), table.lines.len()) == counts
}

const HELPER: Role = Role::AreaLines {
    main: TableId(1),
    column: 1,
};

// Whether there is the helper table before the table, each with its columns and lines.
fn are_tables(tables: &[Table]) -> bool {
    tables.len() == 2
        && is_table(&tables[0], b"Parcel_Form", HELPER, (0, 1))
        && is_table(&tables[1], b"Parcel", Role::Main, (2, 0))
}

fn is_area(areas: &[AreaOf]) -> bool {
    areas.len() == 1 && areas[0].name.bytes() == b"Form".as_slice()
}

// A topic, a name, and the number of the table.
const CASES: [(u32, &str, Option<u32>); 5] = [
    (0, "Parcel_Form", Some(0)),
    (0, "Parcel", Some(1)),
    (1, "Parcel", None),
    (0, "Parce", None),
    (0, "", None),
];

fn finds_tables(layout: &Layout) -> bool
    requires { IsValid (layout_view layout.now) }
{
    for (topic, name, number) in &CASES {
        if table_of(layout, *topic, name.as_bytes()) != number.map(TableId) {
            return false;
        }
    }
    true
}

// Whether the layout is that of the page, and its tables are found.
fn is_laid(alloc: Global) -> bool {
    match laid(alloc) {
        Some(layout) => {
            are_tables(&layout.tables) && is_area(&layout.areas) && finds_tables(&layout)
        }
        None => false,
    }
}

#[test]
fn an_area_has_a_helper_table_before_its_table(rt: HostRuntime) {
    assert!(rt; is_laid(rt.alloc()));
}
