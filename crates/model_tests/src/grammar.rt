// What is read of a model: its parts, and the places and numbers in them.
use super::texts::{resolved, syntax_of};
use ili_grammar::{Codes, Content, Decimal, ModelSyntax, TableSyntax, TypeSyntax};
use resolver::{ModelTable, ResolvedModel};
use std::alloc::Global;

const MODEL: &[u8] = b"TRANSFER One;\nMODEL M\nTOPIC T =\n\
    TABLE A = N: OPTIONAL [-0.50 .. 10.5]; B: -> A; NO IDENT END A;\nEND T.\nEND M.\n\
    FORMAT FREE;\nCODE BLANK = DEFAULT, UNDEFINED = DEFAULT, CONTINUE = DEFAULT; TID = ANY; END.\n";

const CODES: Codes = Codes {
    blank: 95,
    undefined: 64,
    continued: 92,
};

// The only table of a model that has one topic.
fn table_of(model: &ModelSyntax) -> Option<&TableSyntax> {
    let topic = model.topics.first()?;
    if model.topics.len() == 1 && topic.tables.len() == 1 {
        return topic.tables.first();
    }
    None
}

// The digits, the scale, the line and the column of a number.
fn number(decimal: &Decimal) -> (i64, u8, u32, u32) {
    (decimal.digits, decimal.scale, decimal.line, decimal.column)
}

// The low and the high bound of the first attribute.
fn bounds(table: &TableSyntax) -> Option<[(i64, u8, u32, u32); 2]> {
    let attribute = table.attributes.first()?;
    match &attribute.content {
        Content::Value(TypeSyntax::Range(span)) => Some([number(&span.low), number(&span.high)]),
        _ => None,
    }
}

// The line and the column of the last attribute's name, and whether the first is optional, the
// last, and the table.
fn places(table: &TableSyntax) -> Option<(u32, u32, [bool; 3])> {
    let first = table.attributes.first()?;
    let last = table.attributes.last()?;
    let optional = [first.optional, last.optional, table.optional];
    Some((last.name.line, last.name.column, optional))
}

fn is_model(model: &ModelSyntax) -> bool {
    let Some(table) = table_of(model) else {
        return false;
    };
    table.attributes.len() == 2
        && bounds(table) == Some([(-50, 2, 4, 24), (105, 1, 4, 33)])
        && places(table) == Some((4, 40, [true, false, false]))
        && model.codes == CODES
        && model.transfer.text.bytes() == b"One".as_slice()
}

fn is_read(alloc: Global) -> bool {
    match syntax_of(alloc, MODEL) {
        Some(model) => is_model(&model),
        None => false,
    }
}

#[test]
fn a_model_is_read_with_places_and_numbers(rt: HostRuntime) {
    assert!(rt; is_read(rt.alloc()));
}

const RESOLVED: &[u8] =
    b"TRANSFER One; DOMAIN Later = Zahl; Zahl = [0.0 .. 99.5];\nMODEL M TOPIC T =\n\
    TABLE A = N: Later; K: OPTIONAL (a, b (c, d), e); R: -> B; IDENT K; END A;\n\
    TABLE B = NO IDENT END B;\nEND T. END M. FORMAT FREE; \
    CODE BLANK = DEFAULT, UNDEFINED = DEFAULT, CONTINUE = DEFAULT; TID = ANY; END.\n";

// The first of two tables of a model that has one topic.
fn first_table(model: &ResolvedModel) -> Option<&ModelTable> {
    let topic = model.topics.first()?;
    if model.topics.len() == 1 && topic.tables.len() == 2 {
        return topic.tables.first();
    }
    None
}

// Whether there are three attributes, of which the second alone is optional.
fn are_attributes(table: &ModelTable) -> bool {
    let mut optional = [false; 3];
    for (flag, attribute) in optional.iter_mut().zip(&table.attributes) {
        *flag = attribute.optional;
    }
    table.attributes.len() == 3 && optional == [false, true, false]
}

// Whether there is one IDENT list, of the second attribute.
fn is_ident(table: &ModelTable) -> bool {
    match table.idents.first() {
        Some(list) => table.idents.len() == 1 && list.places.as_slice() == [1].as_slice(),
        None => false,
    }
}

fn is_resolved(alloc: Global) -> bool {
    let Some(model) = resolved(alloc, RESOLVED) else {
        return false;
    };
    match first_table(&model) {
        Some(table) => are_attributes(table) && is_ident(table),
        None => false,
    }
}

#[test]
fn a_model_without_fault_is_resolved(rt: HostRuntime) {
    assert!(rt; is_resolved(rt.alloc()));
}
