// What a transfer holds.
use super::vertices::Vertices;
use itf_lines::Field;

/// How a vertex is joined to the one before it.
#[derive(Clone, Copy, Debug)]
pub enum VertexKind {
    /// It begins a stroke.
    Start,
    /// The end of a straight or of an arc.
    Straight,
    /// It lies on an arc that ends at the next vertex.
    OnArc,
}

/// A line of an object. An undefined one has no vertices.
#[derive(Drop)]
pub struct Stroke {
    pub vertices: Vertices,
}

/// The strokes of an object, one for each line of its table. The last ones may be left out, which
/// makes them undefined; they are only counted, since a table may have many lines and its objects
/// few strokes.
#[derive(Drop)]
pub struct Strokes {
    pub given: Vec<Stroke>,
    pub left_out: usize,
}

/// An object: the number and the fields of its line, and its strokes.
#[derive(Drop)]
pub struct Row {
    pub line: u32,
    pub fields: Vec<Field>,
    pub strokes: Strokes,
}

/// The objects of a table in the order of the text.
#[derive(Drop)]
pub struct TableRows {
    pub rows: Vec<Row>,
}

/// The objects of each table, in the order of the layout.
#[derive(Drop)]
pub struct Transfer {
    pub tables: Vec<TableRows>,
}

/// Why a text is no transfer.
#[derive(Clone, Copy, Debug, PartialEq, Eq)]
pub enum Structure {
    /// The word may not come there.
    Word,
    /// MOTR before ENDE.
    Motr,
    /// MODL, TOPI or TABL has not exactly one field, or it names nothing.
    Name,
    /// The topic, or the table of the topic, was read before.
    Twice,
    /// The text ends before ENDE.
    End,
    /// A line goes on, and no CONT line follows.
    Continue,
    /// A CONT line continues nothing.
    Cont,
}
