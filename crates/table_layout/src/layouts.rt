// What the transfers of a model hold: tables with columns and lines, by numbers from 0.
use ili_grammar::Codes;
use ports::Name;
use resolver::{Form, LineForm, Places};

/// A table of the layout, by its number from 0 in the whole list.
#[derive(Clone, Copy, Debug, PartialEq, Eq)]
pub struct TableId(pub u32);

/// What a table holds: the objects that the model declares, or the lines of their boundaries.
#[derive(Clone, Copy, Debug, PartialEq, Eq)]
pub enum Role {
    Main,
    /// The lines of the AREA attribute that is this column of the main table.
    AreaLines { main: TableId, column: u32 },
    /// The lines of a SURFACE attribute of the main table. Column 0 refers to its objects.
    SurfaceLines { main: TableId },
}

/// A column. In its form a reference names a main table by its number in the whole list.
#[derive(Drop)]
pub struct Column {
    pub name: Name,
    pub optional: bool,
    pub form: Form,
}

/// A table: the number of its topic, its columns and its lines in the order of a transfer, and
/// its IDENT lists. A place in such a list is the number of a column, or the number of columns
/// plus the number of a line.
#[derive(Drop)]
pub struct Table {
    pub topic: u32,
    pub name: Name,
    pub role: Role,
    pub columns: Vec<Column>,
    pub lines: Vec<LineForm>,
    pub idents: Vec<Places>,
}

/// An AREA attribute: its name, its column in the main table, and the table of its lines.
#[derive(Drop)]
pub struct AreaOf {
    pub lines: TableId,
    pub main: TableId,
    pub column: u32,
    pub name: Name,
}

/// All that a transfer of a model is read by. The tables stand in the order of their topics.
#[derive(Drop)]
pub struct Layout {
    pub model: Name,
    pub codes: Codes,
    pub topics: Vec<Name>,
    pub tables: Vec<Table>,
    pub areas: Vec<AreaOf>,
}
