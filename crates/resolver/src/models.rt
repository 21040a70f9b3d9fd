// What a model stands for: every name is resolved, every bound is read at its scale.
ghost use Rattle.std.specs.Prelude.{◌≤◌, ◌^◌, ◌<ℤ◌, ◌≤ℤ◌, pos, neg_ℤ};

use ili_grammar::Codes;
use ports::Name;

/// The numbers from `low` to `high`, both included, in whole units of the last of `scale`
/// decimals. A bound has at most 18 digits, and `scale` is at most 9.
#[derive(Clone, Copy)]
pub struct Limits {
    pub low: i64,
    pub high: i64,
    pub scale: u8,
    ghost scaled: { scale ≤ 9 },
    ghost above: { neg_ℤ (pos (10 ^ 18)) <ℤ low },
    ghost below: { high <ℤ pos (10 ^ 18) },
    ghost ordered: { low ≤ℤ high },
}

/// Where coordinates of two axes may lie.
#[derive(Clone, Copy)]
pub struct Window {
    pub x: Limits,
    pub y: Limits,
}

/// Where coordinates of three axes may lie.
#[derive(Clone, Copy)]
pub struct Block {
    pub x: Limits,
    pub y: Limits,
    pub z: Limits,
}

/// What a column may hold.
#[derive(Clone, Copy)]
pub enum Form {
    Range(Limits),
    Coord2(Window),
    Coord3(Block),
    Dim1(Limits),
    Dim2(Limits),
    Radians(Limits),
    Grads(Limits),
    Degrees(Limits),
    /// At most so many bytes, from 1 to 65,535.
    Text(u32),
    Date,
    /// So many leaves, numbered from 0 in the order of the text.
    Enumeration(u32),
    HAlignment,
    VAlignment,
    /// A table, by its number from 0.
    Reference(u32),
    /// The point of an object in its area.
    AreaPoint(Window),
}

/// A line: the name of its attribute, whether it may be undefined, whether it may have arcs,
/// where its vertices may lie, the heights that they have, if any, and the overlap that is
/// allowed, in units of the scale of `window`.
#[derive(Drop)]
pub struct LineForm {
    pub name: Name,
    pub optional: bool,
    pub arcs: bool,
    pub window: Window,
    pub height: Option<Limits>,
    pub overlap: Option<i64>,
}

/// A model with its names resolved.
#[derive(Drop)]
pub struct ResolvedModel {
    pub name: Name,
    pub codes: Codes,
    pub topics: Vec<Topic>,
}

/// A topic and its declared tables in the order of the text.
#[derive(Drop)]
pub struct Topic {
    pub name: Name,
    pub tables: Vec<ModelTable>,
}

/// A declared table, its attributes in the order of the text, and its IDENT lists.
#[derive(Drop)]
pub struct ModelTable {
    pub name: Name,
    pub attributes: Vec<Attribute>,
    pub idents: Vec<Places>,
}

#[derive(Drop)]
#[cycle(attribute)]
pub struct Attribute {
    pub name: Name,
    pub optional: bool,
    pub content: AttributeForm,
}

/// A value or a reference, or a line. The attributes of a line's own part are never lines.
#[derive(Drop)]
#[cycle(attribute)]
pub enum AttributeForm {
    Value(Form),
    Polyline(LineForm),
    Surface(LineForm, LinePart),
    Area(LineForm, LinePart),
}

/// The attributes and IDENT lists that the lines of a boundary have of their own.
#[derive(Drop)]
#[cycle(attribute)]
pub struct LinePart {
    pub attributes: Vec<Attribute>,
    pub idents: Vec<Places>,
}

/// An IDENT list: attributes by their numbers from 0, in the order of the list.
#[derive(Drop)]
pub struct Places {
    pub places: Vec<u32>,
}
