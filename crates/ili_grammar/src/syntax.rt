// What a model says, as it is written.
use ports::Name;
use thiserror::Error;

/// A name and the place of its first byte. Lines and columns count from 1.
#[derive(Drop)]
pub struct Ident {
    pub text: Name,
    pub line: u32,
    pub column: u32,
}

/// A number as it is written: `digits` with `scale` of them after the full stop, and the place
/// of its first byte.
#[derive(Clone, Copy)]
pub struct Decimal {
    pub digits: i64,
    pub scale: u8,
    pub line: u32,
    pub column: u32,
}

/// A whole model: what stands outside the topics, the topics, and the bytes of the three codes.
#[derive(Drop)]
pub struct ModelSyntax {
    pub transfer: Ident,
    pub outer: Vec<DomainSyntax>,
    pub model: Ident,
    pub domains: Vec<DomainSyntax>,
    pub topics: Vec<TopicSyntax>,
    pub codes: Codes,
}

#[derive(Drop)]
pub struct DomainSyntax {
    pub name: Ident,
    pub kind: TypeSyntax,
}

/// The domains and the tables of a topic, each in the order of the text.
#[derive(Drop)]
pub struct TopicSyntax {
    pub name: Ident,
    pub domains: Vec<DomainSyntax>,
    pub tables: Vec<TableSyntax>,
}

/// A table. `optional` says whether OPTIONAL stands before it. Without IDENT lists it is
/// written NO IDENT.
#[derive(Drop)]
pub struct TableSyntax {
    pub name: Ident,
    pub optional: bool,
    pub attributes: Vec<AttributeSyntax>,
    pub idents: Vec<IdentList>,
}

#[derive(Drop)]
#[cycle(syntax)]
pub struct AttributeSyntax {
    pub name: Ident,
    pub optional: bool,
    pub content: Content,
}

#[derive(Drop)]
#[cycle(syntax)]
pub enum Content {
    Value(TypeSyntax),
    /// A reference to a table of this name.
    Reference(Ident),
}

#[derive(Drop)]
#[cycle(syntax)]
pub enum TypeSyntax {
    Named(Ident),
    Coord2(Corners2),
    Coord3(Corners3),
    Dim1(Span),
    Dim2(Span),
    Radians(Span),
    Grads(Span),
    Degrees(Span),
    Range(Span),
    /// The greatest number of bytes.
    Text(Decimal),
    Date,
    Enumeration(Vec<Element>),
    HAlignment,
    VAlignment,
    Polyline(LineSyntax),
    Surface(LineSyntax),
    Area(LineSyntax),
}

/// A low and a high bound, in this order as they are written.
#[derive(Clone, Copy)]
pub struct Span {
    pub low: Decimal,
    pub high: Decimal,
}

#[derive(Clone, Copy)]
pub struct Corners2 {
    pub x: Span,
    pub y: Span,
}

#[derive(Clone, Copy)]
pub struct Corners3 {
    pub x: Span,
    pub y: Span,
    pub z: Span,
}

/// An element of an enumeration. Without parts it is a leaf.
#[derive(Drop)]
pub struct Element {
    pub name: Ident,
    pub parts: Vec<Element>,
}

/// A line: the forms of its parts, the domain of its vertices, the overlap that is allowed, and
/// the attributes and IDENT lists of its LINEATTR part.
#[derive(Drop)]
#[cycle(syntax)]
pub struct LineSyntax {
    pub straights: bool,
    pub arcs: bool,
    pub vertex: Ident,
    pub overlap: Option<Decimal>,
    pub attributes: Vec<AttributeSyntax>,
    pub idents: Vec<IdentList>,
}

#[derive(Drop)]
pub struct IdentList {
    pub names: Vec<Ident>,
}

/// The bytes for blank, undefined and continue, each from 33 to 126, no two equal.
#[derive(Clone, Copy, Debug, PartialEq, Eq)]
pub struct Codes {
    pub blank: u8,
    pub undefined: u8,
    pub continued: u8,
}

/// Why a token begins no model.
#[derive(Clone, Copy, Debug, PartialEq, Eq)]
pub enum SyntaxCode {
    /// None of the others fits, or the text ends too soon.
    Expected,
    /// A name stands after END, and it is not the opened one.
    EndName,
    /// FIX stands after FORMAT.
    FixFormat,
    /// VIEW or DERIVATIVES.
    Views,
    /// A name stands where STRAIGHTS or ARCS must.
    LineForm,
    /// A name with S stands directly after a number.
    Scaling,
    /// A number is no byte from 33 to 126, or a byte stands for two of the codes.
    Codes,
    /// It would open a part within 32 others.
    Deep,
}

/// The first token with which the tokens begin no model, by its number from 0; none is the end
/// of the text.
#[derive(Clone, Copy, Debug, PartialEq, Eq, Error)]
pub enum SyntaxFault {
    #[error("the tokens are no model ({code:?})")]
    At {
        code: SyntaxCode,
        token: Option<u32>,
    },
    #[error("out of memory")]
    Memory,
}
