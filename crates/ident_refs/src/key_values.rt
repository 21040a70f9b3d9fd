// Values as they are compared.
use itf_reader::VertexKind;

/// A vertex by its kind and its numbers.
#[derive(Drop)]
pub struct KeyVertex {
    pub kind: VertexKind,
    pub x: i64,
    pub y: i64,
    pub height: Option<i64>,
}

/// A value as it is compared: numbers and coordinates by their numbers, lines by their vertices,
/// all else by its bytes.
#[derive(Drop)]
pub enum Value<'a> {
    Number(i64),
    Plane(i64, i64),
    Space(i64, i64, i64),
    Word(&'a [u8]),
    Line(Vec<KeyVertex>),
}
