// The vertices of polylines, and the fields of their lines.
ghost use Rattle.std.specs.Prelude.{◌≡◌, ◌==◌, ◌++◌, ◌∷◌, [], drop, length, take, IfNone, IfSome};
ghost use Rattle.std.specs.Prelude.{OnOk};
ghost use Rattle.itf_reader.specs.Forms.{vertex};
ghost use Rattle.itf_reader.specs.VertexLists.{kind_of};
ghost use Rattle.itf_reader.specs.Views.{slice_of, vertex_of};

use super::transfer::VertexKind;
use itf_lines::Field;
use ports::Memory;
use std::alloc::Global;
use std::marker::Model;

/// A vertex: the number and the fields of its line.
#[derive(Clone, Copy)]
pub struct Vertex<'a> {
    pub line: u32,
    pub kind: VertexKind,
    pub fields: &'a [Field],
}

// What is kept of a vertex beside its fields: the number of its line, how many fields it has, and
// its kind.
#[derive(Drop)]
struct Head {
    line: u32,
    count: u32,
    kind: VertexKind,
}

/// Vertices, seen as their list. The fields of all of them are kept in one list, so that a vertex
/// takes 12 bytes, and 16 for each field.
#[derive(Drop)]
pub struct Vertices {
    heads: Vec<Head>,
    fields: Vec<Field>,
}

impl Model for Vertices {
    ghost use Rattle.std.specs.Prelude.{◌≡◌, List, length};
    ghost use Rattle.itf_reader.specs.Forms.{Vertex};
    ghost use Rattle.itf_reader.specs.VertexLists.{field_count, with_fields};

    ghost Value = { List Vertex };

    ghost view = { λ vertices. with_fields vertices.heads.items vertices.fields.items };

    ghost invariant = { λ vertices. field_count vertices.heads.items
        ≡ length vertices.fields.items };
}

// Adds a vertex to what is kept of others.
fn add(
    heads: &mut Vec<Head>,
    kept: &mut Vec<Field>,
    head: Head,
    fields: &mut Vec<Field>,
) -> Result<(), Memory>
    ensures heads { OnOk result (heads.new.items ≡ heads.old.items ++ head ∷ []) }
    ensures fields { OnOk result (kept.new.items ≡ kept.old.items ++ fields.old.items) }
{
    heads.push(head)?;
    kept.append(fields)?;
    Ok(())
}

impl Vertices {
    /// No vertices.
    pub fn new(alloc: Global) -> Vertices
        ensures { result ≡ [] }
    {
        Vertices {
            heads: Vec::new(alloc),
            fields: Vec::new(alloc),
        }
    }

    /// Forgets all vertices, and keeps or makes room for two of two fields, since most polylines
    /// are one straight.
    pub fn restart(&mut self) -> Result<(), Memory>
        ensures { self.new ≡ [] }
    {
        self.heads.clear();
        self.fields.clear();
        self.heads.reserve_exact(2)?;
        self.fields.reserve_exact(4)?;
        Ok(())
    }

    /// Adds a vertex, whose fields are moved. The only error is out of memory, also where a line
    /// has more than 2^32 - 1 fields; nothing is then said of the vertices.
    pub fn push(
        &mut self,
        kind: VertexKind,
        line: u32,
        fields: &mut Vec<Field>,
    ) -> Result<(), Memory>
        ensures { OnOk result (self.new
            ≡ self.old ++ vertex (kind_of kind) line fields.old.items ∷ []) }
    {
        let Ok(count) = u32::try_from(fields.len()) else {
            return Err(Memory);
        };
        let head = Head { line, count, kind };
        let added = add(&mut self.heads, &mut self.fields, head, fields);
        if added.is_err() {
            self.heads.clear();
            self.fields.clear();
        }
        added
    }

    /// The vertices, to be read one after another.
    pub fn as_slice(&self) -> VertexSlice<'_>
        ensures { slice_of result ≡ self.now }
    {
        VertexSlice {
            heads: &self.heads,
            fields: &self.fields,
        }
    }
}

/// Vertices that are lent.
#[derive(Clone, Copy)]
pub struct VertexSlice<'a> {
    heads: &'a [Head],
    fields: &'a [Field],
}

// The first fields, as many as there are up to that count, and the others.
fn split_fields(fields: &[Field], count: usize) -> (&[Field], &[Field])
    ensures first { result.0.now ≡ take count fields.now }
    ensures rest { result.1.now ≡ drop count fields.now }
{
    if count < fields.len() {
        fields.split_at(count)
    } else {
        (fields, &[])
    }
}

impl<'a> VertexSlice<'a> {
    /// There are none.
    pub fn is_empty(self) -> bool
        ensures { result ≡ (length (slice_of self.entry) == 0) }
    {
        self.heads.is_empty()
    }

    /// How many they are.
    pub fn len(self) -> usize
        ensures { result ≡ length (slice_of self.entry) }
    {
        self.heads.len()
    }

    /// The first vertex and those after it.
    pub fn split_first(self) -> Option<(Vertex<'a>, VertexSlice<'a>)>
        ensures some { IfSome result (λ parts. slice_of self.entry
            ≡ vertex_of parts.0 ∷ slice_of parts.1) }
        ensures none { IfNone result (slice_of self.entry ≡ []) }
    {
        match self.heads {
            [head, heads @ ..] => {
                let (own, fields) = split_fields(self.fields, head.count as usize);
                let vertex = Vertex {
                    line: head.line,
                    kind: head.kind,
                    fields: own,
                };
                Some((vertex, VertexSlice { heads, fields }))
            }
            [] => None,
        }
    }
}
