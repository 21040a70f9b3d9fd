// What is judged.
use certificate::Certificate;
use plane::{Drawing, Edge, Placed};
use straight_predicates::Timetable;
use tubes::{Facing, Owner};

/// A drawing and its edges at the certificate's level: what each edge is of its curve and which
/// side of it faces a tube, the first edge of each curve, and the timetable. Then the objects'
/// points, for each whether it is placed in a tube that holds it, and the certificate.
#[derive(Clone, Copy)]
pub struct Case<'a> {
    pub drawing: &'a Drawing,
    pub edges: &'a [Edge],
    pub owners: &'a [Owner],
    pub facings: &'a [Facing],
    pub firsts: &'a [u32],
    pub table: &'a Timetable,
    pub points: &'a [Placed],
    pub held: &'a [bool],
    pub certificate: &'a Certificate,
}
