// What is noted of half-edges.
ghost use Rattle.std.specs.Prelude.{◌≡◌, ◌<◌, length};
ghost use Rattle.plane.specs.Faces.Halves.{half_of, mark};
ghost use Rattle.certificate_checker.specs.Cases.{judged};
ghost use Rattle.certificate_checker.specs.Subjects.{labels, note_at, rank};

use super::case::Case;
use certificate::{HalfNote, Link};

/// The label of a half-edge.
pub fn label_at(case: &Case, h: u32) -> u32
    requires { h < length (judged case.now).claims.notes }
    ensures { result ≡ mark (labels (judged case.now)) (half_of h) }
{
    let notes: &[HalfNote] = &case.certificate.notes;
    notes[h as usize].label
}

/// The rank of a half-edge.
pub fn rank_at(case: &Case, h: u32) -> u32
    requires { h < length (judged case.now).claims.notes }
    ensures { result ≡ rank (judged case.now) (half_of h) }
{
    let notes: &[HalfNote] = &case.certificate.notes;
    notes[h as usize].rank
}

/// The link of a half-edge.
pub fn link_at(case: &Case, h: u32) -> Link
    requires { h < length (judged case.now).claims.notes }
    ensures { result ≡ (note_at (judged case.now) (half_of h)).link }
{
    let notes: &[HalfNote] = &case.certificate.notes;
    notes[h as usize].link
}
