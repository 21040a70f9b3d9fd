// The numbers of a certificate are in the range of their types. A contract knows that of the
// numbers of notes and places in a list only where they are read, so each is read here, and nothing
// is done with it.
ghost use Rattle.std.specs.Prelude.{◌^◌, ◌<◌};
ghost use Rattle.std.specs.List.{AllByRecursion};
ghost use Rattle.certificate.specs.Spelling.{Fits, FitsHalf, FitsPlace};
ghost use Rattle.certificate.specs.Spelling.{HasNamesAndCounts, view};

use crate::notes::{Certificate, HalfNote, Link, PointPlace};

fn positions_fit(positions: &[u32])
    ensures { AllByRecursion (λ n. n < 2 ^ 32) positions.now }
{}

fn note_fits(note: &HalfNote)
    ensures { FitsHalf note.now }
{
    let _label = note.label;
    let _rank = note.rank;
    if let Link::Across(half) = note.link {
        let _half = half;
    }
}

fn notes_fit(notes: &[HalfNote])
    ensures { AllByRecursion FitsHalf notes.now }
{
    for note in notes {
        note_fits(note);
    }
}

fn place_fits(place: &PointPlace)
    ensures { FitsPlace place.now }
{
    match *place {
        PointPlace::Cell(position) => {
            let _position = position;
        }
        PointPlace::Tube { curve, inside: _ } => {
            let _curve = curve;
        }
    }
}

fn places_fit(places: &[PointPlace])
    ensures { AllByRecursion FitsPlace places.now }
{
    for place in places {
        place_fits(place);
    }
}

/// A certificate with three names and counts below 2^32 has a spelling, as its other numbers are
/// in the range of their types. It answers nothing; its contract is what it is for. It reads each
/// note and place once, and takes no memory.
#[tactic(auto, using(crate::proofs::Pairs::pairs_fit))]
pub fn numbers_fit(certificate: &Certificate)
    ensures { HasNamesAndCounts (view certificate.now) → Fits (view certificate.now) }
{
    let _level = certificate.level;
    positions_fit(&certificate.positions);
    notes_fit(&certificate.notes);
    places_fit(&certificate.places);
}
