// The faces of a drawing of straights of which some curves are left out.
//
// The rest is drawn in half units, so that the middles of the curves that are left out are points
// (`half_units`). A sweep of its edges gives a complete run, in which the objects' points and the
// middles are located (`placing`), and of which the mesh has the faces by numbers (`labelling`).
// These are then read off it: the faces that hold middles are open, and points and sides of curves
// have their faces (`numbering`); and it tells which side of a curve follows which (`walking`).
mod finding;
mod half_units;
mod labelling;
mod numbering;
mod placing;
mod walking;

pub use finding::rest_faces;
