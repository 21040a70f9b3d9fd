// A drawing that a level settles, with the complete run of its edges at that level, into its first
// fault or the certificate that it has none.
//
// One replay of the run gives the places of the points, which say for each whether it lies on a
// curve, in the tube of a half arc or in a cell (`spots`). Then the edges are freed but for what
// they stand for, and the events give the mesh of their half-edges (`meshing`), after which they
// are freed but for their positions (`writing`), and the cells but for what they join, which gives
// the faces of the mesh. What is kept of the run is a `SettledRun` (`case`), and each answer is
// read off it: the first fault of its faces (`case_judging`), by the faces beside each curve
// (`case_sides`, `sides`) and the points in each face (`owners`); or the regions of places that are
// asked for, by the owners of their faces (`place_regions`), and the certificate
// (`case_certificates`), by links from each half-edge to the border, a tube or a point
// (`case_roots`) and by labels (`case_notes`). Of a drawing of straights the mesh with its faces is
// an answer too (`faced`), and of any drawing the faces of its points and beside its curves
// (`drawing_faces`), by numbers of their own (`face_numbers`), and which side of a curve follows
// which round its face (`next_sides`).
//
// Not here: whether the level settles the drawing, which the run has shown before (`level`).
mod case;
mod case_certificates;
mod case_judging;
mod case_notes;
mod case_roots;
mod case_sides;
mod drawing_faces;
mod face_numbers;
mod faced;
mod finishing;
mod meshing;
mod next_sides;
mod owners;
mod place_regions;
mod sides;
mod spots;
mod writing;

pub(crate) use case::SettledDrawing;
pub(crate) use drawing_faces::faces_of_drawing;
pub(crate) use faced::faces_of_run;
pub(crate) use finishing::{answer_settled, object_spots};
pub use meshing::mesh_of_run;
pub(crate) use spots::first_spot_on;
