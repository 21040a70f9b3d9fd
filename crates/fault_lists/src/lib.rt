//! All faults of the drawing of an area: what they are, and those that the numbers of its faces
//! tell.
//!
//! - **What it says.** `Faults` has the lists, by the numbers of curves and of objects' points;
//!   `AreFaults` (`specs/FaultLists`) says what each of them holds, by the definitions of the
//!   partition rule alone. Of a drawing in which curves meet badly these are left out. A face of
//!   the rest that none of them enters is closed, and a face of the whole drawing; of closed faces
//!   everything is told, and each open one is named. `laws::each_fault_is_told`: a fault of the
//!   drawing is in its list, or lies in a face that is told to be open.
//! - **How.** `DrawingFaces` has the faces of the rest by numbers: of each object's point, of both
//!   sides of each curve, and which are open. `face_faults` reads off it what is at fault in the
//!   faces: each list is a walk over the points or over the curves.
//! - **Rings.** `regions` gives faces with their rings (`specs/Rings`), by the side that is said to
//!   follow each side round its face. It tests each step, so that what it tells is right whatever
//!   is said; where a step is wrong it tells no ring. Where the sides go round the faces
//!   (`GoRound`) it tells all rings.
//! - **Degenerate cases.** No curve, no point, all curves left out, points on curves, and curves
//!   that end within a face are all taken.
//! - **Not here:** how faces are numbered, which side follows which, and which curves meet badly.
//!
//! Cost: `face_faults` takes time linear in the faces, the points and the curves; for a while 9
//! bytes a face, and 4 or 8 for each entry of a list. `regions` takes time linear in the sides, the
//! faces and the curves; for a while 8 bytes a face and 2 a curve, and 8 for each side in a ring.
#![tactic(auto)]

mod faces;
mod kinds;
pub mod laws;
mod rings;
mod sides;
mod slots;
mod telling;

pub use faces::{CurveFaces, DrawingFaces, PointPlace};
pub use kinds::{FaceFaults, Faults, MeetingAt, OnAt, PointPair, Region, Ring, SideAt};
pub use rings::regions;
pub use slots::side_number;
pub use telling::face_faults;
