//! Forks: straights that leave an end of a half arc close to its tangent, and the bends that a
//! permitted overlap allows them there; and the drawing whose forks are bent.
//!
//! - **What it answers.** `fork_zone` takes a half arc, a straight and the permitted overlap, and
//!   says beside which of its ends the straight is bent away from the half arc, and where; `None`
//!   exactly where it does not fork from it. The bend is at most the overlap from the straight,
//!   with all roundings. `bent` takes a drawing, and gives what becomes of it when its forks are
//!   bent by the overlap that it permits, with the number of the curve for which each of the bent
//!   ones stands; it is a copy where nothing forks.
//! - **The rule that it serves.** Rounding makes a straight run into an arc that it should leave
//!   along the tangent. With `WITHOUT OVERLAPS > d` such a straight may be bent. The bends are a
//!   stated function, so nobody chooses them. What becomes of a drawing when its forks are bent is
//!   defined in `specs/Bent.antt`, and `laws` says of it: it is one drawing; each of its curves
//!   stands for one of the drawing's, is drawn in the window, and lies as close to it as the
//!   overlap allows; and no object's point comes to lie on it that was on no curve.
//! - **What forks.** One end of the straight is an end of the half arc and the other is not; the
//!   overlap is at least 8 units, and the straight at least 32 times as long; the half arc's other
//!   end is ahead; the straight is within a sixteenth of the tangent; and it ends strictly outside
//!   the circle.
//! - **What has no answer.** A half arc without a circle that can be judged (`arc_predicates`).
//! - **Degenerate cases.** Either end of the straight and of the half arc, third points on either
//!   side, straights inside the circle at first, ends on the circle, equal curves and an overlap of
//!   0 are all taken.
//! - **Not here:** levels, whether a drawing is settled, and when the bent drawing is judged.
//!
//! Cost: a zone is a circle, ten products, a root and two quotients, all in 128 bits, and takes no
//! memory. A bent drawing of n curves and m points takes n log n and m log m, and more where many
//! end in one point or points lie near; it keeps up to 60 bytes a curve of it and 32 a point, and
//! while it is made some 66 a part and a point (`bent` says it in full). Its only error is out of
//! memory.
#![tactic(auto)]

mod bending;
mod bends;
mod bent_drawing;
mod ends;
mod forked;
mod held;
pub mod laws;
mod numbers;
mod ways;
mod zones;

pub use bending::bent;
pub use bent_drawing::Bent;
pub use zones::{Zone, fork_zone};
