// The search for faces: which half-edges have one, and which of these are passed.
ghost use Rattle.std.specs.Prelude.{◌≡◌, ℕ, ◌+◌, ◌-◌, ◌^◌, ◌<◌, ◌≤◌, [], IfOk, length, slice_index};
ghost use Rattle.std.specs.Prelude.{suc, vec_capacity, vec_len, replicate};
ghost use Rattle.plane.specs.Runs.Gaps.{Gap};
ghost use Rattle.half_edges.specs.HalfEdges.{size};
ghost use Rattle.line_sweep.specs.Kinds.{gaps_of};
ghost use Rattle.faces.specs.Joined.{AreKnown, AtBorder};
ghost use Rattle.faces.specs.Rows.{ArePartners};
ghost use Rattle.faces.specs.Searching.{HasSearched, IsKept, IsReached, IsWaiting, unset};

use super::partners::Partners;
use half_edges::{FaceId, HalfEdgeId, Mesh};
use line_sweep::Cell;
use ports::Memory;
use std::alloc::Global;

/// The entry of a half-edge that has no face yet.
pub const UNSET: FaceId = FaceId(u32::MAX);

/// The face of each half-edge so far, and those that have one, in the order in which they got it.
/// Of the first `passed` of these all neighbours have one too.
#[derive(Drop)]
pub struct Search {
    pub faces: Vec<FaceId>,
    pub queue: Vec<HalfEdgeId>,
    pub passed: usize,
}

impl Search {
    /// No half-edge has a face.
    pub fn new(alloc: Global, halves: usize) -> Result<Search, Memory>
        ensures faces { IfOk result (λ s. s.faces.items ≡ replicate halves unset) }
        ensures queue { IfOk result (λ s. s.queue.items ≡ []) }
        ensures passed { IfOk result (λ s. s.passed ≡ 0) }
        ensures room { IfOk result (λ s. halves ≤ vec_capacity s.queue) }
    {
        let faces = vec![in alloc; UNSET; halves]?;
        let queue = Vec::with_capacity(alloc, halves)?;
        Ok(Search {
            faces,
            queue,
            passed: 0,
        })
    }

    /// Gives the half-edge the face, where it has none, and puts it into the queue.
    pub fn reach(&mut self, h: HalfEdgeId, face: FaceId)
        requires within { h < length self.old.faces.items }
        requires room { slice_index self.old.faces.items h ≡ unset
            → vec_len self.old.queue < vec_capacity self.old.queue }
        ensures reached { IsReached h face self.old self.new }
        ensures passed { self.new.passed ≡ self.old.passed }
        ensures room { vec_capacity self.new.queue ≡ vec_capacity self.old.queue }
    {
        if self.faces[h.0 as usize] == UNSET {
            self.faces[h.0 as usize] = face;
            self.queue.push_reserved(h);
        }
    }
}
