// The numbers of vertices, half-edges and faces, which contracts see as plain numbers.
ghost use Rattle.std.specs.Prelude.{◌≡◌, ◌^◌, ◌<◌};
ghost use Rattle.half_edges.specs.HalfEdges.{over_of, twin_of, under_of};

use std::marker::Model;

/// A vertex, counted from 0.
#[derive(Clone, Copy, Debug, PartialEq, Eq)]
pub struct VertexId(pub u32);

impl Model for VertexId {
    ghost use Rattle.std.specs.Prelude.{ℕ};

    ghost Value = { ℕ };

    ghost view = { λ v. v.0 };

    ghost inverse = { λ n. record { 0 = n } };
}

/// A half-edge. Edge e has half-edge 2e, which runs from high to low, and 2e + 1, from low to high.
#[derive(Clone, Copy, Debug, PartialEq, Eq)]
pub struct HalfEdgeId(pub u32);

impl Model for HalfEdgeId {
    ghost use Rattle.std.specs.Prelude.{ℕ};

    ghost Value = { ℕ };

    ghost view = { λ h. h.0 };

    ghost inverse = { λ n. record { 0 = n } };
}

impl HalfEdgeId {
    /// The half-edge of an edge that runs from high to low, with the side below on its left.
    pub fn under(edge: u32) -> HalfEdgeId
        requires { edge < 2 ^ 31 }
        ensures { result ≡ under_of edge }
    {
        HalfEdgeId(2 * edge)
    }

    /// The half-edge of an edge that runs from low to high, with the side above on its left.
    pub fn over(edge: u32) -> HalfEdgeId
        requires { edge < 2 ^ 31 }
        ensures { result ≡ over_of edge }
    {
        HalfEdgeId(2 * edge + 1)
    }

    // The other half of the same edge.
    pub(super) fn twin(self) -> HalfEdgeId
        ensures { result ≡ twin_of self }
    {
        HalfEdgeId(self.0 ^ 1)
    }
}

/// A face. Face 0 is that of every half-edge until faces are set.
#[derive(Clone, Copy, Debug, PartialEq, Eq)]
pub struct FaceId(pub u32);

impl Model for FaceId {
    ghost use Rattle.std.specs.Prelude.{ℕ};

    ghost Value = { ℕ };

    ghost view = { λ f. f.0 };

    ghost inverse = { λ n. record { 0 = n } };
}
