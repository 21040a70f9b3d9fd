// Laws of half-edges: the next one, what connects them, and links that lead to a root.
//
// Each side of an edge is a half-edge, with that side on its left. A half-edge's next one starts
// where it ends, first clockwise after its twin. None of these laws reads the weight.
ghost use Rattle.std.specs.Prelude.{◌≡◌, ◌↔◌, ◌⊎◌, ℕ, suc, ◌<◌, ◌≤◌, ℤ, List, Bool, IsTrue, length};
ghost use Rattle.std.specs.Prelude.{◌+◌, ◌*◌, get_or, slice_index};
ghost use Rattle.plane.specs.declared.kinds.Edge.{Edge};
ghost use Rattle.plane.specs.Lists.{Has};
ghost use Rattle.plane.specs.Forms.Vectors.{AreRising};
ghost use Rattle.plane.specs.Runs.Steps.{Step, Run, GoodStep};
ghost use Rattle.plane.specs.Faces.Cells.{Sector, IsSector, IsBorder, Linked};
ghost use Rattle.plane.specs.Faces.Classes.{Next, Across, Touches, Connected, Lead, AreLeads};
ghost use Rattle.plane.specs.Faces.Classes.{IsFaces, fan, FollowsRound};
ghost use Rattle.plane.specs.Faces.Directions.{IsClockwiseNext, origin};
ghost use Rattle.plane.specs.Faces.FanNumbers.{twin_number, fan_numbers, place_before, TurnsRound};
ghost use Rattle.plane.specs.Faces.Halves.{Half, under, over, edge_of, twin, At, Beside, number};
ghost use Rattle.plane.specs.Faces.Halves.{half_of};
ghost use Rattle.plane.specs.Faces.Replays.{replay, no_step};

/// The half-edges of edge e are numbered 2 e (under it) and 2 e + 1 (over it).
pub fn half_edges_by_number()
    ensures back { (h : Half) → half_of (number h) ≡ h }
    ensures forth { (n : ℕ) → number (half_of n) ≡ n }
{}

/// The next half-edge is exactly the first one clockwise after the twin, among those that start
/// where the half-edge ends; each half-edge has exactly one next one and exactly one previous one.
pub fn next_half_edge_is_clockwise()
    ensures is { (w : ℤ) (m : ℕ) (E : ℕ → Edge) (steps : List Step) (h g : Half)
        → Run m E steps → edge_of h < m → edge_of g < m
        → Next (replay w m E steps) h g ↔ IsClockwiseNext m E (twin h) g }
    ensures some { (w : ℤ) (m : ℕ) (E : ℕ → Edge) (steps : List Step) (h : Half)
        → Run m E steps → edge_of h < m
        → (g : Half) × (edge_of g < m) × Next (replay w m E steps) h g }
    ensures one { (w : ℤ) (m : ℕ) (E : ℕ → Edge) (steps : List Step) (h g f : Half)
        → Run m E steps → Next (replay w m E steps) h g → Next (replay w m E steps) h f → g ≡ f }
    ensures some_previous { (w : ℤ) (m : ℕ) (E : ℕ → Edge) (steps : List Step) (g : Half)
        → Run m E steps → edge_of g < m → (h : Half) × Next (replay w m E steps) h g }
    ensures one_previous { (w : ℤ) (m : ℕ) (E : ℕ → Edge) (steps : List Step) (h f g : Half)
        → Run m E steps → Next (replay w m E steps) h g → Next (replay w m E steps) f g → h ≡ f }
{}

/// Two neighbours of a live list have a cell between them; the first edge of the list and the last
/// one are at the border.
pub fn neighbours_are_across()
    ensures across { (w : ℤ) (m : ℕ) (E : ℕ → Edge) (steps : List Step) (k i d e : ℕ)
        → k ≤ length steps → At ((replay w m E steps).list k) i d
        → At ((replay w m E steps).list k) (suc i) e
        → Across (replay w m E steps) (over d) (under e) }
    ensures first { (w : ℤ) (m : ℕ) (E : ℕ → Edge) (steps : List Step) (k e : ℕ)
        → k ≤ length steps → At ((replay w m E steps).list k) 0 e
        → Touches (replay w m E steps) (under e) }
    ensures last { (w : ℤ) (m : ℕ) (E : ℕ → Edge) (steps : List Step) (k i e : ℕ)
        → k ≤ length steps → suc i ≡ length ((replay w m E steps).list k)
        → At ((replay w m E steps).list k) i e → Touches (replay w m E steps) (over e) }
{}

/// Half-edges are connected exactly where the cells beside them are linked; each half-edge has a
/// cell beside it, and each cell has a half-edge beside it or is at the border.
pub fn connected_half_edges_are_one_class()
    ensures class { (w : ℤ) (m : ℕ) (E : ℕ → Edge) (steps : List Step) (g h : Half) (c d : Sector)
        → Run m E steps → IsSector (replay w m E steps) c → IsSector (replay w m E steps) d
        → Beside (replay w m E steps) g c → Beside (replay w m E steps) h d
        → Connected (replay w m E steps) g h ↔ Linked (replay w m E steps) c d }
    ensures beside { (w : ℤ) (m : ℕ) (E : ℕ → Edge) (steps : List Step) (h : Half)
        → Run m E steps → edge_of h < m
        → (c : Sector) × IsSector (replay w m E steps) c × Beside (replay w m E steps) h c }
    ensures wall { (w : ℤ) (m : ℕ) (E : ℕ → Edge) (steps : List Step) (c : Sector)
        → Run m E steps → IsSector (replay w m E steps) c
        → IsBorder (replay w m E steps) c ⊎ ((h : Half) × Beside (replay w m E steps) h c) }
{}

/// Links lead to a root of the same face. Along a link the label stays and the rank falls, so links
/// end, at a root of the same label in the same class.
pub fn falling_links_lead_to_roots()
    ensures { (w : ℤ) (m : ℕ) (E : ℕ → Edge) (steps : List Step) (label rank : Half → ℕ)
        (link : Half → Lead) (root : Half → Bool) (h : Half)
        → Run m E steps → AreLeads (replay w m E steps) label rank link (λ x. IsTrue (root x))
        → edge_of h < m
        → (g : Half) × (edge_of g < m) × IsTrue (root g) × (label g ≡ label h)
        × Connected (replay w m E steps) h g }
{}

/// A half-edge and its next one have one face number.
pub fn next_half_edge_has_one_face()
    ensures { (w : ℤ) (m : ℕ) (E : ℕ → Edge) (steps : List Step) (face : Half → ℕ) (h g : Half)
        → Run m E steps → IsFaces (replay w m E steps) face → Next (replay w m E steps) h g
        → face h ≡ face g }
{}

/// Half-edges and their twins by numbers: of m edges they are the numbers below 2 m.
pub fn twins_by_number()
    ensures twin { (h : Half) → number (twin h) ≡ twin_number (number h) }
    ensures one { (g h : Half) → number g ≡ number h → g ≡ h }
    ensures within { (h : Half) (m : ℕ) → (edge_of h < m) ↔ (number h < 2 * m) }
{}

/// The numbers of the half-edges that start at a step's event, counterclockwise: 2 e + 1 of each
/// starting edge in order, then 2 e of each ending edge in reverse. They are exactly those of the
/// event, each once.
pub fn fans_by_number()
    ensures size { (s : Step) → length (fan_numbers s) ≡ length s.starting + length s.ending }
    ensures starting { (s : Step) (i : ℕ)
        → i < length s.starting → slice_index (fan_numbers s) i ≡ 2 * slice_index s.starting i + 1 }
    ensures ending { (s : Step) (i j : ℕ)
        → i + suc j ≡ length s.ending
        → slice_index (fan_numbers s) (length s.starting + i) ≡ 2 * slice_index s.ending j }
    ensures holds { (s : Step) (k : ℕ)
        → k < length (fan_numbers s) → Has (half_of (slice_index (fan_numbers s) k)) (fan s) }
    ensures place { (s : Step) (h : Half)
        → Has h (fan s)
        → (k : ℕ) × (k < length (fan_numbers s)) × (slice_index (fan_numbers s) k ≡ number h) }
    ensures is { (m : ℕ) (E : ℕ → Edge) (s : Step) (h : Half)
        → GoodStep m E s → Has h (fan s) ↔ ((edge_of h < m) × (origin E h ≡ s.at)) }
    ensures once { (m : ℕ) (E : ℕ → Edge) (s : Step) (j k : ℕ)
        → AreRising m E → GoodStep m E s → j < length (fan_numbers s) → k < length (fan_numbers s)
        → slice_index (fan_numbers s) j ≡ slice_index (fan_numbers s) k → j ≡ k }
    ensures turn { (s : Step) (g h : Half)
        → FollowsRound (fan s) g h
        ↔ ((k : ℕ) × (k < length (fan_numbers s)) × (slice_index (fan_numbers s) k ≡ number h)
        × (slice_index (fan_numbers s) (place_before (length (fan_numbers s)) k) ≡ number g)) }
{}

/// In a run each step is good and each event has a half-edge; and a list of next numbers that turns
/// round the half-edges of each event leads from each half-edge to exactly its next one.
pub fn next_half_edge_by_number()
    ensures good { (m : ℕ) (E : ℕ → Edge) (steps : List Step) (k : ℕ)
        → Run m E steps → k < length steps → GoodStep m E (get_or steps k no_step) }
    ensures filled { (m : ℕ) (E : ℕ → Edge) (steps : List Step) (k : ℕ)
        → Run m E steps → k < length steps → 0 < length (fan_numbers (get_or steps k no_step)) }
    ensures next { (w : ℤ) (m : ℕ) (E : ℕ → Edge) (steps : List Step) (next : ℕ → ℕ) (h g : Half)
        → Run m E steps
        → ((k : ℕ) → k < length steps → TurnsRound next (fan_numbers (get_or steps k no_step)))
        → edge_of h < m → (next (number h) ≡ number g) ↔ Next (replay w m E steps) h g }
{}
