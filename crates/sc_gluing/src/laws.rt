//! Laws of cycles and of the surfaces that are glued of them.

ghost use Rattle.std.specs.Prelude.{◌≡◌, ℕ, ◌*◌, ◌<◌, List, length, sum_by, ℤ};
ghost use Rattle.std.specs.List.{AllByRecursion};
ghost use Rattle.sc_algebra.specs.Sums.{sum_below};
ghost use Rattle.sc_algebra.specs.Permutations.{IsPermutation};
ghost use Rattle.sc_theory.specs.Chains.{Chain, IsChain, IsBalanced, weighted_length};
ghost use Rattle.sc_theory.specs.Fatgraphs.{Sides, vertices, IsFatgraph};
ghost use Rattle.sc_theory.specs.Walks.{IsStep, IsClosedWalk, walks_total};
ghost use Rattle.sc_gluing.specs.Cycles.{Parts, copies_of, labels_of, at, after, AreCycles};
ghost use Rattle.sc_gluing.specs.Gluing.{IsGlued, AreBalanced};
ghost use Rattle.sc_gluing.specs.Seeds.{IsSeed};

/// The side after a side permutes the sides. A sum over the sides of a price of the step that begins there is the total
/// of the cycles, and along closed walks each of these is a step.
pub fn sides_run_along_the_cycles()
    ensures permutes { (cycles : List (List ℕ)) → IsPermutation (after cycles) (length (labels_of cycles)) }
    ensures totals { (price : ℕ → ℕ → ℤ) (cycles : List (List ℕ)) → sum_below (λ s. price (at cycles s) (at cycles (after cycles s))) (length (labels_of cycles)) ≡ walks_total price cycles }
    ensures steps { (c : Chain) (cycles : List (List ℕ)) (s : ℕ) → AllByRecursion (IsClosedWalk c) cycles → s < length (labels_of cycles) → IsStep c (at cycles s) (at cycles (after cycles s)) }
{}

/// The copies of polygons with counts whose columns come to n times the right side are closed walks whose columns do.
pub fn copies_are_cycles()
    ensures { (c : Chain) (n : ℕ) (parts : Parts) → AreBalanced c n parts → AreCycles c n (copies_of parts) }
{}

/// A surface that is glued of the copies of polygons whose columns come to n times the right side is a labelled
/// fatgraph with n copies, and so is one that is glued of any closed walks whose columns do.
pub fn glued_surfaces_are_fatgraphs()
    ensures copies { (c : Chain) (n : ℕ) (parts : Parts) (g : Sides) → 0 < n → AreBalanced c n parts → IsGlued c (copies_of parts) g → IsFatgraph c n g }
    ensures cycles { (c : Chain) (n : ℕ) (cycles : List (List ℕ)) (g : Sides) → 0 < n → AreCycles c n cycles → IsGlued c cycles g → IsFatgraph c n g }
{}

/// The gluing fixes the sides.
pub fn one_surface_is_glued()
    ensures copies { (c : Chain) (n : ℕ) (parts : Parts) (g h : Sides) → AreBalanced c n parts → IsGlued c (copies_of parts) g → IsGlued c (copies_of parts) h → g ≡ h }
    ensures cycles { (c : Chain) (n : ℕ) (cycles : List (List ℕ)) (g h : Sides) → AreCycles c n cycles → IsGlued c cycles g → IsGlued c cycles h → g ≡ h }
{}

/// The vertices of a glued surface are as many as the copies: each of them becomes one.
pub fn copies_become_vertices()
    ensures copies { (c : Chain) (n : ℕ) (parts : Parts) (g : Sides) → AreBalanced c n parts → IsGlued c (copies_of parts) g → vertices g ≡ sum_by (λ p. p.1) parts }
    ensures cycles { (c : Chain) (n : ℕ) (cycles : List (List ℕ)) (g : Sides) → AreCycles c n cycles → IsGlued c cycles g → vertices g ≡ length cycles }
{}

/// The sides of closed walks whose columns come to n times the right side are n times the weighted length.
pub fn copies_have_the_sides()
    ensures copies { (c : Chain) (n : ℕ) (parts : Parts) → AreBalanced c n parts → length (labels_of (copies_of parts)) ≡ n * weighted_length c }
    ensures cycles { (c : Chain) (n : ℕ) (cycles : List (List ℕ)) → AreCycles c n cycles → length (labels_of cycles) ≡ n * weighted_length c }
{}

/// The seed surface of a balanced chain is a labelled fatgraph over one copy of it.
pub fn seed_surfaces_are_fatgraphs()
    ensures { (c : Chain) (g : Sides) → IsChain c → IsBalanced c → IsSeed c g → IsFatgraph c 1 g }
{}
