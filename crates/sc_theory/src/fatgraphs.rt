//! Laws of labelled fatgraphs.

ghost use Rattle.std.specs.Prelude.{◌≡◌, ℕ, suc, ◌+◌, ◌*◌, ◌<◌, ◌≤◌, length, pos, ◌≤ℤ◌, IsTrue, ◌↔◌};
ghost use Rattle.std.specs.Fn.{iterate};
ghost use Rattle.sc_algebra.specs.Permutations.{IsPermutation, is_least_for};
ghost use Rattle.sc_theory.specs.Chains.{Chain, IsChain, IsBalanced, word, positions, weighted_length, first, word_of};
ghost use Rattle.sc_theory.specs.Fatgraphs.{Sides, label, turn, quota, sides_at, edges, cost, IsFatgraph};
ghost use Rattle.sc_theory.specs.Orbits.{labels_from};
ghost use Rattle.sc_theory.specs.Walks.{IsStep, IsClosedWalk};

/// Each position of a word is the label of as many sides as the copies run along the word, so the sides are as many as
/// the copies times the weighted length, and the chain is balanced.
pub fn copies_count_the_sides()
    ensures places { (c : Chain) (n : ℕ) (g : Sides) (w k : ℕ) → IsFatgraph c n g → k < length (word c w) → sides_at g (first c w + k) ≡ quota c n w }
    ensures positions { (c : Chain) (n : ℕ) (g : Sides) (i : ℕ) → IsFatgraph c n g → i < positions c → sides_at g i ≡ quota c n (word_of c i) }
    ensures length { (c : Chain) (n : ℕ) (g : Sides) → IsFatgraph c n g → length g ≡ n * weighted_length c }
    ensures balanced { (c : Chain) (n : ℕ) (g : Sides) → IsFatgraph c n g → IsBalanced c }
{}

/// To turn permutes the sides and comes back to each, within as many turns as there are sides. To turn is a step
/// between labels, so the labels round a vertex are a closed walk.
pub fn orbits_are_closed_walks()
    ensures permutes { (c : Chain) (n : ℕ) (g : Sides) → IsFatgraph c n g → IsPermutation (turn g) (length g) }
    ensures comes_back { (c : Chain) (n : ℕ) (g : Sides) (s : ℕ) → IsFatgraph c n g → s < length g → (k : ℕ) × (k < length g) × (iterate (turn g) (suc k) s ≡ s) }
    ensures steps { (c : Chain) (n : ℕ) (g : Sides) (s : ℕ) → IsFatgraph c n g → s < length g → IsStep c (label g s) (label g (turn g s)) }
    ensures orbits { (c : Chain) (n : ℕ) (g : Sides) (s k : ℕ) → IsFatgraph c n g → s < length g → iterate (turn g) (suc k) s ≡ s → IsClosedWalk c (labels_from g (suc k) s) }
{}

/// The test in the number of vertices asks for no iterate below the side, however often `turn` is applied.
pub fn vertices_are_least_sides()
    ensures { (c : Chain) (n : ℕ) (g : Sides) (s : ℕ) → IsFatgraph c n g → s < length g → IsTrue (is_least_for (turn g) (length g) s) ↔ ((k : ℕ) → s ≤ iterate (turn g) k s) }
{}

/// Two sides make an edge.
pub fn sides_are_even()
    ensures { (c : Chain) (n : ℕ) (g : Sides) → IsFatgraph c n g → length g ≡ 2 * edges g }
{}

/// There are at least as many edges as vertices, since no word of a chain has a letter beside its inverse.
pub fn cost_is_never_negative()
    ensures { (c : Chain) (n : ℕ) (g : Sides) → IsChain c → IsFatgraph c n g → pos 0 ≤ℤ cost g }
{}
