//! Laws of price lists and of the tables that vouch for them.

ghost use Rattle.std.specs.Prelude.{ℕ, length, get_or, pos, ◌*ℤ◌, ◌<ℤ◌, ◌≤ℤ◌};
ghost use Rattle.sc_algebra.specs.Sums.{sum_below};
ghost use Rattle.sc_theory.specs.Chains.{Chain, IsChain, first};
ghost use Rattle.sc_theory.specs.Fatgraphs.{Sides, sides_at, vertices, IsFatgraph, IsLeast};
ghost use Rattle.sc_theory.specs.Prices.{Prices, Tables, Vouch, Covers, bound, IsTight};

/// Tables that vouch for a list show that it covers: every closed walk costs at least the scale.
pub fn vouching_tables_cover()
    ensures { (c : Chain) (list : Prices) (tables : Tables) → pos 0 <ℤ list.scale → Vouch c list tables → Covers c list }
{}

/// A list that covers a chain bounds the vertices of every labelled fatgraph over it: by the base prices of its words
/// with the numbers of times that the fatgraph runs along each, which is the copies times the bound.
pub fn covering_lists_bound_the_vertices()
    ensures counts { (c : Chain) (list : Prices) (n : ℕ) (g : Sides) → IsChain c → Covers c list → IsFatgraph c n g → (list.scale *ℤ pos (vertices g)) ≤ℤ sum_below (λ w. pos (sides_at g (first c w)) *ℤ get_or list.base w (pos 0)) (length c) }
    ensures copies { (c : Chain) (list : Prices) (n : ℕ) (g : Sides) → IsChain c → Covers c list → IsFatgraph c n g → (list.scale *ℤ pos (vertices g)) ≤ℤ (pos n *ℤ bound c list) }
{}

/// A labelled fatgraph is least over its chain where a list that covers the chain is tight for it, so where tables
/// vouch for such a list.
pub fn tight_and_covering_are_least()
    ensures covering { (c : Chain) (list : Prices) (n : ℕ) (g : Sides) → IsChain c → pos 0 <ℤ list.scale → Covers c list → IsFatgraph c n g → IsTight c list n g → IsLeast c n g }
    ensures vouched { (c : Chain) (list : Prices) (tables : Tables) (n : ℕ) (g : Sides) → IsChain c → pos 0 <ℤ list.scale → Vouch c list tables → IsFatgraph c n g → IsTight c list n g → IsLeast c n g }
{}
