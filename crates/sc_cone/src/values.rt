//! Laws of the values of chains, and of the values that price lists give them.

ghost use Rattle.std.specs.Prelude.{◌≡◌, ℕ, ℤ, pos, ◌*◌, ◌*ℤ◌, ◌<ℤ◌, ◌≤ℤ◌, ◌↔◌};
ghost use Rattle.sc_theory.specs.Chains.{Chain, IsChain};
ghost use Rattle.sc_theory.specs.Fatgraphs.{Sides, cost, IsFatgraph, IsLeast};
ghost use Rattle.sc_theory.specs.Prices.{Prices, Covers, IsTight};
ghost use Rattle.sc_cone.specs.declared.Direction.{Direction};
ghost use Rattle.sc_cone.specs.declared.Quadrant.{Quadrant};
ghost use Rattle.sc_cone.specs.Directions.{right};
ghost use Rattle.sc_cone.specs.Cones.{chain_of, quadrant_chain};
ghost use Rattle.sc_cone.specs.Values.{IsValueOf, list_num, list_den};

/// A chain has one value: the fractions that are its value are those of one number. A least labelled fatgraph gives it.
pub fn values_are_unique()
    ensures unique { (c : Chain) (num den num' den' : ℤ) → IsValueOf c num den → IsValueOf c num' den' → num *ℤ den' ≡ num' *ℤ den }
    ensures same { (c : Chain) (num den num' den' : ℤ) → IsValueOf c num den → pos 0 <ℤ den' → num' *ℤ den ≡ num *ℤ den' → IsValueOf c num' den' }
    ensures by_least { (c : Chain) (n : ℕ) (g : Sides) → IsFatgraph c n g → IsLeast c n g → IsValueOf c (cost g) (pos (2 * n)) }
{}

/// The value that a covering list gives a chain is at most the chain's value. So a list that covers a quadrant's chain
/// bounds the value of each of its directions.
pub fn covering_lists_bound_the_value()
    ensures chains { (c : Chain) (list : Prices) (num den : ℤ) → IsChain c → Covers c list → IsValueOf c num den → (list_num c list *ℤ den) ≤ℤ (num *ℤ list_den list) }
    ensures directions { (q : Quadrant) (first second : Chain) (list : Prices) (d : Direction) (num den : ℤ) → IsChain first → IsChain second → Covers (quadrant_chain q first second) list → IsValueOf (chain_of q first second d) num den → (list_num (chain_of q first second d) list *ℤ den) ≤ℤ (num *ℤ list_den list) }
{}

/// A list is tight for a labelled fatgraph exactly where its value is the fatgraph's fraction. So the value of a
/// covering list is the chain's value exactly where the list is tight for some labelled fatgraph over the chain.
pub fn tight_lists_have_the_value()
    ensures fraction { (c : Chain) (list : Prices) (n : ℕ) (g : Sides) → IsFatgraph c n g → IsTight c list n g ↔ (list_num c list *ℤ pos (2 * n) ≡ cost g *ℤ list_den list) }
    ensures value { (c : Chain) (list : Prices) (n : ℕ) (g : Sides) → IsChain c → pos 0 <ℤ list.scale → Covers c list → IsFatgraph c n g → IsTight c list n g → IsValueOf c (list_num c list) (list_den list) }
    ensures back { (c : Chain) (list : Prices) → IsValueOf c (list_num c list) (list_den list) → (pos 0 <ℤ list.scale) × ((n : ℕ) × (g : Sides) × IsFatgraph c n g × IsTight c list n g) }
{}

/// The direction 1, 0 has one value, whichever quadrant's chain is taken: the words of the second chain have weight 0
/// there and label no side, so the labelled fatgraphs are those over the first chain.
pub fn first_axis_has_one_value()
    ensures fatgraphs { (q : Quadrant) (first second : Chain) (n : ℕ) (g : Sides) → IsFatgraph (chain_of q first second right) n g ↔ IsFatgraph first n g }
    ensures value { (q : Quadrant) (first second : Chain) (num den : ℤ) → IsValueOf (chain_of q first second right) num den ↔ IsValueOf first num den }
    ensures quadrants { (q r : Quadrant) (first second : Chain) (num den : ℤ) → IsValueOf (chain_of q first second right) num den → IsValueOf (chain_of r first second right) num den }
{}
