//! Laws of the chains of directions.

ghost use Rattle.std.specs.Prelude.{◌≡◌, ℕ, ◌+◌, ◌*◌, pos, ◌+ℤ◌, ◌*ℤ◌, unsigned_abs, ◌↔◌};
ghost use Rattle.sc_theory.specs.Chains.{Chain, IsChain, IsBalanced, weighted_length};
ghost use Rattle.sc_theory.specs.Prices.{Prices, Covers, bound};
ghost use Rattle.sc_cone.specs.declared.Direction.{Direction};
ghost use Rattle.sc_cone.specs.declared.Quadrant.{Quadrant};
ghost use Rattle.sc_cone.specs.Directions.{IsIn, IsCombination};
ghost use Rattle.sc_cone.specs.Cones.{chain_of, quadrant_chain};
ghost use Rattle.sc_cone.specs.Values.{list_num, first_form, second_form};

/// A list that covers a quadrant's chain covers the chain of each of its directions: whether it covers doesn't depend
/// on the weights.
pub fn covering_sees_no_weights()
    ensures { (q : Quadrant) (first second : Chain) (list : Prices) (d : Direction) → Covers (quadrant_chain q first second) list ↔ Covers (chain_of q first second d) list }
{}

/// Weighted length, bound and a list's value are linear over the directions of a quadrant.
pub fn list_values_are_linear()
    ensures lengths { (q : Quadrant) (first second : Chain) (k i j : ℕ) (d e x : Direction) → IsIn q d → IsIn q e → IsIn q x → IsCombination k i j d e x → pos k *ℤ pos (weighted_length (chain_of q first second x)) ≡ pos i *ℤ pos (weighted_length (chain_of q first second d)) +ℤ pos j *ℤ pos (weighted_length (chain_of q first second e)) }
    ensures bounds { (q : Quadrant) (first second : Chain) (list : Prices) (k i j : ℕ) (d e x : Direction) → IsIn q d → IsIn q e → IsIn q x → IsCombination k i j d e x → pos k *ℤ bound (chain_of q first second x) list ≡ pos i *ℤ bound (chain_of q first second d) list +ℤ pos j *ℤ bound (chain_of q first second e) list }
    ensures values { (q : Quadrant) (first second : Chain) (list : Prices) (k i j : ℕ) (d e x : Direction) → IsIn q d → IsIn q e → IsIn q x → IsCombination k i j d e x → pos k *ℤ list_num (chain_of q first second x) list ≡ pos i *ℤ list_num (chain_of q first second d) list +ℤ pos j *ℤ list_num (chain_of q first second e) list }
{}

/// The chain of a direction is a chain where the two chains are, and balanced where both are.
pub fn directions_have_chains()
    ensures chains { (q : Quadrant) (first second : Chain) (d : Direction) → IsChain first → IsChain second → IsChain (chain_of q first second d) }
    ensures quadrants { (q : Quadrant) (first second : Chain) → IsChain first → IsChain second → IsChain (quadrant_chain q first second) }
    ensures balanced { (q : Quadrant) (first second : Chain) (d : Direction) → IsBalanced first → IsBalanced second → IsBalanced (chain_of q first second d) }
{}

/// The weighted length of a direction's chain, and a list's value there, by those of the two chains: the same sums in
/// both quadrants.
pub fn values_by_forms()
    ensures lengths { (q : Quadrant) (first second : Chain) (d : Direction) → weighted_length (chain_of q first second d) ≡ unsigned_abs d.s * weighted_length first + unsigned_abs d.t * weighted_length second }
    ensures values { (q : Quadrant) (first second : Chain) (list : Prices) (d : Direction) → list_num (chain_of q first second d) list ≡ pos (unsigned_abs d.s) *ℤ first_form first list +ℤ pos (unsigned_abs d.t) *ℤ second_form first second list }
{}
