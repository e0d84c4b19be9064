//! Laws of the search for the corners of a quadrant.

ghost use Rattle.std.specs.Prelude.{◌≡◌, ℕ, suc, ◌*◌, ◌<◌, ◌≤◌, List, length, ℤ, pos, ◌*ℤ◌, ◌<ℤ◌, unsigned_abs, ◌↔◌};
ghost use Rattle.std.specs.List.{insert};
ghost use Rattle.sc_theory.specs.Chains.{Chain, IsChain, weighted_length};
ghost use Rattle.sc_theory.specs.Prices.{Prices, Covers};
ghost use Rattle.sc_cone.specs.declared.Direction.{Direction};
ghost use Rattle.sc_cone.specs.declared.Quadrant.{Quadrant};
ghost use Rattle.sc_cone.specs.Directions.{IsIn, TurnsLeft};
ghost use Rattle.sc_cone.specs.Cones.{chain_of, quadrant_chain};
ghost use Rattle.sc_cone.specs.Searches.{Reached, reached, IsReached, IsOpen, IsGap, IsNext, IsSearch, IsSweep};
ghost use Rattle.sc_cone.specs.Values.{IsValueOf, IsTightAt, SameValueAt, list_num, list_den, first_gap, second_gap};

/// Where the value of a chain is known, a list has it exactly where the two fractions are one number.
pub fn tight_by_the_known_value()
    ensures { (c : Chain) (list : Prices) (num den : ℤ) → pos 0 <ℤ list.scale → IsValueOf c num den → IsValueOf c (list_num c list) (list_den list) ↔ (list_num c list *ℤ den ≡ num *ℤ list_den list) }
{}

/// A covering list that is tight at a direction and not at one to the left of it isn't tight further on either.
pub fn no_list_is_tight_again()
    ensures { (q : Quadrant) (first second : Chain) (list : Prices) (d e x : Direction) → IsChain first → IsChain second → Covers (quadrant_chain q first second) list → IsIn q d → IsIn q e → IsIn q x → TurnsLeft d e → TurnsLeft e x → IsTightAt q first second list d → (IsTightAt q first second list e → ⊥) → IsTightAt q first second list x → ⊥ }
{}

/// The next direction between two open neighbours is strictly between them, and is one.
pub fn next_direction_is_between()
    ensures between { (q : Quadrant) (first second : Chain) (r u : Reached) (x : Direction) → IsChain first → IsChain second → IsGap q first second r u → IsNext q first second r u x → TurnsLeft r.direction x × TurnsLeft x u.direction }
    ensures one { (q : Quadrant) (first second : Chain) (r u : Reached) (x y : Direction) → IsChain first → IsChain second → IsGap q first second r u → IsNext q first second r u x → IsNext q first second r u y → x ≡ y }
{}

/// The entries of a search are primitive directions of its quadrant, from its one end to the other, each to the left of
/// the one before, with lists that cover the quadrant's chain and are tight there.
pub fn searches_go_round()
    ensures sweep { (q : Quadrant) (first second : Chain) (rs : List Reached) → IsChain first → IsChain second → IsSearch q first second rs → IsSweep q first second rs }
    ensures gaps { (q : Quadrant) (first second : Chain) (rs : List Reached) (i : ℕ) → IsSweep q first second rs → suc i < length rs → IsOpen q first second (reached rs i) (reached rs (suc i)) → IsGap q first second (reached rs i) (reached rs (suc i)) }
{}

/// A search grows by what is put in between two open neighbours.
pub fn searches_grow()
    ensures { (q : Quadrant) (first second : Chain) (rs : List Reached) (i : ℕ) (x : Reached) → IsSearch q first second rs → suc i < length rs → IsOpen q first second (reached rs i) (reached rs (suc i)) → IsNext q first second (reached rs i) (reached rs (suc i)) x.direction → IsReached q first second x → IsSearch q first second (insert rs (suc i) x) }
{}

/// Two lists have one value at a direction exactly where what they gain along the two chains balances; for open
/// neighbours the two gaps are both above 0 or both below.
pub fn crossing_by_forms()
    ensures same { (q : Quadrant) (first second : Chain) (l m : Prices) (d : Direction) → SameValueAt q first second l m d ↔ (pos (unsigned_abs d.s) *ℤ first_gap first l m ≡ pos (unsigned_abs d.t) *ℤ second_gap first second l m) }
    ensures one_sign { (q : Quadrant) (first second : Chain) (r u : Reached) → IsChain first → IsChain second → IsGap q first second r u → pos 0 <ℤ (first_gap first r.list u.list *ℤ second_gap first second r.list u.list) }
{}

/// Open neighbours are there only where both chains have a weighted length above 0. Then the coordinates of a direction
/// are at most the weighted length of its chain.
pub fn open_neighbours_have_length()
    ensures first { (q : Quadrant) (first second : Chain) (r u : Reached) → IsChain first → IsChain second → IsGap q first second r u → 0 < weighted_length first }
    ensures second { (q : Quadrant) (first second : Chain) (r u : Reached) → IsChain first → IsChain second → IsGap q first second r u → 0 < weighted_length second }
    ensures coordinates { (q : Quadrant) (first second : Chain) (d : Direction) → 0 < weighted_length first → 0 < weighted_length second → (unsigned_abs d.s ≤ weighted_length (chain_of q first second d)) × (unsigned_abs d.t ≤ weighted_length (chain_of q first second d)) }
{}

/// The entries of a search are at most as many as there are pairs of coordinates.
pub fn searches_are_short()
    ensures { (q : Quadrant) (first second : Chain) (rs : List Reached) (n : ℕ) → IsSweep q first second rs → ((i : ℕ) → i < length rs → (unsigned_abs (reached rs i).direction.s ≤ n) × (unsigned_abs (reached rs i).direction.t ≤ n)) → length rs ≤ suc n * suc n }
{}
