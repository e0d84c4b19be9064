//! The definitions at small examples, which tell them from near misses: vertices are no boundaries, sides are counted
//! word by word, and tables answer for the steps back into their start.

ghost use Rattle.std.specs.Prelude.{◌≡◌, ℕ, ◌*◌, ◌<◌, List, [], ◌∷◌, map, length, Some, pos, negsuc, ◌+ℤ◌, ◌≤ℤ◌, ◌↔◌};
ghost use Rattle.sc_algebra.specs.Sums.{count_below};
ghost use Rattle.sc_algebra.specs.Permutations.{is_least_for};
ghost use Rattle.sc_theory.specs.Chains.{positions, weighted_length};
ghost use Rattle.sc_theory.specs.Fatgraphs.{next, IsFatgraph, vertices, edges, cost, IsLeast};
ghost use Rattle.sc_theory.specs.Walks.{IsStep, IsPolygon};
ghost use Rattle.sc_theory.specs.Prices.{price, entry, Vouch, Covers, IsTight};
ghost use Rattle.sc_theory.specs.Columns.{rows, column, right_side, length_row};
ghost use Rattle.sc_theory.specs.Examples.{commutator, torus, torus_by_steps, commutator_prices, commutator_tables, twice_round};
ghost use Rattle.sc_theory.specs.Examples.{opposite_words, annulus, annulus_prices, annulus_tables, pants, free_prices, zero_tables, four_words, uneven_words, two_annuli};

/// The torus with one boundary is a labelled fatgraph over the commutator.
pub fn torus_over_the_commutator()
    ensures fatgraph { IsFatgraph commutator 1 torus }
    ensures vertices { vertices torus ≡ 1 }
    ensures edges { edges torus ≡ 2 }
    ensures cost { cost torus ≡ pos 1 }
{}

/// The surface of genus 2 whose boundary runs twice along the commutator has one vertex too.
pub fn twice_round_the_commutator()
    ensures fatgraph { IsFatgraph commutator 2 twice_round }
    ensures vertices { vertices twice_round ≡ 1 }
    ensures cost { cost twice_round ≡ pos 3 }
{}

/// The annulus has one vertex, and two cycles of `next`, its boundaries.
pub fn annulus_between_opposite_words()
    ensures fatgraph { IsFatgraph opposite_words 1 annulus }
    ensures vertices { vertices annulus ≡ 1 }
    ensures boundaries { count_below (is_least_for (next annulus) (length annulus)) (length annulus) ≡ 2 }
    ensures cost { cost annulus ≡ pos 0 }
{}

/// As many sides as the copies ask for don't do: each word wants its own. With other weights that come to the same
/// weighted length the same sides are a labelled fatgraph.
pub fn sides_are_counted_by_word()
    ensures length { length two_annuli ≡ 1 * weighted_length four_words }
    ensures refused { IsFatgraph four_words 1 two_annuli → ⊥ }
    ensures same_length { weighted_length uneven_words ≡ weighted_length four_words }
    ensures fatgraph { IsFatgraph uneven_words 1 two_annuli }
{}

/// Tables vouch for a list of the commutator, and the list is tight for the torus, so the torus is least.
pub fn commutator_list()
    ensures fatgraph { IsFatgraph commutator 1 torus_by_steps }
    ensures vouch { Vouch commutator commutator_prices commutator_tables }
    ensures tight { IsTight commutator commutator_prices 1 torus_by_steps }
    ensures least { IsLeast commutator 1 torus_by_steps }
{}

/// Tables vouch for a list of the two opposite words, and the list is tight for the annulus, so the annulus is least.
pub fn annulus_list()
    ensures vouch { Vouch opposite_words annulus_prices annulus_tables }
    ensures tight { IsTight opposite_words annulus_prices 1 annulus }
    ensures least { IsLeast opposite_words 1 annulus }
{}

/// The columns of the walk 0 3 2 1 of the commutator, in the rows of its two pairs and of its word, and of the walk 0 1
/// of the two opposite words, in the rows of their pair and of the words; with the right sides, which are the words'
/// weights.
pub fn columns_of_walks()
    ensures rows { rows commutator ≡ 3 }
    ensures commutator { map (column commutator (0 ∷ 3 ∷ 2 ∷ 1 ∷ [])) (0 ∷ 1 ∷ 2 ∷ []) ≡ pos 0 ∷ pos 0 ∷ pos 1 ∷ [] }
    ensures opposite { map (column opposite_words (0 ∷ 1 ∷ [])) (0 ∷ 1 ∷ 2 ∷ []) ≡ pos 0 ∷ pos 1 ∷ pos 1 ∷ [] }
    ensures right_side { map (right_side opposite_words) (0 ∷ 1 ∷ 2 ∷ []) ≡ pos 0 ∷ pos 1 ∷ pos 1 ∷ [] }
    ensures uneven_right_side { map (right_side uneven_words) (0 ∷ 1 ∷ 2 ∷ 3 ∷ 4 ∷ 5 ∷ []) ≡ pos 0 ∷ pos 0 ∷ pos 2 ∷ pos 2 ∷ pos 0 ∷ pos 0 ∷ [] }
    ensures lengths { map (length_row commutator) (0 ∷ 1 ∷ 2 ∷ []) ≡ pos 2 ∷ negsuc 1 ∷ pos 4 ∷ [] }
{}

/// Tables of zeros meet each condition of tables but that on the steps back into the start, where walks are free: they
/// don't vouch, and the list doesn't cover.
pub fn steps_into_the_start_count()
    ensures starts { (s : ℕ) → s < positions commutator → entry zero_tables s s ≡ Some (pos 0) }
    ensures goes { (s i j : ℕ) → s < positions commutator → IsStep commutator i j → (entry zero_tables s j ≡ Some (pos 0)) × (pos 0 ≤ℤ (pos 0 +ℤ price commutator free_prices i j)) }
    ensures refused { Vouch commutator free_prices zero_tables → ⊥ }
    ensures uncovered { Covers commutator free_prices → ⊥ }
{}

/// The words a, b and AB have one polygon.
pub fn polygon_of_the_pants()
    ensures { (walk : List ℕ) → IsPolygon pants walk ↔ (walk ≡ 0 ∷ 2 ∷ 1 ∷ 3 ∷ []) }
{}
