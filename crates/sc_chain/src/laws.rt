//! Laws of pairs and polygons.

ghost use Rattle.std.specs.Prelude.{◌≡◌, ◌<◌, ◌↔◌, ℕ, List, length, IsTrue, IsSome, Some};
ghost use Rattle.sc_theory.specs.Words.{inverse_letter};
ghost use Rattle.sc_theory.specs.Chains.{Chain, positions, letter};
ghost use Rattle.sc_theory.specs.Walks.{IsStep, IsClosedWalk, IsPolygon};
ghost use Rattle.sc_theory.specs.Prices.{Prices, pairs, pair_price};
ghost use Rattle.sc_theory.specs.Columns.{pair_at};
ghost use Rattle.sc_chain.specs.Pairs.{row_in, row_price};
ghost use Rattle.sc_chain.specs.Polygons.{is_step, is_closed_walk, is_polygon};
ghost use Rattle.sc_chain.specs.declared.sign.Sign.TheVariants.{Plus, Minus};

/// The tests of steps, closed walks and polygons tell what they are named for.
pub fn polygons_are_decided()
    ensures steps { (c : Chain) (i j : ℕ) → IsTrue (is_step c i j) ↔ IsStep c i j }
    ensures closed { (c : Chain) (w : List ℕ) → IsTrue (is_closed_walk c w) ↔ IsClosedWalk c w }
    ensures polygons { (c : Chain) (w : List ℕ) → IsTrue (is_polygon c w) ↔ IsPolygon c w }
{}

/// Each pair of positions with inverse letters has its row, with Plus where the lesser position comes first; each row
/// is that of its pair; and the row with its sign gives the price of the pair.
pub fn pairs_have_rows()
    ensures rows { (c : Chain) (p q : ℕ) → p < positions c → q < positions c →
        (IsSome (row_in (pairs c) p q) ↔ (letter c q ≡ inverse_letter (letter c p))) }
    ensures pair { (c : Chain) (k : ℕ) → k < length (pairs c) →
        row_in (pairs c) (pair_at c k).0 (pair_at c k).1 ≡ Some (k, Plus) }
    ensures inverse { (c : Chain) (k : ℕ) → k < length (pairs c) →
        letter c (pair_at c k).1 ≡ inverse_letter (letter c (pair_at c k).0) }
    ensures plus { (c : Chain) (p q k : ℕ) → row_in (pairs c) p q ≡ Some (k, Plus) → p < q }
    ensures minus { (c : Chain) (p q k : ℕ) → row_in (pairs c) p q ≡ Some (k, Minus) → q < p }
    ensures price { (c : Chain) (list : Prices) (p q : ℕ) → length list.pair ≡ length (pairs c) →
        pair_price c list p q ≡ row_price list (row_in (pairs c) p q) }
{}
