//! Products of whole numbers, sums and counts below a bound, and permutations of the numbers below a bound: what the
//! definitions of the subject stand on and are no part of the subject. Definitions stand in `specs/`; each public
//! function is a law over them.
#![tactic(auto)]

ghost use Rattle.std.specs.Fn.{iterate};
ghost use Rattle.std.specs.Prelude.{
  if◌then◌else◌,
  neg_ℤ,
  not,
  nat_lt,
  pos,
  slice_index,
  suc,
  sum_by,
  Bool,
  IsTrue,
  List,
  [],
  length,
  count_by,
  true,
  ◌*ℤ◌,
  ◌*◌,
  ◌+ℤ◌,
  ◌+◌,
  ◌-ℤ◌,
  ◌<◌,
  ◌==◌,
  ◌↔◌,
  ◌≡◌,
  ◌≢◌,
  ◌≤ℤ◌,
  ◌≤◌,
  ◌⊎◌,
  ◌∷◌,
  ℕ,
  ℤ,
};
ghost use Rattle.sc_algebra.specs.Permutations.{IsPermutation, is_least_for, sum_along};
ghost use Rattle.sc_algebra.specs.Sums.{count_below, sum_below};

/// Products of whole numbers: they can be turned round, regrouped and multiplied out.
pub fn whole_number_products()
    ensures commute { (a b : ℤ) → a *ℤ b ≡ b *ℤ a }
    ensures associate { (a b c : ℤ) → (a *ℤ b) *ℤ c ≡ a *ℤ (b *ℤ c) }
    ensures distribute { (a b c : ℤ) → a *ℤ (b +ℤ c) ≡ a *ℤ b +ℤ a *ℤ c }
    ensures subtract { (a b c : ℤ) → a *ℤ (b -ℤ c) ≡ a *ℤ b -ℤ a *ℤ c }
    ensures negate { (a b : ℤ) → a *ℤ neg_ℤ b ≡ neg_ℤ (a *ℤ b) }
{}

/// The order of whole numbers holds of their products by a natural number, and a factor that is not 0 can be taken
/// away.
pub fn whole_number_order()
    ensures multiplied { (n : ℕ) (a b : ℤ) → a ≤ℤ b → (pos n *ℤ a) ≤ℤ (pos n *ℤ b) }
    ensures divided { (n : ℕ) (a b : ℤ) → 0 < n → (pos n *ℤ a) ≤ℤ (pos n *ℤ b) → a ≤ℤ b }
    ensures cancelled { (n : ℕ) (a b : ℤ) → 0 < n → pos n *ℤ a ≡ pos n *ℤ b → a ≡ b }
{}

/// Sums are sums of their terms: added, multiplied by a factor, compared, cut in two, and taken in either order.
pub fn laws_of_sums()
    ensures added { (f g : ℕ → ℤ) (n : ℕ) →
        sum_below (λ k. f k +ℤ g k) n ≡ sum_below f n +ℤ sum_below g n }
    ensures negated { (f : ℕ → ℤ) (n : ℕ) → sum_below (λ k. neg_ℤ (f k)) n ≡ neg_ℤ (sum_below f n) }
    ensures multiplied { (a : ℤ) (f : ℕ → ℤ) (n : ℕ) → sum_below (λ k. a *ℤ f k) n ≡ a *ℤ sum_below f n }
    ensures constant { (a : ℤ) (n : ℕ) → sum_below (λ k. a) n ≡ pos n *ℤ a }
    ensures compared { (f g : ℕ → ℤ) (n : ℕ) → ((k : ℕ) → k < n → f k ≤ℤ g k) →
        sum_below f n ≤ℤ sum_below g n }
    ensures cut { (f : ℕ → ℤ) (m n : ℕ) →
        sum_below f (m + n) ≡ sum_below f m +ℤ sum_below (λ k. f (m + k)) n }
    ensures exchanged { (f : ℕ → ℕ → ℤ) (n m : ℕ) →
        sum_below (λ s. sum_below (λ w. f s w) m) n ≡ sum_below (λ w. sum_below (λ s. f s w) n) m }
{}

/// A count is the sum of a one for each number that passes, is at most the bound, and with the count of those that fail
/// makes up the bound.
pub fn laws_of_counts()
    ensures summed { (p : ℕ → Bool) (n : ℕ) →
        pos (count_below p n) ≡ sum_below (λ k. if p k then pos 1 else pos 0) n }
    ensures bounded { (p : ℕ → Bool) (n : ℕ) → count_below p n ≤ n }
    ensures completed { (p : ℕ → Bool) (n : ℕ) → count_below p n + count_below (λ k. not (p k)) n ≡ n }
{}

/// A sum over the values of a function, each as often as it is taken, is the sum over the places.
pub fn sums_by_value()
    ensures weighed { (f : ℕ → ℕ) (g : ℕ → ℤ) (m n : ℕ) → ((s : ℕ) → s < n → f s < m) →
        sum_below (λ i. pos (count_below (λ s. f s == i) n) *ℤ g i) m ≡ sum_below (λ s. g (f s)) n }
    ensures counted { (f : ℕ → ℕ) (m n : ℕ) → ((s : ℕ) → s < n → f s < m) →
        sum_below (λ i. pos (count_below (λ s. f s == i) n)) m ≡ pos n }
{}

/// Sums and counts over the places of a list of numbers are those over its elements.
pub fn sums_over_lists()
    ensures summed { (f : ℕ → ℕ) (xs : List ℕ) →
        sum_below (λ k. pos (f (slice_index xs k))) (length xs) ≡ pos (sum_by f xs) }
    ensures counted { (p : ℕ → Bool) (xs : List ℕ) →
        count_below (λ k. p (slice_index xs k)) (length xs) ≡ count_by p xs }
{}

/// A sum can be taken block by block, and over the places alone where its terms are not 0.
pub fn sums_in_parts()
    // the block number w begins at `starts w` and has `sizes w` numbers
    ensures blocks { (f : ℕ → ℤ) (starts sizes : ℕ → ℕ) (m : ℕ) →
        starts 0 ≡ 0 → ((w : ℕ) → w < m → starts (suc w) ≡ starts w + sizes w) →
        sum_below f (starts m) ≡ sum_below (λ w. sum_below (λ k. f (starts w + k)) (sizes w)) m }
    // no two of the places are the same
    ensures places { (f : ℕ → ℤ) (place : ℕ → ℕ) (n m : ℕ) →
        ((w : ℕ) → w < m → place w < n) →
        ((v w : ℕ) → v < m → w < m → place v ≡ place w → v ≡ w) →
        ((k : ℕ) → k < n → (f k ≡ pos 0) ⊎ ((w : ℕ) × (w < m) × (place w ≡ k))) →
        sum_below f n ≡ sum_below (λ w. f (place w)) m }
{}

/// A permutation of the numbers below a bound comes to each of them.
pub fn permutations_are_onto()
    ensures onto { (t : ℕ → ℕ) (n : ℕ) → IsPermutation t n →
        (u : ℕ) → u < n → (s : ℕ) × (s < n) × (t s ≡ u) }
{}

/// A sum or a count over all numbers below a bound stays the same where a permutation goes first.
pub fn reindexing()
    ensures summed { (t : ℕ → ℕ) (n : ℕ) (f : ℕ → ℤ) → IsPermutation t n →
        sum_below (λ s. f (t s)) n ≡ sum_below f n }
    ensures counted { (t : ℕ → ℕ) (n : ℕ) (p : ℕ → Bool) → IsPermutation t n →
        count_below (λ s. p (t s)) n ≡ count_below p n }
{}

/// An involution that moves every number below a bound makes pairs of them, so that half of them are the smaller of
/// their pair.
pub fn involutions_make_pairs()
    ensures halved { (m : ℕ → ℕ) (n : ℕ) →
        ((s : ℕ) → s < n → m s < n) → ((s : ℕ) → s < n → m (m s) ≡ s) →
        ((s : ℕ) → s < n → m s ≢ s) →
        count_below (λ s. nat_lt s (m s)) n * 2 ≡ n }
{}

/// Where an involution takes each number to one of the opposite value, the values sum to 0.
pub fn antisymmetric_sums_vanish()
    ensures cancelled { (m : ℕ → ℕ) (n : ℕ) (y : ℕ → ℤ) →
        ((s : ℕ) → s < n → m s < n) → ((s : ℕ) → s < n → m (m s) ≡ s) →
        ((s : ℕ) → s < n → y (m s) ≡ neg_ℤ (y s)) →
        sum_below y n ≡ pos 0 }
{}

/// A permutation of the numbers below a bound takes each back to itself within as many steps as there are numbers.
pub fn orbits_return()
    ensures returned { (t : ℕ → ℕ) (n : ℕ) → IsPermutation t n →
        (s : ℕ) → s < n → (k : ℕ) × (k < n) × (iterate t (suc k) s ≡ s) }
{}

/// The test for the least number of an orbit looks at as many iterates as there are numbers, and speaks of all
/// iterates.
pub fn least_means_least()
    ensures least { (t : ℕ → ℕ) (n : ℕ) → IsPermutation t n → (s : ℕ) → s < n →
        IsTrue (is_least_for t n s) ↔ ((k : ℕ) → s ≤ iterate t k s) }
{}

/// Where each walk of a permutation that returns costs at least d, the costs of all numbers below the bound come to at
/// least d for each orbit.
pub fn orbit_bound()
    ensures bounded { (t : ℕ → ℕ) (n : ℕ) (f : ℕ → ℤ) (d : ℤ) → IsPermutation t n →
        ((s k : ℕ) → s < n → iterate t (suc k) s ≡ s → d ≤ℤ sum_along f t (suc k) s) →
        (d *ℤ pos (count_below (is_least_for t n) n)) ≤ℤ sum_below f n }
{}

/// The definitions at small numbers, by computing.
pub fn examples()
    ensures sum { sum_below (λ k. pos k) 4 ≡ pos 6 }
    ensures empty_sum { sum_below (λ k. pos k) 0 ≡ pos 0 }
    ensures count { count_below (λ k. nat_lt k 3) 5 ≡ 3 }
    // the permutation (0 1)(2 3 4) has two orbits, whose least numbers are 0 and 2
    ensures two_orbits { count_below (is_least_for (λ s. slice_index (1 ∷ 0 ∷ 3 ∷ 4 ∷ 2 ∷ []) s) 5) 5 ≡ 2 }
    ensures least { is_least_for (λ s. slice_index (1 ∷ 0 ∷ 3 ∷ 4 ∷ 2 ∷ []) s) 5 2 ≡ true }
    // 2, 3 and 4 along the second
    ensures along { sum_along (λ s. pos s) (λ s. slice_index (1 ∷ 0 ∷ 3 ∷ 4 ∷ 2 ∷ []) s) 3 2 ≡ pos 9 }
{}
