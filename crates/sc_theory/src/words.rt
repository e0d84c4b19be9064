//! The laws of letters, words and their reduction.

ghost use Rattle.std.specs.Prelude.{◌≡◌, ◌↔◌, ℕ, ◌<◌, false, List, [], ◌∷◌, ◌++◌, length, ◌+ℤ◌, neg_ℤ, Some, None};
ghost use Rattle.sc_theory.specs.declared.Letter.{Letter};
ghost use Rattle.sc_theory.specs.Words.{Word, inverse_letter, inverse_word, total, delete_leftmost, free_reduction, cyclic_reduction, IsReduced, SameElement, FreelyDeletes, FreeDeletions};
ghost use Rattle.sc_theory.specs.Places.{cancels_next, IsLeastCancelling};
ghost use Rattle.sc_theory.specs.Examples.{a, b, a', b'};

/// The inverse of the inverse is the letter, and so it is for words.
pub fn inverse_twice()
    ensures letter { (x : Letter) → inverse_letter (inverse_letter x) ≡ x }
    ensures word { (w : Word) → inverse_word (inverse_word w) ≡ w }
{}

/// The inverse of a product is the product of the inverses in reverse order.
pub fn inverse_of_product()
    ensures { (u v : Word) → inverse_word (u ++ v) ≡ inverse_word v ++ inverse_word u }
{}

/// The totals of a product are the sums of the totals.
pub fn total_of_product()
    ensures { (g : ℕ) (u v : Word) → total g (u ++ v) ≡ total g u +ℤ total g v }
{}

/// An inverse word has the opposite totals.
pub fn total_of_inverse()
    ensures { (g : ℕ) (w : Word) → total g (inverse_word w) ≡ neg_ℤ (total g w) }
{}

/// A word, its free reduction and its cyclic reduction have equal totals.
pub fn reduction_keeps_totals()
    ensures free { (g : ℕ) (w : Word) → total g (free_reduction w) ≡ total g w }
    ensures cyclic { (g : ℕ) (w : Word) → total g (cyclic_reduction w) ≡ total g w }
{}

/// What reduction leaves allows no deletion.
pub fn reduction_leaves_none()
    ensures free { (w : Word) → delete_leftmost (free_reduction w) ≡ None }
    ensures cyclic { (w : Word) → IsReduced (cyclic_reduction w) }
{}

/// What is reduced already stays as it is, so a second reduction changes nothing.
pub fn reduction_of_reduced()
    ensures free { (w : Word) → delete_leftmost w ≡ None → free_reduction w ≡ w }
    ensures cyclic { (w : Word) → IsReduced w → cyclic_reduction w ≡ w }
    ensures free_twice { (w : Word) → free_reduction (free_reduction w) ≡ free_reduction w }
    ensures cyclic_twice { (w : Word) → cyclic_reduction (cyclic_reduction w) ≡ cyclic_reduction w }
{}

/// The word `aabABA` allows no free deletion, and its ends are deleted down to `abAB`; `abB` is the same element as
/// `a`, and `ab` isn't the same as `ba`.
pub fn reduction_by_example()
    ensures free { free_reduction (a ∷ a ∷ b ∷ a' ∷ b' ∷ a' ∷ []) ≡ a ∷ a ∷ b ∷ a' ∷ b' ∷ a' ∷ [] }
    ensures cyclic { cyclic_reduction (a ∷ a ∷ b ∷ a' ∷ b' ∷ a' ∷ []) ≡ a ∷ b ∷ a' ∷ b' ∷ [] }
    ensures same { SameElement (a ∷ b ∷ b' ∷ []) (a ∷ []) }
    ensures different { ¬ SameElement (a ∷ b ∷ []) (b ∷ a ∷ []) }
{}

/// A word is reduced exactly where no letter is the inverse of the next one round the word.
pub fn reduced_round_the_word()
    ensures { (w : Word) → IsReduced w ↔ ((k : ℕ) → k < length w → cancels_next w k ≡ false) }
{}

/// A word that isn't reduced has a least place whose letter is the inverse of the next one round the word, and only
/// such a word has one.
pub fn least_cancelling_place()
    ensures found { (w : Word) → ¬ IsReduced w → (k : ℕ) × IsLeastCancelling w k }
    ensures unreduced { (w : Word) (k : ℕ) → IsLeastCancelling w k → ¬ IsReduced w }
{}

/// The inverse of a reduced word is reduced.
pub fn inverse_of_reduced()
    ensures { (w : Word) → IsReduced w → IsReduced (inverse_word w) }
{}

/// Free deletions in whichever order end in the free reduction, which they can reach.
pub fn order_of_deletions()
    ensures unique { (w v : Word) → FreeDeletions w v → delete_leftmost v ≡ None → v ≡ free_reduction w }
    ensures reached { (w : Word) → FreeDeletions w (free_reduction w) }
{}

/// The deletion of the leftmost pair is a free deletion, and where there is no leftmost pair there is none anywhere.
pub fn leftmost_deletion()
    ensures some { (w v : Word) → delete_leftmost w ≡ Some v → FreelyDeletes w v }
    ensures none { (w v : Word) → delete_leftmost w ≡ None → ¬ FreelyDeletes w v }
{}

/// Two words are the same element exactly where their free reductions are equal.
pub fn same_element_by_reduction()
    ensures { (u v : Word) → SameElement u v ↔ (free_reduction u ≡ free_reduction v) }
{}

/// To be the same element is an equivalence.
pub fn same_element_is_equivalence()
    ensures reflexive { (w : Word) → SameElement w w }
    ensures symmetric { (u v : Word) → SameElement u v → SameElement v u }
    ensures transitive { (u v w : Word) → SameElement u v → SameElement v w → SameElement u w }
{}

/// The same elements have the same products and inverses, and a word times its inverse is nothing.
pub fn same_element_in_products()
    ensures product { (u u' v v' : Word) → SameElement u u' → SameElement v v' → SameElement (u ++ v) (u' ++ v') }
    ensures inverse { (u v : Word) → SameElement u v → SameElement (inverse_word u) (inverse_word v) }
    ensures cancels { (w : Word) → SameElement (w ++ inverse_word w) [] }
    ensures reduced { (w : Word) → SameElement w (free_reduction w) }
{}

/// Cyclic reduction may begin with free reduction.
pub fn cyclic_after_free()
    ensures { (w : Word) → cyclic_reduction (free_reduction w) ≡ cyclic_reduction w }
{}
