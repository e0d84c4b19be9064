//! Laws of chains and their positions.

ghost use Rattle.std.specs.Prelude.{◌≡◌, ℕ, suc, ◌+◌, ◌<◌, ◌≤◌, length, get_or};
ghost use Rattle.sc_theory.specs.Chains.{Chain, no_letter, word, positions, first, word_of, letter, succ, prev};

/// Each position is a place of exactly one word, and its letter stands at that place of the word.
pub fn positions_are_places()
    ensures in_chain { (c : Chain) (i : ℕ) → i < positions c → word_of c i < length c }
    ensures in_word { (c : Chain) (i : ℕ) → i < positions c → (first c (word_of c i) ≤ i) × (i < first c (word_of c i) + length (word c (word_of c i))) }
    ensures word { (c : Chain) (w k : ℕ) → k < length (word c w) → word_of c (first c w + k) ≡ w }
    ensures letter { (c : Chain) (w k : ℕ) → k < length (word c w) → letter c (first c w + k) ≡ get_or (word c w) k no_letter }
{}

/// The next and the previous position are positions of the same word, and each undoes the other.
pub fn next_and_previous_are_inverse()
    ensures next { (c : Chain) (i : ℕ) → i < positions c → (succ c i < positions c) × (word_of c (succ c i) ≡ word_of c i) }
    ensures previous { (c : Chain) (i : ℕ) → i < positions c → (prev c i < positions c) × (word_of c (prev c i) ≡ word_of c i) }
    ensures back { (c : Chain) (i : ℕ) → i < positions c → prev c (succ c i) ≡ i }
    ensures forth { (c : Chain) (i : ℕ) → i < positions c → succ c (prev c i) ≡ i }
{}
