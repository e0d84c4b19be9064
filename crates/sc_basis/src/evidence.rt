//! Evidence says one thing: the journal, the place, the column and the row fix the operands.

ghost use Rattle.std.specs.Prelude.{Option, pos, ◌<ℤ◌, ◌<◌, ◌≡◌, ℕ, ℤ};
ghost use Rattle.sc_basis.specs.Products.{IsNonNegative, IsReduced};
ghost use Rattle.sc_basis.specs.Bases.{Column};
ghost use Rattle.sc_basis.specs.Pivots.{IsRatio};
ghost use Rattle.sc_basis.specs.Journals.{Journal};
ghost use Rattle.sc_basis.specs.Evidence.{IsEvidence, Place};

/// A list without its common divisor and a ratio in lowest terms are the only ones.
pub fn lowest_terms_are_unique()
    ensures lists { (r : ℕ) (v : ℕ → ℤ) (d : ℤ) (v' : ℕ → ℤ) (d' : ℤ) (w : ℕ → ℤ) (e : ℤ) →
        pos 0 <ℤ e → IsReduced r v d w e → IsReduced r v' d' w e →
        (d ≡ d') × ((k : ℕ) → k < r → v k ≡ v' k) }
    ensures ratios { (m a p q p' q' : ℤ) →
        pos 0 <ℤ m → IsRatio m a p q → IsRatio m a p' q' → (p ≡ p') × (q ≡ q') }
{}

/// There is only one pair of operands for which there is evidence.
pub fn operands_are_determined()
    ensures determined { (r : ℕ) (b : ℕ → ℤ) (ps : Journal) (place : Place) (entering : Option Column) (leaving : Option ℕ) (x y x' y' : ℤ) →
        IsNonNegative r b →
        IsEvidence r b ps place entering leaving x y → IsEvidence r b ps place entering leaving x' y' →
        (x ≡ x') × (y ≡ y') }
{}
