//! The rise value grows along a lawful journal.

ghost use Rattle.std.specs.Prelude.{◌≡◌, ℕ, ◌<◌, ◌≤◌, length, take, ℤ};
ghost use Rattle.sc_basis.specs.Products.{IsNonNegative};
ghost use Rattle.sc_basis.specs.Bases.{Basis, unit_basis};
ghost use Rattle.sc_basis.specs.Standing.{BasisNumbers, Stands};
ghost use Rattle.sc_basis.specs.Pivots.{IsLawful, Pivot, after_pivot};
ghost use Rattle.sc_basis.specs.Journals.{IsJournal, IsReached, Journal, basis_after};
ghost use Rattle.sc_basis.specs.Values.{Rises};

/// Each lawful pivot raises the rise value.
pub fn pivots_rise()
    ensures rises { (r : ℕ) (b : ℕ → ℤ) (basis : Basis) (p : Pivot) (t t' : BasisNumbers) →
        IsReached r b basis → IsLawful r b basis p →
        Stands r basis t → Stands r (after_pivot basis p) t' → Rises r b t t' }
{}

/// Of two different prefixes of a lawful journal the longer one ends with the greater rise value, so no basis stands
/// in it twice.
pub fn journals_rise()
    ensures longer { (r : ℕ) (b : ℕ → ℤ) (ps : Journal) (m n : ℕ) (t t' : BasisNumbers) →
        IsNonNegative r b → IsJournal r b ps → m < n → n ≤ length ps →
        Stands r (basis_after (unit_basis r) (take m ps)) t →
        Stands r (basis_after (unit_basis r) (take n ps)) t' →
        Rises r b t t' }
    ensures once { (r : ℕ) (b : ℕ → ℤ) (ps : Journal) (m n : ℕ) →
        IsNonNegative r b → IsJournal r b ps → m < n → n ≤ length ps →
        basis_after (unit_basis r) (take m ps) ≡ basis_after (unit_basis r) (take n ps) → ⊥ }
{}
