//! Lawful journals: what holds of each basis that one reaches, and journals that follow one another.

ghost use Rattle.std.specs.Prelude.{◌++◌, ◌<◌, ◌≡◌, ℕ, ℤ};
ghost use Rattle.sc_basis.specs.Products.{IsNonNegative};
ghost use Rattle.sc_basis.specs.Bases.{Basis, Column, unit_basis};
ghost use Rattle.sc_basis.specs.Standing.{AreSameNumbers, BasisNumbers, Stands};
ghost use Rattle.sc_basis.specs.Lines.{IsAbove, line};
ghost use Rattle.sc_basis.specs.Pivots.{Improves, IsLawful, IsLeaving, Pivot, after_pivot};
ghost use Rattle.sc_basis.specs.Journals.{IsJournal, IsReached, Journal, LawfulFrom, basis_after};

/// Every basis that a lawful journal reaches from a right side with no negative number has an inverse, and the
/// list of each of its rows is above 0.
pub fn journals_reach()
    ensures start { (r : ℕ) (b : ℕ → ℤ) → IsNonNegative r b → IsReached r b (unit_basis r) }
    ensures pivot { (r : ℕ) (b : ℕ → ℤ) (basis : Basis) (p : Pivot) →
        IsReached r b basis → IsLawful r b basis p → IsReached r b (after_pivot basis p) }
    ensures onward { (r : ℕ) (b : ℕ → ℤ) (basis : Basis) (ps : Journal) →
        IsReached r b basis → LawfulFrom r b basis ps → IsReached r b (basis_after basis ps) }
    ensures journal { (r : ℕ) (b : ℕ → ℤ) (ps : Journal) →
        IsNonNegative r b → IsJournal r b ps → IsReached r b (basis_after (unit_basis r) ps) }
{}

/// At a basis that is reached, the list of each row that stands for it is above 0, and only one list of numbers
/// stands for it: what improves or leaves by some numbers that stand does so by all.
pub fn reached_bases_have_one_list_of_numbers()
    ensures above { (r : ℕ) (b : ℕ → ℤ) (basis : Basis) (t : BasisNumbers) →
        IsReached r b basis → Stands r basis t →
        (i : ℕ) → i < r → IsAbove r (line r b (t.row i)) }
    ensures unique { (r : ℕ) (b : ℕ → ℤ) (basis : Basis) (t t' : BasisNumbers) →
        IsReached r b basis → Stands r basis t → Stands r basis t' → AreSameNumbers r t t' }
    ensures improves { (r : ℕ) (b : ℕ → ℤ) (basis : Basis) (t t' : BasisNumbers) (c : Column) →
        IsReached r b basis → Stands r basis t → Stands r basis t' → Improves r t c → Improves r t' c }
    ensures leaves { (r : ℕ) (b : ℕ → ℤ) (basis : Basis) (t t' : BasisNumbers) (c : Column) (l : ℕ) →
        IsReached r b basis → Stands r basis t → Stands r basis t' → IsLeaving r b t c l →
        IsLeaving r b t' c l }
{}

/// A lawful journal is one followed by another from where it led to.
pub fn journals_follow_one_another()
    ensures joined { (r : ℕ) (b : ℕ → ℤ) (basis : Basis) (ps qs : Journal) →
        LawfulFrom r b basis ps → LawfulFrom r b (basis_after basis ps) qs → LawfulFrom r b basis (ps ++ qs) }
    ensures first { (r : ℕ) (b : ℕ → ℤ) (basis : Basis) (ps qs : Journal) →
        LawfulFrom r b basis (ps ++ qs) → LawfulFrom r b basis ps }
    ensures second { (r : ℕ) (b : ℕ → ℤ) (basis : Basis) (ps qs : Journal) →
        LawfulFrom r b basis (ps ++ qs) → LawfulFrom r b (basis_after basis ps) qs }
    ensures reached { (basis : Basis) (ps qs : Journal) →
        basis_after basis (ps ++ qs) ≡ basis_after (basis_after basis ps) qs }
{}
