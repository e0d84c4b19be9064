//! The values of a basis that a lawful journal reaches, and what its prices tell of them.

ghost use Rattle.std.specs.Prelude.{◌≡◌, ℕ, ◌<◌, List, None, ℤ, pos, ◌*ℤ◌, ◌≤ℤ◌};
ghost use Rattle.std.specs.List.{AllByRecursion};
ghost use Rattle.sc_algebra.specs.Sums.{sum_below};
ghost use Rattle.sc_basis.specs.Products.{dot};
ghost use Rattle.sc_basis.specs.Bases.{Column, Basis, entry_of, item, columns, fine_costs};
ghost use Rattle.sc_basis.specs.Standing.{BasisNumbers, Stands};
ghost use Rattle.sc_basis.specs.Pivots.{Improves};
ghost use Rattle.sc_basis.specs.Journals.{IsReached};
ghost use Rattle.sc_basis.specs.Values.{value, AreMultiples, SumTo};

/// A column that doesn't improve has a bulk price of at least 0, and where that is 0 a fine price of at least
/// the scale.
pub fn columns_that_do_not_improve()
    ensures bulk { (r : ℕ) (t : BasisNumbers) (c : Column) → ¬ Improves r t c →
        pos 0 ≤ℤ dot r t.bulk (entry_of c) }
    ensures fine { (r : ℕ) (t : BasisNumbers) (c : Column) → ¬ Improves r t c →
        dot r t.bulk (entry_of c) ≡ pos 0 → t.fine_scale ≤ℤ dot r t.fine (entry_of c) }
{}

/// No item of a basis that is reached has a negative value.
pub fn values_are_not_negative()
    ensures values { (r : ℕ) (b : ℕ → ℤ) (basis : Basis) (t : BasisNumbers) → IsReached r b basis →
        Stands r basis t →
        (i : ℕ) → i < r → pos 0 ≤ℤ value r b t i }
{}

/// Where some columns sum to the right side and none of them improves, the right side has the bulk price 0, and
/// each unit of the basis has the value 0.
pub fn units_have_no_value()
    ensures bulk { (r : ℕ) (b : ℕ → ℤ) (basis : Basis) (t : BasisNumbers) (cs : List Column) →
        IsReached r b basis → Stands r basis t →
        SumTo r cs b → AllByRecursion (λ c. ¬ Improves r t c) cs → dot r t.bulk b ≡ pos 0 }
    ensures units { (r : ℕ) (b : ℕ → ℤ) (basis : Basis) (t : BasisNumbers) (cs : List Column) →
        IsReached r b basis → Stands r basis t →
        SumTo r cs b → AllByRecursion (λ c. ¬ Improves r t c) cs → (i : ℕ) → i < r →
        item basis i ≡ None → value r b t i ≡ pos 0 }
{}

/// The columns of the basis, each as often as n times its value, sum to n times the right side; and n times the
/// fine price of the right side is the scale times the number of them that are no units.
pub fn multiples_of_values()
    ensures columns { (r : ℕ) (b : ℕ → ℤ) (basis : Basis) (t : BasisNumbers) (n : ℤ) (y : ℕ → ℤ) →
        IsReached r b basis → Stands r basis t →
        AreMultiples r b t n y → (k : ℕ) → k < r → n *ℤ b k ≡ sum_below (λ i. y i *ℤ columns basis i k) r }
    ensures price { (r : ℕ) (b : ℕ → ℤ) (basis : Basis) (t : BasisNumbers) (n : ℤ) (y : ℕ → ℤ) →
        IsReached r b basis → Stands r basis t →
        AreMultiples r b t n y →
        n *ℤ dot r t.fine b ≡ t.fine_scale *ℤ sum_below (λ i. fine_costs basis i *ℤ y i) r }
{}
