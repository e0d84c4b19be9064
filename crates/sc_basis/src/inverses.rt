//! The inverse of a basis, which nobody computes: a pivot keeps it, and it determines all numbers that stand
//! for the basis.

ghost use Rattle.std.specs.Prelude.{◌*ℤ◌, ◌<◌, ◌<ℤ◌, ◌≡◌, pos, suc, ℕ, ℤ};
ghost use Rattle.sc_algebra.specs.Sums.{sum_below};
ghost use Rattle.sc_basis.specs.Products.{IsCoprime, dot, unit};
ghost use Rattle.sc_basis.specs.Bases.{columns, unit_basis};
ghost use Rattle.sc_basis.specs.Standing.{Gives};
ghost use Rattle.sc_basis.specs.Lines.{line};
ghost use Rattle.sc_basis.specs.Journals.{Inverse};

/// The unit columns have an inverse.
pub fn units_have_an_inverse()
    ensures inverse { (r : ℕ) → Inverse r (columns (unit_basis r)) }
{}

/// A column with which the row of an item has a positive product can stand in the place of that item.
pub fn pivots_keep_the_inverse()
    ensures inverse { (r : ℕ) (column column' : ℕ → ℕ → ℤ) (c : ℕ → ℤ) (l : ℕ) (inv : Inverse r column) →
        l < r → pos 0 <ℤ dot r (inv.row l) c →
        column' l ≡ c → ((j : ℕ) → (j ≡ l → ⊥) → column' j ≡ column j) →
        Inverse r column' }
{}

/// The inverse determines what a list that stands for the columns makes of any other: of rows, entry by entry,
/// of a line, and of lists that give any numbers.
pub fn inverses_determine()
    ensures products { (r : ℕ) (column : ℕ → ℕ → ℤ) (inv : Inverse r column) (x w : ℕ → ℤ) (d : ℤ) →
        Gives r column x w d →
        (v : ℕ → ℤ) → inv.scale *ℤ dot r w v ≡ d *ℤ sum_below (λ i. dot r (inv.row i) v *ℤ x i) r }
    ensures lines { (r : ℕ) (b : ℕ → ℤ) (column : ℕ → ℕ → ℤ) (inv : Inverse r column) (i : ℕ) (w : ℕ → ℤ) (d : ℤ) →
        i < r → Gives r column (unit i) w d →
        (k : ℕ) → k < suc r → inv.scale *ℤ line r b w k ≡ d *ℤ line r b (inv.row i) k }
{}

/// Of the lists that give the same numbers only one has no common divisor with its scale.
pub fn standing_lists_are_unique()
    ensures unique { (r : ℕ) (column : ℕ → ℕ → ℤ) → Inverse r column → (x v w : ℕ → ℤ) (d e : ℤ) →
        Gives r column x v d → Gives r column x w e → IsCoprime r v d → IsCoprime r w e →
        (d ≡ e) × ((k : ℕ) → k < r → v k ≡ w k) }
{}
