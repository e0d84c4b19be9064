//! The row that leaves: there is one, and only one, wherever some row has a positive product with the entering
//! column.

ghost use Rattle.std.specs.Prelude.{◌≡◌, ◌≢◌, ℕ, suc, ◌<◌, Some, ℤ, pos, ◌*ℤ◌, ◌<ℤ◌};
ghost use Rattle.sc_basis.specs.Products.{dot};
ghost use Rattle.sc_basis.specs.Bases.{Basis, Column, entry_of, item};
ghost use Rattle.sc_basis.specs.Standing.{BasisNumbers, Stands};
ghost use Rattle.sc_basis.specs.Lines.{line};
ghost use Rattle.sc_basis.specs.Pivots.{along, Improves, IsLeaving};
ghost use Rattle.sc_basis.specs.Journals.{IsReached};

/// The lists of two rows, each over the row's positive product with the column, differ in some entry.
pub fn no_rows_tie()
    ensures differ { (r : ℕ) (b : ℕ → ℤ) (basis : Basis) (t : BasisNumbers) (c : Column) (i l : ℕ) →
        Stands r basis t → i < r → l < r → i ≢ l → pos 0 <ℤ along r t c i → pos 0 <ℤ along r t c l →
        ((k : ℕ) → k < suc r → along r t c i *ℤ line r b (t.row l) k ≡ along r t c l *ℤ line r b (t.row i) k) →
        ⊥ }
{}

/// Where some row has a positive product with the column, a row leaves, and it is the only one.
pub fn one_row_leaves()
    ensures some { (r : ℕ) (b : ℕ → ℤ) (basis : Basis) (t : BasisNumbers) (c : Column) (i : ℕ) →
        Stands r basis t → i < r → pos 0 <ℤ along r t c i → (l : ℕ) × IsLeaving r b t c l }
    ensures only { (r : ℕ) (b : ℕ → ℤ) (t : BasisNumbers) (c : Column) (l m : ℕ) →
        IsLeaving r b t c l → IsLeaving r b t c m → l ≡ m }
{}

/// A column that improves has a positive product with some row, where a list of lengths has a positive product
/// with this column and with each column of the basis.
pub fn improving_columns_are_bounded()
    ensures bounded { (r : ℕ) (b : ℕ → ℤ) (basis : Basis) (t : BasisNumbers) (c : Column) (long : ℕ → ℤ) →
        IsReached r b basis → Stands r basis t →
        ((i : ℕ) (own : Column) → i < r → item basis i ≡ Some own → pos 0 <ℤ dot r long (entry_of own)) →
        pos 0 <ℤ dot r long (entry_of c) → Improves r t c →
        (i : ℕ) × (i < r) × (pos 0 <ℤ along r t c i) }
{}
