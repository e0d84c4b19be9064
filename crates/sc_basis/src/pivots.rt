//! Rows and prices that stand for a basis, and what a pivot makes of them.

ghost use Rattle.std.specs.Prelude.{length, pos, Option, Some, ◌*ℤ◌, ◌<◌, ◌<ℤ◌, ◌≡◌, ℕ, ℤ};
ghost use Rattle.sc_basis.specs.Products.{dot, unit};
ghost use Rattle.sc_basis.specs.Bases.{Basis, Column, columns, entry_of, item, unit_basis};
ghost use Rattle.sc_basis.specs.Standing.{BasisNumbers, Gives, Stands, start_numbers};
ghost use Rattle.sc_basis.specs.Pivots.{NumbersPivoted, PricesPivoted, RowsPivoted, after_pivot, along, gap};

/// The identity and the prices -1 and 0 stand for the basis of the unit columns.
pub fn units_stand()
    ensures stands { (r : ℕ) → Stands r (unit_basis r) start_numbers }
{}

/// What stands for a basis, pivoted, stands for the basis with the column in place of the row's item: rows,
/// prices for any costs of the items, and all the numbers of a basis.
pub fn pivots_keep_standing()
    ensures rows { (r : ℕ) (basis : Basis) (row : ℕ → ℕ → ℤ) (den : ℕ → ℤ) (row' : ℕ → ℕ → ℤ) (den' a : ℕ → ℤ) (c : Column) (l : ℕ) →
        length basis ≡ r → l < r →
        ((i : ℕ) → i < r → Gives r (columns basis) (unit i) (row i) (den i)) →
        ((i : ℕ) → i < r → a i ≡ dot r (row i) (entry_of c)) → pos 0 <ℤ a l →
        RowsPivoted r row den row' den' a l →
        (i : ℕ) → i < r → Gives r (columns (after_pivot basis (l, c))) (unit i) (row' i) (den' i) }
    ensures prices { (r : ℕ) (basis : Basis) (cost : Option Column → ℤ) (v v' w : ℕ → ℤ) (d d' e : ℤ) (c : Column) (l : ℕ) →
        length basis ≡ r → l < r →
        Gives r (columns basis) (λ j. cost (item basis j)) v d →
        Gives r (columns basis) (unit l) w e → pos 0 <ℤ dot r w (entry_of c) →
        PricesPivoted r v d v' d' (gap r v d (cost (Some c)) c) w (dot r w (entry_of c)) →
        Gives r (columns (after_pivot basis (l, c))) (λ j. cost (item (after_pivot basis (l, c)) j)) v' d' }
    ensures numbers { (r : ℕ) (basis : Basis) (t t' : BasisNumbers) (c : Column) (l : ℕ) →
        length basis ≡ r → l < r → Stands r basis t → pos 0 <ℤ along r t c l →
        NumbersPivoted r t t' c l → Stands r (after_pivot basis (l, c)) t' }
{}
