//! Products with a column by its entries, with the sums before each.

ghost use Rattle.std.specs.Prelude.{◌≡◌, ◌<◌, ℕ, ℤ, length};
ghost use Rattle.sc_basis.specs.Products.{dot};
ghost use Rattle.sc_basis.specs.Bases.{Column, entry_of, IsAscending};
ghost use Rattle.sc_basis.specs.Entries.{index_at, number_at, reached};

/// Each entry of a column stands at its index, and those between add nothing to a product.
pub fn products_by_entries()
    ensures here { (r : ℕ) (c : Column) (m : ℕ) → IsAscending r 0 c → m < length c →
        entry_of c (index_at c m) ≡ number_at c m }
    ensures through { (r : ℕ) (v : ℕ → ℤ) (c : Column) (m : ℕ) → IsAscending r 0 c → m < length c →
        dot (index_at c m) v (entry_of c) ≡ dot (reached c m) v (entry_of c) }
    ensures whole { (r : ℕ) (v : ℕ → ℤ) (c : Column) → IsAscending r 0 c →
        dot r v (entry_of c) ≡ dot (reached c (length c)) v (entry_of c) }
{}
