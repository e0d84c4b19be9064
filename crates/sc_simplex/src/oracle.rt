//! Oracles: what makes columns on demand.

use crate::Column;
use sc_rows::{PriceRows, WideAt};
use std::alloc::Global;

/// A column that improves, or the word that there is none.
#[derive(Debug, Drop)]
pub enum Answer {
    /// This column improves.
    Improving(Column),
    /// No column improves.
    Optimal,
}

/// Why an oracle has no answer.
#[derive(Debug, Drop)]
pub enum OracleFault {
    /// An operation of its search is too wide.
    Wide(WideAt),
    /// There was no memory.
    Memory,
}

/// What finds a column that improves a basis, among columns that may be too many to be listed. It may change its own
/// state at each call, as an order in which it looks; what its ghost members say stays.
pub trait Oracle {
    ghost use Rattle.std.specs.Prelude.{◌≡◌, ◌↔◌, ℕ, ℤ, List, pos, ◌≤ℤ◌, IfOk, IfErr};
    ghost use Rattle.sc_basis.specs.Products.{dot};
    ghost use Rattle.sc_basis.specs.Bases.{Column as Entries, entry_of, IsAscending};
    ghost use Rattle.sc_rows.specs.Standing.{ArePrices};
    ghost use Rattle.sc_rows.specs.declared.fault.WideAt.{WideAt as Refusal};
    ghost use Rattle.sc_rows.specs.declared.prices.PriceRows.{PriceRows as Prices};
    ghost use Rattle.sc_simplex.specs.Oracles.{ImprovesAt, NoneImproves, MatchAnswer, IsShown};

    // how many rows there are
    ghost size: { Self → ℕ };

    // which columns there are: keys with their entries
    ghost is_column: { Self → List ℕ → Entries → Type 0 };

    // a list of numbers, one for each row, whose product with each column is positive
    ghost length_row: { Self → ℕ → ℤ };

    // which refusals are evidence, for given prices
    ghost shows: { Self → Prices → Refusal → Type 0 };

    /// A column that improves the basis with these prices, or the word that none does.
    fn improving(&mut self, alloc: Global, prices: &PriceRows) -> Result<Answer, OracleFault>
        requires { ArePrices (size self.old) prices.now }
        ensures size { size self.new ≡ size self.old }
        ensures columns { (key : List ℕ) (c : Entries) → is_column self.new key c ↔ is_column self.old key c }
        ensures lengths { (k : ℕ) → length_row self.new k ≡ length_row self.old k }
        ensures shows { (p : Prices) (w : Refusal) → shows self.new p w ↔ shows self.old p w }
        ensures answer { IfOk result (λ answer. MatchAnswer answer (λ key c. is_column self.old key c × ImprovesAt (size self.old) prices.now c) (NoneImproves (is_column self.old) (size self.old) prices.now)) }
        ensures refusal { IfErr result (IsShown (shows self.old prices.now)) };

    // the entries of a column are at ascending rows
    ghost ascending: { (o : Self) (key : List ℕ) (c : Entries) → is_column o key c → IsAscending (size o) 0 c };

    // two columns with the same key have the same entries
    ghost one: { (o : Self) (key : List ℕ) (c d : Entries) → is_column o key c → is_column o key d → c ≡ d };

    // the product of the length row with each column is at least 1
    ghost long: { (o : Self) (key : List ℕ) (c : Entries) → is_column o key c → pos 1 ≤ℤ dot (size o) (length_row o) (entry_of c) };
}
