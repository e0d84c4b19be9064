//! The prices of a basis at two levels.
ghost use Rattle.std.specs.Prelude.{◌≡◌, ℕ, ◌<◌, ◌^◌, length, pos, negsuc, ◌*ℤ◌, ◌<ℤ◌, IfOk, IfErr, OnOk, OnErr};
ghost use Rattle.sc_basis.specs.Products.{at, dot};
ghost use Rattle.sc_basis.specs.Bases.{Basis, entry_of, IsAscending, unit_basis};
ghost use Rattle.sc_basis.specs.Pivots.{after_pivot};
ghost use Rattle.sc_rows.specs.Lines.{row_of};
ghost use Rattle.sc_rows.specs.Standing.{ArePrices, AreNewPrices, RowsStand, PricesStand, cost_at, entries_of, gap_at};
ghost use Rattle.sc_rows.specs.Places.{IsWideBy};
ghost use Rattle.sc_rows.specs.Evidence.{IsWideGap, IsWidePricePivot};
ghost use Rattle.sc_rows.specs.inside.NewPrices.{IsNewPrices, IsWideAtLevel};

use crate::lists::Quotients;
use crate::product::{Product, product_with_column};
use crate::spot::{Spot, difference_of};
use crate::update::{Update, updated};
use crate::{Place, RowFault, RowSet, WideAt};
use sc_weight::Level;
use std::alloc::{AllocError, Global};

/// The prices of one level over their scale.
#[derive(Debug, Drop)]
pub struct PriceRow {
    /// A price for each row.
    pub entries: Vec<i128>,
    /// The scale, at least 1.
    pub scale: i128,
}

/// The prices of both levels. The price of a unit column in bulk is -1 and of every other item 0; in fine they are 0
/// and 1.
#[derive(Debug, Drop)]
pub struct PriceRows {
    /// The bulk prices.
    pub bulk: PriceRow,
    /// The fine prices.
    pub fine: PriceRow,
}

/// The same price for each row, over the scale 1.
fn same_prices(alloc: Global, r: usize, price: i128) -> Result<PriceRow, AllocError>
    ensures size { IfOk result (λ p. length p.entries.items ≡ r) }
    ensures prices { IfOk result (λ p. (k : ℕ) → k < r → entries_of p k ≡ price) }
    ensures scale { IfOk result (λ p. p.scale ≡ pos 1) }
{
    Ok(PriceRow {
        entries: vec![in alloc; price; r]?,
        scale: 1,
    })
}

/// A column's own cost at a level, times the scale.
fn own_cost(level: Level, scale: i128) -> i128
    ensures { result ≡ scale *ℤ cost_at level }
{
    match level {
        Level::Bulk => 0,
        Level::Fine => scale,
    }
}

/// What the price of a column lacks of its cost.
fn gap_of(level: Level, prices: &PriceRow, column: &[(u32, i128)]) -> Result<i128, WideAt>
    requires { IsAscending (length prices.now.entries.items) 0 column.now }
    ensures gap { IfOk result (λ gap. gap ≡ gap_at (length prices.now.entries.items) prices.now level column.now) }
    ensures evidence { IfErr result (IsWideGap (length prices.now.entries.items) prices.now level column.now) }
{
    let price = product_with_column(Product::Gap { level }, prices.entries.as_slice(), column)?;
    let spot = Spot {
        place: Place::GapMinus { level },
        first: 0,
        second: 0,
        leaving: None,
    };
    // Not a tail call: `difference_of` has another clause on errors than this function.
    let gap = difference_of(spot, own_cost(level, prices.scale), price)?;
    Ok(gap)
}

/// The new prices of a level; `left` is the leaving row over its product with the column.
fn new_prices(
    alloc: Global,
    level: Level,
    prices: &PriceRow,
    leaving: usize,
    left: &Quotients,
    column: &[(u32, i128)],
) -> Result<PriceRow, RowFault>
    requires few { length prices.now.entries.items < 2 ^ 32 }
    requires leaving { leaving < length prices.now.entries.items }
    requires ascending { IsAscending (length prices.now.entries.items) 0 column.now }
    requires scale { pos 0 <ℤ prices.now.scale }
    requires left_size { length left.now.entries ≡ length prices.now.entries.items }
    requires left_den { pos 0 <ℤ left.now.den }
    ensures size { IfOk result (λ new. length new.entries.items ≡ length prices.now.entries.items) }
    ensures updated { IfOk result (IsNewPrices level prices.now leaving left.now column.now) }
    ensures evidence { IfErr result (IsWideBy (IsWideAtLevel level prices.now leaving left.now column.now)) }
{
    let gap = gap_of(level, prices, column)?;
    let update = Update::Prices {
        level,
        leaving: leaving as u32,
    };
    let new = updated(
        alloc,
        update,
        prices.entries.as_slice(),
        prices.scale,
        left,
        gap,
    )?;
    Ok(PriceRow {
        entries: new.entries,
        scale: new.den,
    })
}

impl PriceRows {
    /// The prices of the basis of the unit columns: -1 in bulk and 0 in fine.
    pub fn start(alloc: Global, r: usize) -> Result<PriceRows, AllocError>
        ensures prices { IfOk result (ArePrices r) }
        ensures bulk { IfOk result (λ p. ((k : ℕ) → k < r → entries_of p.bulk k ≡ negsuc 0) × (p.bulk.scale ≡ pos 1)) }
        ensures fine { IfOk result (λ p. ((k : ℕ) → k < r → entries_of p.fine k ≡ pos 0) × (p.fine.scale ≡ pos 1)) }
        ensures stands { IfOk result (PricesStand r (unit_basis r)) }
    {
        let bulk = same_prices(alloc, r, -1)?;
        let fine = same_prices(alloc, r, 0)?;
        Ok(PriceRows { bulk, fine })
    }

    /// Puts a column in place of the item of a row; `rows` are those of the basis before its own pivot.
    pub fn pivot(
        &mut self,
        alloc: Global,
        rows: &RowSet,
        row: usize,
        column: &Vec<(u32, i128)>,
    ) -> Result<(), RowFault>
        requires few { length rows.now < 2 ^ 32 }
        requires inside { row < length rows.now }
        requires prices { ArePrices (length rows.now) self.old }
        requires ascending { IsAscending (length rows.now) 0 column.now.items }
        requires positive { pos 0 <ℤ dot (length rows.now) (row_of rows.now row) (entry_of column.now.items) }
        ensures prices { ArePrices (length rows.now) self.new }
        ensures bulk { OnOk result (AreNewPrices (length rows.now) Level.Bulk self.old.bulk self.new.bulk (row_of rows.now row) column.now.items) }
        ensures fine { OnOk result (AreNewPrices (length rows.now) Level.Fine self.old.fine self.new.fine (row_of rows.now row) column.now.items) }
        ensures stands { OnOk result ((basis : Basis) → RowsStand (length rows.now) basis rows.now → PricesStand (length rows.now) basis self.old →
            PricesStand (length rows.now) (after_pivot basis (row, column.now.items)) self.new) }
        ensures unchanged { OnErr result (self.new ≡ self.old) }
        ensures evidence { IfErr result (IsWideBy (IsWidePricePivot (length rows.now) self.old column.now.items (row_of rows.now row) row)) }
    {
        let column = column.as_slice();
        let product = rows.product_of(row, column)?;
        let left = rows.over_product(alloc, row, product)?;
        let bulk = new_prices(alloc, Level::Bulk, &self.bulk, row, &left, column)?;
        let fine = new_prices(alloc, Level::Fine, &self.fine, row, &left, column)?;
        self.bulk = bulk;
        self.fine = fine;
        Ok(())
    }
}
