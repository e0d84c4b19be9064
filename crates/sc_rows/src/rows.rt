//! The inverse of a basis by rows.
ghost use Rattle.std.specs.Prelude.{◌≡◌, ◌≢◌, ℕ, ◌<◌, ◌^◌, List, length, get_or, pos, ◌<ℤ◌, Option, None, IfOk, IfErr, OnOk, OnErr};
ghost use Rattle.sc_basis.specs.Products.{at, dot, unit, IsReduced};
ghost use Rattle.sc_basis.specs.Bases.{Basis, Column, entry_of, IsAscending, unit_basis};
ghost use Rattle.sc_basis.specs.Pivots.{RowsPivoted, after_pivot};
ghost use Rattle.sc_rows.specs.Lines.{AreRows, no_line, row_of, den_of};
ghost use Rattle.sc_rows.specs.inside.Lines.{IsUnitLine};
ghost use Rattle.sc_rows.specs.Standing.{RowsStand};
ghost use Rattle.sc_rows.specs.Places.{IsWideBy, IsWideProduct};
ghost use Rattle.sc_rows.specs.inside.Fresh.{IsFresh, AreFresh, chosen};
ghost use Rattle.sc_rows.specs.Evidence.{IsWideAlong, IsWideValue, IsWidePivot};

use crate::lists::{Quotients, over};
use crate::product::{Product, product_with_column, product_with_list};
use crate::update::{Update, updated};
use crate::{RowFault, WideAt};
use std::alloc::{AllocError, Global};
use std::marker::Model;

/// The rows of the inverse of a basis: for each item a list of whole numbers over a positive denominator, with no
/// common divisor. A row's product with its own item is 1, and with every other item 0.
#[derive(Debug, Drop)]
pub struct RowSet {
    rows: Vec<Quotients>,
}

impl Model for RowSet {
    ghost use Rattle.std.specs.Prelude.{List};
    ghost use Rattle.sc_rows.specs.Lines.{Line, AreRows};

    ghost Value = { List Line };

    ghost view = { λ set. set.rows.items };

    ghost invariant = { λ set. AreRows set.rows.items };
}

/// The row of the unit at an index.
fn unit_row(alloc: Global, size: usize, index: usize) -> Result<Quotients, AllocError>
    requires { index < size }
    ensures { IfOk result (IsUnitLine size index) }
{
    let mut entries = vec![in alloc; 0_i128; size]?;
    entries[index] = 1;
    Ok(Quotients { entries, den: 1 })
}

/// The product of a row with a column.
fn product_at(rows: &[Quotients], row: usize, column: &[(u32, i128)]) -> Result<i128, WideAt>
    requires few { length rows.now < 2 ^ 32 }
    requires rows { AreRows rows.now }
    requires inside { row < length rows.now }
    requires ascending { IsAscending (length rows.now) 0 column.now }
    ensures product { IfOk result (λ z. z ≡ dot (length rows.now) (row_of rows.now row) (entry_of column.now)) }
    ensures evidence { IfErr result (IsWideProduct (Product.Along row) (length rows.now) (row_of rows.now row) (entry_of column.now)) }
{
    let own = &rows[row];
    product_with_column(
        Product::Along { row: row as u32 },
        own.entries.as_slice(),
        column,
    )
}

/// A row over its product with the entering column.
fn left_of(
    alloc: Global,
    rows: &[Quotients],
    row: usize,
    product: i128,
) -> Result<Quotients, AllocError>
    requires rows { AreRows rows.now }
    requires inside { row < length rows.now }
    requires positive { pos 0 <ℤ product }
    ensures size { IfOk result (λ left. length left.entries ≡ length rows.now) }
    ensures reduced { IfOk result (λ left. IsReduced (length rows.now) (at left.entries) left.den (row_of rows.now row) product) }
{
    let own = &rows[row];
    over(alloc, own.entries.as_slice(), product)
}

/// The new row in place of row `index`, or none where the old one serves: at the leaving row, and where the product is
/// 0.
fn fresh_row(
    alloc: Global,
    rows: &[Quotients],
    leaving: usize,
    left: &Quotients,
    along: &[i128],
    index: usize,
) -> Result<Option<Quotients>, RowFault>
    requires few { length rows.now < 2 ^ 32 }
    requires rows { AreRows rows.now }
    requires leaving { leaving < length rows.now }
    requires index { index < length rows.now }
    requires same { length along.now ≡ length rows.now }
    requires positive { pos 0 <ℤ at along.now leaving }
    requires left_size { length left.now.entries ≡ length rows.now }
    requires left { IsReduced (length rows.now) (at left.now.entries) left.now.den (row_of rows.now leaving) (at along.now leaving) }
    ensures fresh { IfOk result (IsFresh rows.now (at along.now) leaving index) }
    ensures evidence { IfErr result (IsWideBy (IsWidePivot rows.now (at along.now) leaving)) }
{
    let product = along[index];
    if index == leaving {
        return Ok(None);
    }
    if product == 0 {
        return Ok(None);
    }
    let update = Update::Row {
        row: index as u32,
        leaving: leaving as u32,
    };
    let row = &rows[index];
    Ok(Some(updated(
        alloc,
        update,
        row.entries.as_slice(),
        row.den,
        left,
        product,
    )?))
}

/// The new rows, each or none.
fn fresh_rows(
    alloc: Global,
    rows: &[Quotients],
    leaving: usize,
    left: &Quotients,
    along: &[i128],
) -> Result<Vec<Option<Quotients>>, RowFault>
    requires few { length rows.now < 2 ^ 32 }
    requires rows { AreRows rows.now }
    requires leaving { leaving < length rows.now }
    requires same { length along.now ≡ length rows.now }
    requires positive { pos 0 <ℤ at along.now leaving }
    requires left_size { length left.now.entries ≡ length rows.now }
    requires left { IsReduced (length rows.now) (at left.now.entries) left.now.den (row_of rows.now leaving) (at along.now leaving) }
    ensures size { IfOk result (λ fresh. length fresh.items ≡ length rows.now) }
    ensures fresh { IfOk result (λ fresh. AreFresh rows.now (at along.now) leaving (length rows.now) fresh.items) }
    ensures evidence { IfErr result (IsWideBy (IsWidePivot rows.now (at along.now) leaving)) }
{
    let mut fresh = Vec::with_capacity(alloc, rows.len())?;
    for index in 0..rows.len() {
        fresh.push(fresh_row(alloc, rows, leaving, left, along, index)?)?;
    }
    Ok(fresh)
}

/// Puts each new row in its place.
fn put_in(rows: &mut Vec<Quotients>, mut fresh: Vec<Option<Quotients>>)
    requires { length fresh.items ≡ length rows.old.items }
    ensures size { length rows.new.items ≡ length rows.old.items }
    ensures rows { (i : ℕ) → i < length rows.old.items → get_or rows.new.items i no_line ≡ chosen (get_or fresh.items i None) (get_or rows.old.items i no_line) }
{
    for index in 0..fresh.len() {
        if let Some(row) = fresh[index].take() {
            rows[index] = row;
        }
    }
}

/// Puts the new rows in their places.
fn put_all_in(
    rows: &mut Vec<Quotients>,
    leaving: usize,
    left: Quotients,
    fresh: Vec<Option<Quotients>>,
)
    requires leaving { leaving < length rows.old.items }
    requires fresh { length fresh.items ≡ length rows.old.items }
    ensures size { length rows.new.items ≡ length rows.old.items }
    ensures left { get_or rows.new.items leaving no_line ≡ left }
    ensures others { (i : ℕ) → i < length rows.old.items → i ≢ leaving → get_or rows.new.items i no_line ≡ chosen (get_or fresh.items i None) (get_or rows.old.items i no_line) }
{
    put_in(rows, fresh);
    rows[leaving] = left;
}

impl RowSet {
    /// The rows of the basis of the unit columns.
    pub fn start(alloc: Global, r: usize) -> Result<RowSet, AllocError>
        ensures size { IfOk result (λ rows. length rows ≡ r) }
        ensures units { IfOk result (λ rows. (i k : ℕ) → i < r → k < r → row_of rows i k ≡ unit i k) }
        ensures dens { IfOk result (λ rows. (i : ℕ) → i < r → den_of rows i ≡ pos 1) }
        ensures stands { IfOk result (RowsStand r (unit_basis r)) }
    {
        let mut rows = Vec::with_capacity(alloc, r)?;
        for index in 0..r {
            rows.push(unit_row(alloc, r, index)?)?;
        }
        Ok(RowSet { rows })
    }

    /// The products of the rows' numerators with a column.
    pub fn along(&self, alloc: Global, column: &Vec<(u32, i128)>) -> Result<Vec<i128>, RowFault>
        requires few { length self.now < 2 ^ 32 }
        requires ascending { IsAscending (length self.now) 0 column.now.items }
        ensures size { IfOk result (λ along. length along.items ≡ length self.now) }
        ensures products { IfOk result (λ along. (i : ℕ) → i < length self.now → at along.items i ≡ dot (length self.now) (row_of self.now i) (entry_of column.now.items)) }
        ensures evidence { IfErr result (IsWideBy (IsWideAlong self.now column.now.items)) }
    {
        let (rows, column) = (self.rows.as_slice(), column.as_slice());
        let mut along = Vec::with_capacity(alloc, rows.len())?;
        for index in 0..rows.len() {
            along.push(product_at(rows, index, column)?)?;
        }
        Ok(along)
    }

    /// The product of a row's numerators with the right side. Over the row's denominator it is the value of the row's
    /// item.
    pub fn value(&self, row: usize, rhs: &Vec<i128>) -> Result<i128, WideAt>
        requires few { length self.now < 2 ^ 32 }
        requires inside { row < length self.now }
        requires same { length rhs.now.items ≡ length self.now }
        ensures value { IfOk result (λ value. value ≡ dot (length self.now) (row_of self.now row) (at rhs.now.items)) }
        ensures evidence { IfErr result (IsWideValue self.now row (at rhs.now.items)) }
    {
        let own = &self.rows[row];
        product_with_list(
            Product::Value { row: row as u32 },
            own.entries.as_slice(),
            rhs.as_slice(),
        )
    }

    /// An entry of a row's numerators.
    pub fn entry(&self, row: usize, index: usize) -> i128
        requires row { row < length self.now }
        requires index { index < length self.now }
        ensures { result ≡ row_of self.now row index }
    {
        let own = &self.rows[row];
        own.entries[index]
    }

    /// A row's denominator.
    pub fn den(&self, row: usize) -> i128
        requires { row < length self.now }
        ensures value { result ≡ den_of self.now row }
        ensures positive { pos 0 <ℤ result }
    {
        let own = &self.rows[row];
        own.den
    }

    /// Puts a column in place of the item of a row; `along` holds the products of the rows with the column.
    pub fn pivot(&mut self, alloc: Global, row: usize, along: &Vec<i128>) -> Result<(), RowFault>
        requires few { length self.old < 2 ^ 32 }
        requires inside { row < length self.old }
        requires same { length along.now.items ≡ length self.old }
        requires positive { pos 0 <ℤ at along.now.items row }
        ensures size { length self.new ≡ length self.old }
        ensures pivoted { OnOk result (RowsPivoted (length self.old) (row_of self.old) (den_of self.old) (row_of self.new) (den_of self.new) (at along.now.items) row) }
        ensures stands { OnOk result ((basis : Basis) (c : Column) → RowsStand (length self.old) basis self.old →
            ((i : ℕ) → i < length self.old → at along.now.items i ≡ dot (length self.old) (row_of self.old i) (entry_of c)) →
            RowsStand (length self.old) (after_pivot basis (row, c)) self.new) }
        ensures unchanged { OnErr result (self.new ≡ self.old) }
        ensures evidence { IfErr result (IsWideBy (IsWidePivot self.old (at along.now.items) row)) }
    {
        let along = along.as_slice();
        let left = left_of(alloc, self.rows.as_slice(), row, along[row])?;
        let fresh = fresh_rows(alloc, self.rows.as_slice(), row, &left, along)?;
        put_all_in(&mut self.rows, row, left, fresh);
        Ok(())
    }

    /// The product of a row with a column, and the row over that product.
    pub(crate) fn product_of(&self, row: usize, column: &[(u32, i128)]) -> Result<i128, WideAt>
        requires few { length self.now < 2 ^ 32 }
        requires inside { row < length self.now }
        requires ascending { IsAscending (length self.now) 0 column.now }
        ensures product { IfOk result (λ z. z ≡ dot (length self.now) (row_of self.now row) (entry_of column.now)) }
        ensures evidence { IfErr result (IsWideProduct (Product.Along row) (length self.now) (row_of self.now row) (entry_of column.now)) }
    {
        product_at(self.rows.as_slice(), row, column)
    }

    /// A row over its product with the entering column.
    pub(crate) fn over_product(
        &self,
        alloc: Global,
        row: usize,
        product: i128,
    ) -> Result<Quotients, AllocError>
        requires inside { row < length self.now }
        requires positive { pos 0 <ℤ product }
        ensures size { IfOk result (λ left. length left.entries ≡ length self.now) }
        ensures reduced { IfOk result (λ left. IsReduced (length self.now) (at left.entries) left.den (row_of self.now row) product) }
    {
        left_of(alloc, self.rows.as_slice(), row, product)
    }
}
