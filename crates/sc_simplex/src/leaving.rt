//! The row that leaves: of those with a positive product with the entering column, the one whose list over that product
//! is least. The list is the row's product with the right side, followed by its entries.

ghost use Rattle.std.specs.Prelude.{◌≡◌, ◌<◌, ◌+◌, ◌^◌, suc, length, Some, pos, ◌*ℤ◌, ◌<ℤ◌, IfOk, IfErr};
ghost use Rattle.sc_basis.specs.Products.{at, dot};
ghost use Rattle.sc_rows.specs.Lines.{row_of};
ghost use Rattle.sc_rows.specs.Evidence.{IsWideValue};
ghost use Rattle.sc_simplex.specs.inside.Orders.{IsOrder, IsLexOrder};
ghost use Rattle.sc_simplex.specs.Orders.{headed};
ghost use Rattle.sc_simplex.specs.inside.Leaving.{NoneTie, IsBest, IsLeastOrNone};
ghost use Rattle.sc_simplex.specs.inside.Evidence.{IsWideSomeValue};

use sc_fraction::compare_ratios;
use sc_rows::{RowSet, WideAt};
use std::cmp::Ordering;

/// The least row so far, and its product with the right side.
#[derive(Clone, Copy)]
struct Best {
    row: usize,
    value: i128,
}

/// The order of `x / a` and `y / b`. Zeros are passed, of which the rows have many.
fn compare_entries(x: i128, a: i128, y: i128, b: i128) -> Ordering
    requires first { pos 0 <ℤ a }
    requires second { pos 0 <ℤ b }
    ensures { IsOrder result (b *ℤ x) (a *ℤ y) }
{
    if x == 0 && y == 0 {
        Ordering::Equal
    } else {
        compare_ratios(x, a, y, b)
    }
}

/// The order of the entries of two rows, each over its product, up to the first difference.
fn compare_lines(rows: &RowSet, along: &[i128], first: usize, second: usize) -> Ordering
    requires same { length along.now ≡ length rows.now }
    requires first { first < length rows.now }
    requires second { second < length rows.now }
    requires first_product { pos 0 <ℤ at along.now first }
    requires second_product { pos 0 <ℤ at along.now second }
    ensures { IsLexOrder result (length rows.now) (λ k. at along.now second *ℤ row_of rows.now first k) (λ k. at along.now first *ℤ row_of rows.now second k) }
{
    let (a, b) = (along[first], along[second]);
    for k in 0..along.len() {
        match compare_entries(rows.entry(first, k), a, rows.entry(second, k), b) {
            Ordering::Less => return Ordering::Less,
            Ordering::Equal => {}
            Ordering::Greater => return Ordering::Greater,
        }
    }
    Ordering::Equal
}

/// The order of the lists of two rows, each over its product.
fn compare_rows(rows: &RowSet, along: &[i128], first: Best, second: Best) -> Ordering
    requires same { length along.now ≡ length rows.now }
    requires first { first.row < length rows.now }
    requires second { second.row < length rows.now }
    requires first_product { pos 0 <ℤ at along.now first.row }
    requires second_product { pos 0 <ℤ at along.now second.row }
    ensures { IsLexOrder result (suc (length rows.now)) (λ k. at along.now second.row *ℤ headed first.value (row_of rows.now first.row) k) (λ k. at along.now first.row *ℤ headed second.value (row_of rows.now second.row) k) }
{
    match compare_entries(
        first.value,
        along[first.row],
        second.value,
        along[second.row],
    ) {
        Ordering::Less => Ordering::Less,
        Ordering::Equal => compare_lines(rows, along, first.row, second.row),
        Ordering::Greater => Ordering::Greater,
    }
}

/// The least row, once the row `index` is looked at.
fn better(
    rows: &RowSet,
    rhs: &Vec<i128>,
    along: &[i128],
    best: Option<Best>,
    index: usize,
) -> Result<Option<Best>, WideAt>
    requires few { length rows.now < 2 ^ 32 }
    requires sides { length rhs.now.items ≡ length rows.now }
    requires same { length along.now ≡ length rows.now }
    requires index { index < length rows.now }
    requires apart { NoneTie rows.now (at rhs.now.items) (at along.now) }
    requires best { IsBest rows.now (at rhs.now.items) (at along.now) index best }
    ensures best { IfOk result (IsBest rows.now (at rhs.now.items) (at along.now) (index + 1)) }
    ensures evidence { IfErr result (IsWideSomeValue rows.now (at rhs.now.items)) }
{
    if along[index] <= 0 {
        return Ok(best);
    }
    let own = Best {
        row: index,
        value: rows.value(index, rhs)?,
    };
    let Some(least) = best else {
        return Ok(Some(own));
    };
    match compare_rows(rows, along, own, least) {
        Ordering::Less => Ok(Some(own)),
        _ => Ok(Some(least)),
    }
}

/// The row that leaves, or none where no product is positive.
pub(crate) fn leaving_row(
    rows: &RowSet,
    rhs: &Vec<i128>,
    along: &[i128],
) -> Result<Option<usize>, WideAt>
    requires few { length rows.now < 2 ^ 32 }
    requires sides { length rhs.now.items ≡ length rows.now }
    requires same { length along.now ≡ length rows.now }
    requires apart { NoneTie rows.now (at rhs.now.items) (at along.now) }
    ensures least { IfOk result (IsLeastOrNone rows.now (at rhs.now.items) (at along.now)) }
    ensures evidence { IfErr result (IsWideSomeValue rows.now (at rhs.now.items)) }
{
    let mut best = None;
    for index in 0..along.len() {
        best = better(rows, rhs, along, best, index)?;
    }
    Ok(best.map(|least| least.row))
}
