//! The values of the items of a basis.

ghost use Rattle.std.specs.Prelude.{◌≡◌, ℕ, ◌<◌, ◌^◌, length, slice_get, Some, pos, ◌<ℤ◌, IfOk, IfErr};
ghost use Rattle.sc_basis.specs.Products.{at, dot};
ghost use Rattle.sc_fraction.specs.declared.frac.Frac.{Frac as Fraction};
ghost use Rattle.sc_fraction.specs.Frac.{IsQuotient};
ghost use Rattle.sc_rows.specs.Lines.{row_of, den_of};
ghost use Rattle.sc_rows.specs.Evidence.{IsWideValue};
ghost use Rattle.sc_rows.specs.Places.{IsWideBy};
ghost use Rattle.sc_simplex.specs.inside.Evidence.{IsWideSomeValue};

use sc_fraction::Frac;
use sc_rows::{RowFault, RowSet, WideAt};
use std::alloc::Global;

/// `num / den` in lowest terms.
fn ratio(num: i128, den: i128) -> Frac
    requires { pos 0 <ℤ den }
    ensures { IsQuotient num den result }
{
    let Ok(quotient) = Frac::new(num, den) else {
        // The number below is above 0: it isn't 0, and no sign is turned, which alone might not fit.
        unreachable!()
    };
    quotient
}

/// The value of the item of a row.
fn value_at(rows: &RowSet, rhs: &Vec<i128>, row: usize) -> Result<Frac, WideAt>
    requires few { length rows.now < 2 ^ 32 }
    requires sides { length rhs.now.items ≡ length rows.now }
    requires row { row < length rows.now }
    ensures value { IfOk result (IsQuotient (dot (length rows.now) (row_of rows.now row) (at rhs.now.items)) (den_of rows.now row)) }
    ensures evidence { IfErr result (IsWideValue rows.now row (at rhs.now.items)) }
{
    let value = rows.value(row, rhs)?;
    Ok(ratio(value, rows.den(row)))
}

/// The values of the items of all rows.
pub(crate) fn values_of(
    alloc: Global,
    rows: &RowSet,
    rhs: &Vec<i128>,
) -> Result<Vec<Frac>, RowFault>
    requires few { length rows.now < 2 ^ 32 }
    requires sides { length rhs.now.items ≡ length rows.now }
    ensures size { IfOk result (λ values. length values.items ≡ length rows.now) }
    ensures values { IfOk result (λ values. (i : ℕ) (f : Fraction) → slice_get values.items i ≡ Some f → IsQuotient (dot (length rows.now) (row_of rows.now i) (at rhs.now.items)) (den_of rows.now i) f) }
    ensures evidence { IfErr result (IsWideBy (IsWideSomeValue rows.now (at rhs.now.items))) }
{
    let mut values = Vec::with_capacity(alloc, rhs.len())?;
    for row in 0..rhs.len() {
        values.push(value_at(rows, rhs, row)?)?;
    }
    Ok(values)
}
