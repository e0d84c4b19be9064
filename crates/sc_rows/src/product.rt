//! Products of lists, summed in the order of the index.
ghost use Rattle.std.specs.Prelude.{◌≡◌, ◌<◌, ◌^◌, length, ◌+ℤ◌, ◌*ℤ◌, IfOk, IfErr};
ghost use Rattle.sc_basis.specs.Products.{at, dot};
ghost use Rattle.sc_basis.specs.Bases.{entry_of, IsAscending};
ghost use Rattle.sc_rows.specs.Places.{mul_spot, add_spot, IsWideTerm, IsWideProduct};

use crate::spot::{Spot, multiply, sum_of};
use crate::{Place, WideAt};
use sc_weight::Level;

/// Which lists are multiplied.
#[derive(Clone, Copy, Debug)]
pub(crate) enum Product {
    /// A row and the entering column.
    Along { row: u32 },
    /// A row and the right side.
    Value { row: u32 },
    /// The prices at a level and the entering column.
    Gap { level: Level },
}

impl Product {
    fn mul_spot(self, index: u32) -> Spot
        ensures { result ≡ mul_spot self index }
    {
        let (place, first, second) = match self {
            Product::Along { row } => (Place::AlongMul, row, index),
            Product::Value { row } => (Place::ValueMul, row, index),
            Product::Gap { level } => (Place::GapMul { level }, index, 0),
        };
        Spot {
            place,
            first,
            second,
            leaving: None,
        }
    }

    fn add_spot(self, index: u32) -> Spot
        ensures { result ≡ add_spot self index }
    {
        let (place, first, second) = match self {
            Product::Along { row } => (Place::AlongAdd, row, index),
            Product::Value { row } => (Place::ValueAdd, row, index),
            Product::Gap { level } => (Place::GapAdd { level }, index, 0),
        };
        Spot {
            place,
            first,
            second,
            leaving: None,
        }
    }
}

/// The sum so far, plus the product of the numbers at the index.
fn with_term(product: Product, index: u32, sum: i128, x: i128, y: i128) -> Result<i128, WideAt>
    ensures value { IfOk result (λ z. z ≡ sum +ℤ x *ℤ y) }
    ensures evidence { IfErr result (IsWideTerm product index sum x y) }
{
    if x == 0 || y == 0 {
        return Ok(sum);
    }
    let term = multiply(product.mul_spot(index), x, y)?;
    // Not a tail call: `sum_of` has another clause on errors than this function.
    let total = sum_of(product.add_spot(index), sum, term)?;
    Ok(total)
}

/// The product of a list with a column.
pub(crate) fn product_with_column(
    product: Product,
    list: &[i128],
    column: &[(u32, i128)],
) -> Result<i128, WideAt>
    requires { IsAscending (length list.now) 0 column.now }
    ensures value { IfOk result (λ z. z ≡ dot (length list.now) (at list.now) (entry_of column.now)) }
    ensures evidence { IfErr result (IsWideProduct product (length list.now) (at list.now) (entry_of column.now)) }
{
    let mut sum = 0;
    for n in 0..column.len() {
        let (index, y) = column[n];
        sum = with_term(product, index, sum, list[index as usize], y)?;
    }
    Ok(sum)
}

/// The product of two lists.
pub(crate) fn product_with_list(
    product: Product,
    list: &[i128],
    other: &[i128],
) -> Result<i128, WideAt>
    requires few { length list.now < 2 ^ 32 }
    requires same { length other.now ≡ length list.now }
    ensures value { IfOk result (λ z. z ≡ dot (length list.now) (at list.now) (at other.now)) }
    ensures evidence { IfErr result (IsWideProduct product (length list.now) (at list.now) (at other.now)) }
{
    let mut sum = 0;
    for index in 0..list.len() {
        sum = with_term(product, index as u32, sum, list[index], other[index])?;
    }
    Ok(sum)
}
