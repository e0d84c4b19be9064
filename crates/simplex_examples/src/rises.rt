//! Rise values of prices, and whether they grow.

use sc_rows::{PriceRow, PriceRows};
use std::alloc::{AllocError, Global};

/// The sum of the products.
fn product(xs: &[i128], ys: &[i128]) -> i128 {
    xs.iter()
        .zip(ys)
        .fold(0_i128, |sum, (x, y)| sum.wrapping_add(x.wrapping_mul(*y)))
}

/// Puts the prices' product with the right side and then the prices behind the others, each over their scale.
fn push_level(
    height: &mut Vec<(i128, i128)>,
    prices: &PriceRow,
    rhs: &[i128],
) -> Result<(), AllocError> {
    height.push((product(prices.entries.as_slice(), rhs), prices.scale))?;
    for price in &prices.entries {
        height.push((*price, prices.scale))?;
    }
    Ok(())
}

/// Whether the first fraction that differs is the lesser one.
fn is_below(first: &[(i128, i128)], second: &[(i128, i128)]) -> bool {
    for ((x, d), (y, e)) in first.iter().zip(second) {
        let (left, right) = (x.wrapping_mul(*e), y.wrapping_mul(*d));
        if left != right {
            return left < right;
        }
    }
    false
}

/// The rise value of the prices that came last, and whether it grew each time.
#[derive(Debug, Drop)]
pub struct Heights {
    last: Vec<(i128, i128)>,
    rose: bool,
}

impl Heights {
    /// No prices came.
    pub fn new(alloc: Global) -> Self {
        Heights {
            last: Vec::new(alloc),
            rose: true,
        }
    }

    /// Notes the rise value of the next prices.
    pub fn note(
        &mut self,
        alloc: Global,
        prices: &PriceRows,
        rhs: &[i128],
    ) -> Result<(), AllocError> {
        let mut height = Vec::new(alloc);
        push_level(&mut height, &prices.bulk, rhs)?;
        push_level(&mut height, &prices.fine, rhs)?;
        if !self.last.is_empty() && !is_below(self.last.as_slice(), height.as_slice()) {
            self.rose = false;
        }
        self.last = height;
        Ok(())
    }

    /// Whether it grew each time.
    pub fn rose(&self) -> bool {
        self.rose
    }
}
