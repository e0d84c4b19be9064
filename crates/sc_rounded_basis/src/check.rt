//! The numbers of a basis, computed once more and mended where they went astray.

use crate::basis::{Basis, units};
use crate::columns::Column;
use crate::fixed::{PRICE_BITS, cut, excess_bits, inner_product, product};
use std::alloc::{AllocError, Global};

/// The size of a residual, with `PRICE_BITS` bits behind the point, below which prices aren't mended further.
const CLOSE: u64 = 1 << 8;

/// How often prices are mended, at most ..
const PRICE_MENDINGS: u32 = 3;

/// .. and how often values are.
const VALUE_MENDINGS: u32 = 2;

/// The bits to which the factors of entries of the inverse are cut, so that their products fit 64 bits.
const FACTOR_BITS: u32 = 18;

/// The entry from which on, in size, a column can take a row when the inverse is built anew, with `PRICE_BITS` bits
/// behind the point.
const LEAST_REBUILT: u64 = 1 << 16;

/// How much an item is worth beyond what it costs at these prices: 0 but for rounding.
fn residual(columns: &[Column], prices: &[i64], row: usize, item: Option<usize>) -> i64 {
    let cost = match item.and_then(|place| columns.get(place)) {
        Some(column) => column.cost(prices),
        None => prices.get(row).copied().unwrap_or(0),
    };
    Basis::worth_of(columns, item).saturating_sub(cost)
}

/// The greatest size in a list.
fn greatest(list: &[i64]) -> u64 {
    list.iter().map(|x| x.unsigned_abs()).max().unwrap_or(0)
}

/// Adds a multiple of a list to sums of products.
fn add_products(sums: &mut [i128], list: &[i64], factor: i64) {
    for (sum, entry) in sums.iter_mut().zip(list) {
        *sum = sum.saturating_add(product(*entry, factor));
    }
}

/// Takes an item as often as its value says off what is left of the right side.
fn take_off(left: &mut [i64], column: &Column, value: i64) {
    for (row, count) in &column.entries {
        if let Some(entry) = left.get_mut(*row) {
            *entry = entry.saturating_sub(value.saturating_mul(*count));
        }
    }
}

/// The row that is free and whose entry of the image is greatest in size.
fn freest(image: &[i64], is_free: &[bool]) -> Option<usize> {
    let mut best = None;
    let mut size = LEAST_REBUILT;
    for (row, (entry, free)) in image.iter().zip(is_free).enumerate() {
        if *free && entry.unsigned_abs() > size {
            size = entry.unsigned_abs();
            best = Some(row);
        }
    }
    best
}

impl Basis {
    /// How much each item is worth beyond what it costs.
    fn residuals(&self, alloc: Global, columns: &[Column]) -> Result<Vec<i64>, AllocError> {
        self.items
            .iter()
            .enumerate()
            .map(|(row, item)| residual(columns, self.prices.as_slice(), row, *item))
            .collect(alloc)
    }

    /// Adds to the prices what the inverse makes of numbers for the items, none of which is greater in size than this.
    /// The numbers are cut to `FACTOR_BITS`: what that leaves is mended next.
    fn add_to_prices(&mut self, mut numbers: Vec<i64>, size: u64) {
        let shift = excess_bits(size, FACTOR_BITS);
        for number in numbers.iter_mut() {
            *number = number.wrapping_shr(shift);
        }
        for (price, list) in self.prices.iter_mut().zip(self.inverse.iter()) {
            let sum = inner_product(list.as_slice(), numbers.as_slice());
            let more = sum.wrapping_shr(PRICE_BITS.saturating_sub(shift));
            *price = price.saturating_add(more);
        }
    }

    /// Mends the prices by the inverse. Answers the greatest residual before that.
    pub fn price_anew(&mut self, alloc: Global, columns: &[Column]) -> Result<u64, AllocError> {
        self.settle();
        let mut residuals = self.residuals(alloc, columns)?;
        let mut size = greatest(residuals.as_slice());
        let first = size;
        for _mending in 0..PRICE_MENDINGS {
            if size < CLOSE {
                break;
            }
            self.add_to_prices(residuals, size);
            residuals = self.residuals(alloc, columns)?;
            size = greatest(residuals.as_slice());
        }
        Ok(first)
    }

    /// The least value of an item.
    pub fn least_value(&self) -> i64 {
        self.values.iter().copied().min().unwrap_or(0)
    }

    /// What the items with their values leave of the right side.
    fn left_over(&self, alloc: Global, columns: &[Column]) -> Result<Vec<i64>, AllocError> {
        let mut left = Vec::from_slice(alloc, self.right.as_slice())?;
        for (row, (item, value)) in self.items.iter().zip(self.values.iter()).enumerate() {
            match item.and_then(|place| columns.get(place)) {
                Some(column) => take_off(left.as_mut_slice(), column, *value),
                None => {
                    if let Some(entry) = left.get_mut(row) {
                        *entry = entry.saturating_sub(*value);
                    }
                }
            }
        }
        Ok(left)
    }

    /// Adds to the values what the inverse makes of numbers for the rows.
    fn add_to_values(&mut self, alloc: Global, numbers: &[i64]) -> Result<(), AllocError> {
        self.settle();
        let mut sums = vec![in alloc; 0_i128; self.values.len()]?;
        for (list, number) in self.inverse.iter().zip(numbers) {
            add_products(sums.as_mut_slice(), list.as_slice(), *number);
        }
        for (value, sum) in self.values.iter_mut().zip(sums.iter()) {
            *value = value.saturating_add(cut(*sum >> PRICE_BITS));
        }
        Ok(())
    }

    /// Mends the values.
    pub fn mend_values(&mut self, alloc: Global, columns: &[Column]) -> Result<(), AllocError> {
        for _mending in 0..VALUE_MENDINGS {
            let left = self.left_over(alloc, columns)?;
            self.add_to_values(alloc, left.as_slice())?;
        }
        Ok(())
    }

    /// Puts a column into the free row in which it has most.
    fn place(
        &mut self,
        alloc: Global,
        columns: &[Column],
        is_free: &mut [bool],
        item: usize,
    ) -> Result<(), AllocError> {
        let Some(column) = columns.get(item) else {
            return Ok(());
        };
        self.look_at(column);
        let Some(row) = freest(self.image.as_slice(), is_free) else {
            return Ok(());
        };
        let entries = self.row(alloc, row)?;
        self.eliminate(alloc, row, entries.as_slice())?;
        if let Some(entry) = self.items.get_mut(row) {
            *entry = Some(item);
        }
        if let Some(free) = is_free.get_mut(row) {
            *free = false;
        }
        Ok(())
    }

    /// The polygons of the basis, those with fewest entries first.
    fn polygons(
        &self,
        alloc: Global,
        columns: &[Column],
    ) -> Result<Vec<(usize, usize)>, AllocError> {
        let mut polygons = Vec::new(alloc);
        for place in self.items.iter().flatten() {
            if let Some(column) = columns.get(*place) {
                polygons.push((column.entries.len(), *place))?;
            }
        }
        polygons.sort_unstable();
        Ok(polygons)
    }

    /// Builds the inverse and the values anew from the items. A polygon that finds no row leaves the basis.
    pub fn rebuild(&mut self, alloc: Global, columns: &[Column]) -> Result<(), AllocError> {
        let polygons = self.polygons(alloc, columns)?;
        let mut is_free: Vec<bool> = self.items.iter().map(|item| item.is_some()).collect(alloc)?;
        self.inverse = units(alloc, self.items.len())?;
        self.held.clear();
        self.items.fill(None);
        for (_entries, item) in &polygons {
            self.place(alloc, columns, is_free.as_mut_slice(), *item)?;
        }
        self.values.fill(0);
        let right = Vec::from_slice(alloc, self.right.as_slice())?;
        self.add_to_values(alloc, right.as_slice())?;
        self.mend_values(alloc, columns)
    }
}
