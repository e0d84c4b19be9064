//! A basis of the rows: its inverse, the values of its items and the prices, all of them approximate.

use crate::columns::Column;
use crate::elimination::Held;
use crate::fixed::{ONE, PRICE_BITS, VALUE_BITS, cut, product, scaled};
use sc_chain::Chain;
use std::alloc::{AllocError, Global};

/// What a unit costs, in numbers of vertices: so much that it leaves the basis.
const UNIT_COST: i64 = 64;

/// The small number in place of the 0 in the row of the first pair, with `VALUE_BITS` bits behind the point. That of
/// row k is about (`DECAY` / (k + `DECAY`))^`DECAY` times as great. So no two values tie, and the first rows decide
/// most, as in the lexicographic rule by which rows leave in earnest: a basis that is feasible here is mostly feasible
/// there.
const FIRST_SMALL: i64 = (1 << VALUE_BITS) / 1000;

/// How fast the small numbers decrease.
const DECAY: i64 = 4;

/// The least of these small numbers.
const LEAST_SMALL: i64 = 16;

/// The size of a value that may come of rounding, with `VALUE_BITS` bits behind the point.
const ROUNDING: i64 = 1 << 8;

/// The numbers of a basis. An item is the place of a polygon in the pool, or none for the unit of that row.
#[derive(Drop)]
pub struct Basis {
    /// The inverse, a list for each row of the chain: entry i of list k is what item i has of the unit of row k. With
    /// `PRICE_BITS` bits behind the point.
    pub(crate) inverse: Vec<Vec<i64>>,
    /// The item of each row.
    pub items: Vec<Option<usize>>,
    /// The right side, with `VALUE_BITS` bits behind the point.
    pub(crate) right: Vec<i64>,
    /// How often each item is used, with `VALUE_BITS` bits behind the point.
    pub(crate) values: Vec<i64>,
    /// The price of each row, with `PRICE_BITS` bits behind the point.
    pub prices: Vec<i64>,
    /// What each item has of the column that was looked at last, with `PRICE_BITS` bits behind the point.
    pub(crate) image: Vec<i64>,
    /// The last basis that was found sound.
    pub sound: Vec<Option<usize>>,
    /// The exchanges that the inverse doesn't have yet.
    pub(crate) held: Vec<Held>,
}

/// A row that can leave: the value of its item, and its entry of the image. The value is at least 0 and the entry above
/// 0, or both are negative where a basis is made feasible.
#[derive(Clone, Copy)]
pub(crate) struct Leaving {
    pub(crate) row: usize,
    pub(crate) value: i64,
    pub(crate) pivot: i64,
}

/// The right side, with small numbers in place of the zeros.
fn right_side(alloc: Global, chain: &Chain, pairs: usize) -> Result<Vec<i64>, AllocError> {
    let mut right = Vec::new(alloc);
    let mut small = FIRST_SMALL;
    let mut scale = DECAY;
    for _pair in 0..pairs {
        right.push(small.max(LEAST_SMALL))?;
        small = small
            .saturating_mul(scale)
            .checked_div(scale.saturating_add(DECAY))
            .unwrap_or(0);
        scale = scale.saturating_add(1);
    }
    for entry in chain.entries() {
        right.push(i64::from(entry.0).saturating_mul(1 << VALUE_BITS))?;
    }
    Ok(right)
}

/// A list of the inverse where all items are units: 1 at its own row.
fn unit_list(alloc: Global, rows: usize, row: usize) -> Result<Vec<i64>, AllocError> {
    let mut list = vec![in alloc; 0_i64; rows]?;
    if let Some(entry) = list.get_mut(row) {
        *entry = ONE;
    }
    Ok(list)
}

/// The inverse where all items are units.
pub(crate) fn units(alloc: Global, rows: usize) -> Result<Vec<Vec<i64>>, AllocError> {
    let mut inverse = Vec::with_capacity(alloc, rows)?;
    for row in 0..rows {
        inverse.push(unit_list(alloc, rows, row)?)?;
    }
    Ok(inverse)
}

/// Adds a list to another.
fn add_list(sum: &mut [i64], list: &[i64]) {
    for (entry, more) in sum.iter_mut().zip(list) {
        *entry = entry.wrapping_add(*more);
    }
}

/// Takes a list off another.
fn subtract_list(sum: &mut [i64], list: &[i64]) {
    for (entry, less) in sum.iter_mut().zip(list) {
        *entry = entry.wrapping_sub(*less);
    }
}

/// Adds a multiple of a list to another.
fn add_multiple(sum: &mut [i64], list: &[i64], count: i64) {
    match count {
        1 => add_list(sum, list),
        -1 => subtract_list(sum, list),
        _ => {
            for (entry, more) in sum.iter_mut().zip(list) {
                *entry = entry.saturating_add(more.saturating_mul(count));
            }
        }
    }
}

impl Leaving {
    /// Whether its value over its pivot is less than that of another.
    fn is_below(&self, other: &Leaving) -> bool {
        product(self.value, other.pivot) < product(other.value, self.pivot)
    }
}

impl Basis {
    /// The basis of the units.
    pub fn new(alloc: Global, chain: &Chain, pairs: usize) -> Result<Basis, AllocError> {
        let right = right_side(alloc, chain, pairs)?;
        let rows = right.len();
        Ok(Basis {
            inverse: units(alloc, rows)?,
            items: vec![in alloc; None; rows]?,
            values: Vec::from_slice(alloc, right.as_slice())?,
            right,
            prices: vec![in alloc; -UNIT_COST * ONE; rows]?,
            image: vec![in alloc; 0_i64; rows]?,
            sound: vec![in alloc; None; rows]?,
            held: Vec::new(alloc),
        })
    }

    /// What an item is worth.
    pub(crate) fn worth_of(columns: &[Column], item: Option<usize>) -> i64 {
        match item {
            Some(place) => columns.get(place).map_or(0, |column| column.worth),
            None => -UNIT_COST * ONE,
        }
    }

    /// Looks at a column: what the items have of it.
    pub(crate) fn look_at(&mut self, column: &Column) {
        self.image.fill(0);
        for (row, count) in &column.entries {
            if let Some(list) = self.inverse.get(*row) {
                add_multiple(self.image.as_mut_slice(), list.as_slice(), *count);
            }
        }
        self.change_image();
    }

    /// The row that leaves where the column that was looked at enters: among those whose entry is above the least
    /// pivot, the one whose value over its entry is least, and the first of these.
    pub(crate) fn leaving(&self, least_pivot: i64) -> Option<Leaving> {
        let mut best: Option<Leaving> = None;
        for (row, (pivot, value)) in self.image.iter().zip(self.values.iter()).enumerate() {
            if *pivot > least_pivot {
                let next = Leaving {
                    row,
                    value: (*value).max(0),
                    pivot: *pivot,
                };
                if best.is_none_or(|old| next.is_below(&old)) {
                    best = Some(next);
                }
            }
        }
        best
    }

    /// The row whose item has the least value, if that is negative and not by rounding alone.
    pub fn infeasible_row(&self) -> Option<usize> {
        let mut worst = None;
        let mut least = -ROUNDING;
        for (row, value) in self.values.iter().enumerate() {
            if *value < least {
                least = *value;
                worst = Some(row);
            }
        }
        worst
    }

    /// The values where the leaving item has gone and the entering one has this value.
    pub(crate) fn move_values(&mut self, leaving: usize, value: i64) {
        for (row, (entry, along)) in self.values.iter_mut().zip(self.image.iter()).enumerate() {
            *entry = if row == leaving {
                value
            } else {
                entry.saturating_sub(cut(product(value, *along) >> PRICE_BITS))
            };
        }
    }

    /// The prices after a multiple of the leaving row.
    pub(crate) fn move_prices(&mut self, row: &[i64], gain: i64) {
        for (price, entry) in self.prices.iter_mut().zip(row) {
            *price = price.saturating_add(scaled(gain, *entry));
        }
    }
}
