//! The polygons that the search knows, as columns.

use crate::fixed::{ONE, WEIGHT_BITS};
use crate::limits::MAX_POLYGONS;
use crate::steps::{Step, Steps};
use std::alloc::{AllocError, Global};
use std::collections::HashSet;

/// By how much a polygon has to be worth more than it costs, with `PRICE_BITS` bits behind the point.
pub const MARGIN: i64 = ONE / 100_000;

/// The weight of a column that nothing is known of.
pub(crate) const FIRST_WEIGHT: i64 = 1 << WEIGHT_BITS;

/// A polygon, as a column.
#[derive(Drop)]
pub struct Column {
    /// Its positions, from the least one.
    pub walk: Vec<u32>,
    /// Its entries that aren't 0, each with its row.
    pub(crate) entries: Vec<(usize, i64)>,
    /// What it is worth.
    pub(crate) worth: i64,
    /// By how much it is worth more than it costs at the prices.
    pub excess: i64,
    /// How its excess compares with that of others: an estimate of the square of its length, with `WEIGHT_BITS` bits
    /// behind the point.
    pub(crate) weight: i64,
    /// Whether it is an item of the basis.
    pub is_basic: bool,
}

impl Column {
    /// What it costs at these prices.
    pub(crate) fn cost(&self, prices: &[i64]) -> i64 {
        let mut cost = 0_i64;
        for (row, count) in &self.entries {
            let price = prices.get(*row).copied().unwrap_or(0);
            cost = cost.saturating_add(price.saturating_mul(*count));
        }
        cost
    }
}

/// Adds to the entry of a row.
fn add_entry(entries: &mut Vec<(usize, i64)>, row: usize, count: i64) -> Result<(), AllocError> {
    for entry in entries.iter_mut() {
        if entry.0 == row {
            entry.1 = entry.1.saturating_add(count);
            return Ok(());
        }
    }
    entries.push((row, count))?;
    Ok(())
}

/// Adds the entries of a step.
fn add_step(entries: &mut Vec<(usize, i64)>, step: Step) -> Result<(), AllocError> {
    add_entry(entries, step.pair, step.entry)?;
    match step.word {
        Some(row) => add_entry(entries, row, 1),
        None => Ok(()),
    }
}

/// The column of a closed walk, if it is one.
fn column_of(alloc: Global, steps: &Steps, walk: Vec<u32>) -> Result<Option<Column>, AllocError> {
    let mut entries = Vec::with_capacity(alloc, walk.len())?;
    let mut worth = ONE;
    for (from, to) in walk
        .iter()
        .zip(walk.iter().skip(1).chain(walk.iter().take(1)))
    {
        let Some(step) = steps.between(*from, *to) else {
            return Ok(None);
        };
        add_step(&mut entries, step)?;
        worth = worth.saturating_sub(step.surcharge);
    }
    entries.retain(|entry| entry.1 != 0);
    Ok(Some(Column {
        walk,
        entries,
        worth,
        excess: 0,
        weight: FIRST_WEIGHT,
        is_basic: false,
    }))
}

/// The polygons that the search knows, each once.
#[derive(Drop)]
pub struct Pool {
    /// As columns, in the order in which they came.
    pub columns: Vec<Column>,
    known: HashSet<Vec<u32>>,
}

impl Pool {
    /// A pool of no polygons.
    pub fn new(alloc: Global) -> Pool {
        Pool {
            columns: Vec::new(alloc),
            known: HashSet::new(alloc),
        }
    }

    /// Adds the polygon of a walk, if it is new and one, its excess above a bound at these prices, and there is room.
    /// Answers whether it was added.
    pub fn add(
        &mut self,
        alloc: Global,
        steps: &Steps,
        walk: Vec<u32>,
        prices: &[i64],
        bound: i64,
    ) -> Result<bool, AllocError> {
        if self.columns.len() >= MAX_POLYGONS || self.known.contains(walk.as_slice()) {
            return Ok(false);
        }
        let Some(mut column) = column_of(alloc, steps, walk)? else {
            return Ok(false);
        };
        column.excess = column.worth.saturating_sub(column.cost(prices));
        if column.excess <= bound {
            return Ok(false);
        }
        self.known.insert(column.walk.clone()?)?;
        self.columns.push(column)?;
        Ok(true)
    }

    /// Compares each polygon with the prices once more.
    pub fn compare(&mut self, prices: &[i64]) {
        for column in self.columns.iter_mut() {
            column.excess = column.worth.saturating_sub(column.cost(prices));
        }
    }

    /// Forgets what the weights are.
    pub fn forget_weights(&mut self) {
        for column in self.columns.iter_mut() {
            column.weight = FIRST_WEIGHT;
        }
    }
}
