//! Which column enters, and the exchange.

use crate::basis::{Basis, Leaving};
use crate::columns::{Column, FIRST_WEIGHT, MARGIN, Pool};
use crate::fixed::{PRICE_BITS, WEIGHT_BITS, cut, product, quotient, scaled};
use crate::limits::CANDIDATES;
use std::alloc::{AllocError, Global};

/// By how many bits the gain of an exchange is divided whose pivot is small.
const SMALL_PIVOT_BITS: u32 = 3;

/// The greatest ratio of an entry of the leaving row to the pivot that weights take in, with `WEIGHT_BITS` bits behind
/// the point.
const MAX_RATIO: i64 = 1 << 30;

/// The greatest weight.
const MAX_WEIGHT: i64 = 1 << 60;

/// The weight above which all weights are forgotten.
const WEIGHT_TO_FORGET: i64 = 1 << 36;

/// The bits by which a step and an excess are changed so that their product fits 128 bits.
const STEP_BITS: u32 = 16;

const EXCESS_BITS: u32 = 12;

/// The pivots that are taken.
#[derive(Clone, Copy)]
pub struct Pivots {
    /// Those above this one alone, with `PRICE_BITS` bits behind the point ..
    pub least: i64,
    /// .. and those below this one less gladly.
    pub small: i64,
}

/// A column that could enter.
#[derive(Clone, Copy)]
struct Candidate {
    place: usize,
    score: i128,
}

/// The column that enters, and the row that leaves.
#[derive(Clone, Copy)]
pub struct Exchange {
    entering: usize,
    leaving: Leaving,
    gain: i128,
}

/// What an exchange needs to know of the column that enters.
#[derive(Clone, Copy)]
struct Entering {
    place: usize,
    /// Its excess over the pivot, with `PRICE_BITS` bits behind the point.
    gain: i64,
    weight: i64,
    pivot: i64,
}

/// The square of a column's excess over its weight.
fn score(column: &Column) -> i128 {
    product(column.excess, column.excess)
        .checked_div(i128::from(column.weight))
        .unwrap_or(0)
}

/// Puts a candidate behind those whose score isn't less, and leaves at most `CANDIDATES`.
fn rank(best: &mut Vec<Candidate>, next: Candidate) -> Result<(), AllocError> {
    let place = best
        .iter()
        .position(|old| old.score < next.score)
        .unwrap_or(best.len());
    if place < CANDIDATES {
        best.insert(place.min(best.len()), next)?;
        best.truncate(CANDIDATES);
    }
    Ok(())
}

/// The columns whose scores are greatest, among those that are worth more than they cost.
fn candidates(alloc: Global, columns: &[Column]) -> Result<Vec<Candidate>, AllocError> {
    let mut best = Vec::with_capacity(alloc, CANDIDATES)?;
    for (place, column) in columns.iter().enumerate() {
        if !column.is_basic && column.excess > MARGIN {
            let score = score(column);
            rank(&mut best, Candidate { place, score })?;
        }
    }
    Ok(best)
}

/// How much an exchange improves the value.
fn gain(leaving: Leaving, excess: i64, pivots: Pivots) -> i128 {
    let step = product(leaving.value, 1 << STEP_BITS)
        .checked_div(i128::from(leaving.pivot))
        .unwrap_or(0);
    let gain = step.saturating_mul(i128::from(excess >> EXCESS_BITS));
    if leaving.pivot < pivots.small {
        gain >> SMALL_PIVOT_BITS
    } else {
        gain
    }
}

/// The exchange that lets this column in, if a row can leave.
fn exchange_of(
    basis: &mut Basis,
    columns: &[Column],
    place: usize,
    pivots: Pivots,
) -> Option<Exchange> {
    let column = columns.get(place)?;
    basis.look_at(column);
    let leaving = basis.leaving(pivots.least)?;
    Some(Exchange {
        entering: place,
        leaving,
        gain: gain(leaving, column.excess, pivots),
    })
}

/// The column that can take the place of an item of negative value, whose row this is: the one that grows least too
/// dear for it, so that no column comes to be worth more than it costs.
fn replacement(columns: &[Column], row: &[i64], least_pivot: i64) -> Option<usize> {
    let mut best = None;
    let (mut least_excess, mut least_entry) = (-1, 0);
    for (place, column) in columns.iter().enumerate() {
        let (excess, entry) = (column.excess.min(0), column.cost(row));
        if !column.is_basic
            && entry.saturating_add(least_pivot) < 0
            && product(excess, least_entry) < product(least_excess, entry)
        {
            (least_excess, least_entry) = (excess, entry);
            best = Some(place);
        }
    }
    best
}

/// The exchange that takes the item of negative value out of this row.
pub fn repair_of(
    alloc: Global,
    basis: &mut Basis,
    columns: &[Column],
    row: usize,
    pivots: Pivots,
) -> Result<Option<Exchange>, AllocError> {
    let list = basis.row(alloc, row)?;
    let Some(entering) = replacement(columns, list.as_slice(), pivots.least) else {
        return Ok(None);
    };
    if let Some(column) = columns.get(entering) {
        basis.look_at(column);
    }
    Ok(Some(Exchange {
        entering,
        leaving: Leaving {
            row,
            value: basis.values.get(row).copied().unwrap_or(0),
            pivot: basis.image.get(row).copied().unwrap_or(0),
        },
        gain: 0,
    }))
}

/// What is to be done next.
#[derive(Clone, Copy)]
pub enum Choice {
    /// No column is worth more than it costs.
    Dry,
    /// No row can leave for any of the columns that are looked at.
    Stuck,
    /// This exchange improves most.
    Exchange(Exchange),
}

/// The exchange that improves most.
pub fn choose(
    alloc: Global,
    basis: &mut Basis,
    columns: &[Column],
    pivots: Pivots,
) -> Result<Choice, AllocError> {
    let candidates = candidates(alloc, columns)?;
    if candidates.is_empty() {
        return Ok(Choice::Dry);
    }
    let mut best: Option<Exchange> = None;
    for candidate in &candidates {
        if let Some(next) = exchange_of(basis, columns, candidate.place, pivots) {
            if best.is_none_or(|old| next.gain > old.gain) {
                best = Some(next);
            }
        }
    }
    Ok(best.map_or(Choice::Stuck, Choice::Exchange))
}

/// The weight that a column has at least after an exchange, where its entry of the leaving row is this one.
fn least_weight(entry: i64, entering: Entering) -> i64 {
    let ratio = cut(
        product(entry, 1 << WEIGHT_BITS)
            .checked_div(i128::from(entering.pivot))
            .unwrap_or(0),
    );
    let ratio = ratio.saturating_abs().min(MAX_RATIO);
    let square = cut(product(ratio, ratio) >> WEIGHT_BITS);
    cut(product(square, entering.weight) >> WEIGHT_BITS).min(MAX_WEIGHT)
}

/// The excess and the weight of a column after an exchange.
fn renew(column: &mut Column, row: &[i64], entering: Entering) {
    let entry = column.cost(row);
    if entry != 0 {
        column.excess = column.excess.saturating_sub(scaled(entering.gain, entry));
        column.weight = column.weight.max(least_weight(entry, entering));
    }
}

/// The excesses and weights of the columns outside the basis after an exchange.
fn renew_all(columns: &mut [Column], row: &[i64], entering: Entering) {
    for (place, column) in columns.iter_mut().enumerate() {
        if !column.is_basic && place != entering.place {
            renew(column, row, entering);
        }
    }
}

/// The weight of the column that leaves.
fn leaving_weight(entering: Entering) -> i64 {
    let pivot = entering.pivot >> WEIGHT_BITS;
    let square = product(pivot, pivot).max(1);
    let weight = product(entering.weight, 1 << PRICE_BITS)
        .checked_div(square)
        .unwrap_or(0);
    cut(weight).max(FIRST_WEIGHT)
}

/// The polygon that leaves is outside the basis from now on.
fn release(columns: &mut [Column], item: Option<usize>, prices: &[i64], entering: Entering) {
    if let Some(column) = item.and_then(|place| columns.get_mut(place)) {
        column.is_basic = false;
        column.weight = leaving_weight(entering);
        column.excess = column.worth.saturating_sub(column.cost(prices));
    }
}

/// The polygon that enters is in the basis from now on. Answers what the exchange needs to know of it.
fn admit(columns: &mut [Column], exchange: Exchange) -> Entering {
    let mut entering = Entering {
        place: exchange.entering,
        gain: 0,
        weight: FIRST_WEIGHT,
        pivot: exchange.leaving.pivot,
    };
    if let Some(column) = columns.get_mut(exchange.entering) {
        entering.gain = quotient(column.excess, exchange.leaving.pivot);
        entering.weight = column.weight;
        column.is_basic = true;
        column.excess = 0;
    }
    entering
}

/// Whether some weight has grown so far that all are to be forgotten.
fn have_grown(columns: &[Column]) -> bool {
    columns
        .iter()
        .any(|column| column.weight > WEIGHT_TO_FORGET)
}

/// Makes the exchange, in everything that is known of basis and columns.
pub fn carry_out(
    alloc: Global,
    basis: &mut Basis,
    pool: &mut Pool,
    exchange: Exchange,
) -> Result<(), AllocError> {
    let row = exchange.leaving.row;
    let Some(column) = pool.columns.get(exchange.entering) else {
        return Ok(());
    };
    basis.look_at(column);
    let list = basis.row(alloc, row)?;
    let entering = admit(pool.columns.as_mut_slice(), exchange);
    basis.move_values(
        row,
        quotient(exchange.leaving.value, exchange.leaving.pivot),
    );
    basis.move_prices(list.as_slice(), entering.gain);
    renew_all(pool.columns.as_mut_slice(), list.as_slice(), entering);
    let item = basis.items.get(row).copied().flatten();
    release(
        pool.columns.as_mut_slice(),
        item,
        basis.prices.as_slice(),
        entering,
    );
    if have_grown(pool.columns.as_slice()) {
        pool.forget_weights();
    }
    basis.eliminate(alloc, row, list.as_slice())?;
    if let Some(item) = basis.items.get_mut(row) {
        *item = Some(exchange.entering);
    }
    Ok(())
}
