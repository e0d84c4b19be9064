//! The search for further candidates at given prices, where no known one improves.

use crate::prices::Steps;
use sc_weight::Pair;
use std::alloc::{AllocError, Global};

/// More than any walk costs.
const FAR: i128 = i128::MAX / 2;

/// So many walks from one start are taken.
const WALKS_FROM_A_START: usize = 2;

/// A step into some position, with its price at both levels as one number.
#[derive(Clone, Copy)]
pub(crate) struct Arc {
    from: usize,
    price: i128,
}

/// The least total of a walk to some position, and the position before it on that walk.
#[derive(Clone, Copy)]
struct Reached {
    total: i128,
    before: usize,
}

/// How far a search goes: steps of at most this reach, and walks of at most so many steps.
#[derive(Clone, Copy)]
pub(crate) struct Range {
    pub(crate) reach: usize,
    pub(crate) length: usize,
}

/// By how much a price in bulk outweighs one in fine where both are one number: more than any walk of a polygon costs
/// in fine.
pub(crate) fn bulk_factor(priced: &[Pair], positions: usize) -> i128 {
    let mut greatest = 0_i128;
    for price in priced {
        greatest = greatest.max(price.fine.saturating_abs());
    }
    let steps = i128::try_from(positions).unwrap_or(0).saturating_mul(2);
    greatest
        .saturating_add(1)
        .saturating_mul(steps.saturating_add(4))
}

/// The steps into each position, of at most this reach.
pub(crate) fn arcs_of(
    alloc: Global,
    steps: &Steps,
    priced: &[Pair],
    factor: i128,
    reach: usize,
) -> Result<Vec<Vec<Arc>>, AllocError> {
    let mut into = Vec::with_capacity(alloc, steps.positions)?;
    for _position in 0..steps.positions {
        into.push(Vec::new(alloc))?;
    }
    for (step, price) in steps.steps.iter().zip(priced) {
        if step.reach <= reach
            && let Some(arcs) = into.get_mut(step.to)
        {
            arcs.push(Arc {
                from: step.from,
                price: price.bulk.saturating_mul(factor).saturating_add(price.fine),
            })?;
        }
    }
    Ok(into)
}

/// The cheapest walk with a step more into a position.
fn best_into(arcs: &[Arc], layer: &[Reached]) -> Reached {
    let mut best = Reached {
        total: FAR,
        before: 0,
    };
    for arc in arcs {
        if let Some(here) = layer.get(arc.from)
            && here.total < FAR
        {
            let total = here.total.saturating_add(arc.price);
            if total < best.total {
                best = Reached {
                    total,
                    before: arc.from,
                };
            }
        }
    }
    best
}

/// The cheapest walks with a step more to the positions from the start on.
fn next_layer(
    alloc: Global,
    into: &[Vec<Arc>],
    layer: &[Reached],
    start: usize,
) -> Result<Vec<Reached>, AllocError> {
    let mut next = Vec::with_capacity(alloc, into.len())?;
    for (position, arcs) in into.iter().enumerate() {
        let arcs = if position < start {
            [].as_slice()
        } else {
            arcs.as_slice()
        };
        next.push(best_into(arcs, layer))?;
    }
    Ok(next)
}

/// The walks of no step from the start.
fn first_layer(alloc: Global, positions: usize, start: usize) -> Result<Vec<Reached>, AllocError> {
    let far = Reached {
        total: FAR,
        before: 0,
    };
    let mut layer = vec![in alloc; far; positions]?;
    if let Some(here) = layer.get_mut(start) {
        here.total = 0;
    }
    Ok(layer)
}

/// The closed walk whose last step the last of these layers has at the start.
fn walk_back(alloc: Global, layers: &[Vec<Reached>], start: usize) -> Result<Vec<u32>, AllocError> {
    let mut walk = Vec::with_capacity(alloc, layers.len())?;
    let mut here = start;
    for layer in layers.iter().rev() {
        here = layer.get(here).map_or(start, |reached| reached.before);
        walk.push(u32::try_from(here).unwrap_or(0))?;
    }
    walk.reverse();
    Ok(walk)
}

/// The closed walks from the start, through no position before it, that are below the threshold: the cheapest of each
/// of the first lengths that have one.
pub(crate) fn closed_walks(
    alloc: Global,
    into: &[Vec<Arc>],
    start: usize,
    length: usize,
    threshold: i128,
) -> Result<Vec<Vec<u32>>, AllocError> {
    let mut walks = Vec::new(alloc);
    let mut layer = first_layer(alloc, into.len(), start)?;
    let mut layers = Vec::new(alloc);
    for _step in 0..length {
        let mut next = next_layer(alloc, into, layer.as_slice(), start)?;
        let closed = next.get(start).map_or(FAR, |reached| reached.total);
        layers.push(Vec::from_slice(alloc, next.as_slice())?)?;
        if closed < threshold {
            walks.push(walk_back(alloc, layers.as_slice(), start)?)?;
            if walks.len() >= WALKS_FROM_A_START {
                break;
            }
        }
        if let Some(back) = next.get_mut(start) {
            back.total = FAR;
        }
        layer = next;
    }
    Ok(walks)
}
