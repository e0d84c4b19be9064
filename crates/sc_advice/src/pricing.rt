//! The search for new polygons that are worth more than they cost.

use crate::cycles::cycles_of;
use sc_rounded_basis::{MARGIN, ONE, Pool, Step, Steps};
use std::alloc::{AllocError, Global};

/// More than any walk costs, with `PRICE_BITS` bits behind the point.
const FAR: i64 = 1 << 62;

/// The greatest size of the price of a step: 128 of them stay below `FAR`.
const MAX_STEP_PRICE: i64 = 1 << 55;

/// How far a search goes: steps of at most this reach, and walks of at most so many steps.
#[derive(Clone, Copy)]
pub(crate) struct Stage {
    pub(crate) reach: usize,
    pub(crate) length: usize,
}

/// A step into some position, with its price.
#[derive(Clone, Copy)]
struct Arc {
    from: usize,
    price: i64,
}

/// The least total of a walk to some position, and the position before it on that walk.
#[derive(Clone, Copy)]
struct Reached {
    total: i64,
    before: usize,
}

/// The price of a step.
fn price_of(step: &Step, prices: &[i64]) -> i64 {
    let pair = prices.get(step.pair).copied().unwrap_or(0);
    let word = step
        .word
        .and_then(|row| prices.get(row).copied())
        .unwrap_or(0);
    pair.saturating_mul(step.entry)
        .saturating_add(word)
        .saturating_add(step.surcharge)
        .max(-MAX_STEP_PRICE)
        .min(MAX_STEP_PRICE)
}

/// Adds the steps from a position to those into each.
fn add_arcs(
    into: &mut Vec<Vec<Arc>>,
    steps: &[Step],
    prices: &[i64],
    reach: usize,
    from: usize,
) -> Result<(), AllocError> {
    for step in steps {
        if step.reach <= reach
            && let Some(arcs) = into.get_mut(step.to)
        {
            arcs.push(Arc {
                from,
                price: price_of(step, prices),
            })?;
        }
    }
    Ok(())
}

/// The steps into each position, of at most this reach.
fn arcs_of(
    alloc: Global,
    steps: &Steps,
    prices: &[i64],
    reach: usize,
) -> Result<Vec<Vec<Arc>>, AllocError> {
    let mut into = Vec::with_capacity(alloc, steps.from.len())?;
    for _position in 0..steps.from.len() {
        into.push(Vec::new(alloc))?;
    }
    for (from, list) in steps.from.iter().enumerate() {
        add_arcs(&mut into, list.as_slice(), prices, reach, from)?;
    }
    Ok(into)
}

/// The cheapest walk with a step more into a position.
fn best_into(arcs: &[Arc], layer: &[Reached]) -> Reached {
    let mut best = Reached {
        total: FAR,
        before: 0,
    };
    for arc in arcs {
        if let Some(here) = layer.get(arc.from)
            && here.total < FAR
        {
            let total = here.total.saturating_add(arc.price);
            if total < best.total {
                best = Reached {
                    total,
                    before: arc.from,
                };
            }
        }
    }
    best
}

/// The cheapest walks with a step more to the positions from the start on.
fn next_layer(
    alloc: Global,
    into: &[Vec<Arc>],
    layer: &[Reached],
    start: usize,
) -> Result<Vec<Reached>, AllocError> {
    let mut next = Vec::with_capacity(alloc, into.len())?;
    for (position, arcs) in into.iter().enumerate() {
        let arcs = if position < start {
            [].as_slice()
        } else {
            arcs.as_slice()
        };
        next.push(best_into(arcs, layer))?;
    }
    Ok(next)
}

/// The walks of no step from the start.
fn first_layer(alloc: Global, positions: usize, start: usize) -> Result<Vec<Reached>, AllocError> {
    let far = Reached {
        total: FAR,
        before: 0,
    };
    let mut layer = vec![in alloc; far; positions]?;
    if let Some(here) = layer.get_mut(start) {
        here.total = 0;
    }
    Ok(layer)
}

/// The closed walk whose last step the last of these layers has at the start.
fn walk_back(alloc: Global, layers: &[Vec<Reached>], start: usize) -> Result<Vec<u32>, AllocError> {
    let mut walk = Vec::with_capacity(alloc, layers.len())?;
    let mut here = start;
    for layer in layers.iter().rev() {
        here = layer.get(here).map_or(start, |reached| reached.before);
        walk.push(u32::try_from(here).unwrap_or(0))?;
    }
    walk.reverse();
    Ok(walk)
}

/// The shortest closed walk from the start, through no position before it, that costs less than it is worth, and among
/// those of its length the cheapest.
fn closed_walk(
    alloc: Global,
    into: &[Vec<Arc>],
    start: usize,
    length: usize,
) -> Result<Option<Vec<u32>>, AllocError> {
    let mut layer = first_layer(alloc, into.len(), start)?;
    let mut layers = Vec::new(alloc);
    for _step in 0..length {
        let mut next = next_layer(alloc, into, layer.as_slice(), start)?;
        let closed = next.get(start).map_or(FAR, |reached| reached.total);
        layers.push(Vec::from_slice(alloc, next.as_slice())?)?;
        if closed < ONE - MARGIN {
            return Ok(Some(walk_back(alloc, layers.as_slice(), start)?));
        }
        if let Some(back) = next.get_mut(start) {
            back.total = FAR;
        }
        layer = next;
    }
    Ok(None)
}

/// Adds the cycles of a walk that are worth more than they cost. Answers how many are new.
fn add_cycles(
    alloc: Global,
    pool: &mut Pool,
    steps: &Steps,
    prices: &[i64],
    walk: &[u32],
) -> Result<u32, AllocError> {
    let mut added = 0_u32;
    for cycle in cycles_of(alloc, walk)? {
        if pool.add(alloc, steps, cycle, prices, MARGIN)? {
            added = added.saturating_add(1);
        }
    }
    Ok(added)
}

/// Adds the polygons that the walks from each start show. Answers how many are new.
fn add_from_starts(
    alloc: Global,
    pool: &mut Pool,
    steps: &Steps,
    prices: &[i64],
    stage: Stage,
) -> Result<u32, AllocError> {
    let into = arcs_of(alloc, steps, prices, stage.reach)?;
    let mut added = 0_u32;
    for start in 0..into.len() {
        if let Some(walk) = closed_walk(alloc, into.as_slice(), start, stage.length)? {
            let more = add_cycles(alloc, pool, steps, prices, walk.as_slice())?;
            added = added.saturating_add(more);
        }
    }
    Ok(added)
}

/// Adds new polygons that are worth more than they cost, by the first of the stages that finds any. Answers how many.
pub(crate) fn find_polygons(
    alloc: Global,
    pool: &mut Pool,
    steps: &Steps,
    prices: &[i64],
    stages: &[Stage],
) -> Result<u32, AllocError> {
    for stage in stages {
        let added = add_from_starts(alloc, pool, steps, prices, *stage)?;
        if added > 0 {
            return Ok(added);
        }
    }
    Ok(0)
}
