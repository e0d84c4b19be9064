//! Lists of candidates, and which of a list is tried first.

use crate::prices::{Steps, is_less, sum};
use sc_advice::Mode;
use sc_chain::Polygon;
use sc_weight::Pair;
use std::alloc::{AllocError, Global};

/// A polygon that may improve.
#[derive(Drop)]
pub(crate) struct Candidate {
    pub(crate) walk: Vec<u32>,
    /// The places of its steps.
    steps: Vec<usize>,
    /// Those of the least rank are taken first.
    pub(crate) rank: usize,
}

/// What decides between the candidates of a list before their price.
#[derive(Clone, Copy, PartialEq, Eq)]
pub(crate) enum Order {
    /// Nothing.
    Price,
    /// How many steps they have.
    Steps,
    /// How far their steps go away from the next position, and then how many they have.
    Reach,
}

impl Order {
    /// That of a mode.
    pub(crate) fn of(mode: Mode) -> Order {
        match mode {
            Mode::Plain => Order::Steps,
            Mode::Near { .. } | Mode::Surface => Order::Reach,
        }
    }
}

/// More than any walk of a polygon has steps.
const MANY_STEPS: usize = 1 << 8;

/// The rank of a walk with these steps.
fn rank_of(order: Order, all: &Steps, steps: &[usize]) -> usize {
    match order {
        Order::Price => 0,
        Order::Steps => steps.len(),
        Order::Reach => {
            let mut reach = 0;
            for place in steps {
                reach = all.reach(*place).max(reach);
            }
            reach.saturating_mul(MANY_STEPS).saturating_add(steps.len())
        }
    }
}

/// The places of the steps of a closed walk, if it is one.
fn places_of(alloc: Global, all: &Steps, walk: &[u32]) -> Result<Option<Vec<usize>>, AllocError> {
    let mut places = Vec::with_capacity(alloc, walk.len())?;
    for (from, to) in walk
        .iter()
        .zip(walk.iter().skip(1).chain(walk.iter().take(1)))
    {
        let Some(place) = all.place(*from, *to) else {
            return Ok(None);
        };
        places.push(place)?;
    }
    Ok(Some(places))
}

impl Candidate {
    /// That of a walk, if it is closed.
    pub(crate) fn of(
        alloc: Global,
        all: &Steps,
        order: Order,
        walk: &[u32],
    ) -> Result<Option<Candidate>, AllocError> {
        let Some(steps) = places_of(alloc, all, walk)? else {
            return Ok(None);
        };
        Ok(Some(Candidate {
            walk: Vec::from_slice(alloc, walk)?,
            rank: rank_of(order, all, steps.as_slice()),
            steps,
        }))
    }

    /// The sum of the prices of its steps.
    pub(crate) fn total(&self, priced: &[Pair]) -> Pair {
        let mut total = Pair { bulk: 0, fine: 0 };
        for place in self.steps.iter() {
            if let Some(price) = priced.get(*place) {
                total = sum(total, *price);
            }
        }
        total
    }
}

/// The candidates of polygons, by their rank and then in the order of the list.
pub(crate) fn ranked(
    alloc: Global,
    all: &Steps,
    order: Order,
    polygons: &[Polygon],
) -> Result<Vec<Candidate>, AllocError> {
    let mut list = Vec::with_capacity(alloc, polygons.len())?;
    for polygon in polygons {
        if let Some(candidate) = Candidate::of(alloc, all, order, polygon.walk())? {
            list.push(candidate)?;
        }
    }
    list.sort_by_key(|candidate: &Candidate| candidate.rank)?;
    Ok(list)
}

/// Among the candidates of the least rank with one below the threshold, the place of the cheapest.
pub(crate) fn cheapest(list: &[Candidate], priced: &[Pair], threshold: Pair) -> Option<usize> {
    let mut best = None;
    let mut bound = threshold;
    let mut rank = usize::MAX;
    for (place, candidate) in list.iter().enumerate() {
        if candidate.rank > rank {
            break;
        }
        let total = candidate.total(priced);
        if is_less(total, bound) {
            best = Some(place);
            bound = total;
            rank = candidate.rank;
        }
    }
    best
}
