//! The steps of a chain with the rows that price them, and their prices. Sums that don't fit 128 bits are cut to the
//! nearest number that does: such a price makes a worse choice and nothing else.

ghost use Rattle.std.specs.Prelude.{◌<◌};
ghost use Rattle.sc_theory.specs.Chains.{positions};

use sc_chain::{Chain, Pairs, Sign};
use sc_rows::PriceRows;
use sc_weight::Pair;
use std::alloc::{AllocError, Global};

/// A step, with the rows whose prices make its own.
#[derive(Clone, Copy)]
pub(crate) struct Step {
    pub(crate) from: usize,
    pub(crate) to: usize,
    /// The row of its pair.
    pair: usize,
    /// Whether it has that row's price, or minus it.
    sign: Sign,
    /// The row of the word that it goes to the first position of.
    word: Option<usize>,
    /// How many positions it goes away from the next position.
    pub(crate) reach: usize,
}

/// The steps of a chain.
#[derive(Drop)]
pub(crate) struct Steps {
    pub(crate) positions: usize,
    pub(crate) steps: Vec<Step>,
    /// For every two positions the place of the step between them.
    places: Vec<Option<usize>>,
}

impl Steps {
    /// No steps.
    pub(crate) fn none(alloc: Global) -> Steps {
        Steps {
            positions: 0,
            steps: Vec::new(alloc),
            places: Vec::new(alloc),
        }
    }

    /// Adds the steps from a position.
    fn add_from(&mut self, chain: &Chain, pairs: &Pairs, from: usize) -> Result<(), AllocError>
        requires { from < positions chain.now }
    {
        let next = chain.succ(from);
        for to in 0..chain.positions() {
            let Some((pair, sign)) = pairs.row_of(next, to) else {
                self.places.push(None)?;
                continue;
            };
            self.places.push(Some(self.steps.len()))?;
            self.steps.push(Step {
                from,
                to,
                pair,
                sign,
                word: chain
                    .word_begun_at(to)
                    .map(|word| pairs.count().saturating_add(word)),
                reach: next.abs_diff(to),
            })?;
        }
        Ok(())
    }

    /// The steps of a chain.
    pub(crate) fn of(alloc: Global, chain: &Chain) -> Result<Steps, AllocError> {
        let pairs = Pairs::of(alloc, chain)?;
        let mut steps = Steps {
            positions: chain.positions(),
            steps: Vec::new(alloc),
            places: Vec::new(alloc),
        };
        for from in 0..chain.positions() {
            steps.add_from(chain, &pairs, from)?;
        }
        Ok(steps)
    }

    /// The place of the step between two positions, if there is one.
    pub(crate) fn place(&self, from: u32, to: u32) -> Option<usize> {
        let row = (from as usize).saturating_mul(self.positions);
        self.places
            .get(row.saturating_add(to as usize))
            .copied()
            .flatten()
    }

    /// How many positions the step at a place goes away from the next position.
    pub(crate) fn reach(&self, place: usize) -> usize {
        self.steps.get(place).map_or(0, |step| step.reach)
    }

    /// The price of each step.
    pub(crate) fn priced(
        &self,
        alloc: Global,
        prices: &PriceRows,
    ) -> Result<Vec<Pair>, AllocError> {
        let mut priced = Vec::with_capacity(alloc, self.steps.len())?;
        for step in self.steps.iter() {
            priced.push(Pair {
                bulk: price_at(*step, prices.bulk.entries.as_slice()),
                fine: price_at(*step, prices.fine.entries.as_slice()),
            })?;
        }
        Ok(priced)
    }
}

/// The price of a step at a level.
fn price_at(step: Step, prices: &[i128]) -> i128 {
    let pair = prices.get(step.pair).copied().unwrap_or(0);
    let word = step
        .word
        .and_then(|row| prices.get(row).copied())
        .unwrap_or(0);
    match step.sign {
        Sign::Plus => word.saturating_add(pair),
        Sign::Minus => word.saturating_sub(pair),
    }
}

/// The sum of two prices.
pub(crate) fn sum(x: Pair, y: Pair) -> Pair {
    Pair {
        bulk: x.bulk.saturating_add(y.bulk),
        fine: x.fine.saturating_add(y.fine),
    }
}

/// Whether a price is less than another.
pub(crate) fn is_less(x: Pair, y: Pair) -> bool {
    x.bulk < y.bulk || (x.bulk == y.bulk && x.fine < y.fine)
}
