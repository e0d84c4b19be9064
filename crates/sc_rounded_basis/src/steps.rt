//! The steps of a chain, with what the search asks of each.

ghost use Rattle.std.specs.Prelude.{◌<◌};
ghost use Rattle.sc_theory.specs.Chains.{positions};

use crate::fixed::ONE;
use crate::mode::Mode;
use sc_chain::{Chain, Pairs, Sign};
use std::alloc::{AllocError, Global};

/// A step from some position.
#[derive(Clone, Copy)]
pub struct Step {
    /// The position that it goes to.
    pub to: usize,
    /// The row of its pair.
    pub pair: usize,
    /// Its entry in that row: 1 or -1.
    pub entry: i64,
    /// The row of the word that it goes to the first position of.
    pub word: Option<usize>,
    /// How many positions it goes away from the next position.
    pub reach: usize,
    /// What it takes off the worth of a polygon, with `PRICE_BITS` bits behind the point.
    pub surcharge: i64,
}

/// The steps of a chain.
#[derive(Drop)]
pub struct Steps {
    /// How many rows of pairs there are.
    pub pairs: usize,
    /// The steps from each position.
    pub from: Vec<Vec<Step>>,
}

/// What a step of this reach takes off the worth of a polygon.
fn surcharge(mode: Mode, reach: usize) -> i64 {
    match mode {
        Mode::Near { thousandths } => {
            let one = ONE.saturating_mul(i64::from(thousandths)) / 1000;
            one.saturating_mul(i64::try_from(reach).unwrap_or(i64::MAX))
        }
        Mode::Plain | Mode::Surface => 0,
    }
}

/// The steps from a position.
fn steps_from(
    alloc: Global,
    chain: &Chain,
    pairs: &Pairs,
    mode: Mode,
    from: usize,
) -> Result<Vec<Step>, AllocError>
    requires { from < positions chain.now }
{
    let next = chain.succ(from);
    let mut steps = Vec::new(alloc);
    for to in 0..chain.positions() {
        if let Some((pair, sign)) = pairs.row_of(next, to) {
            let reach = next.abs_diff(to);
            steps.push(Step {
                to,
                pair,
                entry: if sign == Sign::Plus { 1 } else { -1 },
                word: chain
                    .word_begun_at(to)
                    .map(|word| pairs.count().saturating_add(word)),
                reach,
                surcharge: surcharge(mode, reach),
            })?;
        }
    }
    Ok(steps)
}

impl Steps {
    /// The steps of a chain.
    pub fn of(alloc: Global, chain: &Chain, mode: Mode) -> Result<Steps, AllocError> {
        let pairs = Pairs::of(alloc, chain)?;
        let mut from = Vec::new(alloc);
        for position in 0..chain.positions() {
            from.push(steps_from(alloc, chain, &pairs, mode, position)?)?;
        }
        Ok(Steps {
            pairs: pairs.count(),
            from,
        })
    }

    /// The step between two positions, if there is one.
    pub(crate) fn between(&self, from: u32, to: u32) -> Option<Step> {
        let steps = self.from.get(from as usize)?;
        steps.iter().find(|step| step.to == to as usize).copied()
    }
}
