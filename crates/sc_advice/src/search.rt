//! The private search for a good basis: exchanges, now and then a check and a look for new polygons.

use crate::limits::{
    CHECK_INTERVAL, EXCHANGES_A_ROW, NEAR_EXCHANGES_A_ROW, PRICING_INTERVAL, REPAIRS, RETREATS,
};
use crate::pricing::{Stage, find_polygons};
use sc_chain::Chain;
use sc_rounded_basis::{
    Basis, Choice, Mode, ONE, Pivots, Pool, Steps, VALUE_BITS, carry_out, choose, repair_of,
};
use std::alloc::{AllocError, Global};

/// The residual of the prices above which a basis counts as broken, with `PRICE_BITS` bits behind the point ..
const BROKEN_RESIDUAL: u64 = 1 << 27;

/// .. and that above which its inverse is built anew.
const COARSE_RESIDUAL: u64 = 1 << 21;

/// The value below which a basis counts as broken, with `VALUE_BITS` bits behind the point ..
const BROKEN_VALUE: i64 = -(1 << (VALUE_BITS - 10));

/// .. and that below which it isn't sound.
const SOUND_VALUE: i64 = -(1 << (VALUE_BITS - 11));

/// The least pivots at first and at last, and the pivots that are small at first, with `PRICE_BITS` bits behind the
/// point.
const FIRST_LEAST_PIVOT: i64 = 3 * ONE / 100;

const LAST_LEAST_PIVOT: i64 = ONE / 4;

const FIRST_SMALL_PIVOT: i64 = ONE / 4;

/// Whether the search goes on.
#[derive(Clone, Copy, PartialEq, Eq)]
enum Progress {
    GoesOn,
    Ends,
}

/// The state of the search.
#[derive(Drop)]
pub(crate) struct Search {
    steps: Steps,
    stages: Vec<Stage>,
    pub(crate) pool: Pool,
    pub(crate) basis: Basis,
    pivots: Pivots,
    /// How often it may still go back to the last sound basis.
    retreats: u32,
    /// How often it may still make the basis feasible at its end.
    repairs: u32,
    /// The exchanges so far, and those since it looked for new polygons.
    pub(crate) exchanges: u32,
    recent: u32,
}

/// The stages of the search for new polygons.
fn stages(alloc: Global, mode: Mode, positions: usize) -> Result<Vec<Stage>, AllocError> {
    let mut stages = Vec::with_capacity(alloc, 7)?;
    if let Mode::Near { .. } = mode {
        for reach in [positions / 16, positions / 8, positions / 4, positions / 2] {
            stages.push(Stage {
                reach: reach.max(2),
                length: 4,
            })?;
        }
    }
    for length in [4, 8, positions] {
        stages.push(Stage {
            reach: positions,
            length,
        })?;
    }
    Ok(stages)
}

/// How many exchanges the search makes at most.
fn most_exchanges(mode: Mode, rows: usize) -> u32 {
    let per_row = match mode {
        Mode::Near { thousandths: 0..=1 } => NEAR_EXCHANGES_A_ROW,
        _ => EXCHANGES_A_ROW,
    };
    u32::try_from(rows)
        .unwrap_or(u32::MAX)
        .saturating_mul(per_row)
}

impl Search {
    /// A search that knows these polygons.
    pub(crate) fn new(
        alloc: Global,
        chain: &Chain,
        mode: Mode,
        walks: Vec<Vec<u32>>,
    ) -> Result<Search, AllocError> {
        let steps = Steps::of(alloc, chain, mode)?;
        let basis = Basis::new(alloc, chain, steps.pairs)?;
        let mut pool = Pool::new(alloc);
        for walk in walks {
            pool.add(alloc, &steps, walk, basis.prices.as_slice(), i64::MIN)?;
        }
        Ok(Search {
            stages: stages(alloc, mode, chain.positions())?,
            steps,
            pool,
            basis,
            pivots: Pivots {
                least: FIRST_LEAST_PIVOT,
                small: FIRST_SMALL_PIVOT,
            },
            retreats: RETREATS,
            repairs: REPAIRS,
            exchanges: 0,
            recent: 0,
        })
    }

    /// Marks the polygons of the basis.
    fn mark_items(&mut self) {
        for column in self.pool.columns.iter_mut() {
            column.is_basic = false;
        }
        for place in self.basis.items.iter().flatten() {
            if let Some(column) = self.pool.columns.get_mut(*place) {
                column.is_basic = true;
            }
        }
    }

    /// Builds the numbers of the basis anew.
    fn rebuild(&mut self, alloc: Global) -> Result<(), AllocError> {
        self.basis.rebuild(alloc, self.pool.columns.as_slice())?;
        self.mark_items();
        self.basis.price_anew(alloc, self.pool.columns.as_slice())?;
        Ok(())
    }

    /// Goes back to the last sound basis, and takes fewer pivots from now on.
    fn retreat(&mut self, alloc: Global) -> Result<(), AllocError> {
        if self.retreats == 0 {
            return Ok(());
        }
        self.retreats = self.retreats.saturating_sub(1);
        self.basis.items = Vec::from_slice(alloc, self.basis.sound.as_slice())?;
        self.pivots = Pivots {
            least: (self.pivots.least / 2)
                .saturating_mul(3)
                .min(LAST_LEAST_PIVOT),
            small: self.pivots.small / 2,
        };
        self.pool.forget_weights();
        self.rebuild(alloc)
    }

    /// Checks the numbers and mends them.
    fn check(&mut self, alloc: Global) -> Result<(), AllocError> {
        let residual = self.basis.price_anew(alloc, self.pool.columns.as_slice())?;
        if residual > BROKEN_RESIDUAL || self.basis.least_value() < BROKEN_VALUE {
            self.retreat(alloc)?;
        } else {
            if residual > COARSE_RESIDUAL {
                self.rebuild(alloc)?;
            }
            if self.basis.least_value() >= SOUND_VALUE {
                self.basis.sound = Vec::from_slice(alloc, self.basis.items.as_slice())?;
            }
        }
        self.pool.compare(self.basis.prices.as_slice());
        Ok(())
    }

    /// Looks for new polygons.
    fn look_for_polygons(&mut self, alloc: Global) -> Result<Progress, AllocError> {
        self.check(alloc)?;
        let found = find_polygons(
            alloc,
            &mut self.pool,
            &self.steps,
            self.basis.prices.as_slice(),
            self.stages.as_slice(),
        )?;
        let is_fresh = self.recent == 0;
        self.recent = 0;
        if found == 0 && is_fresh {
            self.repair(alloc)
        } else {
            Ok(Progress::GoesOn)
        }
    }

    /// Mends everything after some exchanges.
    fn mend(&mut self, alloc: Global) -> Result<(), AllocError> {
        self.check(alloc)?;
        self.basis.mend_values(alloc, self.pool.columns.as_slice())?;
        self.pool.compare(self.basis.prices.as_slice());
        Ok(())
    }

    /// Makes exchanges until no item has a negative value. Answers whether it made one.
    fn make_feasible(&mut self, alloc: Global) -> Result<bool, AllocError> {
        self.basis.mend_values(alloc, self.pool.columns.as_slice())?;
        let mut is_changed = false;
        for _row in 0..self.basis.items.len() {
            let Some(row) = self.basis.infeasible_row() else {
                break;
            };
            let columns = self.pool.columns.as_slice();
            let Some(next) = repair_of(alloc, &mut self.basis, columns, row, self.pivots)? else {
                break;
            };
            carry_out(alloc, &mut self.basis, &mut self.pool, next)?;
            is_changed = true;
        }
        Ok(is_changed)
    }

    /// What is done where no polygon is worth more than it costs: the search ends if its basis is feasible.
    fn repair(&mut self, alloc: Global) -> Result<Progress, AllocError> {
        if self.repairs == 0 {
            return Ok(Progress::Ends);
        }
        self.repairs = self.repairs.saturating_sub(1);
        if !self.make_feasible(alloc)? {
            return Ok(Progress::Ends);
        }
        self.recent = PRICING_INTERVAL;
        Ok(Progress::GoesOn)
    }

    /// One exchange, or a look for new polygons where none is due.
    fn go_on(&mut self, alloc: Global) -> Result<Progress, AllocError> {
        if self.recent >= PRICING_INTERVAL {
            return self.look_for_polygons(alloc);
        }
        match choose(
            alloc,
            &mut self.basis,
            self.pool.columns.as_slice(),
            self.pivots,
        )? {
            Choice::Dry => return self.look_for_polygons(alloc),
            Choice::Stuck => return Ok(Progress::Ends),
            Choice::Exchange(next) => carry_out(alloc, &mut self.basis, &mut self.pool, next)?,
        }
        self.exchanges = self.exchanges.saturating_add(1);
        self.recent = self.recent.saturating_add(1);
        if self.exchanges % CHECK_INTERVAL == 0 {
            self.mend(alloc)?;
        }
        Ok(Progress::GoesOn)
    }

    /// The sum of weight times price over the words, with `PRICE_BITS` bits behind the point.
    pub(crate) fn bound(&self, chain: &Chain) -> i64 {
        let mut bound = 0_i64;
        let prices = self.basis.prices.iter().skip(self.steps.pairs);
        for (entry, price) in chain.entries().iter().zip(prices) {
            bound = bound.saturating_add(price.saturating_mul(i64::from(entry.0)));
        }
        bound
    }

    /// Searches until no polygon is worth more than it costs, or as long as it may: at most three times as many rounds
    /// as there may be exchanges, and a few.
    pub(crate) fn run(&mut self, alloc: Global, mode: Mode) -> Result<(), AllocError> {
        let most = most_exchanges(mode, self.basis.items.len());
        let rounds = most.saturating_mul(3).saturating_add(8);
        for _round in 0..rounds {
            if self.exchanges >= most || self.go_on(alloc)? == Progress::Ends {
                break;
            }
        }
        self.check(alloc)
    }
}
