//! The prices of the steps of a chain.

ghost use Rattle.std.specs.Prelude.{◌≡◌, ◌<◌, ◌≤◌, ◌^◌, ℕ, length, Some, IfOk, IfErr};
ghost use Rattle.sc_theory.specs.Chains.{positions};
ghost use Rattle.sc_theory.specs.Walks.{IsStep};
ghost use Rattle.sc_theory.specs.Prices.{pairs as pairs_of};
ghost use Rattle.sc_chain.specs.declared.limits.TheConstants.{MAX_POSITIONS};
ghost use Rattle.sc_tables.specs.StepPrices.{base_levels, step_levels, price_in, AreForChain};
ghost use Rattle.sc_tables.specs.inside.StepPrices.{signed_levels, IsCell};
ghost use Rattle.sc_tables.specs.inside.StepFaults.{IsTurn};
ghost use Rattle.sc_tables.specs.StepFaults.{IsStepFault};

use sc_chain::{Chain, Pairs, Sign};
use sc_weight::{Level, Weight};
use sc_whole::Wide;
use std::alloc::{AllocError, AllocFailed, Global};
use std::marker::Model;

/// Why the steps of a chain have no prices.
#[derive(Clone, Copy, Debug, PartialEq, Eq)]
pub enum StepFault {
    /// 0 minus the price of a pair's row is outside 128 bits at this level.
    Turn {
        row: u32,
        level: Level,
        wide: Wide,
    },
    /// The price of the pair plus the base price is, at the step between these positions.
    Step {
        from: u32,
        to: u32,
        level: Level,
        wide: Wide,
    },
    /// There was no memory.
    Memory,
}

impl From<AllocError> for StepFault {
    ghost use Rattle.sc_tables.specs.declared.prices.StepFault.TheVariants as faults;
    ghost use Rattle.std.specs.Prelude.{◌≡◌};

    ghost from_gives = { λ _ fault. fault ≡ faults.Memory };

    fn from(_: AllocError) -> StepFault {
        StepFault::Memory
    }
}

impl<T: Drop> From<AllocFailed<T>> for StepFault {
    ghost use Rattle.sc_tables.specs.declared.prices.StepFault.TheVariants as faults;
    ghost use Rattle.std.specs.Prelude.{◌≡◌};

    ghost from_gives = { λ _ fault. fault ≡ faults.Memory };

    fn from(_: AllocFailed<T>) -> StepFault {
        StepFault::Memory
    }
}

/// The price of a row with its sign.
fn signed<W: Weight>(price: &W, row: usize, sign: Sign) -> Result<W, StepFault>
    requires { row < 2 ^ 32 }
    ensures price { IfOk result (λ w. W.levels w ≡ signed_levels sign (W.levels price.now)) }
    ensures faults { IfErr result (IsTurn (W.levels price.now) row) }
{
    match sign {
        Sign::Plus => Ok(*price),
        Sign::Minus => W::zero().minus(price).map_err(|fault| StepFault::Turn {
            row: row as u32,
            level: fault.level,
            wide: fault.wide,
        }),
    }
}

/// The base price at a position: that of the word which it is the first position of.
fn base_at<W: Weight>(chain: &Chain, base: &[W], position: usize) -> W
    requires position { position < positions chain.now }
    requires base { length base.now ≡ length chain.now }
    ensures { W.levels result ≡ base_levels W.levels chain.now base.now position }
{
    match chain.word_begun_at(position) {
        Some(word) => base[word],
        None => W::zero(),
    }
}

/// The price of the step between two positions, if there is one.
fn step_price<W: Weight>(
    chain: &Chain,
    pairs: &Pairs,
    pair: &[W],
    base: &[W],
    from: usize,
    to: usize,
) -> Result<Option<W>, StepFault>
    requires few { positions chain.now ≤ MAX_POSITIONS }
    requires from { from < positions chain.now }
    requires to { to < positions chain.now }
    requires pairs { pairs.now ≡ pairs_of chain.now }
    requires pair { length pair.now ≡ length pairs.now }
    requires base { length base.now ≡ length chain.now }
    ensures price { IfOk result (IsCell W.levels chain.now pair.now base.now from to) }
    ensures faults { IfErr result (IsStepFault W.levels chain.now pair.now base.now) }
{
    let Some((row, sign)) = pairs.row_of(chain.succ(from), to) else {
        return Ok(None);
    };
    let price = signed(&pair[row], row, sign)?;
    match price.plus(&base_at(chain, base, to)) {
        Ok(sum) => Ok(Some(sum)),
        Err(fault) => Err(StepFault::Step {
            from: from as u32,
            to: to as u32,
            level: fault.level,
            wide: fault.wide,
        }),
    }
}

/// The price of each step of a chain. The prices of the steps into a position stand side by side.
#[derive(Debug, Drop)]
pub struct StepPrices<W> {
    side: usize,
    cells: Vec<Option<W>>,
}

impl<W> Model for StepPrices<W> {
    ghost use Rattle.std.specs.Prelude.{◌≡◌, ◌≤◌, ◌*◌, length};
    ghost use Rattle.sc_tables.specs.Squares.{Square, square_code};
    ghost use Rattle.sc_chain.specs.declared.limits.TheConstants.{MAX_POSITIONS};

    ghost Value = { Square W };

    ghost coded = { square_code W.code };

    ghost view = { λ p. record { side = p.side; cells = p.cells.items } };

    ghost invariant = { λ p. (p.side ≤ MAX_POSITIONS) × (length p.cells.items ≡ p.side * p.side) };
}

impl<W: Weight> StepPrices<W> {
    ghost use Rattle.sc_tables.specs.Squares.{cell};
    ghost use Rattle.sc_tables.specs.StepPrices.{HasStep};

    /// The prices of a chain's steps from those of its inverse pairs and of its words: the price of the pair of the
    /// next position and the one that the step leads to, plus the base price there.
    pub fn build(
        alloc: Global,
        chain: &Chain,
        pairs: &Pairs,
        pair: &Vec<W>,
        base: &Vec<W>,
    ) -> Result<StepPrices<W>, StepFault>
        requires pairs { pairs.now ≡ pairs_of chain.now }
        requires rows { length pair.now.items ≡ length pairs.now }
        requires words { length base.now.items ≡ length chain.now }
        ensures steps { IfOk result (AreForChain chain.now) }
        ensures prices { IfOk result (λ p. (i j : ℕ) → IsStep chain.now i j → price_in W.levels p i j ≡ step_levels W.levels chain.now pair.now.items base.now.items i j) }
        ensures faults { IfErr result (IsStepFault W.levels chain.now pair.now.items base.now.items) }
    {
        let side = chain.positions();
        let (pair, base) = (pair.as_slice(), base.as_slice());
        let mut cells = Vec::with_capacity(alloc, side * side)?;
        for cell in 0..side * side {
            cells.push(step_price(chain, pairs, pair, base, cell % side, cell / side)?)?;
        }
        Ok(StepPrices { side, cells })
    }

    /// The price of a step.
    pub fn price(&self, from: u32, to: u32) -> W
        requires { HasStep self.now from to }
        ensures { Some result ≡ cell self.now to from }
    {
        match self.cells[to as usize * self.side + from as usize] {
            Some(price) => price,
            None => unreachable!(),
        }
    }

    /// The price of a step, and none where there is no step.
    pub(crate) fn entry(&self, from: usize, to: usize) -> Option<W>
        requires from { from < self.now.side }
        requires to { to < self.now.side }
        ensures { result ≡ cell self.now to from }
    {
        self.cells[to * self.side + from]
    }
}
