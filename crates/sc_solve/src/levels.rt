//! The prices of a basis at two levels, as prices of the steps of a chain.

ghost use Rattle.std.specs.Prelude.{◌≡◌, ◌<◌, ◌≤◌, ◌+◌, ℕ, length, map, None, IfOk, IfErr};
ghost use Rattle.std.specs.List.{range_with_len};
ghost use Rattle.sc_theory.specs.Chains.{IsChain};
ghost use Rattle.sc_theory.specs.Walks.{IsStep};
ghost use Rattle.sc_theory.specs.Prices.{pairs as pairs_of};
ghost use Rattle.sc_theory.specs.Columns.{rows};
ghost use Rattle.sc_rows.specs.Standing.{ArePrices};
ghost use Rattle.sc_rows.specs.Places.{spot, wide_at, IsWideBy};
ghost use Rattle.sc_tables.specs.StepPrices.{AreForChain, price_in};
ghost use Rattle.sc_solve.specs.PriceLevels.{price_levels};
ghost use Rattle.sc_solve.specs.inside.PriceLevels.{levels_of, pair_of_row};
ghost use Rattle.sc_solve.specs.Searches.{IsWidePrice};
ghost use Rattle.sc_solve.specs.inside.Searches.{refusal_of_step};

use sc_chain::{Chain, Pairs};
use sc_rows::{Place, PriceRows, RowFault, WideAt};
use sc_tables::{StepFault, StepPrices};
use sc_weight::Pair;
use sc_whole::Wide;
use std::alloc::{AllocError, Global};

/// The refusal of an operation at a place with its indices.
pub(crate) fn refused(place: Place, first: u32, second: u32, wide: Wide) -> WideAt
    ensures { result ≡ wide_at (spot place first second None) wide }
{
    WideAt {
        place,
        first,
        second,
        wide,
        walk: None,
        entering: None,
        leaving: None,
    }
}

/// The prices of a row at both levels.
pub(crate) fn pair_of_row(prices: &PriceRows, row: usize) -> Pair
    requires bulk { row < length prices.now.bulk.entries.items }
    requires fine { row < length prices.now.fine.entries.items }
    ensures { result ≡ pair_of_row prices.now row }
{
    Pair {
        bulk: prices.bulk.entries[row],
        fine: prices.fine.entries[row],
    }
}

/// The prices of some rows at both levels.
fn pairs_of_rows(
    alloc: Global,
    prices: &PriceRows,
    first: usize,
    count: usize,
) -> Result<Vec<Pair>, AllocError>
    requires bulk { first + count ≤ length prices.now.bulk.entries.items }
    requires fine { first + count ≤ length prices.now.fine.entries.items }
    ensures { IfOk result (λ list. list.items ≡ map (pair_of_row prices.now) (range_with_len first count)) }
{
    let mut list = Vec::with_capacity(alloc, count)?;
    for n in 0..count {
        list.push(pair_of_row(prices, first + n))?;
    }
    Ok(list)
}

/// The refusal of a step's price.
fn step_refusal(fault: StepFault) -> RowFault
    ensures { result ≡ refusal_of_step fault }
{
    match fault {
        StepFault::Turn { row, level, wide } => {
            RowFault::Wide(refused(Place::TurnPrice { level }, row, 0, wide))
        }
        StepFault::Step {
            from,
            to,
            level,
            wide,
        } => RowFault::Wide(refused(Place::StepPrice { level }, from, to, wide)),
        StepFault::Memory => RowFault::Memory,
    }
}

/// The price of each step at both levels, from the prices of the rows.
pub(crate) fn step_prices(
    alloc: Global,
    chain: &Chain,
    pairs: &Pairs,
    prices: &PriceRows,
) -> Result<StepPrices<Pair>, RowFault>
    requires pairs { pairs.now ≡ pairs_of chain.now }
    requires prices { ArePrices (rows chain.now) prices.now }
    ensures steps { IfOk result (AreForChain chain.now) }
    ensures prices { IfOk result (λ t. (i j : ℕ) → IsStep chain.now i j → price_in levels_of t i j ≡ price_levels chain.now prices.now i j) }
    ensures chain { IsChain chain.now }
    ensures faults { IfErr result (IsWideBy (IsWidePrice chain.now prices.now)) }
{
    let words = chain.words();
    let pair = pairs_of_rows(alloc, prices, 0, pairs.count())?;
    let base = pairs_of_rows(alloc, prices, pairs.count(), words)?;
    match StepPrices::build(alloc, chain, pairs, &pair, &base) {
        Ok(steps) => Ok(steps),
        Err(fault) => Err(step_refusal(fault)),
    }
}
