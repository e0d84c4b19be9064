//! The distance tables that vouch for a covering price list.

ghost use Rattle.std.specs.Prelude.{◌≡◌, ◌<◌, ◌≤◌, ℕ, length, map, IfOk};
ghost use Rattle.std.specs.Option.{option_map};
ghost use Rattle.sc_theory.specs.Chains.{positions};
ghost use Rattle.sc_theory.specs.Prices.{pairs as inverse_pairs, Covers, Vouch};
ghost use Rattle.sc_chain.specs.declared.limits.TheConstants.{MAX_POSITIONS};
ghost use Rattle.sc_text.specs.TableLines.{IsEntryInRange};
ghost use Rattle.sc_certificate.specs.Sizes.{FitsCounts, AreTablesOf};
ghost use Rattle.sc_tables.specs.Squares.{cell};
ghost use Rattle.sc_tables.specs.Tables.{AreLeastTotals, VouchFor};
ghost use Rattle.sc_tables.specs.StepPrices.{price_in};
ghost use Rattle.sc_tables.specs.CheapPolygons.{entry_in};
ghost use Rattle.sc_solve.specs.ListSteps.{plain, number, one_level, plain_levels, AreListSteps};
ghost use Rattle.sc_solve.specs.inside.ListSteps.{IsTableOf, AreFirstTables};
ghost use Rattle.sc_solve.specs.ListTables.{AreDistances};

use sc_certificate::{PriceList, Table, Tables};
use sc_chain::{Chain, Pairs};
use sc_tables::{Distances, Found, StepFault, StepPrices, TableFault, cheap_polygon};
use sc_weight::Plain;
use std::alloc::{AllocError, Global};

/// Prices as weights of one level.
fn weights_of(alloc: Global, prices: &[i128]) -> Result<Vec<Plain>, AllocError>
    ensures { IfOk result (λ weights. weights.items ≡ map plain prices.now) }
{
    prices.iter().map(|price| Plain(*price)).collect(alloc)
}

/// The price of each step by a list.
fn list_steps(
    alloc: Global,
    chain: &Chain,
    pairs: &Pairs,
    list: &PriceList,
) -> Result<StepPrices<Plain>, AllocError>
    requires pairs { pairs.now ≡ inverse_pairs chain.now }
    requires sizes { FitsCounts (length chain.now) (length (inverse_pairs chain.now)) list.now }
    ensures { IfOk result (AreListSteps chain.now list.now) }
{
    let pair = weights_of(alloc, list.pair())?;
    let base = weights_of(alloc, list.base())?;
    match StepPrices::build(alloc, chain, pairs, &pair, &base) {
        Ok(prices) => Ok(prices),
        Err(fault) => match fault {
            StepFault::Memory => Err(AllocError),
            // The prices of a list are so small that those of its steps fit.
            _ => unreachable!(),
        },
    }
}

/// The least totals of walks at the prices of a covering list.
fn least_totals(
    alloc: Global,
    chain: &Chain,
    list: &PriceList,
    prices: &StepPrices<Plain>,
) -> Result<Distances<Plain>, AllocError>
    requires few { positions chain.now ≤ MAX_POSITIONS }
    requires prices { AreListSteps chain.now list.now prices.now }
    requires covers { Covers chain.now list.now }
    ensures side { IfOk result (λ d. d.side ≡ positions chain.now) }
    ensures vouch { IfOk result (λ d. VouchFor chain.now (price_in plain_levels prices.now) (one_level list.now.scale) (entry_in plain_levels d)) }
    ensures least { IfOk result (λ d. AreLeastTotals chain.now (price_in plain_levels prices.now) (entry_in plain_levels d)) }
    ensures small { IfOk result (λ d. (s j : ℕ) → s < positions chain.now → j < positions chain.now → IsEntryInRange (option_map number (cell d s j))) }
{
    match cheap_polygon(alloc, chain, prices, &Plain(list.scale())) {
        Ok(found) => match found {
            Found::Tables(distances) => Ok(distances),
            // The list covers, so no polygon costs less than its scale.
            Found::Polygon(_) => unreachable!(),
        },
        Err(fault) => match fault {
            TableFault::Memory => Err(AllocError),
            // Totals of so few steps at so small prices fit.
            TableFault::Wide { .. } => unreachable!(),
        },
    }
}

/// The table of a start.
fn table_of(
    alloc: Global,
    distances: &Distances<Plain>,
    start: u32,
    positions: u32,
) -> Result<Table, AllocError>
    requires start { start < distances.now.side }
    requires positions { positions ≡ distances.now.side }
    requires small { (j : ℕ) → j < positions → IsEntryInRange (option_map number (cell distances.now start j)) }
    ensures { IfOk result (IsTableOf distances.now start positions) }
{
    let mut entries = Vec::with_capacity(alloc, positions as usize)?;
    for place in 0..positions {
        entries.push(distances.at(start, place).map(|total| total.0))?;
    }
    Ok(Table::of_small(entries))
}

/// The tables of all starts.
fn all_tables(
    alloc: Global,
    distances: &Distances<Plain>,
    positions: u32,
) -> Result<Tables, AllocError>
    requires positions { positions ≡ distances.now.side }
    requires small { (s j : ℕ) → s < positions → j < positions → IsEntryInRange (option_map number (cell distances.now s j)) }
    ensures { IfOk result (AreFirstTables distances.now positions) }
{
    let mut tables = Tables::new(alloc);
    for start in 0..positions {
        tables.push(table_of(alloc, distances, start, positions)?)?;
    }
    Ok(tables)
}

/// The tables of the least totals of walks at the prices of a covering list. They vouch for it.
pub fn tables_of(
    alloc: Global,
    chain: &Chain,
    pairs: &Pairs,
    list: &PriceList,
) -> Result<Tables, AllocError>
    requires pairs { pairs.now ≡ inverse_pairs chain.now }
    requires sizes { FitsCounts (length chain.now) (length (inverse_pairs chain.now)) list.now }
    requires covers { Covers chain.now list.now }
    ensures size { IfOk result (AreTablesOf (positions chain.now)) }
    ensures vouch { IfOk result (Vouch chain.now list.now) }
    ensures least { IfOk result (AreDistances chain.now list.now) }
{
    let positions = chain.positions();
    let prices = list_steps(alloc, chain, pairs, list)?;
    let distances = least_totals(alloc, chain, list, &prices)?;
    let tables = all_tables(alloc, &distances, positions as u32)?;
    Ok(tables)
}
