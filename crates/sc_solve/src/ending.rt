//! The optimal basis of a chain with the journal that leads to it.

ghost use Rattle.std.specs.Prelude.{◌≡◌, ◌<◌, ◌^◌, length, map, IfOk, IfErr};
ghost use Rattle.std.specs.List.{range_with_len};
ghost use Rattle.sc_theory.specs.Chains.{IsBalanced};
ghost use Rattle.sc_theory.specs.Columns.{rows, right_side};
ghost use Rattle.sc_chain.specs.Faults.{IsSmallChain};
ghost use Rattle.sc_simplex.specs.Optima.{IsOptimum, IsStopped as IsSimplexStopped};
ghost use Rattle.sc_solve.specs.PolygonColumns.{IsPolygonColumn};
ghost use Rattle.sc_solve.specs.Searches.{IsWideSearch};
ghost use Rattle.sc_solve.specs.Solutions.{IsStopped};
ghost use Rattle.sc_solve.specs.inside.Endings.{IsEnding, IsEndingOf, ArePolygonKeys, HasPolygons, IsStopOf};

use crate::columns::right_side_of;
use crate::journals::{polygon_journal, polygon_of};
use crate::searching::PolygonOracle;
use crate::solution::SolveFault;
use sc_advice::Mode;
use sc_candidates::Candidates;
use sc_chain::{Chain, Pairs, Pivot};
use sc_fraction::Frac;
use sc_rows::PriceRows;
use sc_simplex::{Optimum, SimplexFault, solve};
use std::alloc::{AllocError, Global};

/// What is known of an optimal basis.
#[derive(Drop)]
pub(crate) struct Ending {
    /// The pivots that led to it.
    pub(crate) journal: Vec<Pivot>,
    /// Its prices.
    pub(crate) prices: PriceRows,
    /// The value of what stands in each row.
    pub(crate) values: Vec<Frac>,
    /// How many different polygons entered.
    pub(crate) columns: u32,
}

/// What every chain keeps.
pub(crate) fn check_chain(chain: &Chain)
    ensures { IsSmallChain chain.now }
{
    // The call is for its contract alone: by it the prover knows what the chain's invariant says.
    let _words = chain.words();
}

/// The candidates that advice of this mode gives. There are none without a mode, and where there is no memory for it.
fn candidates_of(alloc: Global, chain: &Chain, mode: Option<Mode>) -> Candidates {
    let Some(mode) = mode else {
        return Candidates::none(alloc);
    };
    match Candidates::of(alloc, chain, mode) {
        Ok(candidates) => candidates,
        Err(_) => Candidates::none(alloc),
    }
}

/// The oracle over the polygons of a chain, which tries the candidates of this mode first.
fn oracle_of(alloc: Global, chain: &Chain, mode: Option<Mode>) -> Result<PolygonOracle, AllocError>
    ensures { IfOk result (λ oracle. oracle ≡ chain.now) }
{
    let pairs = Pairs::of(alloc, chain)?;
    let own = chain.copy(alloc)?;
    let candidates = candidates_of(alloc, chain, mode);
    Ok(PolygonOracle::new(own, pairs, candidates))
}

/// The right side of a chain.
fn side_of(alloc: Global, chain: &Chain) -> Result<Vec<i128>, AllocError>
    ensures { IfOk result (λ side. side.items ≡ map (right_side chain.now) (range_with_len 0 (rows chain.now))) }
{
    let pairs = Pairs::of(alloc, chain)?;
    let side = right_side_of(alloc, chain, &pairs)?;
    Ok(side)
}

/// What the simplex answers over the polygons of a chain.
fn optimal_basis(
    alloc: Global,
    chain: &Chain,
    mode: Option<Mode>,
    budget: u32,
) -> Result<Optimum, SimplexFault>
    requires balanced { IsBalanced chain.now }
    requires budget { 0 < budget }
    ensures optimum { IfOk result (IsOptimum (IsPolygonColumn chain.now) (rows chain.now) (right_side chain.now) budget) }
    ensures stopped { IfErr result (IsSimplexStopped (IsPolygonColumn chain.now) (IsWideSearch chain.now) (rows chain.now) (right_side chain.now) budget) }
{
    check_chain(chain);
    let Ok(side) = side_of(alloc, chain) else {
        return Err(SimplexFault::Memory);
    };
    let Ok(mut oracle) = oracle_of(alloc, chain, mode) else {
        return Err(SimplexFault::Memory);
    };
    solve(alloc, &side, &mut oracle, budget)
}

/// The answer of the simplex with the polygons in place of their keys.
fn polygon_ending(alloc: Global, chain: &Chain, optimum: Optimum) -> Result<Ending, AllocError>
    requires polygons { ArePolygonKeys chain.now optimum.journal.items }
    requires few { length optimum.columns < 2 ^ 32 }
    ensures { IfOk result (IsEndingOf optimum) }
{
    let Optimum {
        basis: _,
        values,
        prices,
        columns,
        journal,
    } = optimum;
    let journal = polygon_journal(alloc, chain, journal.as_slice())?;
    Ok(Ending {
        journal,
        prices,
        values,
        columns: columns.len() as u32,
    })
}

/// The fault of the simplex with the polygons in place of their keys.
fn stop_of(alloc: Global, chain: &Chain, fault: SimplexFault) -> Result<SolveFault, AllocError>
    requires { HasPolygons chain.now fault }
    ensures { IfOk result (IsStopOf fault) }
{
    match fault {
        SimplexFault::Budget { journal, column } => {
            let journal = polygon_journal(alloc, chain, journal.as_slice())?;
            let improving = polygon_of(chain, column.key);
            Ok(SolveFault::Budget { journal, improving })
        }
        SimplexFault::Wide { journal, at } => {
            let journal = polygon_journal(alloc, chain, journal.as_slice())?;
            Ok(SolveFault::Wide { journal, at })
        }
        SimplexFault::Memory => Ok(SolveFault::Memory),
    }
}

/// An optimal basis, by at most `budget` lawful pivots of polygons, of which advice of this mode is tried first.
pub(crate) fn optimal_ending(
    alloc: Global,
    chain: &Chain,
    mode: Option<Mode>,
    budget: u32,
) -> Result<Ending, SolveFault>
    requires balanced { IsBalanced chain.now }
    requires budget { 0 < budget }
    ensures ending { IfOk result (IsEnding chain.now budget) }
    ensures stopped { IfErr result (IsStopped chain.now budget) }
{
    match optimal_basis(alloc, chain, mode, budget) {
        Ok(optimum) => {
            let found = polygon_ending(alloc, chain, optimum)?;
            Ok(found)
        }
        Err(fault) => {
            let stop = stop_of(alloc, chain, fault)?;
            Err(stop)
        }
    }
}
