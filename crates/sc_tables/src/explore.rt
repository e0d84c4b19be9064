//! A search from one start: round after round, until a round changes nothing.

ghost use Rattle.std.specs.Prelude.{◌≡◌, ◌<◌, ◌≤◌, ℕ, length, get_or, None, IfOk, IfErr, OnOk, IfSome, IfNone};
ghost use Rattle.sc_theory.specs.Chains.{positions};
ghost use Rattle.sc_chain.specs.declared.limits.TheConstants.{MAX_POSITIONS};
ghost use Rattle.sc_tables.specs.StepPrices.{AreForChain};
ghost use Rattle.sc_tables.specs.inside.Searches.{AreWalks, IsStop, Closes, Grows, IsGrowing, AreEnds};
ghost use Rattle.sc_tables.specs.Searches.{IsNext};
ghost use Rattle.sc_tables.specs.inside.States.{IsFirstTable, IsBegun, IsDone, StopsWithin};

use crate::prices::StepPrices;
use crate::search::{Node, Round, Stop, closing, next_table};
use sc_chain::Chain;
use sc_weight::Weight;
use std::alloc::{AllocError, Global};
use std::mem;

/// The walks of a search, and for each position the number of the cheapest one to it, if there is one. The last list is
/// room for the entries after the next round.
#[derive(Debug, Drop)]
pub(crate) struct Trails<W> {
    pub(crate) nodes: Vec<Node<W>>,
    pub(crate) table: Vec<Option<usize>>,
    next: Vec<Option<usize>>,
}

impl<W: Weight> Trails<W> {
    /// Room for the searches over so many positions.
    pub(crate) fn new(alloc: Global, positions: usize) -> Result<Trails<W>, AllocError>
        requires { positions ≤ MAX_POSITIONS }
    {
        Ok(Trails {
            nodes: Vec::with_capacity(alloc, positions * positions)?,
            table: Vec::with_capacity(alloc, positions)?,
            next: Vec::with_capacity(alloc, positions)?,
        })
    }
}

/// The entries before the first round: only the start has one, its walk without steps.
fn first_table(
    table: &mut Vec<Option<usize>>,
    start: usize,
    positions: usize,
) -> Result<(), AllocError>
    ensures { OnOk result (IsFirstTable start positions table.new.items) }
{
    table.clear();
    for place in 0..positions {
        table.push(if place == start { Some(0) } else { None })?;
    }
    Ok(())
}

/// Leaves the walk without steps alone.
pub(crate) fn begin<W: Weight>(
    trails: &mut Trails<W>,
    start: usize,
    positions: usize,
) -> Result<(), AllocError>
    requires { start < positions }
    ensures { OnOk result (IsBegun W.levels positions start trails.new.nodes.items trails.new.table.items) }
{
    first_table(&mut trails.table, start, positions)?;
    trails.nodes.clear();
    trails.nodes.push(Node {
        place: start,
        before: 0,
        steps: 0,
        total: W::zero(),
    })?;
    Ok(())
}

/// One round: the entries are replaced by those with a step more.
fn advance<W: Weight>(
    trails: &mut Trails<W>,
    prices: &StepPrices<W>,
    round: Round,
) -> Result<(), Stop>
    requires end { round.end ≡ length trails.old.nodes.items }
    requires growing { IsGrowing W.levels prices.now round.start round.steps round.end trails.old.nodes.items }
    requires len { length trails.old.table.items ≡ prices.now.side }
    requires entries { AreEnds trails.old.nodes.items trails.old.table.items }
    ensures growing { IsGrowing W.levels prices.now round.start round.steps round.end trails.new.nodes.items }
    ensures grows { Grows trails.old.nodes.items trails.new.nodes.items }
    ensures len { OnOk result (length trails.new.table.items ≡ prices.now.side) }
    ensures next { OnOk result ((j : ℕ) → j < prices.now.side → IsNext W.levels prices.now trails.new.nodes.items round.fresh round.end round.start j (get_or trails.old.table.items j None) (get_or trails.new.table.items j None)) }
    ensures stops { IfErr result (λ stop. (j : ℕ) × (j < prices.now.side) × IsStop W.levels prices.now trails.new.nodes.items round.end j stop) }
{
    next_table(
        &mut trails.nodes,
        trails.table.as_slice(),
        &mut trails.next,
        prices,
        round,
    )?;
    mem::swap(&mut trails.table, &mut trails.next);
    Ok(())
}

/// Searches from a start, over walks that don't come back to it. It answers the number of a walk that a step takes back
/// to the start for less than the threshold, or none where the entries are those of the cheapest walks.
pub(crate) fn explore<W: Weight>(
    trails: &mut Trails<W>,
    chain: &Chain,
    prices: &StepPrices<W>,
    threshold: &W,
    start: usize,
) -> Result<Option<usize>, Stop>
    requires prices { AreForChain chain.now prices.now }
    requires start { start < positions chain.now }
    requires begun { IsBegun W.levels prices.now.side start trails.old.nodes.items trails.old.table.items }
    ensures walks { AreWalks W.levels prices.now start (positions chain.now) trails.new.nodes.items }
    ensures closes { IfOk result (λ o. IfSome o (Closes W.levels prices.now trails.new.nodes.items (W.levels threshold.now) start)) }
    ensures done { IfOk result (λ o. IfNone o (IsDone W.levels chain.now prices.now (W.levels threshold.now) start trails.new.nodes.items trails.new.table.items)) }
    ensures stops { IfErr result (StopsWithin W.levels prices.now trails.new.nodes.items (positions chain.now)) }
{
    let mut fresh = 0;
    for done in 0..chain.positions() {
        let closed = closing(trails.nodes.as_slice(), prices, threshold, fresh, start)?;
        if closed.is_some() {
            return Ok(closed);
        }
        let end = trails.nodes.len();
        let round = Round {
            start,
            steps: done + 1,
            fresh,
            end,
        };
        advance(trails, prices, round)?;
        if trails.nodes.len() == end {
            return Ok(None);
        }
        fresh = end;
    }
    Ok(None)
}
