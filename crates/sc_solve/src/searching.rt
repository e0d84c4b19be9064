//! The oracle over the polygons of a chain.

ghost use Rattle.std.specs.Prelude.{◌≡◌, IfOk, IfErr, IfSome};
ghost use Rattle.std.specs.List.{AllByRecursion};
ghost use Rattle.sc_theory.specs.Chains.{IsChain};
ghost use Rattle.sc_theory.specs.Walks.{IsPolygon};
ghost use Rattle.sc_theory.specs.Prices.{pairs as pairs_of};
ghost use Rattle.sc_theory.specs.Columns.{rows};
ghost use Rattle.sc_weight.specs.Levels.{zero_levels};
ghost use Rattle.sc_rows.specs.Standing.{ArePrices};
ghost use Rattle.sc_rows.specs.Places.{IsWideBy};
ghost use Rattle.sc_simplex.specs.Oracles.{MatchAnswer, ImprovesAt, NoneImproves, IsShown};
ghost use Rattle.sc_tables.specs.CheapPolygons.{IsTableFault};
ghost use Rattle.sc_tables.specs.StepPrices.{AreForChain, price_in};
ghost use Rattle.sc_tables.specs.Tables.{IsPolygonBelow, AllAtLeast};
ghost use Rattle.sc_tables.specs.Totals.{IsBelow};
ghost use Rattle.sc_solve.specs.inside.PriceLevels.{levels_of};
ghost use Rattle.sc_solve.specs.PriceLevels.{price_levels, threshold_of};
ghost use Rattle.sc_solve.specs.PolygonColumns.{IsPolygonColumn};
ghost use Rattle.sc_solve.specs.Searches.{IsWideSearch};
ghost use Rattle.sc_solve.specs.inside.Searches.{MatchCheap, refusal_of_table};

use crate::columns::column_of;
use crate::levels::step_prices;
use sc_candidates::Candidates;
use sc_chain::{Chain, Pairs, Polygon};
use sc_rows::{Place, PriceRows, RowFault, WideAt};
use sc_simplex::{Answer, Oracle, OracleFault};
use sc_tables::{Found, StepPrices, TableFault, cheap_polygon, cheap_polygon_down, first_cheap};
use sc_weight::Pair;
use std::alloc::{AllocError, Global};
use std::marker::Model;

/// What finds the polygons of a chain that improve a basis. It holds candidates, of which it tries one before it
/// searches.
#[derive(Drop)]
pub struct PolygonOracle {
    chain: Chain,
    pairs: Pairs,
    candidates: Candidates,
}

impl Model for PolygonOracle {
    ghost use Rattle.std.specs.Prelude.{ℕ, List};
    ghost use Rattle.sc_theory.specs.declared.Letter.{Letter};

    ghost Value = { List (ℕ × List Letter) };

    ghost use Rattle.sc_solve.specs.Oracles.{IsPolygonOracle};

    ghost view = { λ o. o.chain };

    ghost invariant = { IsPolygonOracle };
}

/// The candidate that is to be tried at these prices, or none.
fn candidate_at(
    alloc: Global,
    chain: &Chain,
    candidates: &mut Candidates,
    prices: &PriceRows,
) -> Result<Vec<Polygon>, AllocError>
    ensures { IfOk result (λ tried. AllByRecursion (IsPolygon chain.now) tried.items) }
{
    // A list of one polygon or none, since the searches go through a list.
    let mut tried = Vec::new(alloc);
    if let Some(polygon) = candidates.improving(alloc, chain, prices)? {
        tried.push(polygon)?;
    }
    Ok(tried)
}

/// The candidate that is to be tried at these prices, or none, also where there is no memory for it.
fn tried_at(
    alloc: Global,
    chain: &Chain,
    candidates: &mut Candidates,
    prices: &PriceRows,
) -> Vec<Polygon>
    ensures { AllByRecursion (IsPolygon chain.now) result.items }
{
    match candidate_at(alloc, chain, candidates, prices) {
        Ok(tried) => tried,
        Err(_) => Vec::new(alloc),
    }
}

/// The first of the known polygons that is below the threshold.
fn known_polygon(
    alloc: Global,
    chain: &Chain,
    steps: &StepPrices<Pair>,
    threshold: &Pair,
    tried: &[Polygon],
) -> Result<Option<Polygon>, TableFault>
    requires prices { AreForChain chain.now steps.now }
    requires tried { AllByRecursion (IsPolygon chain.now) tried.now }
    ensures polygon { IfOk result (λ o. IfSome o (IsPolygonBelow chain.now (price_in levels_of steps.now) (levels_of threshold.now))) }
    ensures faults { IfErr result (IsTableFault chain.now (price_in levels_of steps.now)) }
{
    match first_cheap(alloc, chain, steps, threshold, tried)? {
        Some(place) => Ok(Some(tried[place].copy(alloc)?)),
        None => Ok(None),
    }
}

/// A polygon below the threshold by the searches from the greatest start down. That a total is too wide is no answer
/// here.
fn polygon_from_above(
    alloc: Global,
    chain: &Chain,
    steps: &StepPrices<Pair>,
    threshold: &Pair,
) -> Result<Option<Polygon>, TableFault>
    requires prices { AreForChain chain.now steps.now }
    requires threshold { IsBelow zero_levels (levels_of threshold.now) }
    ensures polygon { IfOk result (λ o. IfSome o (IsPolygonBelow chain.now (price_in levels_of steps.now) (levels_of threshold.now))) }
    ensures faults { IfErr result (IsTableFault chain.now (price_in levels_of steps.now)) }
{
    match cheap_polygon_down(alloc, chain, steps, threshold) {
        Ok(found) => Ok(found),
        Err(TableFault::Wide { .. }) => Ok(None),
        Err(TableFault::Memory) => Err(TableFault::Memory),
    }
}

/// A polygon below the threshold; none only where every closed walk is at least that.
fn last_polygon(
    alloc: Global,
    chain: &Chain,
    steps: &StepPrices<Pair>,
    threshold: &Pair,
) -> Result<Option<Polygon>, TableFault>
    requires prices { AreForChain chain.now steps.now }
    requires threshold { IsBelow zero_levels (levels_of threshold.now) }
    ensures found { IfOk result (MatchCheap chain.now (price_in levels_of steps.now) (levels_of threshold.now)) }
    ensures faults { IfErr result (IsTableFault chain.now (price_in levels_of steps.now)) }
{
    match cheap_polygon(alloc, chain, steps, threshold)? {
        Found::Polygon(polygon) => Ok(Some(polygon)),
        Found::Tables(_) => Ok(None),
    }
}

/// A polygon below the threshold: a known one, else one by a search. There is none only where every closed walk is at
/// least that.
fn cheap(
    alloc: Global,
    chain: &Chain,
    steps: &StepPrices<Pair>,
    threshold: &Pair,
    tried: &[Polygon],
) -> Result<Option<Polygon>, TableFault>
    requires prices { AreForChain chain.now steps.now }
    requires threshold { IsBelow zero_levels (levels_of threshold.now) }
    requires tried { AllByRecursion (IsPolygon chain.now) tried.now }
    ensures found { IfOk result (MatchCheap chain.now (price_in levels_of steps.now) (levels_of threshold.now)) }
    ensures faults { IfErr result (IsTableFault chain.now (price_in levels_of steps.now)) }
{
    if let Some(known) = known_polygon(alloc, chain, steps, threshold, tried)? {
        return Ok(Some(known));
    }
    if let Some(found) = polygon_from_above(alloc, chain, steps, threshold)? {
        return Ok(Some(found));
    }
    last_polygon(alloc, chain, steps, threshold)
}

/// The refusal of a walk's total.
fn walk_refusal(fault: TableFault) -> RowFault
    ensures { result ≡ refusal_of_table fault }
{
    match fault {
        TableFault::Wide { walk, level, wide } => RowFault::Wide(WideAt {
            place: Place::WalkSum { level },
            first: 0,
            second: 0,
            wide,
            walk: Some(walk),
            entering: None,
            leaving: None,
        }),
        TableFault::Memory => RowFault::Memory,
    }
}

/// A polygon whose price is below the threshold of these prices; none only where every closed walk is at least that.
fn cheap_at(
    alloc: Global,
    chain: &Chain,
    pairs: &Pairs,
    tried: &[Polygon],
    prices: &PriceRows,
) -> Result<Option<Polygon>, RowFault>
    requires pairs { pairs.now ≡ pairs_of chain.now }
    requires tried { AllByRecursion (IsPolygon chain.now) tried.now }
    requires prices { ArePrices (rows chain.now) prices.now }
    ensures found { IfOk result (MatchCheap chain.now (price_levels chain.now prices.now) (threshold_of prices.now)) }
    ensures chain { IsChain chain.now }
    ensures faults { IfErr result (IsWideBy (IsWideSearch chain.now prices.now)) }
{
    let steps = step_prices(alloc, chain, pairs, prices)?;
    let threshold = Pair {
        bulk: 0,
        fine: prices.fine.scale,
    };
    match cheap(alloc, chain, &steps, &threshold, tried) {
        Ok(found) => Ok(found),
        Err(fault) => Err(walk_refusal(fault)),
    }
}

/// The column of a polygon that improves a basis with these prices; none only where no polygon does, and every closed
/// walk is at least the threshold.
fn improving_column(
    alloc: Global,
    chain: &Chain,
    pairs: &Pairs,
    tried: &[Polygon],
    prices: &PriceRows,
) -> Result<Answer, RowFault>
    requires pairs { pairs.now ≡ pairs_of chain.now }
    requires tried { AllByRecursion (IsPolygon chain.now) tried.now }
    requires prices { ArePrices (rows chain.now) prices.now }
    ensures answer { IfOk result (λ answer. MatchAnswer answer (λ key c. IsPolygonColumn chain.now key c × ImprovesAt (rows chain.now) prices.now c) (NoneImproves (IsPolygonColumn chain.now) (rows chain.now) prices.now)) }
    ensures closed { IfOk result (λ answer. MatchAnswer answer (λ key c. Unit {0}) (AllAtLeast chain.now (price_levels chain.now prices.now) (threshold_of prices.now))) }
    ensures faults { IfErr result (IsWideBy (IsWideSearch chain.now prices.now)) }
{
    let found = cheap_at(alloc, chain, pairs, tried, prices)?;
    match found {
        Some(polygon) => {
            let column = column_of(alloc, chain, pairs, &polygon)?;
            Ok(Answer::Improving(column))
        }
        None => Ok(Answer::Optimal),
    }
}

/// The answer of the oracle.
fn answer_at(
    alloc: Global,
    chain: &Chain,
    pairs: &Pairs,
    tried: &[Polygon],
    prices: &PriceRows,
) -> Result<Answer, OracleFault>
    requires pairs { pairs.now ≡ pairs_of chain.now }
    requires tried { AllByRecursion (IsPolygon chain.now) tried.now }
    requires prices { ArePrices (rows chain.now) prices.now }
    ensures answer { IfOk result (λ answer. MatchAnswer answer (λ key c. IsPolygonColumn chain.now key c × ImprovesAt (rows chain.now) prices.now c) (NoneImproves (IsPolygonColumn chain.now) (rows chain.now) prices.now)) }
    ensures closed { IfOk result (λ answer. MatchAnswer answer (λ key c. Unit {0}) (AllAtLeast chain.now (price_levels chain.now prices.now) (threshold_of prices.now))) }
    ensures refusal { IfErr result (IsShown (IsWideSearch chain.now prices.now)) }
{
    match improving_column(alloc, chain, pairs, tried, prices) {
        Ok(answer) => Ok(answer),
        Err(RowFault::Wide(at)) => Err(OracleFault::Wide(at)),
        Err(RowFault::Memory) => Err(OracleFault::Memory),
    }
}

impl PolygonOracle {
    /// The oracle over the polygons of a chain with its inverse pairs; the candidates are tried first.
    pub fn new(chain: Chain, pairs: Pairs, candidates: Candidates) -> PolygonOracle
        requires { pairs ≡ pairs_of chain }
        ensures { result ≡ chain }
    {
        PolygonOracle {
            chain,
            pairs,
            candidates,
        }
    }

    /// The chain.
    pub fn chain(&self) -> &Chain
        ensures { result.now ≡ self.now }
    {
        &self.chain
    }

    /// Its inverse pairs.
    pub fn pairs(&self) -> &Pairs
        ensures { result.now ≡ pairs_of self.now }
    {
        &self.pairs
    }
}

impl Oracle for PolygonOracle {
    ghost use Rattle.sc_theory.specs.Columns.{rows, length_row};
    ghost use Rattle.sc_solve.specs.PolygonColumns.{IsPolygonColumn};
    ghost use Rattle.sc_solve.specs.Searches.{IsWideSearch};
    ghost use Rattle.sc_solve.specs.OracleLaws.{columns_ascend, one_column, columns_are_long};

    ghost size = { λ o. rows o };

    ghost is_column = { λ o key c. IsPolygonColumn o key c };

    ghost length_row = { λ o k. length_row o k };

    ghost shows = { λ o p w. IsWideSearch o p w };

    fn improving(&mut self, alloc: Global, prices: &PriceRows) -> Result<Answer, OracleFault> {
        let tried = tried_at(alloc, &self.chain, &mut self.candidates, prices);
        answer_at(alloc, &self.chain, &self.pairs, tried.as_slice(), prices)
    }

    ghost ascending = { λ o key c is. columns_ascend o key c is };

    ghost one = { λ o key c d is also. one_column o key c d is also };

    ghost long = { λ o key c is. columns_are_long o key c is };
}
