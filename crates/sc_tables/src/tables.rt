//! Distance tables, and polygons of a total below a threshold.

ghost use Rattle.std.specs.Prelude.{◌≡◌, ◌<◌, ◌≤◌, ◌+◌, ℕ, [], length, get_or, IfOk, IfErr, IfSome, IfNone};
ghost use Rattle.std.specs.List.{AllByRecursion};
ghost use Rattle.sc_theory.specs.Chains.{positions};
ghost use Rattle.sc_theory.specs.Walks.{IsPolygon};
ghost use Rattle.sc_weight.specs.Levels.{zero_levels};
ghost use Rattle.sc_tables.specs.Totals.{closed_total, IsBelow, IsAtMost};
ghost use Rattle.sc_tables.specs.Tables.{IsPolygonBelow};
ghost use Rattle.sc_tables.specs.StepPrices.{AreForChain, price_in};
ghost use Rattle.sc_tables.specs.inside.Searches.{AreWalks};
ghost use Rattle.sc_tables.specs.inside.States.{IsDone};
ghost use Rattle.sc_tables.specs.inside.Trails.{AreLinked};
ghost use Rattle.sc_tables.specs.CheapPolygons.{IsTableFault, round, PolygonIsBelow, TablesOnlyWhere, TablesFit, TablesVouch, TablesAreLeast};
ghost use Rattle.sc_tables.specs.inside.CheapPolygons.{IsClosedBelow, NamesNode, ShowsStop, total_after};

use crate::explore::{Trails, begin, explore};
use crate::prices::StepPrices;
use crate::search::{Node, Stop, is_below};
use crate::splitting::polygons_of;
use crate::trails::{append_totals, read_back};
use sc_chain::{Chain, Polygon};
use sc_weight::{Level, Weight};
use sc_whole::Wide;
use std::alloc::{AllocError, AllocFailed, Global};
use std::marker::Model;

/// Why there are neither a polygon nor tables.
#[derive(Debug, Drop)]
pub enum TableFault {
    /// The total of this walk is too wide at this level. The operands are the total without the walk's last step, and
    /// the price of that step.
    Wide {
        walk: Vec<u32>,
        level: Level,
        wide: Wide,
    },
    /// There was no memory.
    Memory,
}

impl From<AllocError> for TableFault {
    ghost use Rattle.sc_tables.specs.declared.tables.TableFault.TheVariants as faults;
    ghost use Rattle.std.specs.Prelude.{◌≡◌};

    ghost from_gives = { λ _ fault. fault ≡ faults.Memory };

    fn from(_: AllocError) -> TableFault {
        TableFault::Memory
    }
}

impl<T: Drop> From<AllocFailed<T>> for TableFault {
    ghost use Rattle.sc_tables.specs.declared.tables.TableFault.TheVariants as faults;
    ghost use Rattle.std.specs.Prelude.{◌≡◌};

    ghost from_gives = { λ _ fault. fault ≡ faults.Memory };

    fn from(_: AllocFailed<T>) -> TableFault {
        TableFault::Memory
    }
}

/// The least total of a walk from each position to each that doesn't come back to its start, where there is such a
/// walk.
#[derive(Debug, Drop)]
pub struct Distances<W> {
    side: usize,
    cells: Vec<Option<W>>,
}

impl<W> Model for Distances<W> {
    ghost use Rattle.std.specs.Prelude.{◌≡◌, ◌≤◌, ◌*◌, length};
    ghost use Rattle.sc_tables.specs.Squares.{Square, square_code};
    ghost use Rattle.sc_chain.specs.declared.limits.TheConstants.{MAX_POSITIONS};

    ghost Value = { Square W };

    ghost coded = { square_code W.code };

    ghost view = { λ d. record { side = d.side; cells = d.cells.items } };

    ghost invariant = { λ d. (d.side ≤ MAX_POSITIONS) × (length d.cells.items ≡ d.side * d.side) };
}

impl<W: Weight> Distances<W> {
    ghost use Rattle.sc_tables.specs.Squares.{cell};

    /// The least total of a walk from the start to the place that doesn't come back to the start, and none where there
    /// is no such walk.
    pub fn at(&self, start: u32, place: u32) -> Option<W>
        requires start { start < self.now.side }
        requires place { place < self.now.side }
        ensures { result ≡ cell self.now start place }
    {
        self.cells[start as usize * self.side + place as usize]
    }
}

/// A polygon that is cheap, or the tables which show that there is none.
#[derive(Debug, Drop)]
pub enum Found<W> {
    /// A polygon whose total is below the threshold.
    Polygon(Polygon),
    /// The tables of the least totals.
    Tables(Distances<W>),
}

/// The fault of a search that stops. Where a total is too wide, it shows the walk of the node with the step.
fn stop_fault<W: Weight>(
    alloc: Global,
    nodes: &[Node<W>],
    stop: Stop,
) -> Result<TableFault, AllocError>
    requires linked { AreLinked nodes.now }
    requires stop { NamesNode nodes.now stop }
    ensures { IfOk result (ShowsStop W.levels nodes.now stop) }
{
    let Stop::Wide { node, to, wide } = stop else {
        return Ok(TableFault::Memory);
    };
    let mut walk = read_back(alloc, nodes, node)?;
    walk.push(to as u32)?;
    Ok(TableFault::Wide {
        walk,
        level: wide.level,
        wide: wide.wide,
    })
}

/// A closed walk from the start and back to it whose total is below the threshold, if one is found. Else the table of
/// the search is that of the cheapest walks.
pub(crate) fn closed_walk<W: Weight>(
    alloc: Global,
    chain: &Chain,
    prices: &StepPrices<W>,
    threshold: &W,
    start: usize,
    trails: &mut Trails<W>,
) -> Result<Option<Vec<u32>>, TableFault>
    requires prices { AreForChain chain.now prices.now }
    requires start { start < positions chain.now }
    ensures closed { IfOk result (λ o. IfSome o (λ walk. IsClosedBelow chain.now (price_in W.levels prices.now) (W.levels threshold.now) walk.items)) }
    ensures walks { IfOk result (λ o. AreWalks W.levels prices.now start (positions chain.now) trails.new.nodes.items) }
    ensures done { IfOk result (λ o. IfNone o (IsDone W.levels chain.now prices.now (W.levels threshold.now) start trails.new.nodes.items trails.new.table.items)) }
    ensures faults { IfErr result (IsTableFault chain.now (price_in W.levels prices.now)) }
{
    begin(trails, start, chain.positions())?;
    let found = match explore(trails, chain, prices, threshold, start) {
        Ok(found) => found,
        Err(stop) => return Err(stop_fault(alloc, trails.nodes.as_slice(), stop)?),
    };
    match found {
        Some(node) => Ok(Some(read_back(alloc, trails.nodes.as_slice(), node)?)),
        None => Ok(None),
    }
}

/// Where the step number `place` of a closed walk leads.
fn next_on(walk: &[u32], place: usize) -> u32
    requires { place < length walk.now }
    ensures { result ≡ get_or (round walk.now) place 0 }
{
    if place + 1 < walk.len() {
        walk[place + 1]
    } else {
        walk[0]
    }
}

/// The total of the first steps of a polygon and one more.
fn add_step<W: Weight>(
    alloc: Global,
    chain: &Chain,
    prices: &StepPrices<W>,
    walk: &[u32],
    place: usize,
    total: &W,
) -> Result<W, TableFault>
    requires prices { AreForChain chain.now prices.now }
    requires polygon { IsPolygon chain.now walk.now }
    requires place { place < length walk.now }
    requires total { W.levels total.now ≡ total_after (price_in W.levels prices.now) walk.now place }
    ensures total { IfOk result (λ w. W.levels w ≡ total_after (price_in W.levels prices.now) walk.now (place + 1)) }
    ensures faults { IfErr result (IsTableFault chain.now (price_in W.levels prices.now)) }
{
    let to = next_on(walk, place);
    match total.plus(&prices.price(walk[place], to)) {
        Ok(sum) => Ok(sum),
        Err(fault) => {
            let mut steps = Vec::from_slice(alloc, &walk[..place + 1])?;
            steps.push(to)?;
            Err(TableFault::Wide {
                walk: steps,
                level: fault.level,
                wide: fault.wide,
            })
        }
    }
}

/// The total of a polygon.
pub(crate) fn polygon_total<W: Weight>(
    alloc: Global,
    chain: &Chain,
    prices: &StepPrices<W>,
    walk: &[u32],
) -> Result<W, TableFault>
    requires prices { AreForChain chain.now prices.now }
    requires polygon { IsPolygon chain.now walk.now }
    ensures total { IfOk result (λ w. W.levels w ≡ closed_total (price_in W.levels prices.now) walk.now) }
    ensures faults { IfErr result (IsTableFault chain.now (price_in W.levels prices.now)) }
{
    let mut total = W::zero();
    for place in 0..walk.len() {
        total = add_step(alloc, chain, prices, walk, place, &total)?;
    }
    Ok(total)
}

/// The first of these polygons that is below the threshold.
fn first_below<W: Weight>(
    alloc: Global,
    chain: &Chain,
    prices: &StepPrices<W>,
    threshold: &W,
    polygons: &[Polygon],
) -> Result<Polygon, TableFault>
    requires prices { AreForChain chain.now prices.now }
    requires polygons { AllByRecursion (IsPolygon chain.now) polygons.now }
    requires below { ¬ ((k : ℕ) → k < length polygons.now → IsAtMost (W.levels threshold.now) (closed_total (price_in W.levels prices.now) (get_or polygons.now k []))) }
    ensures polygon { IfOk result (IsPolygonBelow chain.now (price_in W.levels prices.now) (W.levels threshold.now)) }
    ensures faults { IfErr result (IsTableFault chain.now (price_in W.levels prices.now)) }
{
    for polygon in polygons {
        let total = polygon_total(alloc, chain, prices, polygon.walk())?;
        if is_below(&total, threshold) {
            return Ok(polygon.copy(alloc)?);
        }
    }
    unreachable!()
}

/// A polygon below the threshold among those of a closed walk below it.
pub(crate) fn cheap_of<W: Weight>(
    alloc: Global,
    chain: &Chain,
    prices: &StepPrices<W>,
    threshold: &W,
    walk: &[u32],
) -> Result<Polygon, TableFault>
    requires prices { AreForChain chain.now prices.now }
    requires above { IsBelow zero_levels (W.levels threshold.now) }
    requires walk { IsClosedBelow chain.now (price_in W.levels prices.now) (W.levels threshold.now) walk.now }
    ensures polygon { IfOk result (IsPolygonBelow chain.now (price_in W.levels prices.now) (W.levels threshold.now)) }
    ensures faults { IfErr result (IsTableFault chain.now (price_in W.levels prices.now)) }
{
    let polygons = polygons_of(alloc, chain, walk)?;
    match polygons.as_slice() {
        [only] => Ok(only.copy(alloc)?),
        several => first_below(alloc, chain, prices, threshold, several),
    }
}

/// A polygon whose total is below the threshold, or the tables of the least totals, which vouch that every closed walk
/// has a total of at least the threshold.
pub fn cheap_polygon<W: Weight>(
    alloc: Global,
    chain: &Chain,
    prices: &StepPrices<W>,
    threshold: &W,
) -> Result<Found<W>, TableFault>
    requires prices { AreForChain chain.now prices.now }
    requires threshold { IsBelow zero_levels (W.levels threshold.now) }
    ensures polygon { IfOk result (PolygonIsBelow chain.now (price_in W.levels prices.now) (W.levels threshold.now)) }
    ensures tables { IfOk result (TablesOnlyWhere chain.now (price_in W.levels prices.now) (W.levels threshold.now)) }
    ensures side { IfOk result (TablesFit chain.now) }
    ensures vouch { IfOk result (TablesVouch W.levels chain.now (price_in W.levels prices.now) (W.levels threshold.now)) }
    ensures least { IfOk result (TablesAreLeast W.levels chain.now (price_in W.levels prices.now)) }
    ensures faults { IfErr result (IsTableFault chain.now (price_in W.levels prices.now)) }
{
    let side = chain.positions();
    let mut trails = Trails::new(alloc, side)?;
    let mut cells = Vec::with_capacity(alloc, side * side)?;
    for start in 0..side {
        let walk = closed_walk(alloc, chain, prices, threshold, start, &mut trails)?;
        if let Some(walk) = walk {
            let polygon = cheap_of(alloc, chain, prices, threshold, walk.as_slice())?;
            return Ok(Found::Polygon(polygon));
        }
        append_totals(&mut cells, trails.nodes.as_slice(), trails.table.as_slice())?;
    }
    Ok(Found::Tables(Distances { side, cells }))
}
