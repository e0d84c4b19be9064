//! Cheap polygons without a promise that there is one: among polygons that are known, and by the searches from the
//! greatest start down.

ghost use Rattle.std.specs.Prelude.{◌≡◌, ◌<◌, ◌≤◌, [], length, get_or, IsTrue, IfOk, IfErr, IfSome};
ghost use Rattle.std.specs.List.{AllByRecursion};
ghost use Rattle.sc_theory.specs.Walks.{IsPolygon};
ghost use Rattle.sc_weight.specs.Levels.{zero_levels};
ghost use Rattle.sc_tables.specs.Totals.{IsBelow};
ghost use Rattle.sc_tables.specs.Tables.{IsPolygonBelow};
ghost use Rattle.sc_tables.specs.StepPrices.{AreForChain, price_in};
ghost use Rattle.sc_tables.specs.CheapPolygons.{IsTableFault};

use crate::explore::Trails;
use crate::prices::StepPrices;
use crate::search::is_below;
use crate::tables::{TableFault, cheap_of, closed_walk, polygon_total};
use sc_chain::{Chain, Polygon};
use sc_weight::Weight;
use std::alloc::Global;

/// Whether the total of a polygon is below the threshold. A total that is too wide isn't.
fn is_cheap<W: Weight>(
    alloc: Global,
    chain: &Chain,
    prices: &StepPrices<W>,
    threshold: &W,
    polygon: &Polygon,
) -> Result<bool, TableFault>
    requires prices { AreForChain chain.now prices.now }
    requires polygon { IsPolygon chain.now polygon.now }
    ensures below { IfOk result (λ cheap. IsTrue cheap → IsPolygonBelow chain.now (price_in W.levels prices.now) (W.levels threshold.now) polygon.now) }
    ensures memory { IfErr result (λ fault. fault ≡ TableFault.Memory) }
{
    match polygon_total(alloc, chain, prices, polygon.walk()) {
        Ok(total) => Ok(is_below(&total, threshold)),
        Err(TableFault::Wide { .. }) => Ok(false),
        Err(TableFault::Memory) => Err(TableFault::Memory),
    }
}

/// The place of the first of these polygons that is below the threshold; those with a total that is too wide are passed
/// over.
pub fn first_cheap<W: Weight>(
    alloc: Global,
    chain: &Chain,
    prices: &StepPrices<W>,
    threshold: &W,
    polygons: &[Polygon],
) -> Result<Option<usize>, TableFault>
    requires prices { AreForChain chain.now prices.now }
    requires polygons { AllByRecursion (IsPolygon chain.now) polygons.now }
    ensures place { IfOk result (λ o. IfSome o (λ k. k < length polygons.now)) }
    ensures below { IfOk result (λ o. IfSome o (λ k. IsPolygonBelow chain.now (price_in W.levels prices.now) (W.levels threshold.now) (get_or polygons.now k []))) }
    ensures memory { IfErr result (λ fault. fault ≡ TableFault.Memory) }
{
    for (place, polygon) in polygons.iter().enumerate() {
        if is_cheap(alloc, chain, prices, threshold, polygon)? {
            return Ok(Some(place));
        }
    }
    Ok(None)
}

/// A polygon below the threshold that the search from some start finds, the starts taken from the greatest down.
pub fn cheap_polygon_down<W: Weight>(
    alloc: Global,
    chain: &Chain,
    prices: &StepPrices<W>,
    threshold: &W,
) -> Result<Option<Polygon>, TableFault>
    requires prices { AreForChain chain.now prices.now }
    requires threshold { IsBelow zero_levels (W.levels threshold.now) }
    ensures polygon { IfOk result (λ o. IfSome o (IsPolygonBelow chain.now (price_in W.levels prices.now) (W.levels threshold.now))) }
    ensures faults { IfErr result (IsTableFault chain.now (price_in W.levels prices.now)) }
{
    let side = chain.positions();
    let mut trails = Trails::new(alloc, side)?;
    for start in (0..side).rev() {
        let walk = closed_walk(alloc, chain, prices, threshold, start, &mut trails)?;
        if let Some(walk) = walk {
            return Ok(Some(cheap_of(alloc, chain, prices, threshold, walk.as_slice())?));
        }
    }
    Ok(None)
}
