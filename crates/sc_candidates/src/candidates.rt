//! The candidates of advice, from stage to stage.

ghost use Rattle.std.specs.Prelude.{IfOk, IfSome};
ghost use Rattle.sc_theory.specs.Walks.{IsPolygon};

use crate::prices::Steps;
use crate::search::{Range, arcs_of, bulk_factor, closed_walks};
use crate::stages::{Candidate, Order, cheapest, ranked};
use sc_advice::{Mode, advise};
use sc_chain::{Chain, Polygon};
use sc_rows::PriceRows;
use sc_weight::Pair;
use std::alloc::{AllocError, Global};

/// Polygons of a chain that are worth trying first, in stages: those of a good surface, those of a good basis, those
/// near to it, and all that the search for these knew.
#[derive(Drop)]
pub struct Candidates {
    steps: Steps,
    order: Order,
    stages: Vec<Vec<Candidate>>,
    /// The stage that is tried: of the earlier ones none improved once, and they aren't tried again.
    current: usize,
}

/// How far the searches go, one after the other.
fn ranges(alloc: Global, order: Order, positions: usize) -> Result<Vec<Range>, AllocError> {
    let mut ranges = Vec::new(alloc);
    if order == Order::Reach {
        for reach in [2, 4, 8, 16, 32] {
            for length in [4, 8, positions] {
                ranges.push(Range { reach, length })?;
            }
        }
    }
    for length in [4, 8, 16, positions] {
        ranges.push(Range {
            reach: positions,
            length,
        })?;
    }
    Ok(ranges)
}

impl Candidates {
    /// No candidates.
    pub fn none(alloc: Global) -> Candidates {
        Candidates {
            steps: Steps::none(alloc),
            order: Order::Price,
            stages: Vec::new(alloc),
            current: 0,
        }
    }

    /// The candidates that advice of this mode gives.
    pub fn of(alloc: Global, chain: &Chain, mode: Mode) -> Result<Candidates, AllocError> {
        let advice = advise(alloc, chain, mode)?;
        let steps = Steps::of(alloc, chain)?;
        let order = Order::of(mode);
        let mut stages = Vec::with_capacity(alloc, 4)?;
        for (order, list) in [
            (Order::Price, &advice.surface),
            (Order::Price, &advice.basis),
            (order, &advice.tight),
            (order, &advice.pool),
        ] {
            stages.push(ranked(alloc, &steps, order, list.as_slice())?)?;
        }
        Ok(Candidates {
            steps,
            order,
            stages,
            current: 0,
        })
    }

    /// The walk of the known candidate that is tried at these prices. A stage in which none improves is left for good.
    fn known_walk(
        &mut self,
        priced: &[Pair],
        threshold: Pair,
    ) -> Result<Option<Vec<u32>>, AllocError> {
        for list in self.stages.iter().skip(self.current) {
            let list = list.as_slice();
            if let Some(candidate) = cheapest(list, priced, threshold).and_then(|place| list.get(
                place,
            )) {
                return Ok(Some(candidate.walk.clone()?));
            }
            self.current = self.current.saturating_add(1);
        }
        Ok(None)
    }

    /// Adds the polygon of a walk to the candidates of the last stage.
    fn add(&mut self, alloc: Global, chain: &Chain, walk: Vec<u32>) -> Result<(), AllocError> {
        if let Some(polygon) = Polygon::of(chain, walk)
            && let Some(candidate) = Candidate::of(alloc, &self.steps, self.order, polygon.walk())?
            && let Some(last) = self.stages.last_mut()
        {
            last.push(candidate)?;
        }
        Ok(())
    }

    /// Adds the polygons that a search of this range finds. Answers whether there were some.
    fn search_within(
        &mut self,
        alloc: Global,
        chain: &Chain,
        priced: &[Pair],
        threshold: Pair,
        range: Range,
    ) -> Result<bool, AllocError> {
        let factor = bulk_factor(priced, self.steps.positions);
        let into = arcs_of(alloc, &self.steps, priced, factor, range.reach)?;
        let mut found = false;
        for start in 0..into.len() {
            for walk in closed_walks(alloc, into.as_slice(), start, range.length, threshold.fine)? {
                self.add(alloc, chain, walk)?;
                found = true;
            }
        }
        Ok(found)
    }

    /// Searches for new candidates, by growing reach and length.
    fn search(
        &mut self,
        alloc: Global,
        chain: &Chain,
        priced: &[Pair],
        threshold: Pair,
    ) -> Result<(), AllocError> {
        for range in ranges(alloc, self.order, self.steps.positions)? {
            if self.search_within(alloc, chain, priced, threshold, range)? {
                break;
            }
        }
        if let Some(last) = self.stages.last_mut() {
            last.sort_by_key(|candidate: &Candidate| candidate.rank)?;
            self.current = self.stages.len().saturating_sub(1);
        }
        Ok(())
    }

    /// The walk that is tried at these prices.
    fn improving_walk(
        &mut self,
        alloc: Global,
        chain: &Chain,
        prices: &PriceRows,
    ) -> Result<Option<Vec<u32>>, AllocError> {
        let priced = self.steps.priced(alloc, prices)?;
        let priced = priced.as_slice();
        let threshold = Pair {
            bulk: 0,
            fine: prices.fine.scale,
        };
        if let Some(walk) = self.known_walk(priced, threshold)? {
            return Ok(Some(walk));
        }
        self.search(alloc, chain, priced, threshold)?;
        self.known_walk(priced, threshold)
    }

    /// A polygon of the chain that is tried at these prices, if one of the candidates seems to improve.
    pub fn improving(
        &mut self,
        alloc: Global,
        chain: &Chain,
        prices: &PriceRows,
    ) -> Result<Option<Polygon>, AllocError>
        ensures { IfOk result (λ found. IfSome found (IsPolygon chain.now)) }
    {
        match self.improving_walk(alloc, chain, prices)? {
            Some(walk) => Ok(Polygon::of(chain, walk)),
            None => Ok(None),
        }
    }
}
