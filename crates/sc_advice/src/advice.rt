//! Lists of polygons that are worth trying first.

ghost use Rattle.std.specs.Prelude.{◌≤◌, length, IfOk};
ghost use Rattle.std.specs.List.{AllByRecursion};
ghost use Rattle.sc_theory.specs.Walks.{IsPolygon};
ghost use Rattle.sc_advice.specs.Advice.{IsAdviceFor};
ghost use Rattle.sc_rounded_basis.specs.declared.limits.TheConstants.{MAX_POLYGONS};

use crate::search::Search;
use crate::surface::surface_walks;
use sc_chain::{Chain, Polygon};
use sc_rounded_basis::limits::MAX_POLYGONS;
use sc_rounded_basis::{Column, Mode, ONE};
use std::alloc::{AllocError, Global};

/// By how much the polygons of the third list may be worth less than they cost, with `PRICE_BITS` bits behind the
/// point.
const TIGHT: i64 = ONE / 20;

/// Polygons of a chain that are worth trying first. What order is best is for the caller to say; in each list a polygon
/// stands once.
#[derive(Drop)]
pub struct Advice {
    /// Those round the vertices of a good surface; none where the chain isn't balanced, or too long for one.
    pub surface: Vec<Polygon>,
    /// Those of the last basis of the search.
    pub basis: Vec<Polygon>,
    /// Those of the last basis, and then those that cost little more than they are worth at its prices.
    pub tight: Vec<Polygon>,
    /// All that the search found.
    pub pool: Vec<Polygon>,
    /// What the search takes the greatest worth of a surface to be, with 32 bits behind the point: the bound of its
    /// last prices. In mode Plain that is about half the weighted length less twice the stable commutator length.
    pub estimate: i64,
}

/// Adds the polygon of a walk, if it is one and there is room.
fn add_polygon(
    alloc: Global,
    chain: &Chain,
    polygons: &mut Vec<Polygon>,
    walk: &[u32],
) -> Result<(), AllocError>
    requires polygons { AllByRecursion (IsPolygon chain.now) polygons.old.items }
    requires few { length polygons.old.items ≤ MAX_POLYGONS }
    ensures polygons { AllByRecursion (IsPolygon chain.now) polygons.new.items }
    ensures few { length polygons.new.items ≤ MAX_POLYGONS }
{
    if polygons.len() >= MAX_POLYGONS {
        return Ok(());
    }
    if let Some(polygon) = Polygon::of(chain, Vec::from_slice(alloc, walk)?) {
        polygons.push(polygon)?;
    }
    Ok(())
}

/// The polygons of these columns.
fn polygons_at(
    alloc: Global,
    chain: &Chain,
    columns: &[Column],
    places: &[usize],
) -> Result<Vec<Polygon>, AllocError>
    ensures polygons { IfOk result (λ found. AllByRecursion (IsPolygon chain.now) found.items) }
    ensures few { IfOk result (λ found. length found.items ≤ MAX_POLYGONS) }
{
    let mut polygons = Vec::new(alloc);
    for place in places {
        if let Some(column) = columns.get(*place) {
            add_polygon(alloc, chain, &mut polygons, column.walk.as_slice())?;
        }
    }
    Ok(polygons)
}

/// The places of the columns outside the basis that cost little more than they are worth, behind the items of the
/// basis.
fn tight_places(
    alloc: Global,
    columns: &[Column],
    items: &[usize],
) -> Result<Vec<usize>, AllocError> {
    let mut places = Vec::from_slice(alloc, items)?;
    for (place, column) in columns.iter().enumerate() {
        if !column.is_basic && column.excess > -TIGHT {
            places.push(place)?;
        }
    }
    Ok(places)
}

/// The numbers below a bound.
fn all_places(alloc: Global, bound: usize) -> Result<Vec<usize>, AllocError> {
    let mut places = Vec::with_capacity(alloc, bound)?;
    for place in 0..bound {
        places.push(place)?;
    }
    Ok(places)
}

/// Polygons of a chain that are worth trying first. It tries at most 200,000 exchanges of mates on one copy and on two,
/// and makes at most 24 exchanges a row of the chain, each with a search for new polygons at most, and at last at most
/// as many as there are rows, eight times. What is proved of that is that no list has more than `MAX_POLYGONS`
/// polygons. The same chain and mode have the same advice on every machine.
pub fn advise(alloc: Global, chain: &Chain, mode: Mode) -> Result<Advice, AllocError>
    ensures { IfOk result (IsAdviceFor chain.now) }
{
    let walks = surface_walks(alloc, chain)?;
    let mut search = Search::new(alloc, chain, mode, walks)?;
    let known = all_places(alloc, search.pool.columns.len())?;
    if mode != Mode::Surface {
        search.run(alloc, mode)?;
    }
    let columns = search.pool.columns.as_slice();
    let items: Vec<usize> = search.basis.items.iter().copied().flatten().collect(alloc)?;
    let tight = tight_places(alloc, columns, items.as_slice())?;
    let all = all_places(alloc, columns.len())?;
    Ok(Advice {
        surface: polygons_at(alloc, chain, columns, known.as_slice())?,
        basis: polygons_at(alloc, chain, columns, items.as_slice())?,
        tight: polygons_at(alloc, chain, columns, tight.as_slice())?,
        pool: polygons_at(alloc, chain, columns, all.as_slice())?,
        estimate: search.bound(chain),
    })
}
