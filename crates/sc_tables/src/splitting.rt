//! Closed walks, split into polygons.

ghost use Rattle.std.specs.Prelude.{◌≡◌, ◌≢◌, ◌⊎◌, ◌<◌, ◌≤◌, ℕ, List, ◌∷◌, ◌++◌, length, get_or, IfOk, IfSome, IfNone, OnOk};
ghost use Rattle.std.specs.List.{AllByRecursion};
ghost use Rattle.sc_theory.specs.Walks.{IsClosedWalk, IsPolygon, HasNoRepeat};
ghost use Rattle.sc_tables.specs.Splits.{HaveStepsOf, GoesOn};
ghost use Rattle.sc_tables.specs.inside.Splits.{IsPolygonOf, CutsOff};

use sc_chain::{Chain, Polygon};
use std::alloc::{AllocError, Global};

/// Where the least position of a walk stands.
fn least_place(walk: &[u32]) -> usize
    requires { 0 < length walk.now }
    ensures inside { result < length walk.now }
    ensures least { (k : ℕ) → k < length walk.now → get_or walk.now result 0 ≤ get_or walk.now k 0 }
{
    let mut least = 0;
    for (place, position) in walk.iter().enumerate() {
        if *position < walk[least] {
            least = place;
        }
    }
    least
}

/// The polygon of a closed walk without repeats.
fn polygon_of(alloc: Global, chain: &Chain, cycle: &[u32]) -> Result<Polygon, AllocError>
    requires closed { IsClosedWalk chain.now cycle.now }
    requires simple { HasNoRepeat cycle.now }
    ensures { IfOk result (IsPolygonOf chain.now cycle.now) }
{
    let least = least_place(cycle);
    let mut walk = Vec::with_capacity(alloc, cycle.len())?;
    walk.extend_from_slice(&cycle[least..])?;
    walk.extend_from_slice(&cycle[..least])?;
    match Polygon::of(chain, walk) {
        Some(polygon) => Ok(polygon),
        None => unreachable!(),
    }
}

/// Where a position stands on a path.
fn place_on(path: &[u32], position: u32) -> Option<usize>
    ensures found { IfSome result (λ k. (k < length path.now) × (get_or path.now k 0 ≡ position)) }
    ensures none { IfNone result (AllByRecursion (λ j. position ≢ j) path.now) }
{
    path.iter().position(|other| *other == position)
}

/// Goes on to a position: where the path has passed it, the polygon that this closes is cut off.
fn pass(
    alloc: Global,
    chain: &Chain,
    polygons: &mut Vec<Polygon>,
    path: &mut Vec<u32>,
    position: u32,
) -> Result<(), AllocError>
    requires returns { (a b : List ℕ) → path.old.items ≡ a ++ position ∷ b → IsClosedWalk chain.now (position ∷ b) }
    requires simple { HasNoRepeat path.old.items }
    ensures { OnOk result (GoesOn position path.old.items path.new.items polygons.old.items polygons.new.items ⊎ CutsOff chain.now position path.old.items path.new.items polygons.old.items polygons.new.items) }
{
    let passed = path.as_slice();
    match place_on(passed, position) {
        Some(from) => {
            polygons.push(polygon_of(alloc, chain, &passed[from..])?)?;
            path.truncate(from + 1);
        }
        None => path.push(position)?,
    }
    Ok(())
}

/// Polygons whose steps, counted with repeats, are those of the closed walk.
pub(crate) fn polygons_of(
    alloc: Global,
    chain: &Chain,
    walk: &[u32],
) -> Result<Vec<Polygon>, AllocError>
    requires { IsClosedWalk chain.now walk.now }
    ensures polygons { IfOk result (λ found. AllByRecursion (IsPolygon chain.now) found.items) }
    ensures steps { IfOk result (λ found. HaveStepsOf found.items walk.now) }
{
    let mut polygons = Vec::new(alloc);
    let mut path = Vec::with_capacity(alloc, chain.positions())?;
    for position in walk {
        pass(alloc, chain, &mut polygons, &mut path, *position)?;
    }
    polygons.push(polygon_of(alloc, chain, path.as_slice())?)?;
    Ok(polygons)
}

/// Polygons whose steps, counted with repeats, are those of the closed walk.
pub fn split(alloc: Global, chain: &Chain, walk: &Vec<u32>) -> Result<Vec<Polygon>, AllocError>
    requires { IsClosedWalk chain.now walk.now.items }
    ensures polygons { IfOk result (λ found. AllByRecursion (IsPolygon chain.now) found.items) }
    ensures steps { IfOk result (λ found. HaveStepsOf found.items walk.now.items) }
{
    polygons_of(alloc, chain, walk.as_slice())
}
