//! The parts of an optimal basis, and the surface that is glued of them.

ghost use Rattle.std.specs.Prelude.{◌≡◌, ◌<◌, ◌≤◌, ◌^◌, None, length, replicate, slice_get, Some, ◌++◌, IfOk, IfErr, OnOk};
ghost use Rattle.std.specs.List.{AllByRecursion};
ghost use Rattle.sc_theory.specs.Columns.{rows};
ghost use Rattle.sc_solve.specs.Solutions.{exchanged, last_items};
ghost use Rattle.sc_solve.specs.inside.Assembling.{part_of, valued, IsMadeOf, IsPartStop, IsTold};
ghost use Rattle.sc_solve.specs.Assembling.{IsWithin};
ghost use Rattle.sc_assembly.specs.Multiples.{AreValues, IsFaultOf};

use sc_assembly::{Part, PartsFault, glue, multiples};
use sc_chain::{Chain, Pivot, Polygon};
use sc_fatgraph::Fatgraph;
use sc_fraction::Frac;
use std::alloc::{AllocError, Global};

/// Why no surface is glued.
#[derive(Debug, Drop)]
pub(crate) enum PartStop {
    /// There are too many sides.
    Sides { part: Part, so_far: u32, next: i128 },
    /// There was no memory.
    Memory,
}

impl From<AllocError> for PartStop {
    ghost use Rattle.std.specs.Prelude.{◌≡◌};
    ghost use Rattle.sc_solve.specs.declared.assembling.PartStop.TheVariants as stops;

    ghost from_gives = { λ _ stop. stop ≡ stops.Memory };

    fn from(_: AllocError) -> Self {
        PartStop::Memory
    }
}

/// No polygons in so many rows.
fn no_polygons(alloc: Global, rows: usize) -> Result<Vec<Option<Polygon>>, AllocError>
    ensures { IfOk result (λ items. items.items ≡ replicate rows None) }
{
    let mut items = Vec::with_capacity(alloc, rows)?;
    for _row in 0..rows {
        items.push(None)?;
    }
    Ok(items)
}

/// The polygon that stands in each row after the pivots, and none where it is a unit column.
fn last_polygons(
    alloc: Global,
    rows: usize,
    journal: &[Pivot],
) -> Result<Vec<Option<Polygon>>, AllocError>
    requires { AllByRecursion (λ p. p.row < rows) journal.now }
    ensures { IfOk result (λ items. items.items ≡ exchanged (replicate rows None) journal.now) }
{
    let mut items = no_polygons(alloc, rows)?;
    for pivot in journal {
        let entering = pivot.polygon.copy(alloc)?;
        items[pivot.row as usize] = Some(entering);
    }
    Ok(items)
}

/// Puts the part of an item with its value behind the others, where the item is a polygon.
fn append_part(
    alloc: Global,
    parts: &mut Vec<Part>,
    item: &Option<Polygon>,
    value: Frac,
) -> Result<(), AllocError>
    ensures { OnOk result (parts.new.items ≡ parts.old.items ++ part_of item.now value) }
{
    match item {
        Some(polygon) => {
            let polygon = polygon.copy(alloc)?;
            parts.push(Part { polygon, value })?;
            Ok(())
        }
        None => Ok(()),
    }
}

/// The polygons with their values, row by row.
fn valued_parts(
    alloc: Global,
    items: &[Option<Polygon>],
    values: &[Frac],
) -> Result<Vec<Part>, AllocError>
    requires { length values.now ≡ length items.now }
    ensures { IfOk result (λ parts. parts.items ≡ valued items.now values.now) }
{
    let mut parts = Vec::new(alloc);
    for (row, value) in values.iter().enumerate() {
        append_part(alloc, &mut parts, &items[row], *value)?;
    }
    Ok(parts)
}

/// The parts once more.
fn copied(alloc: Global, parts: &[Part]) -> Result<Vec<Part>, AllocError>
    ensures { IfOk result (λ copies. copies.items ≡ parts.now) }
{
    let mut copies = Vec::with_capacity(alloc, parts.len())?;
    for part in parts {
        copies.push(Part {
            polygon: part.polygon.copy(alloc)?,
            value: part.value,
        })?;
    }
    Ok(copies)
}

/// The part at a place.
fn part_at(mut parts: Vec<Part>, place: usize) -> Part
    requires { place < length parts.items }
    ensures { slice_get parts.items place ≡ Some result }
{
    parts.swap_remove(place)
}

/// The surface that is glued of parts, over the least number of copies for which each of them stands a whole number
/// of times.
fn glued(alloc: Global, chain: &Chain, parts: Vec<Part>) -> Result<Fatgraph, PartsFault>
    requires few { length parts.items < 2 ^ 32 }
    requires values { AreValues chain.now parts.items }
    ensures made { IfOk result (IsMadeOf chain.now parts.items) }
    ensures faults { IfErr result (IsFaultOf chain.now parts.items) }
{
    let counted = multiples(alloc, chain, parts)?;
    let fatgraph = glue(alloc, chain, &counted)?;
    Ok(fatgraph)
}

/// The fault with the part itself.
fn part_stop(parts: Vec<Part>, fault: PartsFault) -> PartStop
    requires { IsWithin (length parts.items) fault }
    ensures { IsTold parts.items fault result }
{
    match fault {
        PartsFault::Sides { part, so_far, next } => PartStop::Sides {
            part: part_at(parts, part as usize),
            so_far,
            next,
        },
        PartsFault::Memory => PartStop::Memory,
    }
}

/// The surface that is glued of the polygons that stand in the rows after the pivots, which have these values; or the
/// part that leads to too many sides.
pub(crate) fn surface_of(
    alloc: Global,
    chain: &Chain,
    journal: &[Pivot],
    values: &[Frac],
) -> Result<Fatgraph, PartStop>
    requires few { rows chain.now < 2 ^ 32 }
    requires size { length values.now ≡ rows chain.now }
    requires rows { AllByRecursion (λ p. p.row < rows chain.now) journal.now }
    requires values { AreValues chain.now (valued (last_items chain.now journal.now) values.now) }
    ensures made { IfOk result (IsMadeOf chain.now (valued (last_items chain.now journal.now) values.now)) }
    ensures stopped { IfErr result (IsPartStop chain.now (valued (last_items chain.now journal.now) values.now)) }
{
    let items = last_polygons(alloc, values.len(), journal)?;
    let parts = valued_parts(alloc, items.as_slice(), values)?;
    // `glued` takes the parts, and a fault tells one of them.
    let spare = copied(alloc, parts.as_slice())?;
    match glued(alloc, chain, parts) {
        Ok(fatgraph) => Ok(fatgraph),
        Err(fault) => Err(part_stop(spare, fault)),
    }
}
