//! Closed walks, cut into cycles without repeats.

use std::alloc::{AllocError, Global};

/// A cycle, written from its least position.
fn from_least(alloc: Global, cycle: &[u32]) -> Result<Vec<u32>, AllocError> {
    let least = cycle.iter().copied().min().unwrap_or(0);
    let place = cycle
        .iter()
        .position(|position| *position == least)
        .unwrap_or(0);
    cycle
        .iter()
        .skip(place)
        .chain(cycle.iter().take(place))
        .copied()
        .collect(alloc)
}

/// Goes on to a position: where the path has passed it, the cycle that this closes is cut off.
fn pass(
    alloc: Global,
    cycles: &mut Vec<Vec<u32>>,
    path: &mut Vec<u32>,
    position: u32,
) -> Result<(), AllocError> {
    let passed = path.iter().position(|other| *other == position);
    if let Some(place) = passed {
        let cycle: Vec<u32> = path.iter().skip(place).copied().collect(alloc)?;
        cycles.push(from_least(alloc, cycle.as_slice())?)?;
        path.truncate(place);
    }
    path.push(position)?;
    Ok(())
}

/// The cycles into which a closed walk falls where it comes back to a position, each written from its least position.
pub(crate) fn cycles_of(alloc: Global, walk: &[u32]) -> Result<Vec<Vec<u32>>, AllocError> {
    let mut cycles = Vec::new(alloc);
    let mut path = Vec::with_capacity(alloc, walk.len())?;
    for position in walk {
        pass(alloc, &mut cycles, &mut path, *position)?;
    }
    cycles.push(from_least(alloc, path.as_slice())?)?;
    Ok(cycles)
}
