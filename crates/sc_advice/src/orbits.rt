//! Orbits of a permutation that is given by a list.

use std::alloc::{AllocError, Global};

/// Where a permutation takes a number.
pub(crate) fn image(permutation: &[usize], number: usize) -> usize {
    permutation.get(number).copied().unwrap_or(number)
}

/// Whether two different numbers are in one orbit.
pub(crate) fn are_together(permutation: &[usize], first: usize, second: usize) -> bool {
    let mut here = image(permutation, first);
    for _step in 0..permutation.len() {
        if here == second {
            return true;
        }
        if here == first {
            return false;
        }
        here = image(permutation, here);
    }
    false
}

/// Exchanges where a permutation takes two numbers.
pub(crate) fn swap_images(permutation: &mut [usize], first: usize, second: usize) {
    let (one, other) = (image(permutation, first), image(permutation, second));
    if let Some(entry) = permutation.get_mut(first) {
        *entry = other;
    }
    if let Some(entry) = permutation.get_mut(second) {
        *entry = one;
    }
}

/// The orbit of a number, which is marked as seen.
fn orbit(
    alloc: Global,
    permutation: &[usize],
    seen: &mut [bool],
    first: usize,
) -> Result<Vec<usize>, AllocError> {
    let mut orbit = Vec::new(alloc);
    let mut here = first;
    for _step in 0..permutation.len() {
        match seen.get_mut(here) {
            Some(mark) if !*mark => *mark = true,
            _ => break,
        }
        orbit.push(here)?;
        here = image(permutation, here);
    }
    Ok(orbit)
}

/// The orbits, each from its least number.
pub(crate) fn orbits(alloc: Global, permutation: &[usize]) -> Result<Vec<Vec<usize>>, AllocError> {
    let mut seen = vec![in alloc; false; permutation.len()]?;
    let mut orbits = Vec::new(alloc);
    for number in 0..permutation.len() {
        let orbit = orbit(alloc, permutation, seen.as_mut_slice(), number)?;
        if !orbit.is_empty() {
            orbits.push(orbit)?;
        }
    }
    Ok(orbits)
}
