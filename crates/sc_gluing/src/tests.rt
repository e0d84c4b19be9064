//! Cycles laid and kinds matched, by lists worked out by hand.

use super::*;
use std::alloc::AllocError;

#[test]
fn copies_lie_one_behind_another(rt: HostRuntime) -> Result<(), AllocError> {
    let mut laid = Laid::new(rt.alloc());
    laid.lay_copies(&[0, 3, 2, 1], 2)?;
    laid.lay_copies(&[5], 0)?;
    laid.lay_copies(&[7], 1)?;
    assert!(&rt; laid.labels.as_slice() == [0, 3, 2, 1, 0, 3, 2, 1, 7].as_slice());
    assert!(&rt; laid.afters.as_slice() == [1, 2, 3, 0, 5, 6, 7, 4, 8].as_slice());
    Ok(())
}

#[test]
fn opposite_kinds_are_paired_in_order(rt: HostRuntime) -> Result<(), AllocError> {
    let kinds = [0, 1, 0, 0, 1, 1];
    let opposites = [1, 0, 1, 1, 0, 0];
    let partners = partners_of(rt.alloc(), &kinds, &opposites, 2)?;
    assert!(&rt; partners.as_slice() == [1, 0, 4, 5, 2, 3].as_slice());
    Ok(())
}
