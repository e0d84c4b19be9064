//! Operations on whole numbers that name their spot where the exact result is too wide.
ghost use Rattle.std.specs.Prelude.{◌≡◌, ◌+ℤ◌, ◌-ℤ◌, ◌*ℤ◌, IfOk, IfErr};
ghost use Rattle.sc_rows.specs.Places.{IsWide, wide_at};

use crate::{Place, WideAt};
use sc_whole::{Op, Wide, add, mul, sub};

/// A place with its indices and the leaving row.
#[derive(Clone, Copy, Debug)]
pub(crate) struct Spot {
    pub(crate) place: Place,
    pub(crate) first: u32,
    pub(crate) second: u32,
    pub(crate) leaving: Option<u32>,
}

fn refused(spot: Spot, wide: Wide) -> WideAt
    ensures { result ≡ wide_at spot wide }
{
    WideAt {
        place: spot.place,
        first: spot.first,
        second: spot.second,
        wide,
        walk: None,
        entering: None,
        leaving: spot.leaving,
    }
}

/// `x * y`.
pub(crate) fn multiply(spot: Spot, x: i128, y: i128) -> Result<i128, WideAt>
    ensures value { IfOk result (λ z. z ≡ x *ℤ y) }
    ensures evidence { IfErr result (IsWide spot Op.Mul x y) }
{
    match mul(x, y) {
        Ok(product) => Ok(product),
        Err(wide) => Err(refused(spot, wide)),
    }
}

/// `x + y`.
pub(crate) fn sum_of(spot: Spot, x: i128, y: i128) -> Result<i128, WideAt>
    ensures value { IfOk result (λ z. z ≡ x +ℤ y) }
    ensures evidence { IfErr result (IsWide spot Op.Add x y) }
{
    match add(x, y) {
        Ok(sum) => Ok(sum),
        Err(wide) => Err(refused(spot, wide)),
    }
}

/// `x - y`.
pub(crate) fn difference_of(spot: Spot, x: i128, y: i128) -> Result<i128, WideAt>
    ensures value { IfOk result (λ z. z ≡ x -ℤ y) }
    ensures evidence { IfErr result (IsWide spot Op.Sub x y) }
{
    match sub(x, y) {
        Ok(difference) => Ok(difference),
        Err(wide) => Err(refused(spot, wide)),
    }
}
