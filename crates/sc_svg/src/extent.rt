//! The sizes of the corners' points.

ghost use Rattle.std.specs.Prelude.{◌≡◌, ◌↔◌, ◌*◌, ◌<◌, ◌≤◌, ◌^◌, IsTrue, unsigned_abs};
ghost use Rattle.sc_svg.specs.Fans.{breadth, has_point, size_of, IsGreatest};
ghost use Rattle.sc_svg.specs.inside.Extents.{IsBounded};

use crate::spot::Spot;

/// A fraction: a size.
#[derive(Clone, Copy, Debug)]
pub(crate) struct Extent {
    pub(crate) over: u128,
    pub(crate) under: u128,
}

/// The greater size of the numbers of a corner's direction.
pub(crate) fn breadth_of(corner: Spot) -> u64
    ensures value { result ≡ breadth corner }
    ensures positive { 0 < result }
    ensures small { result ≤ 2 ^ 20 }
{
    corner.s.unsigned_abs().max(corner.t.unsigned_abs())
}

/// Whether a corner has a point: its value is above 0.
pub(crate) fn is_pointed(corner: Spot) -> bool
    ensures { result ≡ has_point corner }
{
    0 < corner.num.unsigned_abs()
}

/// The size of a corner's point, as a fraction.
fn extent_of(corner: Spot) -> Extent
    ensures value { result ≡ size_of corner }
    ensures bounded { IsBounded result }
{
    Extent {
        over: u128::from(breadth_of(corner)) * u128::from(corner.den.unsigned_abs()),
        under: u128::from(corner.num.unsigned_abs()),
    }
}

/// Whether a size is greater than another.
fn is_greater(size: Extent, other: Extent) -> bool
    requires size { IsBounded size }
    requires other { IsBounded other }
    ensures { IsTrue result ↔ (other.over * size.under < size.over * other.under) }
{
    other.over * size.under < size.over * other.under
}

/// The greatest size of the corners' points, 0 where there is none.
pub(crate) fn greatest_of(corners: &[Spot]) -> Extent
    ensures greatest { IsGreatest corners.now result }
    ensures bounded { IsBounded result }
{
    let mut greatest = Extent { over: 0, under: 1 };
    for corner in corners {
        let size = extent_of(*corner);
        if is_pointed(*corner) && is_greater(size, greatest) {
            greatest = size;
        }
    }
    greatest
}
