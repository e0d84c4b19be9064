//! Corners of a fan.

use sc_cone::Direction;
use sc_fraction::Frac;

/// A corner: a direction and its value.
#[derive(Clone, Copy, Debug)]
pub struct Corner {
    /// Its numbers are from -2^20 to 2^20 and not both 0, and the first isn't negative.
    pub direction: Direction,
    /// Its numerator is from 0 and its denominator from 1 to 2^31 - 1.
    pub value: Frac,
}
