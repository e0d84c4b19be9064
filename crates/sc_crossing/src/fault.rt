//! Why there is no next direction between two neighbours.

use sc_fraction::Frac;

/// An operation of the crossing of two forms `x` and `z`, each of which is two fractions.
#[derive(Clone, Copy, Debug, PartialEq, Eq)]
pub enum CrossPlace {
    /// `x1 - z1`, the difference of what the first chain gives.
    First,
    /// `z2 - x2`, the difference of what the second chain gives, the other way round.
    Second,
    /// The second difference over the first.
    Over,
}

/// Why there is no next direction between two neighbours.
#[derive(Clone, Copy, Debug, PartialEq, Eq)]
pub enum NextFault {
    /// This operation of the crossing passes 128 bits at these fractions.
    Cross { place: CrossPlace, x: Frac, y: Frac },
    /// The next direction is `s`, `t`, and its chain has a weighted length over `sc_chain::limits::MAX_LENGTH`.
    Length { s: i128, t: i128 },
}
