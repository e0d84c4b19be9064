//! How far the search goes. All of it is free: other numbers make other advice, which is no less true.

/// The exchanges after which new polygons are looked for.
pub(crate) const PRICING_INTERVAL: u32 = 25;

/// The exchanges after which the numbers are checked.
pub(crate) const CHECK_INTERVAL: u32 = 64;

/// The exchanges for each row, at most ..
pub(crate) const EXCHANGES_A_ROW: u32 = 16;

/// .. and where near polygons are preferred a little.
pub(crate) const NEAR_EXCHANGES_A_ROW: u32 = 24;

/// How often the search goes back to its last sound basis, at most.
pub(crate) const RETREATS: u32 = 20;

/// How often the search makes its last basis feasible and goes on from there, at most.
pub(crate) const REPAIRS: u32 = 8;

/// The sides of a surface that the search for a good one takes, at most.
pub(crate) const MAX_SIDES: u64 = 600;

/// The exchanges of mates that the search for a good surface tries for each of its sides, ..
pub(crate) const SWAPS_A_SIDE: u32 = 1000;

/// .. and in all, at most.
pub(crate) const MAX_SWAPS: u32 = 200_000;
