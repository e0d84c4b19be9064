//! Fans.

use crate::corner::Corner;
use sc_certificate::PriceList;
use sc_chain::Chain;
use sc_cone::Direction;
use sc_fraction::Frac;

/// An edge of a fan: where it goes from and to, with the values there, and a price list for the chain of its quadrant.
#[derive(Debug, Drop)]
pub struct Edge {
    pub from: Direction,
    pub from_value: Frac,
    pub to: Direction,
    pub to_value: Frac,
    pub list: PriceList,
}

/// Two chains, the corners of the unit ball between them in their order, and the edges, each from a corner to the next.
/// Whether it is the ball nothing here says.
#[derive(Debug, Drop)]
pub struct Fan {
    /// The first chain.
    pub first: Chain,
    /// The second chain. Both together have at most 32 words and 64 positions.
    pub second: Chain,
    /// The corners, at least 3.
    pub corners: Vec<Corner>,
    /// The edges, one fewer.
    pub edges: Vec<Edge>,
}
