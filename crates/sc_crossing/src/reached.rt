//! Directions with price lists.

use sc_certificate::PriceList;
use sc_cone::Direction;

/// A direction with a price list, which is to be tight there.
#[derive(Debug, Drop)]
pub struct Reached {
    /// The direction.
    pub direction: Direction,
    /// The list, for the quadrant's chain.
    pub list: PriceList,
}
