//! Polygons with values, and how often they stand in a surface.

use sc_chain::Polygon;
use sc_fraction::Frac;

/// A polygon with a value: how often it stands in a surface, for each copy of the chain.
#[derive(Debug, Drop)]
pub struct Part {
    pub polygon: Polygon,
    pub value: Frac,
}

/// A number of copies of the chain, parts, and the count of each of them.
#[derive(Debug, Drop)]
pub struct Multiples {
    pub n: u32,
    pub parts: Vec<Part>,
    pub counts: Vec<u32>,
}
