//! Distances between the positions of a chain, and polygons of a total below a threshold.
#![tactic(auto)]

mod candidates;
mod explore;
pub mod laws;
mod prices;
mod search;
mod splitting;
mod tables;
mod trails;

pub use candidates::{cheap_polygon_down, first_cheap};
pub use prices::{StepFault, StepPrices};
pub use splitting::split;
pub use tables::{Distances, Found, TableFault, cheap_polygon};
