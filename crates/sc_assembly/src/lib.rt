//! Polygons with values, the least number of copies for which each of them stands a whole number of times, and the
//! labelled fatgraph that the copies are glued to.
#![tactic(auto)]

mod counting;
mod gluing;
pub mod laws;
mod parts;

pub use counting::{PartsFault, multiples};
pub use gluing::glue;
pub use parts::{Multiples, Part};
