//! What the search for the corners of a quadrant does with one direction, or with two neighbours: the chain of a
//! direction, whether a price list is tight there, and the next direction between two neighbours.
#![tactic(auto)]

mod chains;
mod fault;
mod form;
mod laws;
mod next;
mod numbers;
mod reached;
mod tightness;

pub use chains::chain_at;
pub use fault::{CrossPlace, NextFault};
pub use form::{Form, form_of};
pub use laws::light_directions_have_light_chains;
pub use next::next_direction;
pub use reached::Reached;
pub use tightness::is_tight_at;

#[cfg(test)]
mod tests;
