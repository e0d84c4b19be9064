//! The polygons of advice in the order in which they are tried at given prices. Which of them is taken is free: nothing
//! is proved of that, but that it is a polygon of the chain.
#![tactic(auto)]

mod candidates;
mod modes;
mod prices;
mod search;
mod stages;

pub use candidates::Candidates;
pub use modes::{Try, tries};
