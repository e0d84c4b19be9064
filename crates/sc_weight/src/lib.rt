//! Weights: numbers of one level or two, with sums that are exact or that name the level which led out of 128 bits.
#![tactic(auto)]

mod level;
mod pair;
mod plain;
#[cfg(test)]
mod tests;
mod weight;

pub use level::{Level, WideLevel};
pub use pair::Pair;
pub use plain::Plain;
pub use weight::Weight;
