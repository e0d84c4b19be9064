//! Words that are drawn by a seed, and the chain of two commutators of them: inputs for measuring.
#![tactic(auto)]

mod chain;
mod draws;
mod letters;
pub mod limits;
mod words;

pub use chain::drawn_chain;

#[cfg(test)]
mod tests;
