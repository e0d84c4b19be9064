//! The texts of what stops the search for the unit ball of two chains: each shows the search as far as it came, and why
//! it doesn't go on.
#![tactic(auto)]

mod crosses;
mod places;
mod search;
mod unsolved;

pub use crosses::{cross_text, length_text};
pub use search::Search;
pub use unsolved::{budget_text, sides_text, wide_text};

#[cfg(test)]
mod tests;
