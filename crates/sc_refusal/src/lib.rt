//! The texts of refusals of a solver: each has the chain and the pivots that were made, and why there was no going on.
#![tactic(auto)]

mod lines;
mod places;
mod texts;

pub use texts::{
    budget_text, print_budget_body, print_sides_body, print_wide_body, sides_text, wide_text,
};

#[cfg(test)]
mod tests;
