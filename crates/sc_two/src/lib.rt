//! Texts of two chains: the lines of the first, a line whose only field is a slash, and the lines of the second.
#![tactic(auto)]

mod line;
mod part;
mod two;

pub use two::read_two;

#[cfg(test)]
mod tests;
