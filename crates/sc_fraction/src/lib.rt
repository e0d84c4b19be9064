//! Reduced fractions of whole numbers of 128 bits. Each result is exact, or the call answers with the first operation
//! that led out of 128 bits.
#![tactic(auto)]

mod compare;
mod fault;
mod frac;
mod laws;
mod steps;
#[cfg(test)]
mod tests;

pub use compare::compare_ratios;
pub use fault::FracFault;
pub use frac::Frac;
pub use laws::equal_values_are_equal_fractions;
