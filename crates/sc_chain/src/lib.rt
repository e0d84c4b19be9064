//! Chains: their letters by position, their words and weights, their inverse pairs, and their polygons.
#![tactic(auto)]

mod chain;
mod fault;
mod faults;
mod laws;
pub mod limits;
mod pairs;
mod polygon;
mod sign;
mod totals;

pub use chain::Chain;
pub use fault::ChainFault;
pub use laws::{pairs_have_rows, polygons_are_decided};
pub use pairs::Pairs;
pub use polygon::{Pivot, Polygon};
pub use sc_words::{
    Kind, Letter, RawLine, TextFault, Word, are_letters, inverse_of, is_inverse, letter_of,
    letters_of, read_lines,
};
pub use sign::Sign;

#[cfg(test)]
mod tests;
