//! The reduction of words, and the chain of the lines of a text.
#![tactic(auto)]

mod cyclic;
mod element;
mod free;
mod lines;
#[cfg(test)]
mod tests;

pub use cyclic::cyclic_reduce;
pub use element::{inverse_of, same_element};
pub use free::free_reduce;
pub use lines::{letters_of_a_text, reduce_lines, reduction_keeps_line_totals};
