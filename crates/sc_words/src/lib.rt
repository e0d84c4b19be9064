//! Letters and words, and the reading of chain texts.
#![tactic(auto)]

mod cases;
mod coefficient;
mod fields;
mod letter;
pub mod limits;
mod lines;
mod word;

pub use fields::{is_blank, split_line, without_carriage_return};
pub use letter::{are_letters, inverse_of, is_inverse, letter_of, letters_of};
pub use lines::{RawLine, read_lines};
pub use sc_line::{Kind, TextFault};
pub use sc_theory::Letter;
pub use word::{Word, least_cancelling};

#[cfg(test)]
mod tests;
