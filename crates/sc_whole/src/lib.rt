//! Whole numbers of 128 bits. Each result is exact, or the call answers with the operation and its operands.
#![tactic(auto)]

mod checked;
mod decimal;
mod division;
mod divisor;
mod laws;
#[cfg(test)]
mod tests;

pub use checked::{Op, Wide, add, mul, sub};
pub use decimal::{is_decimal, print_decimal, read_decimal};
pub use division::quotient;
pub use divisor::{gcd, gcd_of_sizes, lcm_within};
pub use laws::spelling_has_one_reading;
