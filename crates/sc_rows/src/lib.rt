//! The inverse of a basis by rows, and the prices of the basis at two levels. A pivot puts a column in place of an
//! item. It makes the new rows and prices first, so that after a refusal all is as before. A refusal for want of width
//! names the operation whose exact result is outside 128 bits.
#![tactic(auto)]

mod fault;
mod laws;
mod lists;
mod prices;
mod product;
mod rows;
mod spot;
#[cfg(test)]
mod tests;
mod update;

pub use fault::{Place, RowFault, WideAt};
pub use laws::numbers_stand_together;
pub use prices::{PriceRow, PriceRows};
pub use rows::RowSet;
