//! The simplex method with columns that are made on demand, over any oracle that finds improving columns.
#![tactic(auto)]

mod column;
mod columns;
mod leaving;
mod oracle;
mod solving;
mod state;
#[cfg(test)]
mod tests;
mod values;

pub use column::{Column, Item, KeyPivot};
pub use columns::{Columns, Refused};
pub use oracle::{Answer, Oracle, OracleFault};
pub use solving::{Optimum, SimplexFault, solve};
