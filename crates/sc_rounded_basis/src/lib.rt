//! A basis of polygons in rounded numbers of fixed point: steps, polygons as columns, prices and values, and exchanges
//! of one polygon for another. All of it is safe at any numbers; nothing is proved of how near they are.
#![tactic(auto)]

mod basis;
mod check;
mod columns;
mod elimination;
mod fixed;
pub mod limits;
mod mode;
mod pivots;
mod steps;

pub use basis::Basis;
pub use columns::{Column, MARGIN, Pool};
pub use fixed::{ONE, PRICE_BITS, VALUE_BITS};
pub use mode::Mode;
pub use pivots::{Choice, Exchange, Pivots, carry_out, choose, repair_of};
pub use steps::{Step, Steps};
