//! The solver of chains: an extremal surface with what shows that it is one. The polygons of a chain are columns of
//! the simplex that are made on demand; the prices of the optimal basis become one price list with its distance
//! tables, and the surface is glued of the polygons of that basis.
#![tactic(auto)]

mod assembling;
mod columns;
mod ending;
mod journals;
pub mod laws;
mod levels;
mod lifting;
mod searching;
mod solution;
mod solving;
mod tabling;
mod tries;

pub use columns::{column_of, right_side_of};
pub use lifting::{LiftFault, lift};
pub use searching::PolygonOracle;
pub use solution::{Solution, SolveFault};
pub use solving::extremal;
pub use tabling::tables_of;
