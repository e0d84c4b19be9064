//! Labelled fatgraphs over a chain: the test of a list of sides, which answers a fatgraph exactly where the list is one
//! and else its first flaw, and the counts of a fatgraph's sides, vertices and edges.
#![tactic(auto)]

mod cost;
mod fatgraph;
mod flaws;
pub mod laws;
pub mod limits;
mod orbits;
mod seed;
mod side_list;
mod text;

pub use cost::fraction;
pub use fatgraph::{Counts, Fatgraph};
pub use flaws::{FlawKind, SurfaceFault};
pub use sc_text::{SurfaceText, read_surface};
pub use sc_theory::Side;
pub use seed::seed_surface;
pub use side_list::Sides;
pub use text::print_surface;

#[cfg(test)]
mod tests;
