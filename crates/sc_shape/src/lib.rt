//! The shape of a labelled fatgraph: its components, each with its sides, vertices, edges and boundaries.
#![tactic(auto)]

mod classes;
mod component;
mod shape;
mod steps;
mod tallies;

pub use component::{Boundaries, Boundary, Component, euler_of};
pub use shape::components;
pub use steps::least_of_vertices;

#[cfg(test)]
mod tests;
