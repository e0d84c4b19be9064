//! The unit ball in the plane of two chains, by a search in each quadrant: directions are solved one after another,
//! each with a price list that is tight there, until no two neighbours are left whose lists are each not tight at the
//! other's direction.
#![tactic(auto)]

mod arcs;
mod fault;
mod searching;
mod solved;
mod unit_ball;

pub use fault::BallFault;
pub use sc_crossing::{CrossPlace, Reached};
pub use sc_fan::{Corner, Direction, Edge, Fan};
pub use unit_ball::ball;
