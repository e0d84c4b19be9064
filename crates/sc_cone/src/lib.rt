//! The unit ball in the plane of two chains: the definitions of directions with their chains and values, of fans and of
//! the searches for them, and the laws between them. Definitions stand in `specs/`, a module per subject; each public
//! function is a law over them. Beside these there are only the plain data that they speak of.
#![tactic(auto)]

pub mod cones;
pub mod directions;
pub mod examples;
pub mod fans;
pub mod searches;
pub mod unions;
pub mod values;

/// A direction in the plane of two chains: `s` times the first and `t` times the second.
#[derive(Clone, Copy, Debug, PartialEq, Eq)]
pub struct Direction {
    /// How many times the first chain is taken, at least 0.
    pub s: i64,
    /// How many times the second chain is taken; the inverses of its words where it is below 0.
    pub t: i64,
}

/// A half of the directions with `s` of at least 0.
#[derive(Clone, Copy, Debug, PartialEq, Eq)]
pub enum Quadrant {
    /// `t` is at most 0: the inverses of the second chain's words are taken.
    Lower,
    /// `t` is at least 0: the second chain's own words are taken.
    Upper,
}
