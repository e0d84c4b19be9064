//! The definitions of the subject, in its own words, and the laws between them. Definitions stand in `specs/`, a module
//! per subject; each public function is a law over them. Beside these there are only the plain data that they speak of.
#![tactic(auto)]

pub mod chains;
pub mod columns;
pub mod examples;
pub mod fatgraphs;
pub mod prices;
pub mod words;

/// A letter of a word: a generator or its inverse.
#[derive(Clone, Copy, Debug, PartialEq, Eq, PartialOrd, Ord, Hash)]
pub struct Letter {
    /// The generator, from 0 for `a` to 25 for `z`.
    pub number: u8,
    /// Whether it is the generator's inverse, written as a capital.
    pub inverse: bool,
}

/// A side of a labelled fatgraph: an edge seen from one of its two ends.
#[derive(Clone, Copy, Debug, PartialEq, Eq, PartialOrd, Ord, Hash)]
pub struct Side {
    /// The position of the chain that it is labelled with.
    pub label: u32,
    /// The other side of its edge.
    pub mate: u32,
    /// The side after it along the boundary.
    pub next: u32,
}
