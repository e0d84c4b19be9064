//! Surfaces that are glued of cycles of positions: the definitions and laws of the surface that is glued of copies of
//! polygons and of the seed surface of a chain, and the matching of sides that both are made with.
#![tactic(auto)]

pub mod examples;
pub mod laws;
mod laying;
mod matching;
mod seeds;
mod sides;

pub use laying::Laid;
pub use matching::partners_of;
pub use seeds::seed_sides;
pub use sides::glue_laid;

#[cfg(test)]
mod tests;
