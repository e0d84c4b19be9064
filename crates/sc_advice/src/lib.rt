//! Polygons that are worth trying first: a private search for a good surface, and for a good basis of polygons in
//! rounded numbers. Nothing is proved of how good they are.
#![tactic(auto)]

mod advice;
mod cycles;
mod limits;
mod orbits;
mod pricing;
mod search;
mod surface;

pub use advice::{Advice, advise};
pub use sc_rounded_basis::Mode;
