//! Drawings of labelled fatgraphs and of fans as SVG.
#![tactic(auto)]

mod drawing;
mod extent;
mod fan;
mod layout;
pub mod limits;
mod lines;
mod pieces;
mod point;
mod spot;

pub use drawing::draw;
pub use fan::draw_fan;
pub use spot::Spot;
