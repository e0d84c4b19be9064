//! The text of a fan: two chains, the corners of the unit ball in their plane, and a price list for each edge.
#![tactic(auto)]

mod chains;
mod corner;
mod corners;
mod fan;
mod laws;
pub mod limits;
mod lines;
mod lists;
mod printing;
mod quadrants;
mod reading;

pub use corner::Corner;
pub use corners::{corner_line, print_corner_line};
pub use fan::{Edge, Fan};
pub use laws::{
    corner_lines_are_a_kind, fan_text_is_faultless, fan_text_is_of_one_fan, faultless_is_fan_text,
    printed_fans_are_read,
};
pub use sc_cone::Direction;
