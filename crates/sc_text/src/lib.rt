//! What the texts of surfaces, certificates and fans share: words, sides, values, price lists and distance tables, and
//! the limits that a text takes. The surface text stands here whole.
#![tactic(auto)]

mod chains;
mod kinds;
mod laws;
pub mod limits;
mod prices;
mod printing;
mod sides;
mod surface;
mod tables;
mod values;
mod words;

pub use chains::{chain_of, chain_of_words};
pub use kinds::kinds_of_lines;
pub use laws::{
    faultless_is_surface_text, surface_text_is_faultless, surface_text_is_of_one_surface,
};
pub use prices::{
    ScaleLine, base_line, pair_line, print_base_line, print_pair_line, print_scale_line, scale_line,
};
pub use printing::{
    Field, print_count_line, print_line, print_side_line, print_sides, print_surface_text,
    print_word_line, print_words,
};
pub use sc_line::{
    Fields, LineFault, count_line, cut, in_range, literal_line, number_line, number_of, within,
};
pub use sides::{SideLines, side_line};
pub use surface::{SurfaceText, read_surface};
pub use tables::{from_line, print_from_line};
pub use values::{fraction_of, print_value_line, value_line};
pub use words::{WordLines, word_line};
