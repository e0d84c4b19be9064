//! Texts by lines: the fields of a line and the numbers in them, the fault of a line and the first fault of a text;
//! parts of texts, which are read and printed line by line, and the reader of a whole text.
#![tactic(auto)]

mod counted;
mod fault;
mod fields;
mod item;
mod literal;
mod many;
mod one;
mod part;
mod print;
mod text;

pub use counted::Counted;
pub use fault::{Kind, LineFault, TextFault};
pub use fields::{Fields, count_line, cut, in_range, literal_line, number_line, number_of, within};
pub use item::{CountLine, LineItem, NumberedItem};
pub use literal::Literal;
pub use many::Many;
pub use one::One;
pub use part::{Free, LinePart, Pair};
pub use print::{Behind, PrintPart};
pub use text::read_by_lines;
