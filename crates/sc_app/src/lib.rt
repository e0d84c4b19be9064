//! The commands of the program, its statuses and notes, and `run`, the one call that reads bytes and writes bytes.
#![tactic(auto)]

mod answer;
mod arguments;
mod ball;
mod check;
mod command;
mod generate;
mod infinite;
mod laws;
pub mod limits;
mod note;
mod program;
mod rejection;
mod said;
mod scl;
mod shape;
mod status;
mod surface;
mod svg;

pub use arguments::words_of_program;
pub use command::{Command, Reading, command_of};
pub use laws::{
    an_input_has_an_answer, an_input_has_at_most_one_answer, ball_has_two_forms, gen_has_one_form,
    scl_has_two_forms,
};
pub use program::{run, run_to_code};
pub use status::{Status, What};
