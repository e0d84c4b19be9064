//! What a command answers.

ghost use Rattle.std.specs.Prelude.{◌≡◌, [], IfOk};
ghost use Rattle.sc_app.specs.Answer.{status_of, text_of, IsFaultAnswer};

use crate::status::{Status, What};
use sc_chain::{Kind, TextFault};
use sc_prices::Condition;
use std::alloc::AllocError;

/// What a command answers to an input that isn't over its limit.
#[derive(Drop)]
pub enum Answer {
    /// The command's text.
    Text(Vec<u8>),
    /// The first malformed line, and its first kind.
    Fault { line: u32, kind: Kind },
    /// So many words are left after reduction, over the limit.
    ManyWords(u32),
    /// So many positions are left after reduction, over the limit.
    ManyPositions(u32),
    /// The first condition that fails, and its line.
    Rejection { condition: Condition, text: Vec<u8> },
    /// The pivots are used up: the text shows them, and a polygon that improves.
    OverBudget(Vec<u8>),
    /// An operation is too wide: the text shows the pivots before it, and the operation.
    TooWide(Vec<u8>),
    /// The surface would have too many sides: the text shows the pivots, and the part that leads there.
    ManySides(Vec<u8>),
}

impl Answer {
    /// The answer to a text with a fault.
    pub fn to_fault(fault: TextFault) -> Result<Answer, AllocError>
        ensures { IfOk result (IsFaultAnswer fault) }
    {
        match fault {
            TextFault::Malformed { line, kind } => Ok(Answer::Fault { line, kind }),
            TextFault::Memory => Err(AllocError),
        }
    }

    /// How the call ends where the text goes out.
    pub fn status(&self) -> Status
        ensures { result ≡ status_of self.now }
    {
        match self {
            Answer::Text(_) => Status::Done,
            Answer::Fault { line, kind } => Status::Malformed {
                line: *line,
                kind: *kind,
            },
            Answer::ManyWords(count) => Status::Large(What::Words(*count)),
            Answer::ManyPositions(count) => Status::Large(What::Positions(*count)),
            Answer::Rejection { condition, .. } => Status::Rejected(*condition),
            Answer::OverBudget(_) => Status::Budget,
            Answer::TooWide(_) => Status::Wide,
            Answer::ManySides(_) => Status::Sides,
        }
    }

    /// What goes to `out`.
    pub fn text(&self) -> &[u8]
        ensures { result.now ≡ text_of self.now }
    {
        match self {
            Answer::Text(text)
            | Answer::Rejection { text, .. }
            | Answer::OverBudget(text)
            | Answer::TooWide(text)
            | Answer::ManySides(text) => text.as_slice(),
            _ => &[],
        }
    }
}
