//! How a call of the program ended.

ghost use Rattle.std.specs.Prelude.{◌≡◌};
ghost use Rattle.sc_app.specs.Codes.{code_of};

use sc_chain::Kind;
use sc_prices::Condition;

/// What of the input is over its limit.
#[derive(Clone, Copy, Debug, PartialEq, Eq)]
pub enum What {
    /// More bytes came than the command reads.
    Bytes,
    /// So many words are left after reduction.
    Words(u32),
    /// So many positions are left after reduction.
    Positions(u32),
}

/// How a call of the program ended.
#[derive(Clone, Copy, Debug, PartialEq, Eq)]
pub enum Status {
    /// The command's text was written.
    Done,
    /// The words match no form; nothing was read.
    Usage,
    /// This line of the input, counted from 1, is the first malformed one, and this kind is the first that applies.
    Malformed { line: u32, kind: Kind },
    /// The input is over a limit.
    Large(What),
    /// An operation of the solver on whole numbers is too wide; the text shows it.
    Wide,
    /// The pivots are used up, and a polygon improves still; the text shows them.
    Budget,
    /// The surface would have more sides than a text may; the text shows why.
    Sides,
    /// The source failed.
    ReadFault,
    /// The sink of the text failed; it has taken a prefix of the text.
    WriteFault,
    /// There was no memory.
    Memory,
    /// The surface isn't a labelled fatgraph, or the certificate doesn't show that it is least: the first condition
    /// that fails.
    Rejected(Condition),
}

impl Status {
    /// The code that the program ends with.
    pub fn code(&self) -> u8
        ensures { result ≡ code_of self.now }
    {
        match self {
            Status::Done => 0,
            Status::Usage => 2,
            Status::Malformed { .. } => 3,
            Status::Large(_) => 4,
            Status::Wide => 5,
            Status::Budget => 6,
            Status::Sides => 7,
            Status::ReadFault => 8,
            Status::WriteFault => 9,
            Status::Memory => 10,
            Status::Rejected(_) => 11,
        }
    }
}
