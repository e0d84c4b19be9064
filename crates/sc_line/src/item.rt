//! Lines that tell one value each.

ghost use Rattle.std.specs.Prelude.{◌≡◌, ◌<◌, List, length, IfErr, IfOk, ℕ};
ghost use Rattle.sc_line.specs.LineFaults.{IsFault};
ghost use Rattle.sc_line.specs.Forms.{LineKind, Tells, count_kind};

use crate::fault::LineFault;
use crate::fields::count_line;
use std::alloc::Global;

/// A kind of lines that tell one value each.
pub trait LineItem: Drop {
    /// What is known besides when a line is read.
    type Context;

    /// What a line tells.
    type Value: Drop;

    // The kind, by the values of the lines before.
    ghost kind: { Self → Self.Context → List Self.Value → LineKind Self.Value };

    /// The value of a line behind the lines of other values.
    fn read(
        &self,
        alloc: Global,
        line: &[u8],
        before: &[Self::Value],
        context: &Self::Context,
    ) -> Result<Self::Value, LineFault>
        ensures ok { IfOk result (Tells (kind self.now context.now before.now) line.now) }
        ensures err { IfErr result (IsFault ((kind self.now context.now before.now).fault line.now)) };
}

/// A kind of lines of which it is known how many come.
pub trait NumberedItem: Drop {
    /// What is known besides when a line is read.
    type Context;

    /// What a line tells.
    type Value: Drop;

    // The kind, by the values of the lines before.
    ghost kind: { Self → Self.Context → List Self.Value → LineKind Self.Value };

    ghost count_of: { Self → Self.Context → ℕ };

    /// How many lines come.
    fn count(&self, context: &Self::Context) -> usize
        ensures { result ≡ count_of self.now context.now };

    /// The value of a line behind the lines of other values.
    fn read(
        &self,
        alloc: Global,
        line: &[u8],
        before: &[Self::Value],
        context: &Self::Context,
    ) -> Result<Self::Value, LineFault>
        requires { length before.now < count_of self.now context.now }
        ensures ok { IfOk result (Tells (kind self.now context.now before.now) line.now) }
        ensures err { IfErr result (IsFault ((kind self.now context.now before.now).fault line.now)) };
}

/// The line of a name and a count.
#[derive(Drop)]
pub struct CountLine {
    pub name: &'static [u8],
    pub low: u32,
    pub high: u32,
}

impl LineItem for CountLine {
    type Context = ();

    type Value = u32;

    ghost kind = { λ k c before. count_kind k.name.now k.low k.high };

    fn read(
        &self,
        _alloc: Global,
        line: &[u8],
        _before: &[u32],
        _context: &(),
    ) -> Result<u32, LineFault> {
        Ok(count_line(line, self.name, self.low, self.high)?)
    }
}
